//! The long texts of a row on heap pages.
ghost use Rattle.std.specs.Prelude.{◌≡◌, ◌+◌, ◌≤◌, ◌<◌, ◌^◌, nat_lt, true, length, map, slice_range};
ghost use Rattle.row_image.specs.declared.limits.TheConstants.{HEAP_HEAD, MOST_SHORT};
ghost use Rattle.row_image.specs.Bytes.{IsPage};
ghost use Rattle.row_image.specs.Rules.{IsAccepted};
ghost use Rattle.row_image.specs.declared.image.ImageKind.TheVariants.{Heap};
ghost use Rattle.string_heap.specs.Heaps.{used, KeepsTexts};
ghost use Rattle.rebase_pins.specs.Seen.{value_read};
ghost use Rattle.row_sets.specs.Cells.{long_text, long_of, long_in};
ghost use Rattle.row_sets.specs.LongTexts.{TextAt, TextsAt};

use rebase_pins::CellRead;
use row_image::MOST_SHORT;
use string_heap::put;

/// How many bytes a row's texts take on a heap page.
pub fn long_in(row: &[CellRead]) -> u64
    requires { long_in (map value_read row.now) < 2 ^ 64 }
    ensures { result ≡ long_in (map value_read row.now) }
{
    if let [value, rest @ ..] = row {
        long_of(value) + long_in(rest)
    } else {
        0
    }
}

/// How many bytes a value takes on a heap page.
pub fn long_of(value: &CellRead) -> u64
    ensures { result ≡ long_of (value_read value.now) }
{
    match value {
        CellRead::Text(text) => long_text(text),
        _ => 0,
    }
}

// How many bytes a text takes on a heap page.
fn long_text(text: &[u8]) -> u64
    ensures { result ≡ long_text text.now }
{
    if text.len() > MOST_SHORT {
        text.len() as u64
    } else {
        0
    }
}

/// Puts the long texts of a row, one behind the other.
pub fn put_texts(row: &[CellRead], heap: &mut [u8])
    requires page { IsPage (length heap.old) }
    requires accepted { IsAccepted Heap heap.old }
    requires room { HEAP_HEAD + used heap.old + long_in (map value_read row.now) ≤ length heap.old }
    ensures accepted { IsAccepted Heap heap.new }
    ensures kept { KeepsTexts heap.old heap.new }
    ensures counted { used heap.new ≡ used heap.old + long_in (map value_read row.now) }
    ensures texts { TextsAt heap.new (HEAP_HEAD + used heap.old) (map value_read row.now) }
{
    if let [value, rest @ ..] = row {
        put_long(value, heap);
        put_texts(rest, heap);
    }
}

// Puts the text of a value, where it is a long one.
fn put_long(value: &CellRead, heap: &mut [u8])
    requires page { IsPage (length heap.old) }
    requires accepted { IsAccepted Heap heap.old }
    requires room { HEAP_HEAD + used heap.old + long_of (value_read value.now) ≤ length heap.old }
    ensures accepted { IsAccepted Heap heap.new }
    ensures kept { KeepsTexts heap.old heap.new }
    ensures counted { used heap.new ≡ used heap.old + long_of (value_read value.now) }
    ensures text { TextAt heap.new (HEAP_HEAD + used heap.old) (value_read value.now) }
{
    match value {
        CellRead::Text(text) => put_if_long(text, heap),
        _ => (),
    }
}

// Puts a text that doesn't lie in its cell.
fn put_if_long(text: &[u8], heap: &mut [u8])
    requires page { IsPage (length heap.old) }
    requires accepted { IsAccepted Heap heap.old }
    requires room { HEAP_HEAD + used heap.old + long_text text.now ≤ length heap.old }
    ensures accepted { IsAccepted Heap heap.new }
    ensures kept { KeepsTexts heap.old heap.new }
    ensures counted { used heap.new ≡ used heap.old + long_text text.now }
    ensures text { nat_lt MOST_SHORT (length text.now) ≡ true → slice_range heap.new (HEAP_HEAD + used heap.old) (HEAP_HEAD + used heap.old + length text.now) ≡ text.now }
{
    if text.len() > MOST_SHORT {
        if put(heap, text).is_none() {
            unreachable!();
        }
    }
}
