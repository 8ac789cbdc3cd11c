//! A heap page: an empty one, a text more, and a text that is read.
ghost use Rattle.std.specs.Prelude.{◌≡◌, ℕ, ◌+◌, ◌-◌, ◌<◌, ◌≤◌, ◌↔◌, IfSome, None, length, slice_index, slice_range};
ghost use Rattle.row_image.specs.Bytes.{IsPage, ChangesOnly};
ghost use Rattle.row_image.specs.declared.limits.TheConstants.{HEAP_HEAD};
ghost use Rattle.row_image.specs.Rules.{IsAccepted};
ghost use Rattle.row_image.specs.declared.image.ImageKind.TheVariants.{Heap};
ghost use Rattle.string_heap.specs.Heaps.{used, Puts, KeepsTexts};

use row_image::{HEAP_HEAD, put_zeros, set_word, word_at};

/// Writes an empty heap page. The bytes behind its head stay as they are.
pub fn new_heap(page: &mut [u8])
    requires { IsPage (length page.old) }
    ensures accepted { IsAccepted Heap page.new }
    ensures empty { used page.new ≡ 0 }
    ensures head { (k : ℕ) → 8 ≤ k → k < HEAP_HEAD → slice_index page.new k ≡ 0 }
    ensures rest { (k : ℕ) → HEAP_HEAD ≤ k → slice_index page.new k ≡ slice_index page.old k }
{
    put_zeros(page, 0, HEAP_HEAD);
    set_word(page, 0, 2);
}

/// How many bytes of texts can still be put.
pub fn room(page: &[u8]) -> u32
    requires page { IsPage (length page.now) }
    requires accepted { IsAccepted Heap page.now }
    ensures { result + used page.now + HEAP_HEAD ≡ length page.now }
{
    page.len() as u32 - HEAP_HEAD as u32 - word_at(page, 4)
}

/// Puts a text behind the others, and answers its offset. It answers None where the text is longer than the room, and
/// then nothing changed.
pub fn put(page: &mut [u8], text: &[u8]) -> Option<u32>
    requires page { IsPage (length page.old) }
    requires accepted { IsAccepted Heap page.old }
    ensures accepted { IsAccepted Heap page.new }
    ensures put { IfSome result (Puts page.old page.new text.now) }
    ensures kept { KeepsTexts page.old page.new }
    ensures none { (result ≡ None) ↔ (length page.old < HEAP_HEAD + used page.old + length text.now) }
    ensures unchanged { result ≡ None → page.new ≡ page.old }
{
    if text.len() > room(page) as usize {
        return None;
    }
    let used = word_at(page, 4);
    let at = HEAP_HEAD as u32 + used;
    put_text(page, at as usize, text);
    set_word(page, 4, used + text.len() as u32);
    Some(at)
}

/// The bytes of a page from an offset on.
pub fn text_at(page: &[u8], at: u32, count: u32) -> &[u8]
    requires { at + count ≤ length page.now }
    ensures { result.now ≡ slice_range page.now at (at + count) }
{
    &page[at as usize..at as usize + count as usize]
}

// Writes a text from a place on.
fn put_text(page: &mut [u8], at: usize, text: &[u8])
    requires { at + length text.now ≤ length page.old }
    ensures stored { slice_range page.new at (at + length text.now) ≡ text.now }
    ensures others { ChangesOnly page.old page.new at (at + length text.now) }
{
    page[at..at + text.len()].copy_from_slice(text);
}
