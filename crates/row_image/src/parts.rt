//! The parts of a row page.
ghost use Rattle.std.specs.Prelude.{◌≡◌, ◌+◌, ◌*◌, ◌<◌, ◌≤◌, ◌↔◌, ℕ, length, IsTrue, slice_get, Some, true, false};
ghost use Rattle.std.specs.List.{list_any};
ghost use Rattle.row_image.specs.Bytes.{IsPage, ChangesOnly, number_at};
ghost use Rattle.row_image.specs.declared.limits.TheConstants.{ROW_HEAD};
ghost use Rattle.row_image.specs.Stores.{KeepsEntries};
ghost use Rattle.row_image.specs.Image.{row_count, part_count, part_at, parts_of, part_for};
ghost use Rattle.row_image.specs.Cells.{given_cell};
ghost use Rattle.row_image.specs.Parts.{wanted, joins, is_long, takes_row, grown, begun, parts_with, begins_fifth};
ghost use Rattle.row_image.specs.Rules.{IsAccepted};
ghost use Rattle.row_image.specs.declared.image.ImageKind.TheVariants.{Rows};

use crate::bytes::{long_at, set_long, set_word, word_at};
use crate::cell::CellIn;
use crate::image::Part;
use crate::limits::NO_HEAP;

/// How many parts a row page has.
pub fn part_count(image: &[u8]) -> u32
    requires { IsPage (length image.now) }
    ensures { result ≡ part_count image.now }
{
    word_at(image, 12)
}

/// A part of an accepted page.
pub fn part_of(image: &[u8], part: u32) -> Part
    requires page { IsPage (length image.now) }
    requires part { part < part_count image.now }
    requires few { part_count image.now ≤ 4 }
    ensures listed { slice_get (parts_of image.now) part ≡ Some result }
    ensures entry { result ≡ part_at image.now part }
{
    part_at(image, part)
}

/// What the head says of a part.
#[tactic(auto, unfolding(crate::specs::Image::part_at))]
pub fn part_at(image: &[u8], part: u32) -> Part
    requires page { IsPage (length image.now) }
    requires part { part < 4 }
    ensures { result ≡ part_at image.now part }
{
    let at = 32 + 24 * part as usize;
    Part {
        first: word_at(image, at),
        rows: word_at(image, at + 4),
        heap: word_at(image, at + 8),
        base: long_at(image, at + 16),
    }
}

/// Writes a part's entry in the head.
#[tactic(auto, unfolding(crate::specs::Image::part_at))]
pub fn set_part(image: &mut [u8], part: u32, value: Part)
    requires page { IsPage (length image.old) }
    requires part { part < 4 }
    ensures others { ChangesOnly image.old image.new (32 + 24 * part) (56 + 24 * part) }
    ensures stored { part_at image.new part ≡ value }
    ensures zeros { number_at image.new (32 + 24 * part + 12) 4 ≡ 0 }
{
    let at = 32 + 24 * part as usize;
    set_word(image, at, value.first);
    set_word(image, at + 4, value.rows);
    set_word(image, at + 8, value.heap);
    set_word(image, at + 12, 0);
    set_long(image, at + 16, value.base);
}

/// Counts a row in the parts: in the last part where it takes the row, else in a new one. It answers
/// false, and changes nothing, where that would be a fifth part.
pub fn put_part(image: &mut [u8], row: u32, want: Option<(u32, u64)>) -> bool
    requires page { IsPage (length image.old) }
    requires parts { part_count image.old ≤ 4 }
    requires row { row < 1000000 }
    requires rows { (k : ℕ) → k < part_count image.old → (part_at image.old k).rows < 1000000 }
    ensures full { (result ≡ false) ↔ IsTrue (begins_fifth (parts_of image.old) want) }
    ensures unchanged { result ≡ false → image.new ≡ image.old }
    ensures put { result ≡ true → parts_of image.new ≡ parts_with (parts_of image.old) row want }
    ensures few { part_count image.new ≤ 4 }
    ensures others { ChangesOnly image.old image.new 12 ROW_HEAD }
    ensures entries { result ≡ true → KeepsEntries image.old image.new }
{
    let parts = part_count(image);
    if joins(image, want) {
        let last = part_at(image, parts - 1);
        set_part(image, parts - 1, grown(last, want));
        return true;
    }
    if parts == 4 {
        return false;
    }
    set_part(image, parts, begun(row, want));
    set_word(image, 12, parts + 1);
    true
}

// Whether the last part takes a row that needs this heap page.
fn joins(image: &[u8], want: Option<(u32, u64)>) -> bool
    requires page { IsPage (length image.now) }
    requires parts { part_count image.now ≤ 4 }
    ensures { result ≡ joins (parts_of image.now) want }
{
    let parts = part_count(image);
    parts > 0 && takes_row(part_at(image, parts - 1), want)
}

/// The heap page that a row needs.
#[tactic(auto, unfolding(crate::specs::Parts::wanted))]
pub fn wanted(cells: &[CellIn], heap: Option<(u32, u64)>) -> Option<(u32, u64)>
    ensures { result ≡ wanted cells.now heap }
{
    if has_long(cells) { heap } else { None }
}

// Whether a text lies on a heap page.
fn has_long(cells: &[CellIn]) -> bool
    ensures { result ≡ list_any (λ cell. is_long (given_cell cell)) cells.now }
{
    cells.iter().any(|cell| is_long(cell))
}

// Whether this text lies on a heap page.
fn is_long(cell: &CellIn) -> bool
    ensures { result ≡ is_long (given_cell cell.now) }
{
    match cell {
        CellIn::Long { .. } => true,
        _ => false,
    }
}

// Whether a part takes a row that needs this heap page.
fn takes_row(part: Part, want: Option<(u32, u64)>) -> bool
    ensures { result ≡ takes_row part want }
{
    match want {
        None => true,
        Some((heap, _)) => part.heap == NO_HEAP || part.heap == heap,
    }
}

// The part with one row more.
fn grown(part: Part, want: Option<(u32, u64)>) -> Part
    requires { part.rows < 1000000 }
    ensures { result ≡ grown part want }
{
    let rows = part.rows + 1;
    match want {
        None => Part {
            first: part.first,
            rows,
            heap: part.heap,
            base: part.base,
        },
        Some((heap, base)) => Part {
            first: part.first,
            rows,
            heap,
            base,
        },
    }
}

// A part that begins with a row.
fn begun(row: u32, want: Option<(u32, u64)>) -> Part
    ensures { result ≡ begun row want }
{
    match want {
        None => Part {
            first: row,
            rows: 1,
            heap: NO_HEAP,
            base: 0,
        },
        Some((heap, base)) => Part {
            first: row,
            rows: 1,
            heap,
            base,
        },
    }
}
