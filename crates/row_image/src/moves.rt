//! Moving the heap page of a part.
ghost use Rattle.std.specs.Prelude.{◌≡◌, ℕ, ◌+◌, ◌%◌, ◌^◌, ◌<◌, ◌≤◌, ◌≢◌, length, slice_set};
ghost use Rattle.row_image.specs.Bytes.{IsPage, ChangesOnly};
ghost use Rattle.row_image.specs.Layout.{width_of, offset_of};
ghost use Rattle.row_image.specs.Image.{part_count, part_at, parts_of, no_heap};
ghost use Rattle.row_image.specs.Rules.{IsAccepted};
ghost use Rattle.row_image.specs.Flat.{flat, is_long_in};
ghost use Rattle.row_image.specs.declared.limits.TheConstants.{MOST_PAGE};
ghost use Rattle.row_image.specs.Moves.{MovesCell, MovesRow, IsReached, based};
ghost use Rattle.row_image.specs.declared.image.ImageKind.TheVariants.{Rows};

use crate::bytes::{long_at, set_long, word_at};
use crate::layout::Layout;
use crate::parts::part_at;
use crate::read::is_null;

/// Moves the heap page of a part: each address of the part's rows moves by the difference of the
/// bases, and the part has the new base. What the page says stays.
pub fn rebase(layout: &Layout, image: &mut [u8], part: u32, base: u64)
    requires page { IsPage (length image.old) }
    requires accepted { IsAccepted (Rows layout.now) image.old }
    requires part { part < part_count image.old }
    requires heap { (part_at image.old part).heap ≢ no_heap }
    requires aligned { base % length image.old ≡ 0 }
    requires low { base < 2 ^ 48 }
    ensures accepted { IsAccepted (Rows layout.now) image.new }
    ensures flat { flat (Rows layout.now) image.new ≡ flat (Rows layout.now) image.old }
    ensures parts { parts_of image.new ≡ slice_set (parts_of image.old) part (based (part_at image.old part) base) }
{
    let this = part_at(image, part);
    for row in this.first..this.first + this.rows {
        move_row(layout, image, layout.row_place(row), this.base, base);
    }
    set_long(image, 48 + 24 * part as usize, base);
}

// Moves the addresses in the row that begins at `at` from a base to another.
fn move_row(layout: &Layout, image: &mut [u8], at: usize, from: u64, to: u64)
    requires room { at + width_of layout.now ≤ length image.old }
    requires small { length image.old ≤ MOST_PAGE }
    requires low { to < 2 ^ 48 }
    requires reach { (column : ℕ) → column < length layout.now → IsReached layout.now image.old at from column }
    ensures others { ChangesOnly image.old image.new at (at + width_of layout.now) }
    ensures row { MovesRow layout.now image.old image.new at from to }
{
    for column in 0..layout.columns() {
        move_cell(layout, image, at, column, from, to);
    }
}

// Moves the address in a column's cell, where it is that of a text on a heap page.
fn move_cell(layout: &Layout, image: &mut [u8], at: usize, column: usize, from: u64, to: u64)
    requires room { at + width_of layout.now ≤ length image.old }
    requires small { length image.old ≤ MOST_PAGE }
    requires column { column < length layout.now }
    requires low { to < 2 ^ 48 }
    requires reach { IsReached layout.now image.old at from column }
    ensures others { ChangesOnly image.old image.new (at + offset_of layout.now column) (at + offset_of layout.now (column + 1)) }
    ensures cell { MovesCell layout.now image.old image.new at from to column }
{
    if is_long(layout, image, at, column) {
        let place = at + layout.offset(column) + 8;
        let address = long_at(image, place);
        set_long(image, place, address - from + to);
    }
}

// Whether a column's cell is a text that lies on a heap page, in the row that begins at `at`.
fn is_long(layout: &Layout, image: &[u8], at: usize, column: usize) -> bool
    requires room { at + width_of layout.now ≤ length image.now }
    requires column { column < length layout.now }
    ensures { result ≡ is_long_in layout.now image.now at column }
{
    if is_null(image, at, column) || !layout.kind(column).is_text() {
        return false;
    }
    word_at(image, at + layout.offset(column)) > 12
}
