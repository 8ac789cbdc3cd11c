//! Reading the rows of an accepted page.
ghost use Rattle.std.specs.Prelude.{◌≡◌, ◌+◌, ◌/◌, ◌<◌, ◌≤◌, length};
ghost use Rattle.row_image.specs.Bytes.{IsPage, number_at};
ghost use Rattle.row_image.specs.Layout.{cell_width};
ghost use Rattle.row_image.specs.Cells.{shown_cell};
ghost use Rattle.row_image.specs.Image.{row_count, is_null, text_at, cell_at, stored_cell, stored_hash};
ghost use Rattle.row_image.specs.Rules.{IsAccepted};
ghost use Rattle.row_image.specs.declared.image.ImageKind.TheVariants.{Rows};

use crate::bytes::{eight_at, four_at, long_at, sixteen_at, word_at};
use crate::cell::Cell;
use crate::layout::{CellKind, Layout};

/// How many rows a row page has.
pub fn row_count(image: &[u8]) -> u32
    requires { IsPage (length image.now) }
    ensures { result ≡ row_count image.now }
{
    word_at(image, 8)
}

/// The cell of a row and a column.
pub fn read_cell<'a>(layout: &Layout, image: &'a [u8], row: u32, column: u32) -> Cell<'a>
    requires page { IsPage (length image.now) }
    requires accepted { IsAccepted (Rows layout.now) image.now }
    requires row { row < row_count image.now }
    requires column { column < length layout.now }
    ensures { shown_cell result ≡ stored_cell layout.now image.now row column }
{
    let column = column as usize;
    let at = layout.row_place(row);
    if is_null(image, at, column) {
        return Cell::Null;
    }
    cell_at(layout.kind(column), image, at + layout.offset(column))
}

/// The hash of a row.
pub fn row_hash_of(layout: &Layout, image: &[u8], row: u32) -> u64
    requires page { IsPage (length image.now) }
    requires accepted { IsAccepted (Rows layout.now) image.now }
    requires row { row < row_count image.now }
    ensures { result ≡ stored_hash layout.now image.now row }
{
    let at = layout.row_place(row);
    long_at(image, at + layout.mask_bytes())
}

/// Whether a column is NULL in the row that begins at `at`.
#[tactic(auto, unfolding(crate::specs::Image::is_null))]
pub fn is_null(image: &[u8], at: usize, column: usize) -> bool
    requires { at + column / 8 < length image.now }
    ensures { result ≡ is_null image.now at column }
{
    image[at + column / 8] >> (column % 8) & 1 == 1
}

// The cell of a kind that begins at `at`.
#[tactic(auto, unfolding(crate::specs::Image::cell_at))]
fn cell_at<'a>(kind: CellKind, image: &'a [u8], at: usize) -> Cell<'a>
    requires { at + cell_width kind ≤ length image.now }
    ensures { shown_cell result ≡ cell_at kind image.now at }
{
    match kind {
        CellKind::Bit => Cell::Number(i128::from(image[at])),
        CellKind::Four => Cell::Number(four_at(image, at)),
        CellKind::Eight => Cell::Number(eight_at(image, at)),
        CellKind::Sixteen => Cell::Number(sixteen_at(image, at)),
        CellKind::Text => text_at(image, at),
    }
}

// The text cell that begins at `at`.
fn text_at<'a>(image: &'a [u8], at: usize) -> Cell<'a>
    requires { at + 16 ≤ length image.now }
    ensures { shown_cell result ≡ text_at image.now at (number_at image.now at 4) }
{
    let length = word_at(image, at);
    if length <= 12 {
        return Cell::Short(&image[at + 4..at + 4 + length as usize]);
    }
    Cell::Long {
        prefix: [image[at + 4], image[at + 5], image[at + 6], image[at + 7]],
        length,
        address: long_at(image, at + 8),
    }
}
