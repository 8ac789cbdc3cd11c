//! Writing the bytes of a row: its null mask, its hash and its cells.
ghost use Rattle.std.specs.Prelude.{◌≡◌, ℕ, ◌+◌, ◌*◌, ◌<◌, ◌≤◌, length, slice_index, slice_index_or, slice_range};
ghost use Rattle.std.specs.Int.{bit_at};
ghost use Rattle.row_image.specs.Bytes.{number_at, ChangesOnly};
ghost use Rattle.row_image.specs.Layout.{cell_width, mask_bytes, width_of, offset_of};
ghost use Rattle.row_image.specs.Cells.{given_cell, null_bit, StoredCell, Takes, Meets};
ghost use Rattle.row_image.specs.Image.{is_null, cell_at};
ghost use Rattle.row_image.specs.Rules.{text_limit};
ghost use Rattle.row_image.specs.Stores.{StoresAt, StoresRow};

use crate::bytes::{set_eight, set_four, set_long, set_sixteen, set_word};
use crate::cell::CellIn;
use crate::layout::{CellKind, Layout};

/// Writes a row whose bytes begin at `at`.
pub fn put_row(layout: &Layout, image: &mut [u8], at: usize, cells: &[CellIn], hash: u64)
    requires room { at + width_of layout.now ≤ length image.old }
    requires meets { Meets layout.now (text_limit (length image.old)) cells.now }
    ensures others { ChangesOnly image.old image.new at (at + width_of layout.now) }
    ensures row { StoresRow layout.now image.new at cells.now hash }
{
    put_mask(layout, image, at, cells);
    set_long(image, at + layout.mask_bytes(), hash);
    for column in 0..cells.len() {
        put_cell(
            image,
            at + layout.offset(column),
            layout.kind(column),
            &cells[column],
        );
    }
}

// Writes the null mask of a row that begins at `at`.
fn put_mask(layout: &Layout, image: &mut [u8], at: usize, cells: &[CellIn])
    requires room { at + mask_bytes layout.now ≤ length image.old }
    ensures others { ChangesOnly image.old image.new at (at + mask_bytes layout.now) }
    ensures bits { (byte bit : ℕ) → byte < mask_bytes layout.now → bit < 8 → bit_at (slice_index image.new (at + byte)) bit ≡ null_bit cells.now (8 * byte + bit) }
{
    for byte in 0..layout.mask_bytes() {
        image[at + byte] = mask_byte(cells, 8 * byte);
    }
}

// The bits of eight columns from one on: 1 where the cell is NULL.
fn mask_byte(cells: &[CellIn], from: usize) -> u8
    requires { from < 1000 }
    ensures { (bit : ℕ) → bit < 8 → bit_at result bit ≡ null_bit cells.now (from + bit) }
{
    let mut bits: u8 = 0;
    let mut bit = 8;
    while bit > 0 {
        bit -= 1;
        bits = 2 * bits + null_bit(cells, from + bit);
    }
    bits
}

// 1 where there is a cell and it is NULL.
fn null_bit(cells: &[CellIn], column: usize) -> u8
    ensures value { result ≡ null_bit cells.now column }
    ensures bit { result ≤ 1 }
{
    if column >= cells.len() {
        return 0;
    }
    match &cells[column] {
        CellIn::Null => 1,
        _ => 0,
    }
}

// Writes a cell that begins at `at`: zeros for NULL.
fn put_cell(image: &mut [u8], at: usize, kind: CellKind, cell: &CellIn)
    requires room { at + cell_width kind ≤ length image.old }
    requires takes { Takes kind (text_limit (length image.old)) (given_cell cell.now) }
    ensures others { ChangesOnly image.old image.new at (at + cell_width kind) }
    ensures stored { StoresAt kind image.new at (given_cell cell.now) }
{
    match cell {
        CellIn::Null => put_zeros(image, at, kind.width() as usize),
        CellIn::Number(value) => put_number(image, at, kind, *value),
        CellIn::Short(text) => put_short(image, at, kind, text),
        CellIn::Long {
            prefix,
            length,
            address,
        } => put_long(image, at, kind, *prefix, *length, *address),
    }
}

/// Writes zeros.
pub fn put_zeros(image: &mut [u8], at: usize, count: usize)
    requires { at + count ≤ length image.old }
    ensures others { ChangesOnly image.old image.new at (at + count) }
    ensures zeros { (k : ℕ) → at ≤ k → k < at + count → slice_index image.new k ≡ 0 }
{
    image[at..at + count].fill(0);
}

// Writes a number into a cell that isn't of texts.
#[tactic(auto, unfolding(crate::specs::Image::cell_at))]
fn put_number(image: &mut [u8], at: usize, kind: CellKind, value: i128)
    requires room { at + cell_width kind ≤ length image.old }
    requires takes { Takes kind (text_limit (length image.old)) (StoredCell.NumberCell value) }
    ensures others { ChangesOnly image.old image.new at (at + cell_width kind) }
    ensures stored { cell_at kind image.new at ≡ StoredCell.NumberCell value }
{
    match kind {
        CellKind::Bit => image[at] = value as u8,
        CellKind::Four => set_four(image, at, value),
        CellKind::Eight => set_eight(image, at, value),
        CellKind::Sixteen => set_sixteen(image, at, value),
        CellKind::Text => unreachable!(),
    }
}

// Writes a text of at most 12 bytes into its cell, with zeros behind it.
fn put_short(image: &mut [u8], at: usize, kind: CellKind, text: &[u8])
    requires room { at + cell_width kind ≤ length image.old }
    requires takes { Takes kind (text_limit (length image.old)) (StoredCell.ShortCell text.now) }
    ensures others { ChangesOnly image.old image.new at (at + cell_width kind) }
    ensures stored { StoresAt kind image.new at (StoredCell.ShortCell text.now) }
{
    set_word(image, at, text.len() as u32);
    put_text(image, at + 4, text);
}

// Writes a text of at most 12 bytes and zeros up to 12.
fn put_text(image: &mut [u8], at: usize, text: &[u8])
    requires room { at + 12 ≤ length image.old }
    requires short { length text.now ≤ 12 }
    ensures others { ChangesOnly image.old image.new at (at + 12) }
    ensures text { (k : ℕ) → k < length text.now → slice_index image.new (at + k) ≡ slice_index text.now k }
    ensures zeros { (k : ℕ) → at + length text.now ≤ k → k < at + 12 → slice_index image.new k ≡ 0 }
{
    for place in 0..12 {
        image[at + place] = if place < text.len() { text[place] } else { 0 };
    }
}

// Writes the cell of a text that lies on a heap page.
fn put_long(image: &mut [u8], at: usize, kind: CellKind, prefix: [u8; 4], size: u32, address: u64)
    requires room { at + cell_width kind ≤ length image.old }
    requires takes { Takes kind (text_limit (length image.old)) (StoredCell.LongCell prefix size address) }
    ensures others { ChangesOnly image.old image.new at (at + cell_width kind) }
    ensures stored { cell_at kind image.new at ≡ StoredCell.LongCell prefix size address }
{
    set_word(image, at, size);
    put_prefix(image, at + 4, prefix);
    set_long(image, at + 8, address);
}

// Writes the first bytes of a text that lies on a heap page.
fn put_prefix(image: &mut [u8], at: usize, prefix: [u8; 4])
    requires { at + 4 ≤ length image.old }
    ensures others { ChangesOnly image.old image.new at (at + 4) }
    ensures text { slice_range image.new at (at + 4) ≡ prefix }
{
    image[at] = prefix[0];
    image[at + 1] = prefix[1];
    image[at + 2] = prefix[2];
    image[at + 3] = prefix[3];
}
