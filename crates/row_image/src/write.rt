//! Row pages: an empty one, and a row more.
ghost use Rattle.std.specs.Prelude.{List, ◌≡◌, ◌≢◌, ℕ, ◌+◌, ◌<◌, ◌≤◌, ◌↔◌, ◌++◌, [], ◌∷◌, length, IsTrue, slice_index, if◌then◌else◌, true, false};
ghost use Rattle.row_image.specs.Bytes.{IsPage, ChangesOnly};
ghost use Rattle.row_image.specs.Layout.{has_texts, rows_that_fit, row_place, width_of};
ghost use Rattle.row_image.specs.Cells.{Meets};
ghost use Rattle.row_image.specs.Image.{row_count, part_count, rows_of, parts_of};
ghost use Rattle.row_image.specs.Parts.{given_row, wanted, parts_with, begins_fifth, HoldsTexts};
ghost use Rattle.row_image.specs.Rules.{text_limit, IsAccepted};
ghost use Rattle.row_image.specs.Flat.{flat, given_flat};
ghost use Rattle.row_image.specs.Texts.{text_rows, given_texts};
ghost use Rattle.row_image.specs.Stores.{StoresRow, KeepsEntries, KeepsHidden};
ghost use Rattle.row_image.specs.declared.image.ImageKind.TheVariants.{Rows};

use crate::bytes::set_word;
use crate::cell::CellIn;
use crate::image::RowPut;
use crate::layout::Layout;
use crate::limits::ROW_HEAD;
use crate::parts::{put_part, wanted};
use crate::put::{put_row, put_zeros};
use crate::read::row_count;

/// Writes an empty row page. The bytes behind its head stay as they are.
pub fn new_rows(layout: &Layout, image: &mut [u8])
    requires { IsPage (length image.old) }
    ensures accepted { IsAccepted (Rows layout.now) image.new }
    ensures empty { rows_of layout.now image.new ≡ [] }
    ensures head { (k : ℕ) → 8 ≤ k → k < ROW_HEAD → slice_index image.new k ≡ 0 }
    ensures rest { (k : ℕ) → ROW_HEAD ≤ k → slice_index image.new k ≡ slice_index image.old k }
{
    put_zeros(image, 0, ROW_HEAD);
    set_word(image, 0, 1);
    set_word(image, 4, layout.width() as u32);
}

/// Writes a row behind the others, and counts it in the parts. `heap` is the number and the base of
/// the heap page that has the row's long texts. Unless the answer is `Wrote` nothing changes.
pub fn write_row(
    layout: &Layout,
    image: &mut [u8],
    cells: &[CellIn],
    hash: u64,
    heap: Option<(u32, u64)>,
) -> RowPut
    requires page { IsPage (length image.old) }
    requires accepted { IsAccepted (Rows layout.now) image.old }
    requires meets { Meets layout.now (text_limit (length image.old)) cells.now }
    requires heap { HoldsTexts (length image.old) (parts_of image.old) cells.now heap }

    ensures accepted { IsAccepted (Rows layout.now) image.new }
    ensures rows { result ≡ RowPut.Wrote → rows_of layout.now image.new ≡ rows_of layout.now image.old ++ given_row cells.now hash ∷ [] }
    ensures flat { result ≡ RowPut.Wrote → rows_of layout.now (flat (Rows layout.now) image.new) ≡ rows_of layout.now (flat (Rows layout.now) image.old) ++ given_flat cells.now hash heap ∷ [] }
    ensures texts { result ≡ RowPut.Wrote → (heaps : ℕ → List ℕ) → text_rows layout.now (flat (Rows layout.now) image.new) heaps ≡ text_rows layout.now (flat (Rows layout.now) image.old) heaps ++ given_texts heaps cells.now hash heap ∷ [] }
    ensures bytes { result ≡ RowPut.Wrote → StoresRow layout.now image.new (row_place layout.now (row_count image.old)) cells.now hash }
    ensures hidden { result ≡ RowPut.Wrote → KeepsHidden layout.now image.old image.new }
    ensures parts { result ≡ RowPut.Wrote → parts_of image.new ≡ (if has_texts layout.now then parts_with (parts_of image.old) (row_count image.old) (wanted cells.now heap) else parts_of image.old) }

    ensures page_full { (result ≡ RowPut.PageFull) ↔ (row_count image.old ≡ rows_that_fit layout.now (length image.old)) }
    ensures parts_full { (result ≡ RowPut.PartsFull) ↔ ((row_count image.old < rows_that_fit layout.now (length image.old)) × IsTrue (begins_fifth (parts_of image.old) (wanted cells.now heap))) }
    ensures unchanged { result ≢ RowPut.Wrote → image.new ≡ image.old }
{
    let row = row_count(image);
    if row as usize == layout.rows_that_fit(image.len()) {
        return RowPut::PageFull;
    }
    if !count_in_parts(layout, image, wanted(cells, heap)) {
        return RowPut::PartsFull;
    }
    append(layout, image, cells, hash);
    RowPut::Wrote
}

// Counts a row in the parts, where there are columns of texts. It answers false, and changes
// nothing, where that would be a fifth part.
fn count_in_parts(layout: &Layout, image: &mut [u8], want: Option<(u32, u64)>) -> bool
    requires page { IsPage (length image.old) }
    requires accepted { IsAccepted (Rows layout.now) image.old }
    ensures full { (result ≡ false) ↔ IsTrue (begins_fifth (parts_of image.old) want) }
    ensures unchanged { result ≡ false → image.new ≡ image.old }
    ensures put { result ≡ true → parts_of image.new ≡ (if has_texts layout.now then parts_with (parts_of image.old) (row_count image.old) want else parts_of image.old) }
    ensures few { part_count image.new ≤ 4 }
    ensures others { ChangesOnly image.old image.new 12 ROW_HEAD }
    ensures entries { result ≡ true → KeepsEntries image.old image.new }
{
    if layout.has_texts() {
        let row = row_count(image);
        put_part(image, row, want)
    } else {
        true
    }
}

// Writes a row behind the others, for which there is room.
fn append(layout: &Layout, image: &mut [u8], cells: &[CellIn], hash: u64)
    requires page { IsPage (length image.old) }
    requires room { row_place layout.now (row_count image.old) + width_of layout.now ≤ length image.old }
    requires small { row_count image.old < 1000000 }
    requires meets { Meets layout.now (text_limit (length image.old)) cells.now }
    ensures count { row_count image.new ≡ row_count image.old + 1 }
    ensures row { StoresRow layout.now image.new (row_place layout.now (row_count image.old)) cells.now hash }
    ensures kind { (k : ℕ) → k < 8 → slice_index image.new k ≡ slice_index image.old k }
    ensures parts { (k : ℕ) → 12 ≤ k → k < row_place layout.now (row_count image.old) → slice_index image.new k ≡ slice_index image.old k }
    ensures free { (k : ℕ) → row_place layout.now (row_count image.old) + width_of layout.now ≤ k → slice_index image.new k ≡ slice_index image.old k }
{
    let row = row_count(image);
    set_word(image, 8, row + 1);
    put_row(layout, image, layout.row_place(row), cells, hash);
}
