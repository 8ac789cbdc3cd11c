//! The rows of a page under pins, read where they lie.
ghost use Rattle.std.specs.Prelude.{◌≡◌, ℕ, ◌+◌, ◌-◌, ◌<◌, ◌≤◌, [], ◌∷◌, length, map, get_or, slice_range, IsTrue, IfSome};
ghost use Rattle.row_image.specs.Bytes.{IsPage};
ghost use Rattle.row_image.specs.Cells.{LongCell, shown_cell};
ghost use Rattle.row_image.specs.Image.{row_count, part_count, part_at, stored_cell};
ghost use Rattle.row_image.specs.Rules.{text_limit, IsAccepted};
ghost use Rattle.row_image.specs.Texts.{TextValue};
ghost use Rattle.row_image.specs.declared.image.ImageKind.TheVariants.{Rows};
ghost use Rattle.rebase_pins.specs.Fits.{RowFits};
ghost use Rattle.rebase_pins.specs.RowPages.{under_pins, IsFormed, IsOwned, image_or_none};
ghost use Rattle.rebase_pins.specs.Rows.{part_number, rows_of_page};
ghost use Rattle.rebase_pins.specs.Parts.{IsPartSight, IsKnownPart};
ghost use Rattle.rebase_pins.specs.Seen.{seen_under, rows_seen, value_seen, values_seen, hash_seen, value_read, IsText};

use crate::cell_read::CellRead;
use crate::row_page::RowPins;
use page_body::Pages;
use row_image::{Cell, Layout, part_count, part_of, read_cell, row_count, row_hash_of};
use std::marker::Model;

/// Where the long texts of a part's rows lie: behind which row the part ends, its base, and the bytes of its heap page.
#[derive(Clone, Copy)]
pub struct PartSight<'a> {
    pub end: u64,
    pub base: u64,
    pub heap: &'a [u8],
}

/// The rows of a page and the texts on its heap pages, as long as the pins on them are there. Contracts see the images.
#[derive(Drop)]
pub struct RowView<'a> {
    layout: &'a Layout,
    image: &'a [u8],
    part0: PartSight<'a>,
    part1: PartSight<'a>,
    part2: PartSight<'a>,
    part3: PartSight<'a>,
}

impl<'a> Model for RowView<'a> {
    ghost use Rattle.rebase_pins.specs.Images.{Seen};

    ghost Value = { Seen };

    ghost use Rattle.rebase_pins.specs.Sight.{seen_in, IsSight};

    ghost view = { seen_in };

    ghost invariant = { IsSight };
}

impl<'a> RowView<'a> {
    /// The rows of the page under these pins. In a told pool they are those that the contents of the pages give.
    pub fn new_view<P: Pages>(
        pages: &'a P,
        pins: &'a RowPins<P::Pin>,
        layout: &'a Layout,
    ) -> RowView<'a>
        requires own { IsOwned P.terms (P.view pages.now) pins.now }
        requires formed { IsFormed P.terms layout.now (under_pins P.terms pins.now) }
        ensures is { result ≡ seen_under P.terms layout.now pins.now }
        ensures told { IsTrue P.terms.told → rows_seen result ≡ rows_of_page P.terms layout.now (under_pins P.terms pins.now) }
    {
        let image = pages.bytes(&pins.rows);
        RowView {
            layout,
            image,
            part0: part_sight(image, 0, heap_bytes(pages, &pins.heap0)),
            part1: part_sight(image, 1, heap_bytes(pages, &pins.heap1)),
            part2: part_sight(image, 2, heap_bytes(pages, &pins.heap2)),
            part3: part_sight(image, 3, heap_bytes(pages, &pins.heap3)),
        }
    }

    /// How many rows there are.
    pub fn rows(&self) -> u32
        ensures { result ≡ length (rows_seen self.now) }
    {
        row_count(self.image)
    }

    /// How many columns there are.
    pub fn columns(&self) -> u32
        ensures count { result ≡ length self.now.kinds }
        ensures most { result ≤ 65 }
    {
        self.layout.columns() as u32
    }

    /// The hash of a row.
    pub fn hash(&self, row: u32) -> u64
        requires { row < length (rows_seen self.now) }
        ensures { result ≡ hash_seen self.now row }
    {
        row_hash_of(self.layout, self.image, row)
    }

    /// The cell of a row and a column.
    pub fn cell(&self, row: u32, column: u32) -> Cell<'a>
        requires row { row < length (rows_seen self.now) }
        requires column { column < length self.now.kinds }
        ensures { shown_cell result ≡ stored_cell self.now.kinds self.now.image row column }
    {
        read_cell(self.layout, self.image, row, column)
    }

    /// What stands in a row and a column, with a text where it lies.
    pub fn value(&self, row: u32, column: u32) -> CellRead<'a>
        requires row { row < length (rows_seen self.now) }
        requires column { column < length self.now.kinds }
        ensures { value_read result ≡ value_seen self.now row column }
    {
        match read_cell(self.layout, self.image, row, column) {
            Cell::Null => CellRead::Null,
            Cell::Number(number) => CellRead::Number(number),
            Cell::Short(text) => CellRead::Text(text),
            Cell::Long {
                length,
                address,
                ..
            } => {
                let part = self.part_for(row);
                CellRead::Text(long_text(part.heap, address, part.base, length))
            }
        }
    }

    /// The text of a row and a column, where it lies.
    pub fn text(&self, row: u32, column: u32) -> &'a [u8]
        requires row { row < length (rows_seen self.now) }
        requires column { column < length self.now.kinds }
        requires text { IsText (value_seen self.now row column) }
        ensures { TextValue result.now ≡ value_seen self.now row column }
    {
        match self.value(row, column) {
            CellRead::Text(text) => text,
            _ => unreachable!(),
        }
    }

    // What is kept of a row's part.
    fn part_for(&self, row: u32) -> PartSight<'a>
        ensures heap { IsKnownPart self.now.image row → result.heap.now ≡ get_or self.now.heaps (part_number self.now.image row) [] }
        ensures base { IsKnownPart self.now.image row → result.base ≡ (part_at self.now.image (part_number self.now.image row)).base }
    {
        let row = u64::from(row);
        if row < self.part0.end {
            self.part0
        } else if row < self.part1.end {
            self.part1
        } else if row < self.part2.end {
            self.part2
        } else {
            self.part3
        }
    }

    /// Reads a whole row into a buffer that is used again. Each value fits its column, also in a pool that isn't told.
    pub fn read_row(&self, row: u32, into: &mut [CellRead<'a>])
        requires row { row < length (rows_seen self.now) }
        requires long { length into.old ≡ length self.now.kinds }
        ensures values { map value_read into.new ≡ values_seen self.now row }
        ensures fits { RowFits self.now.kinds (text_limit (length self.now.image)) (values_seen self.now row) }
    {
        for column in 0..self.columns() {
            into[column as usize] = self.value(row, column);
        }
        self.row_fits(row);
    }

    // The values of a row fit their columns, since the page was accepted. It does nothing.
    fn row_fits(&self, row: u32)
        requires { row < length (rows_seen self.now) }
        ensures { RowFits self.now.kinds (text_limit (length self.now.image)) (values_seen self.now row) }
    {
        let _image = self.image;
    }
}

// The bytes of a heap page, and none where there is no page.
fn heap_bytes<'a, P: Pages>(pages: &'a P, pin: &'a Option<P::Pin>) -> &'a [u8]
    requires { IfSome pin.now (P.view pages.now).valid }
    ensures { result.now ≡ image_or_none P.terms pin.now }
{
    match pin {
        Some(pin) => pages.bytes(pin),
        None => &[],
    }
}

// What a view keeps of a part, where the page has that part.
fn part_sight<'a>(image: &[u8], part: u32, heap: &'a [u8]) -> PartSight<'a>
    requires page { IsPage (length image.now) }
    requires few { part_count image.now ≤ 4 }
    ensures heap { result.heap.now ≡ heap.now }
    ensures is { IsPartSight image.now part result.end result.base }
{
    if part >= part_count(image) {
        return PartSight {
            end: 0,
            base: 0,
            heap,
        };
    }
    let this = part_of(image, part);
    PartSight {
        end: u64::from(this.first) + u64::from(this.rows),
        base: this.base,
        heap,
    }
}

// The text at an address of the heap page that lies at a base. Where the page isn't there the text is empty.
fn long_text<'a>(heap: &'a [u8], address: u64, base: u64, size: u32) -> &'a [u8]
    requires low { base ≤ address }
    requires high { 0 < length heap.now → address + size ≤ base + length heap.now }
    ensures { result.now ≡ slice_range heap.now (address - base) (address - base + size) }
{
    if heap.is_empty() {
        return heap;
    }
    let start = (address - base) as usize;
    &heap[start..start + size as usize]
}
