//! What the calls on images answer.
use crate::layout::Layout;

/// What an image is to be: rows of a layout, long texts, or any bytes.
#[derive(Clone, Copy)]
pub enum ImageKind {
    Rows(Layout),
    Heap,
    Plain,
}

/// How many rows and parts an accepted image has.
#[derive(Clone, Copy, Debug, PartialEq, Eq)]
pub struct Shape {
    pub rows: u32,
    pub parts: u32,
}

/// The rules of a page, in the order in which they are tested.
#[derive(Clone, Copy, Debug, PartialEq, Eq)]
pub enum DamageField {
    Kind,
    Width,
    Rows,
    Parts,
    PartFirst,
    PartRows,
    PartBase,
    CellBit,
    CellLength,
    CellPad,
    CellAddress,
    HeapUsed,
}

/// The first rule that an image breaks, with the value found and its bound.
#[derive(Clone, Copy, Debug, PartialEq, Eq)]
pub struct Damage {
    pub field: DamageField,
    pub found: u64,
    pub bound: u64,
}

/// What became of a row: it was written, the page has all the rows that fit, or the row would
/// begin a fifth part.
#[derive(Clone, Copy, Debug, PartialEq, Eq)]
pub enum RowPut {
    Wrote,
    PageFull,
    PartsFull,
}

/// Rows that stand one behind the other and whose long texts lie on one heap page: the first row,
/// how many there are, the heap page's number (`NO_HEAP` where there is none) and its base.
#[derive(Clone, Copy, Debug, PartialEq, Eq)]
pub struct Part {
    pub first: u32,
    pub rows: u32,
    pub heap: u32,
    pub base: u64,
}
