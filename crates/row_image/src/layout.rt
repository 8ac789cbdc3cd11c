//! What cells a row has, and where they lie in it.
ghost use Rattle.std.specs.Prelude.{◌≡◌, ◌<◌, ◌≤◌, ◌+◌, length, slice_index_or};
ghost use Rattle.row_image.specs.Layout.{cell_width, is_text, mask_bytes, offset_of, width_of, has_texts, rows_that_fit, row_place};
ghost use Rattle.row_image.specs.Padded.{offsets_of};

use crate::limits::{LEAST_PAGE, MOST_COLUMNS, ROW_HEAD};
use std::marker::Model;

/// What a column's cells hold: a truth in 1 byte, a number in 4, 8 or 16 bytes, or a text in 16.
#[derive(Clone, Copy, Debug, PartialEq, Eq)]
pub enum CellKind {
    Bit,
    Four,
    Eight,
    Sixteen,
    Text,
}

impl CellKind {
    /// How many bytes a cell takes.
    pub fn width(self) -> u16
        ensures { result ≡ cell_width self }
    {
        match self {
            CellKind::Bit => 1,
            CellKind::Four => 4,
            CellKind::Eight => 8,
            CellKind::Sixteen | CellKind::Text => 16,
        }
    }

    /// Whether the cells hold texts.
    pub fn is_text(self) -> bool
        ensures { result ≡ is_text self }
    {
        match self {
            CellKind::Text => true,
            _ => false,
        }
    }
}

/// The kinds of a row's cells, of which there are at most 65.
#[derive(Clone, Copy)]
pub struct Layout {
    kinds: [CellKind; MOST_COLUMNS],
    count: usize,
    offsets: [u16; 66],
    texts: bool,
}

impl Model for Layout {
    ghost use Rattle.std.specs.Prelude.{List, ◌≡◌, ◌≤◌, ◌-◌, length, take, drop, replicate};
    ghost use Rattle.row_image.specs.declared.layout.CellKind.{CellKind};
    ghost use Rattle.row_image.specs.declared.layout.CellKind.TheVariants.{Bit};
    ghost use Rattle.row_image.specs.Layout.{has_texts};
    ghost use Rattle.row_image.specs.Padded.{padded, offsets_of, length_front, padded_front, IsKept};

    ghost Value = { List CellKind };

    ghost view = { λ l. take l.count l.kinds };

    ghost invariant = { λ l. IsKept l.kinds l.count l.offsets l.texts };

    ghost inverse = { λ kinds. record { kinds = padded kinds; count = length kinds; offsets = offsets_of kinds; texts = has_texts kinds } };

    ghost inverse_ok = { λ a h. λ i. record {
      kinds = padded_front a.kinds a.count h.most h.whole h.rest i;
      count = length_front a.kinds a.count h.most h.whole i;
      offsets = h.places i;
      texts = h.has i;
    } };
}

impl Layout {
    /// The layout of rows with these cells.
    pub fn new_layout(kinds: &[CellKind]) -> Layout
        requires some { 1 ≤ length kinds.now }
        requires most { length kinds.now ≤ MOST_COLUMNS }
        ensures { result ≡ kinds.now }
    {
        let mut all = [CellKind::Bit; MOST_COLUMNS];
        all[..kinds.len()].copy_from_slice(kinds);
        Layout {
            kinds: all,
            count: kinds.len(),
            offsets: offsets(kinds),
            texts: has_texts(kinds),
        }
    }

    /// How many columns there are.
    pub fn columns(&self) -> usize
        ensures count { result ≡ length self.now }
        ensures most { result ≤ MOST_COLUMNS }
    {
        self.count
    }

    /// A column's kind.
    pub fn kind(&self, column: usize) -> CellKind
        requires { column < length self.now }
        ensures { result ≡ slice_index_or self.now column CellKind.Bit }
    {
        self.kinds[column]
    }

    /// Where a column's cell begins in a row, and at the number of columns the width of a row.
    pub fn offset(&self, column: usize) -> usize
        requires { column ≤ length self.now }
        ensures { result ≡ offset_of self.now column }
    {
        let offsets = &self.offsets;
        offsets[column] as usize
    }

    /// How many bytes the null mask takes, behind which the hash stands.
    #[tactic(auto, unfolding(crate::specs::Layout::mask_bytes))]
    pub fn mask_bytes(&self) -> usize
        ensures count { result ≡ mask_bytes self.now }
        ensures most { result ≤ 9 }
    {
        (self.columns() + 7) / 8
    }

    /// How many bytes a row takes.
    pub fn width(&self) -> usize
        ensures width { result ≡ width_of self.now }
        ensures most { result ≤ 1057 }
        ensures least { 8 ≤ result }
    {
        self.offset(self.columns())
    }

    /// Where a row begins on its page.
    #[tactic(auto, unfolding(crate::specs::Layout::row_place))]
    pub fn row_place(&self, row: u32) -> usize
        ensures { result ≡ row_place self.now row }
    {
        ROW_HEAD + row as usize * self.width()
    }

    /// Whether there is a column of texts.
    pub fn has_texts(&self) -> bool
        ensures { result ≡ has_texts self.now }
    {
        self.texts
    }

    /// How many rows fit on a page of that many bytes.
    pub fn rows_that_fit(&self, page: usize) -> usize
        requires { LEAST_PAGE ≤ page }
        ensures { result ≡ rows_that_fit self.now page }
    {
        (page - ROW_HEAD) / self.width()
    }
}

// Whether a column is of texts.
#[tactic(auto, unfolding(crate::specs::Layout::has_texts))]
fn has_texts(kinds: &[CellKind]) -> bool
    ensures { result ≡ has_texts kinds.now }
{
    kinds.iter().any(|kind| kind.is_text())
}

// Where each column's cell begins, and from the number of columns on the width of a row.
fn offsets(kinds: &[CellKind]) -> [u16; 66]
    requires { length kinds.now ≤ 65 }
    ensures { result ≡ offsets_of kinds.now }
{
    let mut places = [0; 66];
    let mut at = ((kinds.len() + 7) / 8 + 8) as u16;
    for column in 0..66 {
        places[column] = at;
        if column < kinds.len() {
            at += kinds[column].width();
        }
    }
    places
}
