//! Sets of rows.
ghost use Rattle.std.specs.Prelude.{◌≡◌, ◌<◌, length, slice_get, IsSomeAnd};

use crate::kinds::Kinds;
use ooc_types::SqlType;
use rebase_pins::RowPage;
use row_image::Layout;

/// A row page of a set with its heap pages, and how many rows it had when it was sealed.
pub struct SetPage<H> {
    pub page: RowPage<H>,
    pub rows: u64,
}

/// A set of rows on sealed pages. Of long texts it has the bytes, and those for which its writer was asked for room.
pub struct RowSet<H> {
    pub kinds: Kinds,
    pub layout: Layout,
    pub page_bytes: u32,
    pub pages: Vec<SetPage<H>>,
    pub rows: u64,
    pub long_bytes: u64,
    pub asked_bytes: u64,
}

impl<H> RowSet<H> {
    /// How many rows there are.
    pub fn len(&self) -> u64
        ensures { result ≡ self.now.rows }
    {
        self.rows
    }

    /// How many row pages there are.
    pub fn row_pages(&self) -> usize
        ensures { result ≡ length self.now.pages.items }
    {
        self.pages.len()
    }

    /// A row page with its heap pages.
    pub fn row_page(&self, page: usize) -> &RowPage<H>
        requires { page < length self.now.pages.items }
        ensures { IsSomeAnd (slice_get self.now.pages.items page) (λ p. result.now ≡ p.page) }
    {
        &self.pages[page].page
    }

    /// How many rows a row page had when it was sealed.
    pub fn rows_on(&self, page: usize) -> u64
        requires { page < length self.now.pages.items }
        ensures { IsSomeAnd (slice_get self.now.pages.items page) (λ p. result ≡ p.rows) }
    {
        self.pages[page].rows
    }

    /// The types of the columns.
    pub fn kinds(&self) -> &[SqlType]
        ensures { result.now ≡ self.now.kinds }
    {
        self.kinds.as_slice()
    }

    /// How many columns there are.
    pub fn columns(&self) -> usize
        ensures { result ≡ length self.now.kinds }
    {
        self.kinds.as_slice().len()
    }

    /// How many bytes the texts have that don't lie in their cells.
    pub fn long_bytes(&self) -> u64
        ensures { result ≡ self.now.long_bytes }
    {
        self.long_bytes
    }

    /// For how many bytes of such texts its writer was asked for room: `long_bytes`, where each row was added that room was
    /// got for.
    pub fn asked_bytes(&self) -> u64
        ensures { result ≡ self.now.asked_bytes }
    {
        self.asked_bytes
    }
}
