//! A set that is being written.
ghost use Rattle.std.specs.Prelude.{◌≤◌, length};
ghost use Rattle.row_image.specs.declared.limits.TheConstants.{MOST_COLUMNS};
ghost use Rattle.row_sets.specs.Given.{IsNewWriter};

use crate::kinds::{Kinds, layout_of};
use crate::row_set::SetPage;
use ooc_types::SqlType;
use page_body::OpenPage;
use row_image::Layout;
use std::alloc::Global;

/// A set that is being written: its row pages that are done, the row page and the heap page that are open, and the heap
/// pages of the open row page that are sealed. Of long texts it counts the bytes that were added, and those that were asked
/// for: what was added, and what a heap page was sealed for that wasn't added yet.
pub struct Writer<H> {
    pub kinds: Kinds,
    pub layout: Layout,
    pub page_bytes: u32,
    pub pages: Vec<SetPage<H>>,
    pub open_rows: Option<OpenPage>,
    pub open_heap: Option<OpenPage>,
    pub heap0: Option<H>,
    pub heap1: Option<H>,
    pub heap2: Option<H>,
    pub heap3: Option<H>,
    pub sealed_heaps: u32,
    pub first_heap: u32,
    pub rows: u64,
    pub long_bytes: u64,
    pub asked_bytes: u64,
}

impl<H> Writer<H> {
    /// A set of no rows yet, which takes no memory yet, for a pool of pages of that many bytes.
    pub fn new_writer(alloc: Global, kinds: &[SqlType], page_bytes: u32) -> Writer<H>
        requires some { 1 ≤ length kinds.now }
        requires few { length kinds.now ≤ MOST_COLUMNS }
        ensures { IsNewWriter kinds.now page_bytes result }
    {
        Writer {
            kinds: Kinds::new_kinds(kinds),
            layout: layout_of(kinds),
            page_bytes,
            pages: Vec::new(alloc),
            open_rows: None,
            open_heap: None,
            heap0: None,
            heap1: None,
            heap2: None,
            heap3: None,
            sealed_heaps: 0,
            first_heap: 0,
            rows: 0,
            long_bytes: 0,
            asked_bytes: 0,
        }
    }
}
