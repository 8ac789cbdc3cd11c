//! The bytes of a set's first pages.
ghost use Rattle.std.specs.Prelude.{◌+◌, ◌≤◌, IfSome};
ghost use Rattle.page_body.specs.Keeps.{Kept};
ghost use Rattle.rebase_pins.specs.RowPages.{IsOwned};
ghost use Rattle.row_sets.specs.Holds.{nothing};
ghost use Rattle.row_sets.specs.Changes.{Changes};
ghost use Rattle.row_sets.specs.Sets.{Formed, IsHere, NoRowPins};
ghost use Rattle.row_sets_runs.specs.Columns.{MayBeColumns};

use crate::forms::are_columns;
use crate::writing::build;
use ooc_types::{Row, SqlType};
use page_body::{Pages, PoolFault};
use rebase_pins::{RowPins, release};
use row_sets::{RowSet, pin_page, retire_set};
use std::alloc::Global;

/// The bytes of a row page and of its first heap page.
#[derive(Clone, Copy)]
pub struct Images<'a> {
    pub rows: &'a [u8],
    pub heap: &'a [u8],
}

/// Whether the first row page of a set of these rows, and its first heap page, have these bytes while they are pinned.
pub fn writes_images<P: Pages>(
    alloc: Global,
    pages: &mut P,
    kinds: &[SqlType],
    rows: &[Row],
    images: Images,
) -> Result<bool, PoolFault>
    requires room { (P.view pages.old).held + 9 ≤ (P.view pages.old).grant }
    ensures changes { Changes P.terms nothing nothing (P.view pages.old) (P.view pages.new) }
{
    if !are_columns(kinds) {
        return Ok(false);
    }
    let set = build(alloc, pages, kinds, rows)?;
    let same = has_images(pages, &set, images);
    retire_set(pages, set);
    same
}

// Whether the first pages of a set have these bytes.
fn has_images<P: Pages>(
    pages: &mut P,
    set: &RowSet<P::Page>,
    images: Images,
) -> Result<bool, PoolFault>
    requires formed { Formed P.terms set.now }
    requires here { IsHere (P.view pages.old) set.now }
    requires alone { NoRowPins P.terms (P.view pages.old) set.now }
    requires room { (P.view pages.old).held + 5 ≤ (P.view pages.old).grant }
    ensures kept { Kept (P.view pages.old) (P.view pages.new) }
{
    if set.row_pages() == 0 {
        return Ok(false);
    }
    let pins = pin_page(pages, set, 0)?;
    let same = are_under(pages, &pins, images);
    release(pages, pins);
    Ok(same)
}

// Whether the pages under pins have these bytes.
fn are_under<P: Pages>(pages: &P, pins: &RowPins<P::Pin>, images: Images) -> bool
    requires { IsOwned P.terms (P.view pages.now) pins.now }
{
    match &pins.heap0 {
        Some(heap) => pages.bytes(&pins.rows) == images.rows && pages.bytes(heap) == images.heap,
        None => false,
    }
}
