//! The end of a set.
ghost use Rattle.std.specs.Prelude.{[]};
ghost use Rattle.row_sets.specs.Holds.{nothing, pages_only, Unpinned, IsRetirable};
ghost use Rattle.page_body.specs.PageLists.{ids_of};
ghost use Rattle.row_sets.specs.Changes.{Changes};
ghost use Rattle.row_sets.specs.Sets.{Formed, IsHere, set_ids, set_holding, pages_in, page_list, with_heap};
ghost use Rattle.row_sets.specs.Given.{page_holding};

use crate::row_set::{RowSet, SetPage};
use page_body::Pages;
use rebase_pins::RowPage;

/// Retires all pages of a set. It can't be refused.
pub fn retire_set<P: Pages>(pages: &mut P, set: RowSet<P::Page>)
    requires formed { Formed P.terms set }
    requires here { IsHere (P.view pages.old) set }
    requires unpinned { Unpinned P.terms (P.view pages.old) (set_ids P.terms set) }
    ensures { Changes P.terms (set_holding P.terms set) nothing (P.view pages.old) (P.view pages.new) }
{
    let RowSet {
        kinds: _kinds,
        layout: _layout,
        page_bytes: _page_bytes,
        pages: all,
        rows: _rows,
        long_bytes: _long_bytes,
        asked_bytes: _asked_bytes,
    } = set;
    retire_pages(pages, all);
}

/// Retires the pages of a list of row pages.
pub fn retire_pages<P: Pages>(pages: &mut P, all: Vec<SetPage<P::Page>>)
    requires { IsRetirable P.terms (P.view pages.old) (pages_in all.items) }
    ensures { Changes P.terms (pages_only (ids_of P.terms (pages_in all.items))) nothing (P.view pages.old) (P.view pages.new) }
{
    let mut left = all;
    'pages: loop {
        match left.pop() {
            Some(last) => {
                let SetPage { page, rows: _rows } = last;
                retire_row_page(pages, page);
            }
            None => {
                left.destroy_empty();
                return;
            }
        }
    }
}

// Retires a row page and its heap pages.
fn retire_row_page<P: Pages>(pages: &mut P, page: RowPage<P::Page>)
    requires { IsRetirable P.terms (P.view pages.old) (page_list page) }
    ensures { Changes P.terms (pages_only (ids_of P.terms (page_list page))) nothing (P.view pages.old) (P.view pages.new) }
{
    let RowPage {
        rows,
        heap0,
        heap1,
        heap2,
        heap3,
    } = page;
    pages.retire(rows);
    retire_heap(pages, heap0);
    retire_heap(pages, heap1);
    retire_heap(pages, heap2);
    retire_heap(pages, heap3);
}

/// Retires a page, if there is one.
pub fn retire_heap<P: Pages>(pages: &mut P, page: Option<P::Page>)
    requires { IsRetirable P.terms (P.view pages.old) (with_heap page []) }
    ensures { Changes P.terms (page_holding P.terms page) nothing (P.view pages.old) (P.view pages.new) }
{
    if let Some(page) = page {
        pages.retire(page);
    }
}
