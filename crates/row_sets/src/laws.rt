//! How many pages a set has. The functions do nothing; their contracts say the laws.
ghost use Rattle.std.specs.Prelude.{◌*◌, ◌≤◌, length};
ghost use Rattle.row_image.specs.Layout.{width_of};
ghost use Rattle.page_body.specs.PageLists.{AllLive, Differ, ids_of};
ghost use Rattle.row_sets.specs.Packed.{packed_pages};
ghost use Rattle.row_sets.specs.Sets.{Formed, IsHere, set_pages, row_pages_in};

use crate::row_set::RowSet;
use page_body::Pages;

/// The bytes of a set's rows are at most those of its row pages, which are among its pages. These are live, and differ where
/// retiring ends lives, so that the pages of several sets make one list for the pool's law on pages that were written.
pub fn rows_lie_on_pages<P: Pages>(_pages: &P, _set: &RowSet<P::Page>)
    requires formed { Formed P.terms _set.now }
    requires here { IsHere (P.view _pages.now) _set.now }
    ensures rows { _set.now.rows * width_of _set.now.layout ≤ length (row_pages_in _set.now.pages.items) * (P.view _pages.now).page_bytes }
    ensures among { length (row_pages_in _set.now.pages.items) ≤ length (set_pages _set.now) }
    ensures live { AllLive (P.view _pages.now) (set_pages _set.now) }
    ensures differ { Differ P.terms (ids_of P.terms (set_pages _set.now)) }
{}

/// A set has few pages: at most so many as its rows take, and the long texts for which its writer was asked for room.
pub fn sets_are_packed<P: Pages>(_set: &RowSet<P::Page>)
    requires { Formed P.terms _set.now }
    ensures pages { length (set_pages _set.now) ≤ packed_pages _set.now.rows _set.now.asked_bytes (width_of _set.now.layout) _set.now.page_bytes }
    ensures asked { _set.now.long_bytes ≤ _set.now.asked_bytes }
{}
