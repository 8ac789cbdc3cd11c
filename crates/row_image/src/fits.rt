//! Laws on what fits a page. The functions do nothing; their contracts say the laws.
ghost use Rattle.std.specs.Prelude.{ℕ, List, length, ◌+◌, ◌*◌, ◌≤◌};
ghost use Rattle.row_image.specs.declared.layout.CellKind.{CellKind};
ghost use Rattle.row_image.specs.declared.limits.TheConstants.{HEAP_HEAD, MOST_COLUMNS, MOST_TEXTS};
ghost use Rattle.row_image.specs.Bytes.{IsPage};
ghost use Rattle.row_image.specs.Layout.{rows_that_fit};
ghost use Rattle.row_image.specs.Rules.{text_limit};

/// A row fits a page, so a page of no rows is never full.
pub fn a_row_fits_a_page()
    ensures { (kinds : List CellKind) (page : ℕ) → IsPage page → length kinds ≤ MOST_COLUMNS → 1 ≤ rows_that_fit kinds page }
{}

/// As many texts of the limit as a row has at most fit a heap page of no texts.
pub fn texts_of_the_limit_fit_a_heap_page()
    ensures { (page : ℕ) → IsPage page → HEAP_HEAD + MOST_TEXTS * text_limit page ≤ page }
{}
