//! Whether the columns of a SELECT have numbers of 32 bits, as a plan asks.
ghost use Rattle.std.specs.Prelude.{◌≡◌, ◌<◌, ◌&&◌, true};
ghost use Rattle.std.specs.List.{AllByRecursion};
ghost use Rattle.plan_tree.specs.Plannable.{columns_of_sources};
ghost use Rattle.sql_plan.specs.Chosen.{columns_limit};
ghost use Rattle.sql_plan.specs.Numbered.{AreNumbered, AreNumberedConjunct, AreNumberedCore, AreNumberedInput, AreNumberedRows, AreNumberedSource};

use bound_tree::{BoundCore, BoundRows, BoundSelect, BoundSource, Conjunct, SourceRows};

/// The greatest number of 32 bits.
const MOST_COLUMNS: usize = 4_294_967_295;

fn both(first: bool, second: bool) -> bool
    ensures { result ≡ first && second }
{
    first && second
}

// Whether the sources have together no more columns.
fn are_few(sources: &[BoundSource]) -> bool
    ensures { result ≡ true → columns_of_sources sources.now < columns_limit }
{
    let mut left = MOST_COLUMNS;
    for source in sources {
        let width = source.kinds.len();
        if left < width {
            return false;
        }
        left -= width;
    }
    true
}

#[cycle(numbered)]
fn is_numbered_input(rows: &SourceRows) -> bool
    ensures { result ≡ true → AreNumberedInput rows.now }
{
    match rows {
        SourceRows::Table(_) => true,
        SourceRows::Query(select) => is_numbered(select.get()),
    }
}

#[cycle(numbered)]
fn are_numbered_sources(sources: &[BoundSource]) -> bool
    ensures { result ≡ true → AllByRecursion AreNumberedSource sources.now }
{
    let mut all = true;
    for source in sources {
        all = both(all, is_numbered_input(&source.rows));
    }
    all
}

#[cycle(numbered)]
fn is_numbered_conjunct(conjunct: &Conjunct) -> bool
    ensures { result ≡ true → AreNumberedConjunct conjunct.now }
{
    match conjunct {
        Conjunct::Condition(_) => true,
        Conjunct::Member { query, .. } => is_numbered(query.get()),
    }
}

#[cycle(numbered)]
fn are_numbered_conjuncts(conjuncts: &[Conjunct]) -> bool
    ensures { result ≡ true → AllByRecursion AreNumberedConjunct conjuncts.now }
{
    let mut all = true;
    for conjunct in conjuncts {
        all = both(all, is_numbered_conjunct(conjunct));
    }
    all
}

#[cycle(numbered)]
fn is_numbered_core(core: &BoundCore) -> bool
    ensures { result ≡ true → AreNumberedCore core.now }
{
    let sources = core.sources.as_slice();
    let few = are_few(sources);
    let from = are_numbered_sources(sources);
    let filter = are_numbered_conjuncts(core.conjuncts.as_slice());
    both(few, both(from, filter))
}

#[cycle(numbered)]
fn are_numbered_rows(rows: &BoundRows) -> bool
    ensures { result ≡ true → AreNumberedRows rows.now }
{
    match rows {
        BoundRows::Core(core) => is_numbered_core(core),
        BoundRows::Set { left, right, .. } => {
            let first = are_numbered_rows(left.get());
            let second = are_numbered_rows(right.get());
            both(first, second)
        }
    }
}

/// Whether each FROM of the SELECT and of its subqueries has no more columns than there are numbers of 32 bits.
#[cycle(numbered)]
pub(crate) fn is_numbered(select: &BoundSelect) -> bool
    ensures { result ≡ true → AreNumbered select.now }
{
    are_numbered_rows(select.rows.get())
}
