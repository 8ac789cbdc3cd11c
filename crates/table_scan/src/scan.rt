//! Which SELECTs are over one table.
ghost use Rattle.std.specs.Prelude.{◌≡◌, ◌∷◌, [], true};
ghost use Rattle.std.specs.List.{list_all};
ghost use Rattle.std.specs.Option.{option_copied};
ghost use Rattle.bound_tree.specs.declared.select.BoundRows.TheViews.{out-SourceRows};
ghost use Rattle.table_scan.specs.Scan as spec;
ghost use Rattle.table_scan.specs.Scan.{core_of_select, is_first_table as is_first_one, table_of_sources, is_condition as is_condition_one, scan_table, is_table_in};

use bound_tree::{BoundCore, BoundRows, BoundSelect, BoundSource, Conjunct, JoinKind, SourceRows};
use ooc_types::Text;

fn is_first(join: JoinKind) -> bool
    ensures { result ≡ spec.is_first join }
{
    match join {
        JoinKind::First => true,
        JoinKind::Inner | JoinKind::Left | JoinKind::Cross => false,
    }
}

fn is_table(rows: &SourceRows) -> bool
    ensures { result ≡ is_table_in (out-SourceRows rows.now) }
{
    match rows {
        SourceRows::Table(_) => true,
        SourceRows::Query(_) => false,
    }
}

fn is_first_table(source: &BoundSource) -> bool
    ensures { result ≡ is_first_one source.now }
{
    is_table(&source.rows) && is_first(source.join) && source.on.as_slice().is_empty()
}

fn is_one_table(sources: &[BoundSource]) -> bool
    ensures { result ≡ spec.is_one_table sources.now }
{
    match sources {
        [source] => is_first_table(source),
        _ => false,
    }
}

fn is_condition(conjunct: &Conjunct) -> bool
    ensures { result ≡ is_condition_one conjunct.now }
{
    match conjunct {
        Conjunct::Condition(_) => true,
        Conjunct::Member { .. } => false,
    }
}

fn are_conditions(conjuncts: &[Conjunct]) -> bool
    ensures { result ≡ list_all is_condition_one conjuncts.now }
{
    for conjunct in conjuncts {
        if !is_condition(conjunct) {
            return false;
        }
    }
    true
}

fn is_scan_core(core: &BoundCore) -> bool
    ensures { result ≡ spec.is_scan_core core.now }
{
    is_one_table(core.sources.as_slice())
        && are_conditions(core.conjuncts.as_slice())
        && core.grouping.is_none()
        && !core.distinct
}

/// The core of a SELECT without set operations.
pub(crate) fn core_of(select: &BoundSelect) -> Option<&BoundCore>
    ensures { option_copied result ≡ core_of_select select.now }
{
    match select.rows.get() {
        BoundRows::Core(core) => Some(core),
        BoundRows::Set { .. } => None,
    }
}

/// Whether a SELECT is over one table, without grouping, DISTINCT, set operations and subqueries.
pub fn is_scan(select: &BoundSelect) -> bool
    ensures { result ≡ spec.is_scan select.now }
{
    match core_of(select) {
        Some(core) => is_scan_core(core),
        None => false,
    }
}

fn table_name(rows: &SourceRows) -> &Text
    requires { is_table_in (out-SourceRows rows.now) ≡ true }
    ensures { result.now ≡ spec.table_in (out-SourceRows rows.now) }
{
    match rows {
        SourceRows::Table(name) => name,
        SourceRows::Query(_) => unreachable!(),
    }
}

/// The only source.
pub(crate) fn first_source(sources: &[BoundSource]) -> &BoundSource
    requires { spec.is_one_table sources.now ≡ true }
    ensures { sources.now ≡ result.now ∷ [] }
{
    match sources {
        [source] => source,
        _ => unreachable!(),
    }
}

fn first_table(sources: &[BoundSource]) -> &Text
    requires { spec.is_one_table sources.now ≡ true }
    ensures { result.now ≡ table_of_sources sources.now }
{
    match sources {
        [source] => table_name(&source.rows),
        _ => unreachable!(),
    }
}

/// The name of that table, in small letters.
pub fn scanned_table(select: &BoundSelect) -> &Text
    requires scan { spec.is_scan select.now ≡ true }
    ensures { result.now ≡ scan_table select.now }
{
    match core_of(select) {
        Some(core) => first_table(core.sources.as_slice()),
        None => unreachable!(),
    }
}
