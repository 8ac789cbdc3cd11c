//! A core, once its clauses are bound.
ghost use Rattle.std.specs.Prelude.{◌≡◌, ◌≤◌, ◌++◌, Some, IfOk, OnOk, length};
ghost use Rattle.sql_scope.specs.Answer.{Gives, GoesOn, GoesOnBoth};
ghost use Rattle.sql_clauses.specs.Aggregates.{AreAmong};
ghost use Rattle.sql_clauses.specs.Grouping.{group_place, most_places, over_group as grouped_tree};
ghost use Rattle.sql_clauses.specs.Cores as rules;

use crate::aggregates::{Gathered, are_unmixed, first_call, gather};
use crate::conditions::{condition, conjuncts};
use crate::grouping::{list_over, tree_over};
use crate::items::{Outputs, covered};
use crate::pairs::both;
use crate::tables::MOST_COLUMNS;
use bound_tree::{BoundCore, BoundRows, BoundSource, Conjunct, Grouping};
use ooc_types::{OutOfMemory, RefusalKind, Schema};
use sql_expr::{Expr, Exprs};
use sql_scope::{BindFault, BoundPart, Call, Part, ScopeColumn};
use sqlite_items::{Boxed, Items};
use std::alloc::Global;
use std::mem;

/// How many items a core may have.
const MOST_ITEMS: usize = 64;

/// The items of a core, with its HAVING if it has one. Their aggregates stand with the outputs.
#[derive(Drop)]
pub struct Selected {
    pub outputs: Outputs,
    pub having: Option<Boxed<Expr>>,
}

/// A core whose clauses are bound; `place` is that of its SELECT.
#[derive(Drop)]
pub struct Core {
    pub place: usize,
    pub distinct: bool,
    pub sources: Items<BoundSource>,
    pub columns: Items<ScopeColumn>,
    pub conjuncts: Items<Conjunct>,
    pub grouped: bool,
    pub keys: Exprs,
    pub selected: Selected,
}

/// Rows, and the names and types of their columns.
#[derive(Drop)]
pub struct NamedRows {
    pub rows: Boxed<BoundRows>,
    pub columns: Schema,
}

/// The items of a core without HAVING.
pub fn without_having(outputs: Result<Outputs, BindFault>) -> Result<Selected, BindFault>
    ensures { GoesOn rules.without_having outputs result }
{
    let outputs = outputs?;
    Ok(Selected {
        outputs,
        having: None,
    })
}

fn add_calls(outputs: &mut Outputs, calls: Items<Call>) -> Result<(), OutOfMemory>
    ensures { OnOk result (outputs.new ≡ record outputs.old { calls = outputs.old.calls ++ calls }) }
{
    outputs.calls.append(calls)?;
    Ok(())
}

fn with_test(outputs: Outputs, part: Part) -> Result<Selected, BindFault>
    ensures { Gives (rules.with_test outputs part) result }
{
    let Part { tree, calls, .. } = part;
    let mut outputs = outputs;
    add_calls(&mut outputs, calls)?;
    Ok(Selected {
        outputs,
        having: Some(tree),
    })
}

fn having_behind(place: usize, outputs: Outputs, part: Part) -> Result<Selected, BindFault>
    ensures { Gives (rules.with_having place outputs part) result }
{
    let part = covered(true, condition(place, part)?)?;
    with_test(outputs, part)
}

fn having_pair(
    place: usize,
    pair: Result<(Outputs, Part), BindFault>,
) -> Result<Selected, BindFault>
    ensures { GoesOn (λ p. rules.with_having place p.0 p.1) pair result }
{
    let (outputs, part) = pair?;
    having_behind(place, outputs, part)
}

/// HAVING behind the items; its first token stands at `place`.
pub fn with_having(
    place: usize,
    outputs: Result<Outputs, BindFault>,
    part: BoundPart,
) -> Result<Selected, BindFault>
    ensures { GoesOnBoth (rules.with_having place) outputs part result }
{
    having_pair(place, both(outputs, part))
}

/// `count(DISTINCT x)` stands beside no other aggregate.
pub fn unmixed(selected: Result<Selected, BindFault>) -> Result<Selected, BindFault>
    ensures { GoesOn rules.unmixed selected result }
{
    let selected = selected?;
    let calls = selected.outputs.calls.as_slice();
    if !are_unmixed(calls) {
        return Err(BindFault::Refused {
            place: first_call(calls),
            kind: RefusalKind::DistinctMix,
        });
    }
    Ok(selected)
}

fn is_narrow(core: &Core, all: &Gathered) -> bool
    ensures { result ≡ rules.is_narrow core.now all.now }
{
    let items = core.selected.outputs.trees.as_slice().len();
    let keys = core.keys.as_slice().len();
    let aggregates = all.aggregates.as_slice().len();
    items <= MOST_ITEMS && keys <= MOST_COLUMNS && aggregates <= MOST_COLUMNS - keys
}

fn plain_rows(core: Core) -> BoundRows
    ensures { result ≡ rules.plain_rows core }
{
    let Core {
        sources,
        conjuncts,
        selected,
        distinct,
        ..
    } = core;
    BoundRows::Core(BoundCore {
        sources,
        conjuncts,
        grouping: None,
        items: selected.outputs.trees,
        distinct,
    })
}

// HAVING over the row of a group is rewritten whole, before it is taken apart at its AND: the AND may be a key.
fn having_over(alloc: Global, core: &Core, all: &Gathered) -> Result<Option<Exprs>, OutOfMemory>
    requires keys { length core.now.keys ≤ most_places }
    requires calls { AreAmong most_places all.now.calls }
    ensures { IfOk result (λ having. having ≡ rules.having_over core.now all.now core.now.selected.having) }
{
    match &core.selected.having {
        Some(tree) => {
            let tree = having_tree(alloc, core, all, tree.get())?;
            Ok(Some(conjuncts(alloc, tree)?))
        }
        None => Ok(None),
    }
}

fn having_tree(alloc: Global, core: &Core, all: &Gathered, tree: &Expr) -> Result<Expr, OutOfMemory>
    requires keys { length core.now.keys ≤ most_places }
    requires calls { AreAmong most_places all.now.calls }
    ensures { IfOk result (λ over. over ≡ grouped_tree core.now.keys (group_place (length core.now.keys) (length core.now.columns) all.now.calls) tree.now) }
{
    let keys = core.keys.as_slice();
    let width = core.columns.len();
    let calls = all.calls.as_slice();
    tree_over(alloc, tree, keys, width, calls)
}

fn grouped_trees(
    alloc: Global,
    core: &Core,
    all: &Gathered,
    trees: &Exprs,
) -> Result<Exprs, OutOfMemory>
    requires keys { length core.now.keys ≤ most_places }
    requires calls { AreAmong most_places all.now.calls }
    ensures { IfOk result (λ over. over ≡ rules.grouped_trees core.now all.now trees.now) }
{
    let list = trees.as_slice();
    let keys = core.keys.as_slice();
    let width = core.columns.len();
    let calls = all.calls.as_slice();
    list_over(alloc, list, keys, width, calls)
}

fn over_group(
    alloc: Global,
    core: &Core,
    all: &Gathered,
) -> Result<(Exprs, Option<Exprs>), OutOfMemory>
    requires keys { length core.now.keys ≤ most_places }
    requires calls { AreAmong most_places all.now.calls }
    ensures { IfOk result (λ over. over ≡ (rules.grouped_trees core.now all.now core.now.selected.outputs.trees, rules.having_over core.now all.now core.now.selected.having)) }
{
    let items = grouped_trees(alloc, core, all, &core.selected.outputs.trees)?;
    let having = having_over(alloc, core, all)?;
    Ok((items, having))
}

fn rows_over(core: Core, all: Gathered, over: (Exprs, Option<Exprs>)) -> BoundRows
    ensures { result ≡ rules.core_rows core (Some (record { keys = core.keys; aggregates = all.aggregates; having = over.1 })) over.0 }
{
    let (items, having) = over;
    let Core {
        sources,
        conjuncts,
        keys,
        distinct,
        ..
    } = core;
    BoundRows::Core(BoundCore {
        sources,
        conjuncts,
        grouping: Some(Grouping {
            keys,
            aggregates: all.aggregates,
            having,
        }),
        items,
        distinct,
    })
}

fn grouped_rows(alloc: Global, core: Core, all: Gathered) -> Result<BoundRows, OutOfMemory>
    requires keys { length core.keys ≤ most_places }
    requires calls { AreAmong most_places all.calls }
    ensures { IfOk result (λ rows. rows ≡ rules.grouped_rows core all) }
{
    let over = over_group(alloc, &core, &all)?;
    Ok(rows_over(core, all, over))
}

fn named_rows(alloc: Global, core: Core, all: Gathered) -> Result<NamedRows, BindFault>
    requires { AreAmong (length all.aggregates) all.calls }
    ensures { Gives (rules.named_rows core all) result }
{
    if !is_narrow(&core, &all) {
        return Err(BindFault::Refused {
            place: core.place,
            kind: RefusalKind::TooManyColumns,
        });
    }
    Ok(narrow_rows(alloc, core, all)?)
}

fn narrow_rows(alloc: Global, core: Core, all: Gathered) -> Result<NamedRows, OutOfMemory>
    requires keys { length core.keys ≤ most_places }
    requires calls { AreAmong most_places all.calls }
    ensures { IfOk result (λ rows. rows ≡ record { rows = rules.rows_of core all; columns = core.selected.outputs.columns }) }
{
    let columns = core.selected.outputs.columns.clone()?;
    let rows = rows_of(alloc, core, all)?;
    Ok(NamedRows {
        rows: Boxed::new(alloc, rows)?,
        columns,
    })
}

fn rows_of(alloc: Global, core: Core, all: Gathered) -> Result<BoundRows, OutOfMemory>
    requires keys { length core.keys ≤ most_places }
    requires calls { AreAmong most_places all.calls }
    ensures { IfOk result (λ rows. rows ≡ rules.rows_of core all) }
{
    if core.grouped {
        return grouped_rows(alloc, core, all);
    }
    Ok(plain_rows(core))
}

/// The rows of a core, once its order is bound or it is an operand.
pub(crate) fn finished(alloc: Global, core: Core) -> Result<NamedRows, BindFault>
    ensures { Gives (rules.finished core) result }
{
    let mut core = core;
    let calls = mem::replace(&mut core.selected.outputs.calls, Items::new(alloc));
    let all = gather(alloc, calls)?;
    named_rows(alloc, core, all)
}
