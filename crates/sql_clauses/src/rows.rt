//! Rows before their order, set operations over them, and the whole SELECT.
ghost use Rattle.std.specs.Prelude.{◌≡◌, IfOk};
ghost use Rattle.sql_scope.specs.Answer.{Gives, GoesOn, GoesOnBoth};
ghost use Rattle.bound_tree.specs.declared.select.BoundRows.TheVariants.{Set as SetRows};
ghost use Rattle.sql_clauses.specs.Sets as kinds;
ghost use Rattle.sql_clauses.specs.Rows as rules;

use crate::cores::{Core, NamedRows, finished};
use crate::order::cut;
use crate::pairs::both;
use crate::sets::{common_columns, types_of};
use bound_tree::{BoundRows, BoundSelect, Cut, SetKind};
use ooc_types::{Column, OutOfMemory};
use sql_expr::Exprs;
use sql_grammar::tree;
use sql_grammar::tree::{Key, Span};
use sql_scope::{BindFault, BoundPart, Scope};
use sqlite_items::Boxed;
use std::alloc::Global;

/// Rows before their order: a core whose columns aren't counted yet, or a set operation.
#[derive(Drop)]
pub enum Unordered {
    Core(Core),
    Set(NamedRows),
}

/// A key of GROUP BY behind those before it.
pub fn with_key(keys: Result<Exprs, BindFault>, part: BoundPart) -> Result<Exprs, BindFault>
    ensures { GoesOnBoth rules.with_key keys part result }
{
    let mut keys = keys?;
    let part = part?;
    keys.push(part.tree.into_inner())?;
    Ok(keys)
}

fn set_kind(kind: tree::SetKind) -> SetKind
    ensures { result ≡ rules.set_kind kind }
{
    match kind {
        tree::SetKind::Union => SetKind::Union,
        tree::SetKind::Except => SetKind::Except,
        tree::SetKind::Intersect => SetKind::Intersect,
    }
}

fn set_rows(
    alloc: Global,
    kind: SetKind,
    all: bool,
    left: Boxed<BoundRows>,
    right: Boxed<BoundRows>,
    columns: &[Column],
) -> Result<Boxed<BoundRows>, OutOfMemory>
    ensures { IfOk result (λ rows. rows ≡ SetRows kind all left right (kinds.types_of columns.now)) }
{
    let kinds = types_of(alloc, columns)?;
    let rows = BoundRows::Set {
        kind,
        all,
        left,
        right,
        kinds,
    };
    Ok(Boxed::new(alloc, rows)?)
}

fn combined_pair(
    alloc: Global,
    kind: tree::SetKind,
    all: bool,
    place: usize,
    pair: Result<(NamedRows, NamedRows), BindFault>,
) -> Result<NamedRows, BindFault>
    ensures { GoesOn (λ p. rules.combined kind all place p.0 p.1) pair result }
{
    let (left, right) = pair?;
    let columns = common_columns(
        alloc,
        place,
        left.columns.as_slice(),
        right.columns.as_slice(),
    )?;
    let kind = set_kind(kind);
    let rows = set_rows(alloc, kind, all, left.rows, right.rows, columns.as_slice())?;
    Ok(NamedRows { rows, columns })
}

/// A set operation, whose second operand begins at `place`.
pub fn combined(
    alloc: Global,
    kind: tree::SetKind,
    all: bool,
    place: usize,
    left: Result<NamedRows, BindFault>,
    right: Result<NamedRows, BindFault>,
) -> Result<NamedRows, BindFault>
    ensures { GoesOnBoth (rules.combined kind all place) left right result }
{
    combined_pair(alloc, kind, all, place, both(left, right))
}

fn cut_rows(
    alloc: Global,
    scope: &Scope<'_>,
    rows: &Unordered,
    order: &[Key],
    limit: Option<Span>,
    offset: Option<Span>,
) -> Result<Option<Cut>, BindFault>
    ensures { Gives (rules.cut_rows scope.now rows.now order.now limit offset) result }
{
    match rows {
        Unordered::Core(core) => {
            let outputs = &core.selected.outputs;
            cut(
                alloc,
                scope,
                core.columns.as_slice(),
                outputs.columns.as_slice(),
                outputs.plain.as_slice(),
                order,
                limit,
                offset,
            )
        }
        Unordered::Set(rows) => cut(
            alloc,
            scope,
            &[],
            rows.columns.as_slice(),
            &[],
            order,
            limit,
            offset,
        ),
    }
}

fn finished_rows(alloc: Global, rows: Unordered) -> Result<NamedRows, BindFault>
    ensures { Gives (rules.finished_rows rows) result }
{
    match rows {
        Unordered::Core(core) => finished(alloc, core),
        Unordered::Set(rows) => Ok(rows),
    }
}

/// Rows as an operand of a set operation.
pub fn operand(alloc: Global, rows: Result<Unordered, BindFault>) -> Result<NamedRows, BindFault>
    ensures { GoesOn rules.finished_rows rows result }
{
    finished_rows(alloc, rows?)
}

fn select_with(
    alloc: Global,
    cut: Option<Cut>,
    rows: NamedRows,
) -> Result<Boxed<BoundSelect>, BindFault>
    ensures { Gives (rules.select_with cut rows) result }
{
    let NamedRows { rows, columns } = rows;
    Ok(Boxed::new(alloc, BoundSelect { rows, columns, cut })?)
}

fn select_rows(
    alloc: Global,
    scope: &Scope<'_>,
    rows: Unordered,
    order: &[Key],
    limit: Option<Span>,
    offset: Option<Span>,
) -> Result<Boxed<BoundSelect>, BindFault>
    ensures { Gives (rules.select_of scope.now order.now limit offset rows) result }
{
    let cut = cut_rows(alloc, scope, &rows, order, limit, offset)?;
    let rows = finished_rows(alloc, rows)?;
    select_with(alloc, cut, rows)
}

/// Rows with their order and its cut.
pub fn select(
    alloc: Global,
    scope: &Scope<'_>,
    rows: Result<Unordered, BindFault>,
    order: &[Key],
    limit: Option<Span>,
    offset: Option<Span>,
) -> Result<Boxed<BoundSelect>, BindFault>
    ensures { GoesOn (rules.select_of scope.now order.now limit offset) rows result }
{
    select_rows(alloc, scope, rows?, order, limit, offset)
}
