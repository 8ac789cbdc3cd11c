//! IN with a subquery.
ghost use Rattle.std.specs.Prelude.{◌≡◌};
ghost use Rattle.sql_scope.specs.Answer.{Gives, GoesOnBoth};
ghost use Rattle.sql_clauses.specs.Membership as rules;

use crate::conditions::FilterOperand;
use bound_tree::{BoundSelect, Conjunct};
use ooc_types::{Column, RefusalKind, SqlType};
use sql_expr::{Expr, kind_of};
use sql_scope::{BindFault, BoundPart, are_comparable};
use sqlite_items::Boxed;

fn only_type(place: usize, columns: &[Column]) -> Result<SqlType, BindFault>
    ensures { Gives (rules.only_type place columns.now) result }
{
    match columns {
        [column] => Ok(column.kind),
        _ => Err(BindFault::Refused {
            place,
            kind: RefusalKind::ColumnCount,
        }),
    }
}

fn matched(
    place: usize,
    select: usize,
    of: &Expr,
    query: &BoundSelect,
) -> Result<SqlType, BindFault>
    ensures { Gives (rules.matched place select of.now query.now) result }
{
    let kind = only_type(select, query.columns.as_slice())?;
    if !are_comparable(kind_of(of), kind) {
        return Err(BindFault::Refused {
            place,
            kind: RefusalKind::TypeMismatch,
        });
    }
    Ok(kind)
}

/// IN at `place` as a conjunct of WHERE; `select` is the place of its subquery's SELECT.
pub fn member(
    place: usize,
    select: usize,
    negated: bool,
    of: BoundPart,
    query: Result<Boxed<BoundSelect>, BindFault>,
) -> Result<FilterOperand, BindFault>
    ensures { GoesOnBoth (rules.member place select negated) of query result }
{
    let of = of?;
    let query = query?;
    matched(place, select, of.tree.get(), query.get())?;
    Ok(FilterOperand {
        conjunct: Conjunct::Member {
            of: of.tree.into_inner(),
            query,
            negated,
        },
        kind: SqlType::Boolean,
    })
}

/// IN at `place` where it is no conjunct of WHERE.
pub fn misplaced(
    place: usize,
    select: usize,
    of: BoundPart,
    query: Result<Boxed<BoundSelect>, BindFault>,
) -> BoundPart
    ensures { GoesOnBoth (rules.misplaced place select) of query result }
{
    let of = of?;
    let query = query?;
    matched(place, select, of.tree.get(), query.get())?;
    Err(BindFault::Refused {
        place,
        kind: RefusalKind::InHere,
    })
}
