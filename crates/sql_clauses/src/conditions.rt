//! Conditions, and the conjuncts of WHERE.
ghost use Rattle.std.specs.Prelude.{◌≡◌, ◌++◌, ◌∷◌, ◌&&◌, [], IfOk, Ok};
ghost use Rattle.sql_scope.specs.Answer.{Gives, GoesOn, GoesOnBoth};
ghost use Rattle.ooc_types.specs.declared.schema.SqlType.TheVariants.{Boolean};
ghost use Rattle.sql_scope.specs.Operations as types;
ghost use Rattle.sql_clauses.specs.Conditions as rules;

use crate::pairs::both;
use bound_tree::Conjunct;
use ooc_types::{OutOfMemory, RefusalKind, SqlType};
use sql_expr::{Expr, Exprs, kind_of};
use sql_scope::{BindFault, BoundPart, Part, is_boolean};
use sqlite_items::Items;
use std::alloc::Global;

/// An operand of WHERE's outermost AND, and its type.
#[derive(Drop)]
pub struct FilterOperand {
    pub conjunct: Conjunct,
    pub kind: SqlType,
}

/// The operands of WHERE as far as they were bound, and the type of what stands there.
#[derive(Drop)]
pub struct Filter {
    pub conjuncts: Items<Conjunct>,
    pub kind: SqlType,
}

fn mismatch(place: usize) -> BindFault
    ensures { result ≡ rules.mismatch_at place }
{
    BindFault::Refused {
        place,
        kind: RefusalKind::TypeMismatch,
    }
}

/// A condition is BOOLEAN; its first token stands at `place`.
pub(crate) fn condition(place: usize, part: Part) -> BoundPart
    ensures { Gives (rules.condition place part) result }
{
    if !is_boolean(kind_of(part.tree.get())) {
        return Err(mismatch(place));
    }
    Ok(part)
}

/// The operands of the outermost AND.
pub(crate) fn conjuncts(alloc: Global, tree: Expr) -> Result<Exprs, OutOfMemory>
    ensures { IfOk result (λ list. list ≡ rules.conjuncts tree) }
{
    match tree {
        Expr::Every { list } => Ok(list),
        other => {
            let mut list = Items::new(alloc);
            list.push(other)?;
            Ok(list)
        }
    }
}

/// The conjuncts of ON.
pub(crate) fn on_condition(alloc: Global, place: usize, part: BoundPart) -> Result<Exprs, BindFault>
    ensures { GoesOn (rules.on_condition place) part result }
{
    let part = condition(place, part?)?;
    Ok(conjuncts(alloc, part.tree.into_inner())?)
}

/// An operand of WHERE that is an expression.
pub fn plain_operand(part: BoundPart) -> Result<FilterOperand, BindFault>
    ensures { GoesOn rules.plain_operand part result }
{
    let part = part?;
    let kind = kind_of(part.tree.get());
    Ok(FilterOperand {
        conjunct: Conjunct::Condition(part.tree.into_inner()),
        kind,
    })
}

/// The first operand alone.
pub fn begun(alloc: Global, operand: Result<FilterOperand, BindFault>) -> Result<Filter, BindFault>
    ensures { GoesOn rules.begun operand result }
{
    let FilterOperand { conjunct, kind } = operand?;
    let mut conjuncts = Items::new(alloc);
    conjuncts.push(conjunct)?;
    Ok(Filter { conjuncts, kind })
}

fn with_operand(filter: Filter, operand: FilterOperand) -> Result<Filter, OutOfMemory>
    ensures { IfOk result (λ all. all ≡ record { conjuncts = filter.conjuncts ++ operand.conjunct ∷ []; kind = Boolean }) }
{
    let FilterOperand { conjunct, .. } = operand;
    let Filter { mut conjuncts, .. } = filter;
    conjuncts.push(conjunct)?;
    Ok(Filter {
        conjuncts,
        kind: SqlType::Boolean,
    })
}

fn are_conditions(left: SqlType, right: SqlType) -> bool
    ensures { result ≡ (types.is_boolean left && types.is_boolean right) }
{
    is_boolean(left) && is_boolean(right)
}

fn joined_pair(
    place: usize,
    pair: Result<(Filter, FilterOperand), BindFault>,
) -> Result<Filter, BindFault>
    ensures { GoesOn (λ p. rules.joined place p.0 p.1) pair result }
{
    let (filter, operand) = pair?;
    if !are_conditions(filter.kind, operand.kind) {
        return Err(mismatch(place));
    }
    Ok(with_operand(filter, operand)?)
}

/// One more operand, behind an AND at this place.
pub fn joined(
    place: usize,
    filter: Result<Filter, BindFault>,
    operand: Result<FilterOperand, BindFault>,
) -> Result<Filter, BindFault>
    ensures { GoesOnBoth (rules.joined place) filter operand result }
{
    joined_pair(place, both(filter, operand))
}

/// The conjuncts of WHERE, whose condition's first token stands at `place`.
pub fn ended(place: usize, filter: Result<Filter, BindFault>) -> Result<Items<Conjunct>, BindFault>
    ensures { GoesOn (rules.ended place) filter result }
{
    let filter = filter?;
    if !is_boolean(filter.kind) {
        return Err(mismatch(place));
    }
    Ok(filter.conjuncts)
}
