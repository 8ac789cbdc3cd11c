//! Calls of functions.
ghost use Rattle.std.specs.Prelude.{◌≡◌, ◌≤◌, IfOk};
ghost use Rattle.sql_scope.specs.Answer.{Gives, GoesOn};
ghost use Rattle.sql_scope.specs.Calls as rules;
ghost use Rattle.sql_scope.specs.Within.{IsWithin};
ghost use Rattle.sql_scope.specs.Texts as texts;

use crate::fault::BindFault;
use crate::part::{BoundPart, Call, Part};
use crate::scope::Scope;
use crate::texts::folded_at;
use bound_tree::{Aggregate, AggregateKind};
use ooc_types::{OutOfMemory, RefusalKind, SqlType};
use sql_expr::{Expr, kind_of};
use sql_grammar::tree::Span;
use sqlite_items::{Boxed, Items};
use std::alloc::Global;

/// The widest DECIMAL that is summed, and how wide its sum is.
const MOST_SUMMED: u8 = 27;

const SUM_WIDTH: u8 = 38;

/// An aggregate function.
#[derive(Clone, Copy)]
pub enum Function {
    Count,
    Sum,
    Least,
    Greatest,
}

fn function_of(name: &[u8]) -> Option<Function>
    ensures { result ≡ rules.function_of name.now }
{
    if name == b"count".as_slice() {
        Some(Function::Count)
    } else if name == b"sum".as_slice() {
        Some(Function::Sum)
    } else if name == b"min".as_slice() {
        Some(Function::Least)
    } else if name == b"max".as_slice() {
        Some(Function::Greatest)
    } else {
        None
    }
}

/// The aggregate function of a name, if it is one's.
pub fn function_at(
    alloc: Global,
    scope: &Scope<'_>,
    name: Span,
) -> Result<Option<Function>, OutOfMemory>
    ensures function { IfOk result (λ f. f ≡ rules.function_of (texts.folded_at scope.now.script name)) }
    ensures within { IfOk result (λ f. IsWithin f name.start) }
{
    let text = folded_at(alloc, scope.script(), name)?;
    Ok(function_of(text.as_slice()))
}

fn kind_of_function(function: Function) -> AggregateKind
    ensures { result ≡ rules.kind_of_function function }
{
    match function {
        Function::Count => AggregateKind::Count,
        Function::Sum => AggregateKind::Sum,
        Function::Least => AggregateKind::Min,
        Function::Greatest => AggregateKind::Max,
    }
}

fn sum_type(place: usize, kind: SqlType) -> Result<SqlType, BindFault>
    ensures { Gives (rules.sum_type place kind) result }
{
    match kind {
        SqlType::Integer | SqlType::BigInt => Ok(SqlType::HugeInt),
        SqlType::Decimal { width, scale } if width <= MOST_SUMMED => Ok(SqlType::Decimal {
            width: SUM_WIDTH,
            scale,
        }),
        SqlType::HugeInt | SqlType::Decimal { .. } => Err(BindFault::Refused {
            place,
            kind: RefusalKind::SumTooWide,
        }),
        SqlType::Boolean | SqlType::Date | SqlType::Varchar => Err(BindFault::Refused {
            place,
            kind: RefusalKind::TypeMismatch,
        }),
    }
}

fn no_function(place: usize) -> BindFault
    ensures { result ≡ rules.no_function_at place }
{
    BindFault::Refused {
        place,
        kind: RefusalKind::NoFunction,
    }
}

fn value_type(place: usize, function: Function, kind: SqlType) -> Result<SqlType, BindFault>
    ensures { Gives (rules.value_type place function kind) result }
{
    match function {
        Function::Count => Ok(SqlType::BigInt),
        Function::Sum => sum_type(place, kind),
        Function::Least | Function::Greatest => Ok(kind),
    }
}

fn count_type(place: usize, function: Function) -> Result<SqlType, BindFault>
    ensures { Gives (rules.count_type place function) result }
{
    match function {
        Function::Count => Ok(SqlType::BigInt),
        Function::Sum | Function::Least | Function::Greatest => Err(no_function(place)),
    }
}

fn aggregate(
    alloc: Global,
    scope: &Scope<'_>,
    place: usize,
    kind: AggregateKind,
    of: Option<Boxed<Expr>>,
    result_kind: SqlType,
) -> BoundPart
    requires { place ≤ 1048576 }
    ensures { Gives (rules.aggregate scope.now place kind of result_kind) result }
{
    if !scope.aggregates() {
        return Err(BindFault::Refused {
            place,
            kind: RefusalKind::AggregateHere,
        });
    }
    let column = (scope.columns().len() + place) as u32;
    let mut calls = Items::new(alloc);
    calls.push(Call {
        place,
        aggregate: Aggregate {
            kind,
            of,
            result: result_kind,
        },
    })?;
    let tree = Expr::Column {
        place: column,
        kind: result_kind,
    };
    Ok(Part {
        tree: Boxed::new(alloc, tree)?,
        bare: None,
        calls,
    })
}

/// A call of a function over `*`.
pub fn star_call(
    alloc: Global,
    scope: &Scope<'_>,
    place: usize,
    function: Option<Function>,
) -> BoundPart
    requires { IsWithin function place }
    ensures { Gives (rules.star_call scope.now place function) result }
{
    match function {
        None => Err(no_function(place)),
        Some(function) => {
            let kind = count_type(place, function)?;
            aggregate(alloc, scope, place, AggregateKind::CountRows, None, kind)
        }
    }
}

/// A call of a function over its bound argument.
pub fn value_call(
    alloc: Global,
    scope: &Scope<'_>,
    place: usize,
    function: Option<Function>,
    argument: BoundPart,
) -> BoundPart
    requires { IsWithin function place }
    ensures { GoesOn (rules.value_call scope.now place function) argument result }
{
    let of = argument?.tree;
    match function {
        None => Err(no_function(place)),
        Some(function) => {
            let kind = value_type(place, function, kind_of(of.get()))?;
            aggregate(
                alloc,
                scope,
                place,
                kind_of_function(function),
                Some(of),
                kind,
            )
        }
    }
}

/// A call of a function over DISTINCT and its bound argument.
pub fn distinct_call(
    alloc: Global,
    scope: &Scope<'_>,
    place: usize,
    function: Option<Function>,
    argument: BoundPart,
) -> BoundPart
    requires { IsWithin function place }
    ensures { GoesOn (rules.distinct_call scope.now place function) argument result }
{
    let of = argument?.tree;
    match function {
        None => Err(no_function(place)),
        Some(function) => {
            let kind = count_type(place, function)?;
            aggregate(
                alloc,
                scope,
                place,
                AggregateKind::CountDistinct,
                Some(of),
                kind,
            )
        }
    }
}

/// What an argument is bound in.
pub fn argument_scope<'a>(scope: &Scope<'a>, function: Option<Function>) -> Scope<'a>
    ensures { result ≡ rules.argument_view function scope.now }
{
    match function {
        Some(_) => scope.without_aggregates(),
        None => scope.same(),
    }
}
