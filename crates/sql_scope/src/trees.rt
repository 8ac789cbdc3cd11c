//! Typed trees over typed operands.
ghost use Rattle.std.specs.Prelude.{◌≡◌, Ok, []};
ghost use Rattle.sql_scope.specs.Answer.{Gives, GoesOn, GoesOnBoth};
ghost use Rattle.sql_scope.specs.Trees as rules;

use crate::fault::BindFault;
use crate::literals::{literal_tree, text_literal};
use crate::operations::{are_comparable, is_boolean, is_number, is_text};
use crate::scope::Scope;
use ooc_types::{RefusalKind, SqlType};
use sql_expr::{ChainSign, CompareSign, Expr, kind_of};
use sql_grammar::tree;
use sqlite_items::{Boxed, Items};
use std::alloc::Global;

pub(crate) fn mismatch(place: usize) -> BindFault
    ensures { result ≡ rules.mismatch_at place }
{
    BindFault::Refused {
        place,
        kind: RefusalKind::TypeMismatch,
    }
}

pub(crate) fn minus(place: usize, of: Boxed<Expr>) -> Result<Expr, BindFault>
    ensures { Gives (rules.minus place of) result }
{
    let kind = kind_of(of.get());
    if !is_number(kind) {
        return Err(mismatch(place));
    }
    Ok(Expr::Minus { of, kind })
}

pub(crate) fn negation(place: usize, of: Boxed<Expr>) -> Result<Expr, BindFault>
    ensures { Gives (rules.negation place of) result }
{
    if !is_boolean(kind_of(of.get())) {
        return Err(mismatch(place));
    }
    Ok(Expr::Not { of })
}

fn compare_sign(sign: tree::CompareSign) -> CompareSign
    ensures { result ≡ rules.compare_sign sign }
{
    match sign {
        tree::CompareSign::Equal => CompareSign::Equal,
        tree::CompareSign::Unequal => CompareSign::Unequal,
        tree::CompareSign::Less => CompareSign::Less,
        tree::CompareSign::AtMost => CompareSign::AtMost,
        tree::CompareSign::Greater => CompareSign::Greater,
        tree::CompareSign::AtLeast => CompareSign::AtLeast,
    }
}

pub(crate) fn comparison(
    place: usize,
    sign: tree::CompareSign,
    left: Boxed<Expr>,
    right: Boxed<Expr>,
) -> Result<Expr, BindFault>
    ensures { Gives (rules.comparison place sign left right) result }
{
    if !are_comparable(kind_of(left.get()), kind_of(right.get())) {
        return Err(mismatch(place));
    }
    Ok(Expr::Compare {
        sign: compare_sign(sign),
        left,
        right,
    })
}

pub(crate) fn chain_sign(sign: tree::ChainSign) -> ChainSign
    ensures { result ≡ rules.chain_sign sign }
{
    match sign {
        tree::ChainSign::Plus => ChainSign::Plus,
        tree::ChainSign::Minus => ChainSign::Minus,
        tree::ChainSign::Times => ChainSign::Times,
        tree::ChainSign::Quotient => ChainSign::Quotient,
        tree::ChainSign::Remainder => ChainSign::Remainder,
    }
}

pub(crate) fn like(
    alloc: Global,
    scope: &Scope<'_>,
    place: usize,
    negated: bool,
    pattern: tree::Span,
    of: Boxed<Expr>,
) -> Result<Expr, BindFault>
    ensures { Gives (rules.like scope.now place negated pattern of) result }
{
    let pattern = text_literal(alloc, scope, pattern)?;
    if !is_text(kind_of(of.get())) {
        return Err(mismatch(place));
    }
    Ok(Expr::Like {
        of,
        pattern,
        negated,
    })
}

pub(crate) fn between(
    place: usize,
    negated: bool,
    of: Boxed<Expr>,
    low: Boxed<Expr>,
    high: Boxed<Expr>,
) -> Result<Expr, BindFault>
    ensures { Gives (rules.between place negated of low high) result }
{
    let kind = kind_of(of.get());
    if !(are_comparable(kind, kind_of(low.get())) && are_comparable(kind, kind_of(high.get()))) {
        return Err(mismatch(place));
    }
    Ok(Expr::Between {
        of,
        low,
        high,
        negated,
    })
}

fn constant_behind(
    alloc: Global,
    place: Option<usize>,
    of: Result<Expr, BindFault>,
) -> Result<Expr, BindFault>
    ensures { GoesOn (rules.constant_behind place) of result }
{
    let of = of?;
    match place {
        Some(place) => minus(place, Boxed::new(alloc, of)?),
        None => Ok(of),
    }
}

#[tactic(auto, using(crate::proofs::Going::goes_on))]
fn constant(alloc: Global, scope: &Scope<'_>, written: tree::Constant) -> Result<Expr, BindFault>
    ensures { Gives (rules.constant scope.now written) result }
{
    constant_behind(
        alloc,
        written.minus,
        literal_tree(alloc, scope, written.literal),
    )
}

fn one_more(
    list: Result<Items<Expr>, BindFault>,
    tree: Result<Expr, BindFault>,
) -> Result<Items<Expr>, BindFault>
    ensures { GoesOnBoth rules.one_more list tree result }
{
    let mut list = list?;
    let tree = tree?;
    list.push(tree)?;
    Ok(list)
}

/// The constants of IN.
pub fn constants(
    alloc: Global,
    scope: &Scope<'_>,
    written: &[tree::Constant],
) -> Result<Items<Expr>, BindFault>
    ensures { Gives (rules.constants_from scope.now (Ok []) written.now) result }
{
    let mut list = Ok(Items::new(alloc));
    for one in written {
        list = one_more(list, constant(alloc, scope, *one));
    }
    list
}

fn all_comparable(kind: SqlType, list: &[Expr]) -> bool
    ensures { result ≡ rules.all_comparable kind list.now }
{
    for tree in list {
        if !are_comparable(kind, kind_of(tree)) {
            return false;
        }
    }
    true
}

pub(crate) fn one_of(
    place: usize,
    negated: bool,
    of: Boxed<Expr>,
    list: Items<Expr>,
) -> Result<Expr, BindFault>
    ensures { Gives (rules.one_of place negated of list) result }
{
    if !all_comparable(kind_of(of.get()), list.as_slice()) {
        return Err(mismatch(place));
    }
    Ok(Expr::OneOf { of, list, negated })
}
