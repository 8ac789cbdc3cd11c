//! Chains of sums and terms, and of AND and OR, which act from left to right.
ghost use Rattle.std.specs.Prelude.{◌≡◌, Ok};
ghost use Rattle.sql_scope.specs.Answer.{Gives, GoesOn, GoesOnBoth};
ghost use Rattle.sql_scope.specs.Parts as rules;

use crate::fault::BindFault;
use crate::operations::{is_boolean, linked_type};
use crate::part::{BoundPart, Call, Part, calls_of, first_of, part_over};
use crate::scope::Scope;
use crate::trees::{chain_sign, mismatch};
use ooc_types::SqlType;
use sql_expr::{Expr, Link, kind_of};
use sql_grammar::tree;
use sqlite_items::{Boxed, Items};
use std::alloc::Global;

/// A chain as far as it was bound, and its type.
#[derive(Drop)]
pub struct Chain {
    pub first: Boxed<Expr>,
    pub links: Items<Link>,
    pub kind: SqlType,
    pub bare: Option<usize>,
    pub calls: Items<Call>,
}

/// Operands under AND or OR as far as they were bound, and the type of what stands there.
#[derive(Drop)]
pub struct Conditions {
    pub list: Items<Expr>,
    pub kind: SqlType,
    pub bare: Option<usize>,
    pub calls: Items<Call>,
}

/// A chain of its first operand alone.
pub fn begun(alloc: Global, first: BoundPart) -> Result<Chain, BindFault>
    ensures { GoesOn (λ f. Ok (rules.begun f)) first result }
{
    let Part { tree, bare, calls } = first?;
    let kind = kind_of(tree.get());
    Ok(Chain {
        first: tree,
        links: Items::new(alloc),
        kind,
        bare,
        calls,
    })
}

/// A chain with one more link.
pub fn linked(
    place: usize,
    sign: tree::ChainSign,
    chain: Result<Chain, BindFault>,
    right: BoundPart,
) -> Result<Chain, BindFault>
    ensures { GoesOnBoth (rules.linked place sign) chain right result }
{
    let chain = chain?;
    let right = right?;
    let sign = chain_sign(sign);
    let kind = linked_type(place, sign, chain.kind, kind_of(right.tree.get()))?;
    let mut links = chain.links;
    links.push(Link {
        sign,
        right: right.tree.into_inner(),
        kind,
    })?;
    Ok(Chain {
        first: chain.first,
        links,
        kind,
        bare: first_of(chain.bare, right.bare),
        calls: calls_of(chain.calls, right.calls)?,
    })
}

fn chain_tree(first: Boxed<Expr>, links: Items<Link>) -> Expr
    ensures { result ≡ rules.chain_tree first links }
{
    if links.is_empty() {
        return first.into_inner();
    }
    Expr::Chain { first, links }
}

/// The whole chain.
pub fn ended(alloc: Global, scope: &Scope<'_>, chain: Result<Chain, BindFault>) -> BoundPart
    ensures { GoesOn (rules.ended scope.now) chain result }
{
    let Chain {
        first,
        links,
        bare,
        calls,
        ..
    } = chain?;
    part_over(alloc, scope, chain_tree(first, links), bare, calls)
}

/// The first operand of AND or OR alone.
pub fn started(alloc: Global, first: BoundPart) -> Result<Conditions, BindFault>
    ensures { GoesOn (λ f. Ok (rules.started f)) first result }
{
    let Part { tree, bare, calls } = first?;
    let kind = kind_of(tree.get());
    let mut list = Items::new(alloc);
    list.push(tree.into_inner())?;
    Ok(Conditions {
        list,
        kind,
        bare,
        calls,
    })
}

/// One more operand of AND or OR.
pub fn joined(
    place: usize,
    conditions: Result<Conditions, BindFault>,
    right: BoundPart,
) -> Result<Conditions, BindFault>
    ensures { GoesOnBoth (rules.joined place) conditions right result }
{
    let conditions = conditions?;
    let right = right?;
    if !(is_boolean(conditions.kind) && is_boolean(kind_of(right.tree.get()))) {
        return Err(mismatch(place));
    }
    let mut list = conditions.list;
    list.push(right.tree.into_inner())?;
    Ok(Conditions {
        list,
        kind: SqlType::Boolean,
        bare: first_of(conditions.bare, right.bare),
        calls: calls_of(conditions.calls, right.calls)?,
    })
}

fn every_tree(list: Items<Expr>) -> Expr
    ensures { result ≡ rules.every_tree list }
{
    let mut list = list;
    if list.len() == 1 {
        if let Some(one) = list.pop() {
            return one;
        }
    }
    Expr::Every { list }
}

fn either_tree(list: Items<Expr>) -> Expr
    ensures { result ≡ rules.either_tree list }
{
    let mut list = list;
    if list.len() == 1 {
        if let Some(one) = list.pop() {
            return one;
        }
    }
    Expr::Either { list }
}

/// AND of the operands.
pub fn every(
    alloc: Global,
    scope: &Scope<'_>,
    conditions: Result<Conditions, BindFault>,
) -> BoundPart
    ensures { GoesOn (rules.every scope.now) conditions result }
{
    let Conditions {
        list,
        bare,
        calls,
        ..
    } = conditions?;
    part_over(alloc, scope, every_tree(list), bare, calls)
}

/// OR of the operands.
pub fn either(
    alloc: Global,
    scope: &Scope<'_>,
    conditions: Result<Conditions, BindFault>,
) -> BoundPart
    ensures { GoesOn (rules.either scope.now) conditions result }
{
    let Conditions {
        list,
        bare,
        calls,
        ..
    } = conditions?;
    part_over(alloc, scope, either_tree(list), bare, calls)
}
