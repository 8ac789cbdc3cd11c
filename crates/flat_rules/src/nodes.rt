//! Nodes, made of what was read: the fault of a part that wasn't is handed on.
ghost use Rattle.std.specs.Prelude.{◌≤◌, length, Ok};
ghost use Rattle.sql_grammar.specs.Reading.{and_then, read};
ghost use Rattle.sql_grammar.specs.Combinators as parts;
ghost use Rattle.sql_grammar.specs.Nesting.{readers};
ghost use Rattle.flat_rules.specs.Gives.{Makes, GoesOn};
ghost use Rattle.sql_grammar.specs.Expressions as form;
ghost use Rattle.sql_grammar.specs.declared.tree.expr.Expr.TheVariants as node;

use crate::cursor::Cursor;
use sql_grammar::Fault;
use sql_grammar::tree::{Argument, CompareSign, Expr, Link, Operand, Select, Span};
use sql_lex::Sign;
use sqlite_items::{Boxed, Items};
use std::alloc::Global;

/// The place of BETWEEN, and what is behind it.
pub type Bounds = (usize, Boxed<Expr>, Boxed<Expr>);

/// A chain of sums or terms; one operand alone is itself.
pub fn chain(
    alloc: Global,
    first: Boxed<Expr>,
    links: Result<Items<Link>, Fault>,
) -> Result<Boxed<Expr>, Fault>
    ensures { Makes (form.chain_of first) links result }
{
    let links = links?;
    if links.is_empty() {
        return Ok(first);
    }
    let node = Expr::Chain { first, links };
    Ok(Boxed::new(alloc, node)?)
}

/// Operands under AND; one alone is itself.
pub fn every(
    alloc: Global,
    first: Boxed<Expr>,
    others: Result<Items<Operand>, Fault>,
) -> Result<Boxed<Expr>, Fault>
    ensures { Makes (form.every_of first) others result }
{
    let others = others?;
    if others.is_empty() {
        return Ok(first);
    }
    let node = Expr::Every { first, others };
    Ok(Boxed::new(alloc, node)?)
}

/// Operands under OR; one alone is itself.
pub fn either(
    alloc: Global,
    first: Boxed<Expr>,
    others: Result<Items<Operand>, Fault>,
) -> Result<Boxed<Expr>, Fault>
    ensures { Makes (form.either_of first) others result }
{
    let others = others?;
    if others.is_empty() {
        return Ok(first);
    }
    let node = Expr::Either { first, others };
    Ok(Boxed::new(alloc, node)?)
}

/// A minus before an operand; `place` is where it stands.
pub fn minus(
    alloc: Global,
    place: usize,
    operand: Result<Boxed<Expr>, Fault>,
) -> Result<Boxed<Expr>, Fault>
    ensures { Makes (λ e. node.Minus place e) operand result }
{
    let operand = operand?;
    let node = Expr::Minus { place, operand };
    Ok(Boxed::new(alloc, node)?)
}

/// NOT before an operand.
pub fn negation(
    alloc: Global,
    place: usize,
    operand: Result<Boxed<Expr>, Fault>,
) -> Result<Boxed<Expr>, Fault>
    ensures { Makes (λ e. node.Not place e) operand result }
{
    let operand = operand?;
    let node = Expr::Not { place, operand };
    Ok(Boxed::new(alloc, node)?)
}

/// A comparison with what is on its right.
pub fn compared(
    alloc: Global,
    left: Boxed<Expr>,
    sign: CompareSign,
    place: usize,
    right: Result<Boxed<Expr>, Fault>,
) -> Result<Boxed<Expr>, Fault>
    ensures { Makes (λ e. node.Compare place sign left e) right result }
{
    let right = right?;
    let node = Expr::Compare {
        place,
        sign,
        left,
        right,
    };
    Ok(Boxed::new(alloc, node)?)
}

/// Both bounds of a range, and the place of BETWEEN.
pub fn bounded(
    place: usize,
    low: Boxed<Expr>,
    high: Result<Boxed<Expr>, Fault>,
) -> Result<Bounds, Fault>
    ensures { Makes (λ e. (place, low, e)) high result }
{
    let high = high?;
    Ok((place, low, high))
}

/// A test of a range.
pub fn ranged(
    alloc: Global,
    operand: Boxed<Expr>,
    negated: bool,
    bounds: Result<Bounds, Fault>,
) -> Result<Boxed<Expr>, Fault>
    ensures { Makes (λ b. node.Between b.0 negated operand b.1 b.2) bounds result }
{
    let (place, low, high) = bounds?;
    let node = Expr::Between {
        place,
        negated,
        operand,
        low,
        high,
    };
    Ok(Boxed::new(alloc, node)?)
}

/// What a closing parenthesis has to follow.
pub fn closed(
    cursor: &mut Cursor<'_>,
    inner: Result<Boxed<Expr>, Fault>,
) -> Result<Boxed<Expr>, Fault>
    ensures goes_on { GoesOn (λ e r. and_then (read (readers 0) (parts.sign Sign.RightParenthesis) r) (λ _ s. Ok (e, s))) inner cursor.old result cursor.new }
    ensures shrinks { length cursor.new ≤ length cursor.old }
{
    let inner = inner?;
    cursor.sign(Sign::RightParenthesis)?;
    Ok(inner)
}

/// A call, whose closing parenthesis has to follow.
pub fn call(
    alloc: Global,
    cursor: &mut Cursor<'_>,
    name: Span,
    argument: Result<Argument, Fault>,
) -> Result<Boxed<Expr>, Fault>
    ensures goes_on { GoesOn (λ a r. and_then (read (readers 0) (parts.sign Sign.RightParenthesis) r) (λ _ s. Ok (node.Call name a, s))) argument cursor.old result cursor.new }
    ensures shrinks { length cursor.new ≤ length cursor.old }
{
    let argument = argument?;
    cursor.sign(Sign::RightParenthesis)?;
    Ok(Boxed::new(alloc, Expr::Call { name, argument })?)
}

/// IN with a subquery, whose closing parenthesis has to follow; IN stands at `place`.
pub fn member(
    alloc: Global,
    cursor: &mut Cursor<'_>,
    operand: Boxed<Expr>,
    negated: bool,
    place: usize,
    query: Result<Boxed<Select>, Fault>,
) -> Result<Boxed<Expr>, Fault>
    ensures goes_on { GoesOn (λ q r. and_then (read (readers 0) (parts.sign Sign.RightParenthesis) r) (λ _ s. Ok (node.Member place negated operand q, s))) query cursor.old result cursor.new }
    ensures shrinks { length cursor.new ≤ length cursor.old }
{
    let query = query?;
    cursor.sign(Sign::RightParenthesis)?;
    let node = Expr::Member {
        place,
        negated,
        operand,
        query,
    };
    Ok(Boxed::new(alloc, node)?)
}
