//! Expressions: a function for each rule of the grammar, by its name. `depth` is how many levels may still nest.
ghost use Rattle.std.specs.Prelude.{◌≤◌, ◌<◌, length, IsOk, Ok};
ghost use Rattle.sql_grammar.specs.Form.{many, an_expr, a_neg, a_unary, an_argument};
ghost use Rattle.sql_grammar.specs.Reading.{read, opened, and_then};
ghost use Rattle.sql_grammar.specs.Nesting.{readers};
ghost use Rattle.flat_rules.specs.Gives.{Gives};
ghost use Rattle.sql_grammar.specs.Expressions as form;

use crate::select::nested_select;
use flat_rules::Cursor;
use flat_rules::leaves::{column, compare_sign, date_node, literal_node, sum_sign, term_sign};
use flat_rules::looks::{
    at_and, at_comparison, at_dated, at_group, at_in_test, at_like, at_named, at_null_test, at_or,
    at_range_test, at_sum_sign, at_term_sign,
};
use flat_rules::nodes::{
    Bounds, bounded, call, chain, closed, compared, either, every, member, minus, negation, ranged,
};
use flat_rules::predicates::{like, null_test, one_of};
use sql_grammar::Fault;
use sql_grammar::tree::{Argument, Expr, Link, Operand, Span};
use sql_lex::{Sign, Word};
use sqlite_items::{Boxed, Items};
use std::alloc::Global;

/// The expression behind the token that opens a level.
#[cycle(rule)]
fn nested_expr(alloc: Global, cursor: &mut Cursor<'_>, depth: u8) -> Result<Boxed<Expr>, Fault>
    ensures gives { Gives (opened (readers depth an_expr) cursor.old) result cursor.new }
    ensures shrinks { length cursor.new ≤ length cursor.old }
{
    if depth == 0 {
        return Err(Fault::TooDeep);
    }
    cursor.shift();
    expr(alloc, cursor, depth - 1)
}

/// The negation behind the token that opens a level.
#[cycle(rule)]
fn nested_neg(alloc: Global, cursor: &mut Cursor<'_>, depth: u8) -> Result<Boxed<Expr>, Fault>
    ensures gives { Gives (opened (readers depth a_neg) cursor.old) result cursor.new }
    ensures shrinks { length cursor.new ≤ length cursor.old }
{
    if depth == 0 {
        return Err(Fault::TooDeep);
    }
    cursor.shift();
    neg(alloc, cursor, depth - 1)
}

/// The operand of a minus behind the token that opens a level.
#[cycle(rule)]
fn nested_unary(alloc: Global, cursor: &mut Cursor<'_>, depth: u8) -> Result<Boxed<Expr>, Fault>
    ensures gives { Gives (opened (readers depth a_unary) cursor.old) result cursor.new }
    ensures shrinks { length cursor.new ≤ length cursor.old }
{
    if depth == 0 {
        return Err(Fault::TooDeep);
    }
    cursor.shift();
    unary(alloc, cursor, depth - 1)
}

/// The argument behind the token that opens a level.
#[cycle(rule)]
fn nested_argument(alloc: Global, cursor: &mut Cursor<'_>, depth: u8) -> Result<Argument, Fault>
    ensures gives { Gives (opened (readers depth an_argument) cursor.old) result cursor.new }
    ensures shrinks { length cursor.new ≤ length cursor.old }
{
    if depth == 0 {
        return Err(Fault::TooDeep);
    }
    cursor.shift();
    argument(alloc, cursor, depth - 1)
}

#[cycle(rule)]
#[tactic(auto, unfolding(sql_grammar::specs::Expressions::group))]
fn group(alloc: Global, cursor: &mut Cursor<'_>, depth: u8) -> Result<Boxed<Expr>, Fault>
    ensures gives { Gives (read (readers depth) form.group cursor.old) result cursor.new }
    ensures shrinks { length cursor.new ≤ length cursor.old }
{
    if !cursor.at_opening() {
        return Err(Fault::Syntax);
    }
    let inner = nested_expr(alloc, cursor, depth);
    closed(cursor, inner)
}

/// What stands between a function's parentheses.
#[cycle(rule)]
#[tactic(auto, unfolding(sql_grammar::specs::Expressions::argument))]
fn argument(alloc: Global, cursor: &mut Cursor<'_>, depth: u8) -> Result<Argument, Fault>
    ensures gives { Gives (read (readers depth) form.argument cursor.old) result cursor.new }
    ensures shrinks { length cursor.new ≤ length cursor.old }
{
    if cursor.at_sign(Sign::Star) {
        cursor.shift();
        return Ok(Argument::Star);
    }
    if cursor.at_word(Word::Distinct) {
        cursor.shift();
        let value = expr(alloc, cursor, depth)?;
        return Ok(Argument::Distinct(value));
    }
    let value = expr(alloc, cursor, depth)?;
    Ok(Argument::Value(value))
}

/// What stands behind the name of a column, of its source or of a function.
#[cycle(rule)]
#[tactic(auto, unfolding(sql_grammar::specs::Expressions::name_end))]
fn name_end(
    alloc: Global,
    cursor: &mut Cursor<'_>,
    name: Span,
    depth: u8,
) -> Result<Boxed<Expr>, Fault>
    ensures gives { Gives (and_then (read (readers depth) form.name_end cursor.old) (λ f r. Ok (f name, r))) result cursor.new }
    ensures shrinks { length cursor.new ≤ length cursor.old }
{
    if !cursor.at_opening() {
        return column(alloc, cursor, name, depth);
    }
    let argument = nested_argument(alloc, cursor, depth);
    call(alloc, cursor, name, argument)
}

/// A column or a call.
#[cycle(rule)]
#[tactic(auto, unfolding(sql_grammar::specs::Expressions::named))]
fn named(alloc: Global, cursor: &mut Cursor<'_>, depth: u8) -> Result<Boxed<Expr>, Fault>
    ensures gives { Gives (read (readers depth) form.named cursor.old) result cursor.new }
    ensures shrinks { length cursor.new ≤ length cursor.old }
{
    let name = cursor.other_name()?;
    name_end(alloc, cursor, name, depth)
}

/// A date, or a column or a call whose name begins with DATE.
#[cycle(rule)]
#[tactic(auto, unfolding(sql_grammar::specs::Expressions::dated))]
fn dated(alloc: Global, cursor: &mut Cursor<'_>, depth: u8) -> Result<Boxed<Expr>, Fault>
    ensures gives { Gives (read (readers depth) form.dated cursor.old) result cursor.new }
    ensures shrinks { length cursor.new ≤ length cursor.old }
{
    let name = cursor.date_name()?;
    if cursor.at_text() {
        return date_node(alloc, cursor, name, depth);
    }
    name_end(alloc, cursor, name, depth)
}

#[cycle(rule)]
#[tactic(auto, unfolding(sql_grammar::specs::Expressions::atom))]
fn atom(alloc: Global, cursor: &mut Cursor<'_>, depth: u8) -> Result<Boxed<Expr>, Fault>
    ensures gives { Gives (read (readers depth) form.atom cursor.old) result cursor.new }
    ensures shrinks { length cursor.new ≤ length cursor.old }
{
    if at_named(cursor) {
        named(alloc, cursor, depth)
    } else if at_dated(cursor) {
        dated(alloc, cursor, depth)
    } else if at_group(cursor) {
        group(alloc, cursor, depth)
    } else {
        literal_node(alloc, cursor, depth)
    }
}

#[cycle(rule)]
#[tactic(auto, unfolding(sql_grammar::specs::Expressions::unary))]
fn unary(alloc: Global, cursor: &mut Cursor<'_>, depth: u8) -> Result<Boxed<Expr>, Fault>
    ensures gives { Gives (read (readers depth) form.unary cursor.old) result cursor.new }
    ensures shrinks { length cursor.new ≤ length cursor.old }
{
    if !cursor.at_sign(Sign::Minus) {
        return atom(alloc, cursor, depth);
    }
    let span = cursor.span();
    let operand = nested_unary(alloc, cursor, depth);
    minus(alloc, span.start, operand)
}

#[cycle(rule)]
#[tactic(auto, unfolding(sql_grammar::specs::Expressions::term_link))]
fn term_link(alloc: Global, cursor: &mut Cursor<'_>, depth: u8) -> Result<Link, Fault>
    ensures gives { Gives (read (readers depth) form.term_link cursor.old) result cursor.new }
    ensures shrinks { length cursor.new ≤ length cursor.old }
    ensures falls { IsOk result → length cursor.new < length cursor.old }
{
    let (sign, place) = term_sign(cursor, depth)?;
    let right = unary(alloc, cursor, depth)?;
    Ok(Link { place, sign, right })
}

/// As many as come.
#[cycle(rule)]
fn term_links(alloc: Global, cursor: &mut Cursor<'_>, depth: u8) -> Result<Items<Link>, Fault>
    ensures gives { Gives (read (readers depth) (many form.term_link) cursor.old) result cursor.new }
    ensures shrinks { length cursor.new ≤ length cursor.old }
{
    let mut found = Items::new(alloc);
    'turns: while at_term_sign(cursor) {
        let next = term_link(alloc, cursor, depth)?;
        found.push(next)?;
    }
    Ok(found)
}

#[cycle(rule)]
#[tactic(auto, unfolding(sql_grammar::specs::Expressions::term))]
fn term(alloc: Global, cursor: &mut Cursor<'_>, depth: u8) -> Result<Boxed<Expr>, Fault>
    ensures gives { Gives (read (readers depth) form.term cursor.old) result cursor.new }
    ensures shrinks { length cursor.new ≤ length cursor.old }
{
    let first = unary(alloc, cursor, depth)?;
    let links = term_links(alloc, cursor, depth);
    chain(alloc, first, links)
}

#[cycle(rule)]
#[tactic(auto, unfolding(sql_grammar::specs::Expressions::sum_link))]
fn sum_link(alloc: Global, cursor: &mut Cursor<'_>, depth: u8) -> Result<Link, Fault>
    ensures gives { Gives (read (readers depth) form.sum_link cursor.old) result cursor.new }
    ensures shrinks { length cursor.new ≤ length cursor.old }
    ensures falls { IsOk result → length cursor.new < length cursor.old }
{
    let (sign, place) = sum_sign(cursor, depth)?;
    let right = term(alloc, cursor, depth)?;
    Ok(Link { place, sign, right })
}

/// As many as come.
#[cycle(rule)]
fn sum_links(alloc: Global, cursor: &mut Cursor<'_>, depth: u8) -> Result<Items<Link>, Fault>
    ensures gives { Gives (read (readers depth) (many form.sum_link) cursor.old) result cursor.new }
    ensures shrinks { length cursor.new ≤ length cursor.old }
{
    let mut found = Items::new(alloc);
    'turns: while at_sum_sign(cursor) {
        let next = sum_link(alloc, cursor, depth)?;
        found.push(next)?;
    }
    Ok(found)
}

#[cycle(rule)]
#[tactic(auto, unfolding(sql_grammar::specs::Expressions::sum))]
fn sum(alloc: Global, cursor: &mut Cursor<'_>, depth: u8) -> Result<Boxed<Expr>, Fault>
    ensures gives { Gives (read (readers depth) form.sum cursor.old) result cursor.new }
    ensures shrinks { length cursor.new ≤ length cursor.old }
{
    let first = term(alloc, cursor, depth)?;
    let links = sum_links(alloc, cursor, depth);
    chain(alloc, first, links)
}

#[cycle(rule)]
#[tactic(auto, unfolding(sql_grammar::specs::Expressions::comparison))]
fn comparison(
    alloc: Global,
    cursor: &mut Cursor<'_>,
    left: Boxed<Expr>,
    depth: u8,
) -> Result<Boxed<Expr>, Fault>
    ensures gives { Gives (and_then (read (readers depth) form.comparison cursor.old) (λ test r. Ok (test left, r))) result cursor.new }
    ensures shrinks { length cursor.new ≤ length cursor.old }
{
    let (sign, place) = compare_sign(cursor, depth)?;
    let right = sum(alloc, cursor, depth);
    compared(alloc, left, sign, place, right)
}

/// `AND sum`
#[cycle(rule)]
fn upper(alloc: Global, cursor: &mut Cursor<'_>, depth: u8) -> Result<Boxed<Expr>, Fault>
    ensures gives { Gives (read (readers depth) form.upper cursor.old) result cursor.new }
    ensures shrinks { length cursor.new ≤ length cursor.old }
{
    cursor.word(Word::And)?;
    sum(alloc, cursor, depth)
}

/// `BETWEEN sum AND sum`
#[cycle(rule)]
fn bounds(alloc: Global, cursor: &mut Cursor<'_>, depth: u8) -> Result<Bounds, Fault>
    ensures gives { Gives (read (readers depth) form.bounds cursor.old) result cursor.new }
    ensures shrinks { length cursor.new ≤ length cursor.old }
{
    let place = cursor.word(Word::Between)?;
    let low = sum(alloc, cursor, depth)?;
    let high = upper(alloc, cursor, depth);
    bounded(place, low, high)
}

#[cycle(rule)]
#[tactic(auto, unfolding(sql_grammar::specs::Expressions::between))]
fn between(
    alloc: Global,
    cursor: &mut Cursor<'_>,
    left: Boxed<Expr>,
    negated: bool,
    depth: u8,
) -> Result<Boxed<Expr>, Fault>
    ensures gives { Gives (and_then (read (readers depth) form.between cursor.old) (λ test r. Ok (test negated left, r))) result cursor.new }
    ensures shrinks { length cursor.new ≤ length cursor.old }
{
    let bounds = bounds(alloc, cursor, depth);
    ranged(alloc, left, negated, bounds)
}

/// IN, with a subquery or with a list of constants.
#[cycle(rule)]
#[tactic(auto, unfolding(sql_grammar::specs::Expressions::in_test, sql_grammar::specs::Expressions::member))]
fn in_test(
    alloc: Global,
    cursor: &mut Cursor<'_>,
    left: Boxed<Expr>,
    negated: bool,
    depth: u8,
) -> Result<Boxed<Expr>, Fault>
    ensures gives { Gives (and_then (read (readers depth) form.in_test cursor.old) (λ test r. Ok (test negated left, r))) result cursor.new }
    ensures shrinks { length cursor.new ≤ length cursor.old }
{
    let place = cursor.word(Word::In)?;
    if !cursor.at_query() {
        return one_of(alloc, cursor, left, negated, place, depth);
    }
    let query = nested_select(alloc, cursor, depth);
    member(alloc, cursor, left, negated, place, query)
}

/// LIKE, IN or BETWEEN, with or without NOT.
#[cycle(rule)]
#[tactic(auto, unfolding(sql_grammar::specs::Expressions::range_test))]
fn range_test(
    alloc: Global,
    cursor: &mut Cursor<'_>,
    left: Boxed<Expr>,
    depth: u8,
) -> Result<Boxed<Expr>, Fault>
    ensures gives { Gives (and_then (read (readers depth) form.range_test cursor.old) (λ test r. Ok (test left, r))) result cursor.new }
    ensures shrinks { length cursor.new ≤ length cursor.old }
{
    let negated = cursor.skip_word(Word::Not);
    if at_like(cursor) {
        like(alloc, cursor, left, negated, depth)
    } else if at_in_test(cursor) {
        in_test(alloc, cursor, left, negated, depth)
    } else {
        between(alloc, cursor, left, negated, depth)
    }
}

/// What may stand after a sum.
#[cycle(rule)]
#[tactic(auto, unfolding(sql_grammar::specs::Expressions::after_sum))]
fn after_sum(
    alloc: Global,
    cursor: &mut Cursor<'_>,
    left: Boxed<Expr>,
    depth: u8,
) -> Result<Boxed<Expr>, Fault>
    ensures gives { Gives (and_then (read (readers depth) form.after_sum cursor.old) (λ test r. Ok (test left, r))) result cursor.new }
    ensures shrinks { length cursor.new ≤ length cursor.old }
{
    if at_comparison(cursor) {
        comparison(alloc, cursor, left, depth)
    } else if at_null_test(cursor) {
        null_test(alloc, cursor, left, depth)
    } else if at_range_test(cursor) {
        range_test(alloc, cursor, left, depth)
    } else {
        Ok(left)
    }
}

#[cycle(rule)]
#[tactic(auto, unfolding(sql_grammar::specs::Expressions::pred))]
fn pred(alloc: Global, cursor: &mut Cursor<'_>, depth: u8) -> Result<Boxed<Expr>, Fault>
    ensures gives { Gives (read (readers depth) form.pred cursor.old) result cursor.new }
    ensures shrinks { length cursor.new ≤ length cursor.old }
{
    let left = sum(alloc, cursor, depth)?;
    after_sum(alloc, cursor, left, depth)
}

#[cycle(rule)]
#[tactic(auto, unfolding(sql_grammar::specs::Expressions::neg))]
fn neg(alloc: Global, cursor: &mut Cursor<'_>, depth: u8) -> Result<Boxed<Expr>, Fault>
    ensures gives { Gives (read (readers depth) form.neg cursor.old) result cursor.new }
    ensures shrinks { length cursor.new ≤ length cursor.old }
{
    if !cursor.at_word(Word::Not) {
        return pred(alloc, cursor, depth);
    }
    let span = cursor.span();
    let operand = nested_neg(alloc, cursor, depth);
    negation(alloc, span.start, operand)
}

#[cycle(rule)]
#[tactic(auto, unfolding(sql_grammar::specs::Expressions::and_operand))]
fn and_operand(alloc: Global, cursor: &mut Cursor<'_>, depth: u8) -> Result<Operand, Fault>
    ensures gives { Gives (read (readers depth) form.and_operand cursor.old) result cursor.new }
    ensures shrinks { length cursor.new ≤ length cursor.old }
    ensures falls { IsOk result → length cursor.new < length cursor.old }
{
    let place = cursor.word(Word::And)?;
    let right = neg(alloc, cursor, depth)?;
    Ok(Operand { place, right })
}

/// As many as come.
#[cycle(rule)]
fn and_operands(alloc: Global, cursor: &mut Cursor<'_>, depth: u8) -> Result<Items<Operand>, Fault>
    ensures gives { Gives (read (readers depth) (many form.and_operand) cursor.old) result cursor.new }
    ensures shrinks { length cursor.new ≤ length cursor.old }
{
    let mut found = Items::new(alloc);
    'turns: while at_and(cursor) {
        let next = and_operand(alloc, cursor, depth)?;
        found.push(next)?;
    }
    Ok(found)
}

#[cycle(rule)]
#[tactic(auto, unfolding(sql_grammar::specs::Expressions::conj))]
fn conj(alloc: Global, cursor: &mut Cursor<'_>, depth: u8) -> Result<Boxed<Expr>, Fault>
    ensures gives { Gives (read (readers depth) form.conj cursor.old) result cursor.new }
    ensures shrinks { length cursor.new ≤ length cursor.old }
{
    let first = neg(alloc, cursor, depth)?;
    let others = and_operands(alloc, cursor, depth);
    every(alloc, first, others)
}

#[cycle(rule)]
#[tactic(auto, unfolding(sql_grammar::specs::Expressions::or_operand))]
fn or_operand(alloc: Global, cursor: &mut Cursor<'_>, depth: u8) -> Result<Operand, Fault>
    ensures gives { Gives (read (readers depth) form.or_operand cursor.old) result cursor.new }
    ensures shrinks { length cursor.new ≤ length cursor.old }
    ensures falls { IsOk result → length cursor.new < length cursor.old }
{
    let place = cursor.word(Word::Or)?;
    let right = conj(alloc, cursor, depth)?;
    Ok(Operand { place, right })
}

/// As many as come.
#[cycle(rule)]
fn or_operands(alloc: Global, cursor: &mut Cursor<'_>, depth: u8) -> Result<Items<Operand>, Fault>
    ensures gives { Gives (read (readers depth) (many form.or_operand) cursor.old) result cursor.new }
    ensures shrinks { length cursor.new ≤ length cursor.old }
{
    let mut found = Items::new(alloc);
    'turns: while at_or(cursor) {
        let next = or_operand(alloc, cursor, depth)?;
        found.push(next)?;
    }
    Ok(found)
}

#[cycle(rule)]
#[tactic(auto, unfolding(sql_grammar::specs::Expressions::expr))]
pub(crate) fn expr(alloc: Global, cursor: &mut Cursor<'_>, depth: u8) -> Result<Boxed<Expr>, Fault>
    ensures gives { Gives (read (readers depth) form.expr cursor.old) result cursor.new }
    ensures shrinks { length cursor.new ≤ length cursor.old }
{
    let first = conj(alloc, cursor, depth)?;
    let others = or_operands(alloc, cursor, depth);
    either(alloc, first, others)
}
