//! Parts of expressions in which nothing nests: literals, constants, names of columns, and signs.
ghost use Rattle.std.specs.Prelude.{◌≤◌, ◌<◌, length, IsOk, Ok};
ghost use Rattle.sql_grammar.specs.Reading.{read, and_then};
ghost use Rattle.sql_grammar.specs.Nesting.{readers};
ghost use Rattle.flat_rules.specs.Gives.{Gives};
ghost use Rattle.sql_grammar.specs.Expressions as form;
ghost use Rattle.sql_grammar.specs.declared.tree.expr.Expr.TheVariants as node;

use crate::cursor::{Cursor, DATE, DECIMAL, INTEGER};
use sql_grammar::Fault;
use sql_grammar::tree::{ChainSign, ColumnName, CompareSign, Constant, Expr, Literal, Span};
use sql_lex::{Sign, Word};
use sqlite_items::Boxed;
use std::alloc::Global;

/// A literal of one token.
#[tactic(auto, unfolding(sql_grammar::specs::Expressions::plain_literal))]
fn plain_literal(cursor: &mut Cursor<'_>, depth: u8) -> Result<Literal, Fault>
    ensures gives { Gives (read (readers depth) form.plain_literal cursor.old) result cursor.new }
    ensures shrinks { length cursor.new ≤ length cursor.old }
{
    if cursor.sees(INTEGER) {
        Ok(Literal::Integer(cursor.take()))
    } else if cursor.sees(DECIMAL) {
        Ok(Literal::Decimal(cursor.take()))
    } else if cursor.at_text() {
        Ok(Literal::Text(cursor.take()))
    } else if cursor.at_word(Word::True) {
        Ok(Literal::True(cursor.take()))
    } else if cursor.at_word(Word::False) {
        Ok(Literal::False(cursor.take()))
    } else {
        Err(Fault::Syntax)
    }
}

#[tactic(auto, unfolding(sql_grammar::specs::Expressions::date))]
fn date(cursor: &mut Cursor<'_>, depth: u8) -> Result<Literal, Fault>
    ensures gives { Gives (read (readers depth) form.date cursor.old) result cursor.new }
    ensures shrinks { length cursor.new ≤ length cursor.old }
{
    cursor.date_name()?;
    Ok(Literal::Date(cursor.text()?))
}

#[tactic(auto, unfolding(sql_grammar::specs::Expressions::literal, sql_grammar::specs::Expressions::date))]
fn literal(cursor: &mut Cursor<'_>, depth: u8) -> Result<Literal, Fault>
    ensures gives { Gives (read (readers depth) form.literal cursor.old) result cursor.new }
    ensures shrinks { length cursor.new ≤ length cursor.old }
{
    if cursor.sees(DATE) {
        date(cursor, depth)
    } else {
        plain_literal(cursor, depth)
    }
}

/// A date as an expression, behind DATE.
pub fn date_node(
    alloc: Global,
    cursor: &mut Cursor<'_>,
    name: Span,
    depth: u8,
) -> Result<Boxed<Expr>, Fault>
    ensures gives { Gives (and_then (read (readers depth) form.date_end cursor.old) (λ f r. Ok (f name, r))) result cursor.new }
    ensures shrinks { length cursor.new ≤ length cursor.old }
{
    let text = cursor.text()?;
    Ok(Boxed::new(alloc, Expr::Literal(Literal::Date(text)))?)
}

/// A literal of one token as an expression.
pub fn literal_node(alloc: Global, cursor: &mut Cursor<'_>, depth: u8) -> Result<Boxed<Expr>, Fault>
    ensures gives { Gives (and_then (read (readers depth) form.plain_literal cursor.old) (λ l r. Ok (node.Literal l, r))) result cursor.new }
    ensures shrinks { length cursor.new ≤ length cursor.old }
{
    let literal = plain_literal(cursor, depth)?;
    Ok(Boxed::new(alloc, Expr::Literal(literal))?)
}

/// A column, behind its name or that of its source.
pub fn column(
    alloc: Global,
    cursor: &mut Cursor<'_>,
    name: Span,
    depth: u8,
) -> Result<Boxed<Expr>, Fault>
    ensures gives { Gives (and_then (read (readers depth) form.column_end cursor.old) (λ f r. Ok (f name, r))) result cursor.new }
    ensures shrinks { length cursor.new ≤ length cursor.old }
{
    let mut column = ColumnName { source: None, name };
    if cursor.at_sign(Sign::Dot) {
        cursor.shift();
        column = ColumnName {
            source: Some(name),
            name: cursor.name()?,
        };
    }
    Ok(Boxed::new(alloc, Expr::Column(column))?)
}

#[tactic(auto, unfolding(sql_grammar::specs::Expressions::constant))]
pub(crate) fn constant(cursor: &mut Cursor<'_>, depth: u8) -> Result<Constant, Fault>
    ensures gives { Gives (read (readers depth) form.constant cursor.old) result cursor.new }
    ensures shrinks { length cursor.new ≤ length cursor.old }
{
    let minus = cursor.optional_sign(Sign::Minus);
    let literal = literal(cursor, depth)?;
    Ok(Constant { minus, literal })
}

#[tactic(auto, unfolding(sql_grammar::specs::Expressions::column_name))]
pub(crate) fn column_name(cursor: &mut Cursor<'_>, depth: u8) -> Result<ColumnName, Fault>
    ensures gives { Gives (read (readers depth) form.column_name cursor.old) result cursor.new }
    ensures shrinks { length cursor.new ≤ length cursor.old }
{
    let first = cursor.name()?;
    if cursor.at_sign(Sign::Dot) {
        cursor.shift();
        let name = cursor.name()?;
        return Ok(ColumnName {
            source: Some(first),
            name,
        });
    }
    Ok(ColumnName {
        source: None,
        name: first,
    })
}

/// `*`, `/` or `%`, and its place.
#[tactic(auto, unfolding(sql_grammar::specs::Expressions::term_sign))]
pub fn term_sign(cursor: &mut Cursor<'_>, depth: u8) -> Result<(ChainSign, usize), Fault>
    ensures gives { Gives (read (readers depth) form.term_sign cursor.old) result cursor.new }
    ensures shrinks { length cursor.new ≤ length cursor.old }
    ensures falls { IsOk result → length cursor.new < length cursor.old }
{
    if cursor.at_sign(Sign::Star) {
        Ok((ChainSign::Times, cursor.take().start))
    } else if cursor.at_sign(Sign::Quotient) {
        Ok((ChainSign::Quotient, cursor.take().start))
    } else if cursor.at_sign(Sign::Remainder) {
        Ok((ChainSign::Remainder, cursor.take().start))
    } else {
        Err(Fault::Syntax)
    }
}

/// `+` or `-`, and its place.
#[tactic(auto, unfolding(sql_grammar::specs::Expressions::sum_sign))]
pub fn sum_sign(cursor: &mut Cursor<'_>, depth: u8) -> Result<(ChainSign, usize), Fault>
    ensures gives { Gives (read (readers depth) form.sum_sign cursor.old) result cursor.new }
    ensures shrinks { length cursor.new ≤ length cursor.old }
    ensures falls { IsOk result → length cursor.new < length cursor.old }
{
    if cursor.at_sign(Sign::Plus) {
        Ok((ChainSign::Plus, cursor.take().start))
    } else if cursor.at_sign(Sign::Minus) {
        Ok((ChainSign::Minus, cursor.take().start))
    } else {
        Err(Fault::Syntax)
    }
}

/// The sign of a comparison, and its place.
#[tactic(auto, unfolding(sql_grammar::specs::Expressions::compare_sign))]
pub fn compare_sign(cursor: &mut Cursor<'_>, depth: u8) -> Result<(CompareSign, usize), Fault>
    ensures gives { Gives (read (readers depth) form.compare_sign cursor.old) result cursor.new }
    ensures shrinks { length cursor.new ≤ length cursor.old }
{
    if cursor.at_sign(Sign::Equal) {
        Ok((CompareSign::Equal, cursor.take().start))
    } else if cursor.at_sign(Sign::Unequal) {
        Ok((CompareSign::Unequal, cursor.take().start))
    } else if cursor.at_sign(Sign::Less) {
        Ok((CompareSign::Less, cursor.take().start))
    } else if cursor.at_sign(Sign::AtMost) {
        Ok((CompareSign::AtMost, cursor.take().start))
    } else if cursor.at_sign(Sign::Greater) {
        Ok((CompareSign::Greater, cursor.take().start))
    } else if cursor.at_sign(Sign::AtLeast) {
        Ok((CompareSign::AtLeast, cursor.take().start))
    } else {
        Err(Fault::Syntax)
    }
}
