//! Tests of an operand in which nothing nests.
ghost use Rattle.std.specs.Prelude.{◌≤◌, length, Ok};
ghost use Rattle.sql_grammar.specs.Reading.{read, and_then};
ghost use Rattle.sql_grammar.specs.Nesting.{readers};
ghost use Rattle.flat_rules.specs.Gives.{Gives};
ghost use Rattle.sql_grammar.specs.Expressions as form;

use crate::constants::constants;
use crate::cursor::Cursor;
use sql_grammar::Fault;
use sql_grammar::tree::Expr;
use sql_lex::{Sign, Word};
use sqlite_items::Boxed;
use std::alloc::Global;

/// IS NULL or IS NOT NULL.
#[tactic(auto, unfolding(sql_grammar::specs::Expressions::null_test))]
pub fn null_test(
    alloc: Global,
    cursor: &mut Cursor<'_>,
    left: Boxed<Expr>,
    depth: u8,
) -> Result<Boxed<Expr>, Fault>
    ensures gives { Gives (and_then (read (readers depth) form.null_test cursor.old) (λ test r. Ok (test left, r))) result cursor.new }
    ensures shrinks { length cursor.new ≤ length cursor.old }
{
    let place = cursor.word(Word::Is)?;
    let negated = cursor.skip_word(Word::Not);
    cursor.word(Word::Null)?;
    let node = Expr::IsNull {
        place,
        negated,
        operand: left,
    };
    Ok(Boxed::new(alloc, node)?)
}

/// LIKE and its pattern.
#[tactic(auto, unfolding(sql_grammar::specs::Expressions::like))]
pub fn like(
    alloc: Global,
    cursor: &mut Cursor<'_>,
    left: Boxed<Expr>,
    negated: bool,
    depth: u8,
) -> Result<Boxed<Expr>, Fault>
    ensures gives { Gives (and_then (read (readers depth) form.like cursor.old) (λ test r. Ok (test negated left, r))) result cursor.new }
    ensures shrinks { length cursor.new ≤ length cursor.old }
{
    let place = cursor.word(Word::Like)?;
    let pattern = cursor.text()?;
    let node = Expr::Like {
        place,
        negated,
        operand: left,
        pattern,
    };
    Ok(Boxed::new(alloc, node)?)
}

/// IN with a list of constants, behind IN, which stands at `place`.
#[tactic(auto, unfolding(sql_grammar::specs::Expressions::one_of))]
pub fn one_of(
    alloc: Global,
    cursor: &mut Cursor<'_>,
    left: Boxed<Expr>,
    negated: bool,
    place: usize,
    depth: u8,
) -> Result<Boxed<Expr>, Fault>
    ensures gives { Gives (and_then (read (readers depth) form.one_of cursor.old) (λ test r. Ok (test place negated left, r))) result cursor.new }
    ensures shrinks { length cursor.new ≤ length cursor.old }
{
    cursor.sign(Sign::LeftParenthesis)?;
    let list = constants(alloc, cursor, depth)?;
    cursor.sign(Sign::RightParenthesis)?;
    let node = Expr::OneOf {
        place,
        negated,
        operand: left,
        list,
    };
    Ok(Boxed::new(alloc, node)?)
}
