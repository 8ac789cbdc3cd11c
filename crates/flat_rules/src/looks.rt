//! What comes next, told by the next token.
ghost use Rattle.std.specs.Prelude.{◌≡◌};
ghost use Rattle.sql_grammar.specs.Lexeme.{first};
ghost use Rattle.sql_grammar.specs.Reading.{begins};
ghost use Rattle.sql_grammar.specs.Expressions as form;

use crate::cursor::{Cursor, DATE};
use sql_lex::{Sign, Word};

/// Whether a link of a term comes next.
#[tactic(auto, unfolding(sql_grammar::specs::Expressions::term_sign, sql_grammar::specs::Expressions::term_link))]
pub fn at_term_sign(cursor: &Cursor<'_>) -> bool
    ensures { result ≡ begins form.term_link (first cursor.now) }
{
    cursor.at_sign(Sign::Star) || cursor.at_sign(Sign::Quotient) || cursor.at_sign(Sign::Remainder)
}

/// Whether a link of a sum comes next.
#[tactic(auto, unfolding(sql_grammar::specs::Expressions::sum_sign, sql_grammar::specs::Expressions::sum_link))]
pub fn at_sum_sign(cursor: &Cursor<'_>) -> bool
    ensures { result ≡ begins form.sum_link (first cursor.now) }
{
    cursor.at_sign(Sign::Plus) || cursor.at_sign(Sign::Minus)
}

/// Whether a comparison comes next.
#[tactic(auto, unfolding(sql_grammar::specs::Expressions::compare_sign))]
fn at_compare_sign(cursor: &Cursor<'_>) -> bool
    ensures { result ≡ begins form.compare_sign (first cursor.now) }
{
    cursor.at_sign(Sign::Equal)
        || cursor.at_sign(Sign::Unequal)
        || cursor.at_sign(Sign::Less)
        || cursor.at_sign(Sign::AtMost)
        || cursor.at_sign(Sign::Greater)
        || cursor.at_sign(Sign::AtLeast)
}

/// Whether an operand under AND comes next.
#[tactic(auto, unfolding(sql_grammar::specs::Expressions::and_operand))]
pub fn at_and(cursor: &Cursor<'_>) -> bool
    ensures { result ≡ begins form.and_operand (first cursor.now) }
{
    cursor.at_word(Word::And)
}

/// Whether an operand under OR comes next.
#[tactic(auto, unfolding(sql_grammar::specs::Expressions::or_operand))]
pub fn at_or(cursor: &Cursor<'_>) -> bool
    ensures { result ≡ begins form.or_operand (first cursor.now) }
{
    cursor.at_word(Word::Or)
}

/// Whether a column or a call comes next, whose name doesn't begin with DATE.
#[tactic(auto, unfolding(sql_grammar::specs::Expressions::named))]
pub fn at_named(cursor: &Cursor<'_>) -> bool
    ensures { result ≡ begins form.named (first cursor.now) }
{
    cursor.at_other_name()
}

/// Whether the name DATE comes next.
#[tactic(auto, unfolding(sql_grammar::specs::Expressions::dated))]
pub fn at_dated(cursor: &Cursor<'_>) -> bool
    ensures { result ≡ begins form.dated (first cursor.now) }
{
    cursor.sees(DATE)
}

/// Whether an expression in parentheses comes next.
#[tactic(auto, unfolding(sql_grammar::specs::Expressions::group))]
pub fn at_group(cursor: &Cursor<'_>) -> bool
    ensures { result ≡ begins form.group (first cursor.now) }
{
    cursor.at_opening()
}

/// Whether a comparison comes next.
#[tactic(auto, unfolding(sql_grammar::specs::Expressions::comparison, sql_grammar::specs::Expressions::compare_sign))]
pub fn at_comparison(cursor: &Cursor<'_>) -> bool
    ensures { result ≡ begins form.comparison (first cursor.now) }
{
    at_compare_sign(cursor)
}

/// Whether IS NULL or IS NOT NULL comes next.
#[tactic(auto, unfolding(sql_grammar::specs::Expressions::null_test))]
pub fn at_null_test(cursor: &Cursor<'_>) -> bool
    ensures { result ≡ begins form.null_test (first cursor.now) }
{
    cursor.at_word(Word::Is)
}

/// Whether LIKE comes next.
#[tactic(auto, unfolding(sql_grammar::specs::Expressions::like))]
pub fn at_like(cursor: &Cursor<'_>) -> bool
    ensures { result ≡ begins form.like (first cursor.now) }
{
    cursor.at_word(Word::Like)
}

/// Whether IN comes next.
#[tactic(auto, unfolding(sql_grammar::specs::Expressions::in_test))]
pub fn at_in_test(cursor: &Cursor<'_>) -> bool
    ensures { result ≡ begins form.in_test (first cursor.now) }
{
    cursor.at_word(Word::In)
}

/// Whether BETWEEN comes next.
#[tactic(auto, unfolding(sql_grammar::specs::Expressions::between))]
fn at_between(cursor: &Cursor<'_>) -> bool
    ensures { result ≡ begins form.between (first cursor.now) }
{
    cursor.at_word(Word::Between)
}

/// Whether LIKE, IN or BETWEEN, with or without NOT, comes next.
#[tactic(auto, unfolding(sql_grammar::specs::Expressions::range_test))]
pub fn at_range_test(cursor: &Cursor<'_>) -> bool
    ensures { result ≡ begins form.range_test (first cursor.now) }
{
    cursor.at_word(Word::Not) || at_like(cursor) || at_in_test(cursor) || at_between(cursor)
}
