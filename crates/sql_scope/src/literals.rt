//! Literals.
ghost use Rattle.std.specs.Prelude.{◌≡◌, pos, ℤ};
ghost use Rattle.sql_scope.specs.Answer.{Gives};
ghost use Rattle.sql_scope.specs.Literals as rules;
ghost use Rattle.sql_scope.specs.Dates as dates;
ghost use Rattle.sql_scope.specs.Texts as texts;
ghost use Rattle.sql_lex.specs.Values as lexed;
ghost use Rattle.sql_expr.specs.Typing as typing;

use crate::fault::BindFault;
use crate::scope::Scope;
use date_values::read_date;
use ooc_types::{RefusalKind, SqlType, Text, Value};
use sql_expr::Expr;
use sql_grammar::text_at;
use sql_grammar::tree::{Literal, Span};
use sql_lex::{DecimalValue, decimal_value, integer_value, unquoted};
use std::alloc::Global;

fn integer_type(number: u128) -> SqlType
    ensures { result ≡ typing.integer_type number }
{
    if number < 0x8000_0000 {
        SqlType::Integer
    } else if number < 0x8000_0000_0000_0000 {
        SqlType::BigInt
    } else {
        SqlType::HugeInt
    }
}

fn integer_literal(place: usize, number: Option<i128>) -> Result<Expr, BindFault>
    ensures { Gives (rules.integer_literal place number) result }
{
    match number {
        Some(digits) if digits >= 0 => {
            let kind = integer_type(digits as u128);
            let value = Value::Number { digits, scale: 0 };
            Ok(Expr::Constant { value, kind })
        }
        _ => Err(BindFault::Refused {
            place,
            kind: RefusalKind::BadToken,
        }),
    }
}

fn decimal_literal(place: usize, number: Option<DecimalValue>) -> Result<Expr, BindFault>
    ensures { Gives (rules.decimal_literal place number) result }
{
    match number {
        Some(
            DecimalValue {
                digits,
                scale,
                width,
            },
        ) => {
            let kind = SqlType::Decimal { width, scale };
            let value = Value::Number { digits, scale };
            Ok(Expr::Constant { value, kind })
        }
        None => Err(BindFault::Refused {
            place,
            kind: RefusalKind::BadToken,
        }),
    }
}

fn limited(limit: usize, place: usize, text: Text) -> Result<Text, BindFault>
    ensures { Gives (rules.limited limit place text) result }
{
    if text.as_bytes().len() <= limit {
        Ok(text)
    } else {
        Err(BindFault::Refused {
            place,
            kind: RefusalKind::TextTooLong,
        })
    }
}

/// A text without its quotes, within the limit.
pub(crate) fn text_literal(alloc: Global, scope: &Scope<'_>, span: Span) -> Result<Text, BindFault>
    ensures { Gives (rules.text_literal scope.now span) result }
{
    let text = unquoted(alloc, text_at(scope.script(), span))?;
    limited(scope.limit(), span.start, Text::from_vec(text))
}

fn a_text(alloc: Global, scope: &Scope<'_>, span: Span) -> Result<Expr, BindFault>
    ensures { Gives (rules.a_text scope.now span) result }
{
    let text = text_literal(alloc, scope, span)?;
    Ok(Expr::Constant {
        value: Value::Text(text),
        kind: SqlType::Varchar,
    })
}

fn a_truth(truth: bool) -> Expr
    ensures { result ≡ rules.a_truth truth }
{
    Expr::Constant {
        value: Value::Truth(truth),
        kind: SqlType::Boolean,
    }
}

fn day_of(text: &[u8]) -> Option<i32>
    ensures { result ≡ dates.day_of text.now }
{
    read_date(text)
}

fn date_literal(place: usize, day: Option<i32>) -> Result<Expr, BindFault>
    ensures { Gives (rules.date_literal place day) result }
{
    match day {
        Some(day) => Ok(Expr::Constant {
            value: Value::Day(day),
            kind: SqlType::Date,
        }),
        None => Err(BindFault::Refused {
            place,
            kind: RefusalKind::BadDate,
        }),
    }
}

fn a_date(alloc: Global, scope: &Scope<'_>, span: Span) -> Result<Expr, BindFault>
    ensures { Gives (rules.date_literal span.start (dates.day_of (lexed.unquoted (texts.text_at scope.now.script span)))) result }
{
    let text = unquoted(alloc, text_at(scope.script(), span))?;
    date_literal(span.start, day_of(text.as_slice()))
}

/// The constant that a literal stands for.
pub(crate) fn literal_tree(
    alloc: Global,
    scope: &Scope<'_>,
    written: Literal,
) -> Result<Expr, BindFault>
    ensures { Gives (rules.literal scope.now written) result }
{
    match written {
        Literal::Integer(span) => {
            integer_literal(span.start, integer_value(text_at(scope.script(), span)))
        }
        Literal::Decimal(span) => {
            decimal_literal(span.start, decimal_value(text_at(scope.script(), span)))
        }
        Literal::Text(span) => a_text(alloc, scope, span),
        Literal::True(_) => Ok(a_truth(true)),
        Literal::False(_) => Ok(a_truth(false)),
        Literal::Date(span) => a_date(alloc, scope, span),
    }
}
