//! Numbers of the script.
ghost use Rattle.std.specs.Prelude.{◌≡◌};
ghost use Rattle.sql_scope.specs.Answer.{Gives};
ghost use Rattle.sql_clauses.specs.Numbers as rules;

use ooc_types::RefusalKind;
use sql_grammar::text_at;
use sql_grammar::tree::Span;
use sql_lex::integer_value;
use sql_scope::{BindFault, Scope};

fn whole_number(place: usize, number: Option<i128>) -> Result<u128, BindFault>
    ensures { Gives (rules.whole_number place number) result }
{
    match number {
        Some(digits) if digits >= 0 => Ok(digits as u128),
        _ => Err(BindFault::Refused {
            place,
            kind: RefusalKind::BadToken,
        }),
    }
}

/// The number that a token writes.
pub(crate) fn number_at(scope: &Scope<'_>, span: Span) -> Result<u128, BindFault>
    ensures { Gives (rules.number_at scope.now span) result }
{
    whole_number(span.start, integer_value(text_at(scope.script(), span)))
}

/// The number behind LIMIT or OFFSET, where it is written.
pub(crate) fn written_number(
    scope: &Scope<'_>,
    span: Option<Span>,
) -> Result<Option<u128>, BindFault>
    ensures { Gives (rules.written_number scope.now span) result }
{
    match span {
        Some(span) => {
            let number = number_at(scope, span)?;
            Ok(Some(number))
        }
        None => Ok(None),
    }
}
