//! The types of columns, as they are written.
ghost use Rattle.std.specs.Prelude.{◌≡◌, ◌≤◌};
ghost use Rattle.sql_scope.specs.Answer.{Gives};
ghost use Rattle.sql_clauses.specs.Types as rules;

use crate::names::small_name;
use crate::numbers::number_at;
use ooc_types::{RefusalKind, SqlType};
use sql_grammar::tree::{Sizes, Span, TypeName};
use sql_scope::{BindFault, Scope};
use std::alloc::Global;

/// What the name of a type says.
#[derive(Clone, Copy)]
pub(crate) enum TypeWord {
    Boolean,
    Integer,
    BigInt,
    HugeInt,
    Decimal,
    Date,
    Varchar,
}

/// DECIMAL alone.
const DEFAULT_WIDTH: u8 = 18;

const DEFAULT_SCALE: u8 = 3;

/// The widest DECIMAL.
const MOST_WIDTH: u128 = 38;

fn is_either(name: &[u8], word: &[u8], other: &[u8]) -> bool
    ensures { result ≡ rules.is_either name.now word.now other.now }
{
    name == word || name == other
}

fn type_word(name: &[u8]) -> Option<TypeWord>
    ensures { result ≡ rules.type_word name.now }
{
    if is_either(name, b"boolean".as_slice(), b"bool".as_slice()) {
        Some(TypeWord::Boolean)
    } else if is_either(name, b"integer".as_slice(), b"int".as_slice()) {
        Some(TypeWord::Integer)
    } else if name == b"bigint".as_slice() {
        Some(TypeWord::BigInt)
    } else if name == b"hugeint".as_slice() {
        Some(TypeWord::HugeInt)
    } else if is_either(name, b"decimal".as_slice(), b"numeric".as_slice()) {
        Some(TypeWord::Decimal)
    } else if name == b"date".as_slice() {
        Some(TypeWord::Date)
    } else if is_either(name, b"varchar".as_slice(), b"text".as_slice()) {
        Some(TypeWord::Varchar)
    } else {
        None
    }
}

fn decimal_type(place: usize, width: u128, scale: u128) -> Result<SqlType, BindFault>
    ensures { Gives (rules.decimal_type place width scale) result }
{
    if !(1 <= width && width <= MOST_WIDTH && scale <= width) {
        return Err(BindFault::Refused {
            place,
            kind: RefusalKind::DecimalTooWide,
        });
    }
    Ok(SqlType::Decimal {
        width: width as u8,
        scale: scale as u8,
    })
}

fn scale_of(scope: &Scope<'_>, span: Option<Span>) -> Result<u128, BindFault>
    ensures { Gives (rules.scale_of scope.now span) result }
{
    match span {
        Some(span) => number_at(scope, span),
        None => Ok(0),
    }
}

fn sized_decimal(
    scope: &Scope<'_>,
    place: usize,
    sizes: Option<Sizes>,
) -> Result<SqlType, BindFault>
    ensures { Gives (rules.sized_decimal scope.now place sizes) result }
{
    match sizes {
        Some(sizes) => {
            let width = number_at(scope, sizes.first)?;
            let scale = scale_of(scope, sizes.second)?;
            decimal_type(place, width, scale)
        }
        None => Ok(SqlType::Decimal {
            width: DEFAULT_WIDTH,
            scale: DEFAULT_SCALE,
        }),
    }
}

fn no_type(place: usize) -> BindFault
    ensures { result ≡ rules.no_type_at place }
{
    BindFault::Refused {
        place,
        kind: RefusalKind::NoType,
    }
}

fn sized_varchar(place: usize, sizes: Option<Sizes>) -> Result<SqlType, BindFault>
    ensures { Gives (rules.sized_varchar place sizes) result }
{
    match sizes {
        Some(
            Sizes {
                second: Some(_),
                ..
            },
        ) => Err(no_type(place)),
        _ => Ok(SqlType::Varchar),
    }
}

fn unsized_type(place: usize, sizes: Option<Sizes>, kind: SqlType) -> Result<SqlType, BindFault>
    ensures { Gives (rules.unsized_type place sizes kind) result }
{
    match sizes {
        Some(_) => Err(no_type(place)),
        None => Ok(kind),
    }
}

fn type_of_word(
    scope: &Scope<'_>,
    place: usize,
    sizes: Option<Sizes>,
    word: Option<TypeWord>,
) -> Result<SqlType, BindFault>
    ensures { Gives (rules.type_of_word scope.now place sizes word) result }
{
    match word {
        Some(TypeWord::Boolean) => unsized_type(place, sizes, SqlType::Boolean),
        Some(TypeWord::Integer) => unsized_type(place, sizes, SqlType::Integer),
        Some(TypeWord::BigInt) => unsized_type(place, sizes, SqlType::BigInt),
        Some(TypeWord::HugeInt) => unsized_type(place, sizes, SqlType::HugeInt),
        Some(TypeWord::Decimal) => sized_decimal(scope, place, sizes),
        Some(TypeWord::Date) => unsized_type(place, sizes, SqlType::Date),
        Some(TypeWord::Varchar) => sized_varchar(place, sizes),
        None => Err(no_type(place)),
    }
}

/// The type that a column is declared with.
pub(crate) fn declared_type(
    alloc: Global,
    scope: &Scope<'_>,
    written: TypeName,
) -> Result<SqlType, BindFault>
    ensures { Gives (rules.declared_type scope.now written) result }
{
    let name = small_name(alloc, scope, written.name)?;
    let word = type_word(name.as_bytes());
    type_of_word(scope, written.name.start, written.sizes, word)
}
