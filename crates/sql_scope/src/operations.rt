//! What an operation asks of its operands' types.
ghost use Rattle.std.specs.Prelude.{◌≡◌};
ghost use Rattle.sql_scope.specs.Operations as operations;
ghost use Rattle.sql_scope.specs.Answer.{Gives};

use crate::fault::BindFault;
use ooc_types::SqlType;
use sql_expr::{ChainSign, Family, family_of, mismatch, result_type};

/// Whether it is BOOLEAN.
pub fn is_boolean(kind: SqlType) -> bool
    ensures { result ≡ operations.is_boolean kind }
{
    match family_of(kind) {
        Family::Truths => true,
        Family::Numbers | Family::Texts | Family::Dates => false,
    }
}

pub(crate) fn is_number(kind: SqlType) -> bool
    ensures { result ≡ operations.is_number kind }
{
    match family_of(kind) {
        Family::Numbers => true,
        Family::Truths | Family::Texts | Family::Dates => false,
    }
}

pub(crate) fn is_text(kind: SqlType) -> bool
    ensures { result ≡ operations.is_text kind }
{
    match family_of(kind) {
        Family::Texts => true,
        Family::Truths | Family::Numbers | Family::Dates => false,
    }
}

fn is_date(kind: SqlType) -> bool
    ensures { result ≡ operations.is_date kind }
{
    match family_of(kind) {
        Family::Dates => true,
        Family::Truths | Family::Numbers | Family::Texts => false,
    }
}

/// Whether values of the two types compare.
pub fn are_comparable(left: SqlType, right: SqlType) -> bool
    ensures { result ≡ operations.are_comparable left right }
{
    match family_of(left) {
        Family::Truths => is_boolean(right),
        Family::Numbers => is_number(right),
        Family::Texts => is_text(right),
        Family::Dates => is_date(right),
    }
}

/// The type of two operands under a sign that stands at this place.
pub(crate) fn linked_type(
    place: usize,
    sign: ChainSign,
    left: SqlType,
    right: SqlType,
) -> Result<SqlType, BindFault>
    ensures { Gives (operations.linked_type place sign left right) result }
{
    match result_type(sign, left, right) {
        Some(kind) => Ok(kind),
        None => Err(BindFault::Refused {
            place,
            kind: mismatch(sign, left, right),
        }),
    }
}
