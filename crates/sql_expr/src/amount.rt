//! The values of expressions that are amounts: their digits at the scale of their type.
ghost use Rattle.std.specs.Prelude.{◌≡◌, Ok, map};
ghost use Rattle.sql_expr.specs.Kinds.{kind_of as type_of, last_kind};
ghost use Rattle.sql_expr.specs.Meaning.{value_of, chain_from, linked, plain_link};
ghost use Rattle.sql_expr.specs.Outcomes.{amount_meaning, amount_value};
ghost use Rattle.sql_expr.specs.Operations.{IsAmount, IsLinked};
ghost use Rattle.sql_expr.specs.Typing.{FitsRow};
ghost use Rattle.sql_expr.specs.Ready.{AreReady};

use crate::arithmetic::{apply, opposite_of};
use crate::fault::ValueFault;
use crate::kinds::kind_of;
use crate::logic::digits_in;
use crate::tree::{Expr, Link};
use ooc_types::{SqlType, Value};

// One link behind an amount of the type.
#[cycle(amount)]
fn amount_link(
    left: Option<i128>,
    kind: SqlType,
    link: &Link,
    row: &[Value],
) -> Result<Option<i128>, ValueFault>
    requires fits { FitsRow link.now.right row.now }
    requires typed { IsLinked link.now.sign kind (type_of link.now.right) link.now.kind }
    ensures { linked (Ok (amount_value kind left)) (plain_link row.now link.now)
        ≡ amount_meaning link.now.kind result }
{
    match amount_of(&link.right, row) {
        Ok(right) => apply(
            link.sign,
            link.kind,
            left,
            kind,
            right,
            kind_of(&link.right),
        ),
        Err(fault) => Err(fault),
    }
}

// An amount of the type, and the links that act on it from left to right.
#[cycle(amount)]
fn amount_links(
    first: Option<i128>,
    kind: SqlType,
    links: &[Link],
    row: &[Value],
) -> Result<Option<i128>, ValueFault>
    requires { AreReady row.now kind links.now }
    ensures { chain_from (Ok (amount_value kind first)) (map (plain_link row.now) links.now)
        ≡ amount_meaning (last_kind kind (map (λ link. link.kind) links.now)) result }
{
    let mut left = first;
    let mut left_kind = kind;
    for link in links {
        match amount_link(left, left_kind, link, row) {
            Ok(number) => left = number,
            Err(fault) => return Err(fault),
        }
        left_kind = link.kind;
    }
    Ok(left)
}

/// The digits of an expression that is an amount, at the scale of its type, or none where it is NULL.
#[cycle(amount)]
pub fn amount_of(expr: &Expr, row: &[Value]) -> Result<Option<i128>, ValueFault>
    requires fits { FitsRow expr.now row.now }
    requires amount { IsAmount (type_of expr.now) }
    ensures { value_of row.now expr.now ≡ amount_meaning (type_of expr.now) result }
{
    match expr {
        Expr::Constant { value, .. } => Ok(digits_in(value)),
        Expr::Column { place, .. } => Ok(digits_in(&row[*place as usize])),
        Expr::Minus { of, kind } => match amount_of(of.get(), row) {
            Ok(number) => opposite_of(number, *kind),
            Err(fault) => Err(fault),
        },
        Expr::Chain { first, links } => match amount_of(first.get(), row) {
            Ok(left) => amount_links(left, kind_of(first.get()), links.as_slice(), row),
            Err(fault) => Err(fault),
        },
        _ => Ok(None),
    }
}
