//! The types of expressions.
ghost use Rattle.std.specs.Prelude.{◌≡◌};
ghost use Rattle.ooc_decimal.specs.Numeric.{scale_of};
ghost use Rattle.sql_expr.specs.Kinds.{kind_of as type_of};

use crate::tree::Expr;
use ooc_types::SqlType;

/// How many digits of the type stand behind the point.
pub fn scale(kind: SqlType) -> u8
    ensures { result ≡ scale_of kind }
{
    match kind {
        SqlType::Decimal { scale, .. } => scale,
        SqlType::Boolean
        | SqlType::Integer
        | SqlType::BigInt
        | SqlType::HugeInt
        | SqlType::Date
        | SqlType::Varchar => 0,
    }
}

/// The type of an expression.
pub fn kind_of(expr: &Expr) -> SqlType
    ensures { result ≡ type_of expr.now }
{
    match expr {
        Expr::Constant { kind, .. } | Expr::Column { kind, .. } | Expr::Minus { kind, .. } => *kind,
        Expr::Chain { first, links } => match links.as_slice() {
            [.., last] => last.kind,
            [] => kind_of(first.get()),
        },
        Expr::Not { .. }
        | Expr::Every { .. }
        | Expr::Either { .. }
        | Expr::Compare { .. }
        | Expr::IsNull { .. }
        | Expr::Like { .. }
        | Expr::OneOf { .. }
        | Expr::Between { .. } => SqlType::Boolean,
    }
}
