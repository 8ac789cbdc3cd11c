//! The values of expressions that are texts: columns and literals.
ghost use Rattle.std.specs.Prelude.{◌≡◌, Ok};
ghost use Rattle.std.specs.Option.{option_copied};
ghost use Rattle.sql_expr.specs.Kinds.{kind_of as type_of};
ghost use Rattle.sql_expr.specs.Meaning.{value_of};
ghost use Rattle.sql_expr.specs.Outcomes.{text_value, bytes_in};
ghost use Rattle.sql_expr.specs.Operations.{IsText};
ghost use Rattle.sql_expr.specs.Typing.{FitsRow};

use crate::tree::Expr;
use ooc_types::Value;

/// The bytes of a text, and none of another value.
pub fn text_in(value: &Value) -> Option<&[u8]>
    ensures { option_copied result ≡ bytes_in value.now }
{
    match value {
        Value::Text(text) => Some(text.as_bytes()),
        Value::Null | Value::Truth(_) | Value::Number { .. } | Value::Day(_) => None,
    }
}

/// The bytes of a text's expression, or none where it is NULL.
pub fn text_of<'a>(expr: &'a Expr, row: &'a [Value]) -> Option<&'a [u8]>
    requires fits { FitsRow expr.now row.now }
    requires text { IsText (type_of expr.now) }
    ensures { value_of row.now expr.now ≡ Ok (text_value (option_copied result)) }
{
    match expr {
        Expr::Constant { value, .. } => text_in(value),
        Expr::Column { place, .. } => text_in(&row[*place as usize]),
        _ => None,
    }
}
