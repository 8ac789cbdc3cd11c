//! The value of an expression.
ghost use Rattle.std.specs.Prelude.{◌≡◌, ◌≢◌, Ok, Err};
ghost use Rattle.sql_expr.specs.Kinds.{kind_of as type_of};
ghost use Rattle.sql_expr.specs.Meaning.{value_of};
ghost use Rattle.sql_expr.specs.Outcomes.{Tells};
ghost use Rattle.sql_expr.specs.Operations.{IsNumber, IsText};
ghost use Rattle.sql_expr.specs.declared.fault.EvalFault.TheVariants.{OutOfMemory as TheWant};
ghost use Rattle.sql_expr.specs.Typing.{FitsRow};

use crate::amount::amount_of;
use crate::fault::{EvalFault, ValueFault};
use crate::kinds::{kind_of, scale};
use crate::tree::Expr;
use crate::truth::truth_of;
use ooc_types::{SqlType, Truth, Value};

// A copy of a value; a text takes memory.
fn copy_of(value: &Value) -> Result<Value, EvalFault>
    ensures { Tells (Ok value.now) result }
{
    match value.clone() {
        Ok(copy) => Ok(copy),
        Err(_) => Err(EvalFault::OutOfMemory),
    }
}

fn condition(expr: &Expr, row: &[Value]) -> Result<Value, ValueFault>
    requires fits { FitsRow expr.now row.now }
    requires condition { type_of expr.now ≡ SqlType.Boolean }
    ensures { value_of row.now expr.now ≡ result }
{
    match truth_of(expr, row) {
        Ok(Truth::Yes) => Ok(Value::Truth(true)),
        Ok(Truth::No) => Ok(Value::Truth(false)),
        Ok(Truth::Unknown) => Ok(Value::Null),
        Err(fault) => Err(fault),
    }
}

#[tactic(auto, using(crate::proofs::Exactness::amount_of_number))]
fn number(expr: &Expr, row: &[Value]) -> Result<Value, ValueFault>
    requires fits { FitsRow expr.now row.now }
    requires number { IsNumber (type_of expr.now) }
    ensures { value_of row.now expr.now ≡ result }
{
    match amount_of(expr, row) {
        Ok(Some(digits)) => Ok(Value::Number {
            digits,
            scale: scale(kind_of(expr)),
        }),
        Ok(None) => Ok(Value::Null),
        Err(fault) => Err(fault),
    }
}

fn date(expr: &Expr, row: &[Value]) -> Result<Value, ValueFault>
    requires fits { FitsRow expr.now row.now }
    requires date { type_of expr.now ≡ SqlType.Date }
    ensures { value_of row.now expr.now ≡ result }
{
    match amount_of(expr, row) {
        Ok(Some(day)) => Ok(Value::Day(day as i32)),
        Ok(None) => Ok(Value::Null),
        Err(fault) => Err(fault),
    }
}

fn text(expr: &Expr, row: &[Value]) -> Result<Value, EvalFault>
    requires fits { FitsRow expr.now row.now }
    requires text { IsText (type_of expr.now) }
    ensures { Tells (value_of row.now expr.now) result }
{
    match expr {
        Expr::Constant { value, .. } => copy_of(value),
        Expr::Column { place, .. } => copy_of(&row[*place as usize]),
        _ => Ok(Value::Null),
    }
}

// A value that took no memory.
fn value_or_fault(value: Result<Value, ValueFault>) -> Result<Value, EvalFault>
    ensures value { Tells value result }
    ensures no_memory { result ≢ Err TheWant }
{
    match value {
        Ok(value) => Ok(value),
        Err(fault) => Err(EvalFault::Fault(fault)),
    }
}

/// The value of an expression over a row, or its first fault. Only a text is copied, and takes memory.
pub fn eval(expr: &Expr, row: &[Value]) -> Result<Value, EvalFault>
    requires { FitsRow expr.now row.now }
    ensures value { Tells (value_of row.now expr.now) result }
    ensures memory { result ≡ Err TheWant → type_of expr.now ≡ SqlType.Varchar }
{
    match kind_of(expr) {
        SqlType::Boolean => value_or_fault(condition(expr, row)),
        SqlType::Integer | SqlType::BigInt | SqlType::HugeInt | SqlType::Decimal { .. } => {
            value_or_fault(number(expr, row))
        }
        SqlType::Date => value_or_fault(date(expr, row)),
        SqlType::Varchar => text(expr, row),
    }
}
