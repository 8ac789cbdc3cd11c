//! Plain conditions, which can't fault.
ghost use Rattle.std.specs.Prelude.{◌≡◌, map};
ghost use Rattle.sql_expr.specs.Plain.{plainness, all_operands as are_operands, all_conditions as are_conditions};

use crate::tree::Expr;
use ooc_types::SqlType;

fn is_literal(expr: &Expr) -> bool
    ensures { result ≡ (plainness expr.now).literal }
{
    match expr {
        Expr::Constant { .. } => true,
        _ => false,
    }
}

// A column, or a literal with or without a minus.
fn is_operand(expr: &Expr) -> bool
    ensures { result ≡ (plainness expr.now).operand }
{
    match expr {
        Expr::Constant { .. } | Expr::Column { .. } => true,
        Expr::Minus { of, .. } => is_literal(of.get()),
        _ => false,
    }
}

fn are_all_operands(list: &[Expr]) -> bool
    ensures { result ≡ are_operands (map plainness list.now) }
{
    for expr in list {
        if !is_operand(expr) {
            return false;
        }
    }
    true
}

#[cycle(plain)]
fn are_all_plain(list: &[Expr]) -> bool
    ensures { result ≡ are_conditions (map plainness list.now) }
{
    for expr in list {
        if !is_plain(expr) {
            return false;
        }
    }
    true
}

/// Whether a condition is plain: made by AND, OR and NOT of comparisons, BETWEEN, LIKE and IN of columns and
/// constants, of IS NULL of a column or constant, and of BOOLEAN columns and constants. A constant is a literal with
/// or without a minus.
#[cycle(plain)]
pub fn is_plain(expr: &Expr) -> bool
    ensures { result ≡ (plainness expr.now).condition }
{
    match expr {
        Expr::Constant { kind, .. } | Expr::Column { kind, .. } => *kind == SqlType::Boolean,
        Expr::Not { of } => is_plain(of.get()),
        Expr::Minus { .. } | Expr::Chain { .. } => false,
        Expr::Every { list } | Expr::Either { list } => are_all_plain(list.as_slice()),
        Expr::Compare { left, right, .. } => is_operand(left.get()) && is_operand(right.get()),
        Expr::IsNull { of, .. } | Expr::Like { of, .. } => is_operand(of.get()),
        Expr::OneOf { of, list, .. } => is_operand(of.get()) && are_all_operands(list.as_slice()),
        Expr::Between { of, low, high, .. } => {
            is_operand(of.get()) && is_operand(low.get()) && is_operand(high.get())
        }
    }
}
