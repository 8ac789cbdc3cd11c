//! Equality of bound trees.
ghost use Rattle.std.specs.Prelude.{◌≡◌};
ghost use Rattle.sql_scope.specs.Equality as equality;

use sql_expr::Expr;

/// Whether two trees are equal.
pub fn same(left: &Expr, right: &Expr) -> bool
    ensures { result ≡ equality.same left.now right.now }
{
    sql_expr::same(left, right)
}
