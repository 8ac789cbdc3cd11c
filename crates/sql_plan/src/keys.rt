//! Equalities of two columns.
ghost use Rattle.std.specs.Prelude.{◌≡◌};
ghost use Rattle.std.specs.Option.{option_map};
ghost use Rattle.sql_expr.specs.declared.tree.Expr.TheViews.{out-Expr};
ghost use Rattle.plan_tree.specs.Planned.{key_columns};
ghost use Rattle.plan_tree.specs.Split.{column_in, is_equal as says_equal, key_of, linked_columns as linked_by};

use plan_tree::{KeyColumns, Linked};
use sql_expr::{CompareSign, Expr};

fn column_of(expr: &Expr) -> Option<u32>
    ensures { result ≡ column_in (out-Expr expr.now) }
{
    match expr {
        Expr::Column { place, .. } => Some(*place),
        _ => None,
    }
}

fn is_equal(sign: CompareSign) -> bool
    ensures { result ≡ says_equal sign }
{
    match sign {
        CompareSign::Equal => true,
        _ => false,
    }
}

/// The two columns that an equality compares.
pub(crate) fn linked_columns(expr: &Expr) -> Option<Linked>
    ensures { result ≡ linked_by expr.now }
{
    match expr {
        Expr::Compare { sign, left, right } if is_equal(*sign) => {
            match (column_of(left.get()), column_of(right.get())) {
                (Some(left), Some(right)) => Some(Linked { left, right }),
                _ => None,
            }
        }
        _ => None,
    }
}

/// The columns of a key at a source whose columns begin at this place.
pub(crate) fn key(at: u32, expr: &Expr) -> Option<KeyColumns>
    ensures { result ≡ option_map key_columns (key_of at expr.now) }
{
    let two = linked_columns(expr)?;
    if two.left < at && at <= two.right {
        Some(KeyColumns {
            left: two.left,
            right: two.right - at,
        })
    } else if two.right < at && at <= two.left {
        Some(KeyColumns {
            left: two.right,
            right: two.left - at,
        })
    } else {
        None
    }
}
