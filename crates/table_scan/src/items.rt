//! The items over a row.
ghost use Rattle.std.specs.Prelude.{All, map};
ghost use Rattle.plain_rows.specs.Tests.{FitsItem};
ghost use Rattle.sql_meaning.specs.Groups.{values};
ghost use Rattle.sql_meaning.specs.Statements.{row_value_of};
ghost use Rattle.table_scan.specs.Items.{Fills};

use ooc_types::{Row, Value};
use sql_expr::{EvalFault, Expr, eval};

/// Puts the values of expressions over a row into a buffer, whose memory is used again, or gives the first fault.
pub(crate) fn fill_values(items: &[Expr], row: &[Value], into: &mut Row) -> Result<(), EvalFault>
    requires { All (FitsItem row.now) items.now }
    ensures { Fills (values (map row_value_of items.now) row.now) into.new result }
{
    into.clear();
    for item in items {
        into.push(eval(item, row)?)?;
    }
    Ok(())
}
