//! Whether two lists hold the same rows equally often.
ghost use Rattle.std.specs.Prelude.{◌≡◌, ◌↔◌, IsTrue, count_by};
ghost use Rattle.ooc_bags.specs.Bags.{SameBag};
ghost use Rattle.ooc_bags.specs.Rows.{row_eq, each_as_often};

use ooc_types::{Row, Value};

fn same_row(a: &[Value], b: &[Value]) -> bool
    ensures { result ≡ row_eq a.now b.now }
{
    a == b
}

// How often a row stands in a list.
fn count_row(row: &Row, rows: &[Row]) -> usize
    ensures { result ≡ count_by (row_eq row.now) rows.now }
{
    rows.iter()
        .filter(|other| same_row(row.as_slice(), other.as_slice()))
        .count()
}

// Whether each row of the first list stands equally often in both.
fn stand_as_often(a: &[Row], b: &[Row]) -> bool
    ensures { result ≡ each_as_often a.now a.now b.now }
{
    a.iter().all(|row| count_row(row, a) == count_row(row, b))
}

/// Whether each row stands equally often in both lists. It takes no memory, and compares each row of the first list
/// with every row of both.
pub fn same_bag(a: &[Row], b: &[Row]) -> bool
    ensures { IsTrue result ↔ SameBag a.now b.now }
{
    a.len() == b.len() && stand_as_often(a, b)
}
