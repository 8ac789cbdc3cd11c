//! How many rows the tables have.
ghost use Rattle.std.specs.Prelude.{◌≡◌};
ghost use Rattle.sql_plan.specs.Counted.{counts_in};

use ooc_types::Text;

/// How many rows a table has.
#[derive(Drop)]
pub struct TableCount {
    /// In small letters.
    pub name: Text,
    pub rows: u64,
}

/// The rows of the table of that name, by the first count that has it; 0 where none has.
pub(crate) fn rows_of(counts: &[TableCount], name: &Text) -> u64
    ensures { result ≡ counts_in counts.now name.now }
{
    for count in counts {
        if count.name == *name {
            return count.rows;
        }
    }
    0
}
