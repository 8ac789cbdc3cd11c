//! Tables.
ghost use Rattle.std.specs.Prelude.{◌≡◌, IfOk};
ghost use Rattle.sql_meaning.specs.Found.{clean};
ghost use Rattle.plain_rows.specs.Answers.{found_in};
ghost use Rattle.plain_cores.specs.Named.{tables_in};

use ooc_types::{OutOfMemory, Row, Text};
use plain_rows::{Answer, add_rows};
use std::alloc::Global;

/// A table: its name in small letters, and its rows.
#[derive(Drop)]
pub struct Table {
    pub name: Text,
    pub rows: Vec<Row>,
}

fn copied(alloc: Global, rows: &[Row]) -> Result<Answer, OutOfMemory>
    ensures { IfOk result (λ answer. found_in answer ≡ clean rows.now) }
{
    let mut copies = Vec::new(alloc);
    add_rows(rows, &mut copies)?;
    Ok(Answer::of_rows(alloc, copies))
}

/// The rows of the first table of that name, and none where there is none.
pub fn table_rows(alloc: Global, tables: &[Table], name: &Text) -> Result<Answer, OutOfMemory>
    ensures { IfOk result (λ answer. found_in answer ≡ clean (tables_in tables.now name.now)) }
{
    for table in tables {
        if table.name.as_bytes() == name.as_bytes() {
            return copied(alloc, table.rows.as_slice());
        }
    }
    Ok(Answer::new_answer(alloc))
}
