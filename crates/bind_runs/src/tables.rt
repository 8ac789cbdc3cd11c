//! The tables of the tests.
use ooc_types::{Column, Schema, SqlType, Text};
use sql_scope::TableColumns;
use std::alloc::Global;
use std::test::Fail;

static T: [(&str, SqlType); 6] = [
    ("a", SqlType::Integer),
    ("b", SqlType::BigInt),
    ("c", SqlType::Varchar),
    ("D", SqlType::Decimal { width: 5, scale: 2 }),
    ("e", SqlType::Boolean),
    ("f", SqlType::Date),
];

static U: [(&str, SqlType); 2] = [("a", SqlType::Integer), ("k", SqlType::Varchar)];

/// How many columns the wide table has.
const WIDE: usize = 40;

pub(crate) fn text(alloc: Global, bytes: &str) -> Result<Text, Fail> {
    Ok(Text::from_slice(alloc, bytes.as_bytes())?)
}

fn push(alloc: Global, columns: &mut Schema, name: &str, kind: SqlType) -> Result<(), Fail> {
    columns.push(Column {
        name: text(alloc, name)?,
        kind,
        nullable: true,
    })?;
    Ok(())
}

fn table(alloc: Global, name: &str, list: &[(&str, SqlType)]) -> Result<TableColumns, Fail> {
    let mut columns = Schema::new_schema(alloc);
    for (column, kind) in list {
        push(alloc, &mut columns, column, *kind)?;
    }
    Ok(TableColumns {
        name: text(alloc, name)?,
        columns,
    })
}

fn wide_table(alloc: Global) -> Result<TableColumns, Fail> {
    let mut columns = Schema::new_schema(alloc);
    for number in 0..WIDE {
        let name = format!(in alloc; "w{number}")?;
        push(alloc, &mut columns, name.as_str(), SqlType::Integer)?;
    }
    Ok(TableColumns {
        name: text(alloc, "wide")?,
        columns,
    })
}

/// `t`, `u`, and `wide` with `w0` to `w39`.
pub(crate) fn tables(alloc: Global) -> Result<Vec<TableColumns>, Fail> {
    let mut list = Vec::new(alloc);
    list.push(table(alloc, "t", &T)?)?;
    list.push(table(alloc, "u", &U)?)?;
    list.push(wide_table(alloc)?)?;
    Ok(list)
}
