//! Rows beside their keys.
ghost use Rattle.std.specs.Prelude.{◌≡◌, ◌++◌, All, IfOk, OnOk, map, [], ◌∷◌};
ghost use Rattle.sql_meaning.specs.Groups.{keyed as keyed_rows, keyed_found, keys_of as keys_among, rows_of as rows_among, values};
ghost use Rattle.sql_meaning.specs.Statements.{row_value_of};
ghost use Rattle.plain_rows.specs.Tests.{FitsItem};
ghost use Rattle.plain_groups.specs.Keys.{AddsKeyed, keyed_in, one_in, one_row_of};

use ooc_types::{OutOfMemory, Row, Value};
use plain_rows::{copy_row, distinct_rows, same_row, values_of};
use sql_expr::{EvalFault, Expr, ValueFault};
use std::alloc::Global;

/// A row beside its key.
#[derive(Drop)]
pub struct Keyed {
    pub key: Row,
    pub row: Row,
}

/// Rows beside their keys, and the faults of those whose key has one.
#[derive(Drop)]
pub struct KeyedRows {
    pub rows: Vec<Keyed>,
    pub faults: Vec<ValueFault>,
}

fn push_keyed(key: Row, row: &Row, into: &mut Vec<Keyed>) -> Result<(), OutOfMemory>
    ensures { OnOk result (map one_in into.new.items ≡ map one_in into.old.items ++ record { key = key; row = row.now } ∷ []) }
{
    let row = copy_row(row)?;
    into.push(Keyed { key, row })?;
    Ok(())
}

fn add_keyed(
    alloc: Global,
    keys: &[Expr],
    row: &Row,
    into: &mut KeyedRows,
) -> Result<(), OutOfMemory>
    requires { All (FitsItem row.now) keys.now }
    ensures { OnOk result (AddsKeyed into.old into.new (keyed_found row.now (values (map row_value_of keys.now) row.now))) }
{
    match values_of(alloc, keys, row.as_slice()) {
        Ok(key) => push_keyed(key, row, &mut into.rows),
        Err(EvalFault::Fault(fault)) => {
            into.faults.push(fault)?;
            Ok(())
        }
        Err(EvalFault::OutOfMemory) => Err(OutOfMemory),
    }
}

/// Each row beside its key.
pub fn key_rows(alloc: Global, keys: &[Expr], rows: &[Row]) -> Result<KeyedRows, OutOfMemory>
    requires { All (λ row. All (FitsItem row) keys.now) rows.now }
    ensures { IfOk result (λ found. keyed_in found ≡ keyed_rows (map row_value_of keys.now) rows.now) }
{
    let mut found = KeyedRows {
        rows: Vec::new(alloc),
        faults: Vec::new(alloc),
    };
    for row in rows {
        add_keyed(alloc, keys, row, &mut found)?;
    }
    Ok(found)
}

fn all_keys(alloc: Global, keyed: &[Keyed]) -> Result<Vec<Row>, OutOfMemory>
    ensures { IfOk result (λ keys. keys.items ≡ map (λ one. one.key) (map one_in keyed.now)) }
{
    let mut keys = Vec::new(alloc);
    for one in keyed {
        keys.push(copy_row(&one.key)?)?;
    }
    Ok(keys)
}

fn no_key(alloc: Global) -> Result<Vec<Row>, OutOfMemory>
    ensures { IfOk result (λ keys. keys.items ≡ [] ∷ []) }
{
    let mut keys = Vec::new(alloc);
    keys.push(Row::new_row(alloc))?;
    Ok(keys)
}

/// Each key once, in the order of first sight; without keys there is one group, also over no rows.
pub fn keys_of(alloc: Global, keys: &[Expr], keyed: &[Keyed]) -> Result<Vec<Row>, OutOfMemory>
    ensures { IfOk result (λ different. different.items ≡ keys_among (map row_value_of keys.now) (map one_in keyed.now)) }
{
    match keys {
        [] => no_key(alloc),
        [_, ..] => {
            let all = all_keys(alloc, keyed)?;
            distinct_rows(alloc, all.as_slice())
        }
    }
}

fn add_of_key(key: &[Value], one: &Keyed, into: &mut Vec<Row>) -> Result<(), OutOfMemory>
    ensures { OnOk result (into.new.items ≡ into.old.items ++ one_row_of key.now (one_in one.now)) }
{
    if same_row(key, one.key.as_slice()) {
        into.push(copy_row(&one.row)?)?;
    }
    Ok(())
}

/// The rows of a key.
pub fn rows_of(alloc: Global, key: &[Value], keyed: &[Keyed]) -> Result<Vec<Row>, OutOfMemory>
    ensures { IfOk result (λ rows. rows.items ≡ rows_among key.now (map one_in keyed.now)) }
{
    let mut rows = Vec::new(alloc);
    for one in keyed {
        add_of_key(key, one, &mut rows)?;
    }
    Ok(rows)
}
