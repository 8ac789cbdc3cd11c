//! Whole lines, byte by byte.

use super::*;
use ooc_types::{Column, Row, Schema, SqlType, Text, Value};
use std::alloc::{AllocError, Global};
use std::test::Fail;

fn column(alloc: Global, name: &[u8]) -> Result<Column, AllocError> {
    Ok(Column {
        name: Text::from_vec(name.to_vec(alloc)?),
        kind: SqlType::Varchar,
        nullable: true,
    })
}

fn text(alloc: Global, bytes: &[u8]) -> Result<Value, AllocError> {
    Ok(Value::Text(Text::from_vec(bytes.to_vec(alloc)?)))
}

#[test]
fn headers_repeat_and_are_quoted(rt: HostRuntime) -> Result<(), Fail> {
    let alloc = rt.alloc();
    let mut columns = Vec::new(alloc);
    columns.push(column(alloc, b"id")?)?;
    columns.push(column(alloc, b"id")?)?;
    columns.push(column(alloc, b"a,b")?)?;
    columns.push(column(alloc, b"NULL")?)?;
    columns.push(column(alloc, b"say \"x\"")?)?;
    let mut printed = Vec::new(alloc);
    print_header(&Schema::from_vec(columns), &mut printed)?;
    assert_eq!(rt;
        printed.as_slice(),
        b"id,id,\"a,b\",\"NULL\",\"say \"\"x\"\"\"\n".as_slice()
    );
    Ok(())
}

#[test]
fn rows_print_each_kind_of_value(rt: HostRuntime) -> Result<(), Fail> {
    let alloc = rt.alloc();
    let mut values = Vec::new(alloc);
    values.push(Value::Null)?;
    values.push(Value::Truth(true))?;
    values.push(Value::Truth(false))?;
    values.push(Value::Number {
        digits: -5,
        scale: 1,
    })?;
    values.push(Value::Number {
        digits: 0,
        scale: 3,
    })?;
    values.push(Value::Day(19_782))?;
    values.push(Value::Day(i32::MIN))?;
    values.push(text(alloc, b"")?)?;
    values.push(text(alloc, b"null")?)?;
    values.push(text(alloc, b"NULL")?)?;
    values.push(text(alloc, b"two\nlines")?)?;
    values.push(text(alloc, b"\"")?)?;
    let schema = Schema::new_schema(alloc);
    let row = Row::from_vec(values);
    let mut printed = Vec::new(alloc);
    printed.push(b'>')?;
    print_row(&schema, &row, &mut printed)?;
    let line =
        b">NULL,true,false,-0.5,0.000,2024-02-29,0001-01-01,\"\",null,\"NULL\",\"two\nlines\",\"\"\"\"\n";
    assert_eq!(rt; printed.as_slice(), line.as_slice());
    Ok(())
}

#[test]
fn the_length_of_a_row_counts_its_line_feed(rt: HostRuntime) -> Result<(), Fail> {
    let alloc = rt.alloc();
    let none = Schema::new_schema(alloc);
    let empty = Row::new_row(alloc);
    let mut printed = Vec::new(alloc);
    print_row(&none, &empty, &mut printed)?;
    assert_eq!(rt; printed.as_slice(), b"\n".as_slice());
    assert_eq!(rt; row_length(&none, &empty), 1);
    let mut schema = Schema::new_schema(alloc);
    schema.push(column(alloc, b"name")?)?;
    let mut row = Row::new_row(alloc);
    row.push(Value::Null)?;
    assert_eq!(rt; row_length(&schema, &row), 5);
    Ok(())
}
