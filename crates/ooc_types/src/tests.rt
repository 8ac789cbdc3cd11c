//! Each public call with ample memory, and the order of values.

use super::*;
use std::cmp::Ordering;
use std::test::Fail;

fn number(digits: i128, scale: u8) -> Value {
    Value::Number { digits, scale }
}

#[test]
fn texts_rows_and_schemas_are_what_they_were_made_of(rt: HostRuntime) -> Result<(), Fail> {
    let alloc = rt.alloc();
    let text = Text::from_slice(alloc, b"ann")?;
    assert_eq!(rt; text.as_bytes(), b"ann".as_slice());
    assert!(rt; text == Text::from_vec(b"ann".to_vec(alloc)?));
    let mut row = Row::new_row(alloc);
    row.push(number(1, 0))?;
    row.push(Value::Text(text.clone()?))?;
    let copy = row.clone()?;
    row.clear();
    assert_eq!(rt; row.as_slice().len(), 0);
    assert_eq!(rt; copy.as_slice().len(), 2);
    assert!(rt; copy.as_slice()[1] == Value::Text(Text::from_vec(text.into_vec())));
    let mut schema = Schema::new_schema(alloc);
    schema.push(Column {
        name: Text::from_slice(alloc, b"id")?,
        kind: SqlType::Integer,
        nullable: true,
    })?;
    let same = schema.clone()?;
    assert_eq!(rt; same.as_slice().len(), 1);
    assert_eq!(rt; same.as_slice()[0].name.as_bytes(), b"id".as_slice());
    assert_eq!(rt; Row::from_vec(copy.into_vec()).as_slice().len(), 2);
    assert_eq!(rt; Schema::from_vec(Vec::new(alloc)).as_slice().len(), 0);
    Ok(())
}

#[test]
fn values_are_ordered_by_kind_and_within_it(rt: HostRuntime) -> Result<(), Fail> {
    let alloc = rt.alloc();
    let mut rising = Vec::new(alloc);
    rising.push(number(i128::MIN, 0))?;
    rising.push(number(-15, 1))?;
    rising.push(number(-1, 0))?;
    rising.push(number(0, 3))?;
    rising.push(number(i128::MAX, 255))?;
    rising.push(number(5, 1))?;
    rising.push(number(1050, 3))?;
    rising.push(number(i128::MAX, 38))?;
    rising.push(number(i128::MAX, 0))?;
    rising.push(Value::Truth(false))?;
    rising.push(Value::Truth(true))?;
    rising.push(Value::Day(-719_162))?;
    rising.push(Value::Day(-1))?;
    rising.push(Value::Day(0))?;
    rising.push(Value::Text(Text::from_slice(alloc, b"")?))?;
    rising.push(Value::Text(Text::from_slice(alloc, b"ab")?))?;
    rising.push(Value::Text(Text::from_slice(alloc, b"b")?))?;
    rising.push(Value::Null)?;
    assert_eq!(rt; cmp_values(&number(100, 2), &number(1, 0)), Ordering::Equal);
    assert_eq!(rt; cmp_values(&number(0, 7), &number(0, 0)), Ordering::Equal);
    assert_eq!(rt; cmp_values(&Value::Null, &Value::Null), Ordering::Equal);
    for (i, low) in rising.iter().enumerate() {
        for (j, high) in rising.iter().enumerate() {
            assert_eq!(rt; cmp_values(low, high), i.cmp(&j), "{i} and {j}");
        }
    }
    Ok(())
}

#[test]
fn keys_have_canonical_bytes(rt: HostRuntime) -> Result<(), Fail> {
    let alloc = rt.alloc();
    let mut key = Vec::new(alloc);
    key.push(number(150, 2))?;
    key.push(Value::Null)?;
    key.push(Value::Text(Text::from_slice(alloc, b"ab")?))?;
    key.push(Value::Truth(true))?;
    key.push(Value::Day(-2))?;
    let bytes = canonical_bytes(alloc, &key)?;
    let expected =
        b"\x01\x01\x0f\0\0\0\0\0\0\0\0\0\0\0\0\0\0\0\0\x03\x02\0\0\0ab\x02\x01\x04\xfe\xff\xff\xff";
    assert_eq!(rt; bytes.as_slice(), expected.as_slice());
    Ok(())
}
