//! Worked bags and counts.
ghost use Rattle.std.specs.Prelude.{◌≡◌, ◌+◌, ◌<◌, length};

use super::*;
use ooc_types::{Row, Text, Value};
use std::alloc::{AllocError, Global};
use std::marker::Brand;
use std::sync::ledger::{Blank, Ledger};
use std::test::Fail;

fn value(alloc: Global, letter: u8) -> Result<Value, AllocError> {
    Ok(match letter {
        b'0' => Value::Null,
        b't' => Value::Truth(true),
        b'f' => Value::Truth(false),
        b'1' => Value::Number {
            digits: 10,
            scale: 1,
        },
        b'2' => Value::Number {
            digits: 100,
            scale: 2,
        },
        _ => {
            let bytes = [letter];
            Value::Text(Text::from_vec(bytes.to_vec(alloc)?))
        }
    })
}

// Rows that commas part, each letter a value.
fn rows(alloc: Global, text: &[u8]) -> Result<Vec<Row>, Fail> {
    let mut rows = Vec::new(alloc);
    let mut row = Row::new_row(alloc);
    for letter in text {
        if *letter == b',' {
            rows.push(row)?;
            row = Row::new_row(alloc);
        } else {
            row.push(value(alloc, *letter)?)?;
        }
    }
    let _end = row;
    Ok(rows)
}

#[test]
fn bags_are_the_same_where_each_row_stands_equally_often(rt: HostRuntime) -> Result<(), Fail> {
    let alloc = rt.alloc();
    let cases: [(&[u8], &[u8], bool); 14] = [
        (b"", b"", true),
        (b",", b"", false),
        (b",", b",", true),
        (b"a,b,a,", b"a,a,b,", true),
        (b"a,b,a,", b"a,b,b,", false),
        (b"a,a,b,c,", b"c,a,b,a,", true),
        (b"a,b,", b"a,b,b,", false),
        (b"a,b,b,", b"a,b,", false),
        (b"a,b,", b"a,c,", false),
        (b"ab,", b"ba,", false),
        (b"ab,c,", b"a,bc,", false),
        (b"0t1,0f2,", b"0f2,0t1,", true),
        (b"1,", b"2,", false),
        (b"0,", b"f,", false),
    ];
    for (a, b, same) in cases.iter() {
        let first = rows(alloc, a)?;
        let second = rows(alloc, b)?;
        assert_eq!(rt; same_bag(&first, &second), *same, "{a:?} and {b:?}");
    }
    Ok(())
}

// Counts one step for each letter.
fn count_letters<L: Ledger>(text: &[u8], steps: &mut Steps<L>)
    ensures { steps.new ≡ steps.old + length text.now }
{
    for _letter in text {
        steps.tick();
    }
}

// Counts the letters of both texts, and answers how many bytes the count takes.
fn count_both<L: Ledger>(blank: Blank, first: &[u8], second: &[u8]) -> usize
    requires name { blank.name ≡ L.name }
    requires parts { blank.parts ≡ L.parts }
    requires some { 0 < blank.parts }
{
    let mut steps = Steps::<L>::new_steps(blank);
    count_letters(first, &mut steps);
    count_letters(second, &mut steps);
    std::mem::size_of::<Steps<L>>()
}

#[test]
fn a_count_of_steps_takes_no_bytes(rt: HostRuntime) -> Result<(), Fail> {
    call_laws();
    let bytes = count_both::<Brand>(Blank::new(1), b"abc".as_slice(), b"de".as_slice());
    assert_eq!(rt; bytes, 0, "a count");
    Ok(())
}

// Each generic law stands at some type.
fn call_laws() {
    same_bags_are_an_equivalence::<Row>();
    bags_stay_the_same::<Row, Row>();
    loops_stand_in_either_order::<Row, Row, Row>();
    parts_make_the_whole::<Row, Row>();
    same_bags_are_rearranged::<Row>();
    folds_ignore_order::<Row, u64>();
    each_row_stands_once();
}
