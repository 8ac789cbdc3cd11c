//! NULL in files.

use crate::session::first_wrong_of;
use crate::shape::{Shape, plain_shape};
use ooc_types::SqlType;

const NAMES: [SqlType; 2] = [SqlType::Integer, SqlType::Varchar];

// A field is compared as it is, before blanks are cut, and quoted or not.
#[test]
fn a_field_that_equals_the_null_text_is_null(rt: HostRuntime) {
    let plain = Shape {
        header: false,
        ..plain_shape(&NAMES)
    };
    let word = Shape {
        null: "NULL",
        ..plain
    };
    let zero = Shape { null: "0", ..plain };
    let comma = Shape {
        null: "a,b",
        ..plain
    };
    let cases = [
        (plain, ",\n\"\",\"\"\n", "NULL,NULL;NULL,NULL;end"),
        (plain, " ,x\n", "record 1 column 1: bad value"),
        (plain, "1, \n", "1,' ';end"),
        (
            word,
            "NULL,NULL\n\"NULL\",\"NULL\"\n",
            "NULL,NULL;NULL,NULL;end",
        ),
        (word, "1,NULL \n2,null\n3,\n", "1,'NULL ';2,'null';3,'';end"),
        (word, " NULL,x\n", "record 1 column 1: bad value"),
        (word, "null,x\n", "record 1 column 1: bad value"),
        (word, ",x\n", "record 1 column 1: bad value"),
        (zero, "0,0\n00,00\n", "NULL,NULL;0,'00';end"),
        (comma, "1,\"a,b\"\n", "1,NULL;end"),
    ];
    assert!(rt; first_wrong_of(rt.alloc(), &cases) == Ok(None));
}

#[test]
fn a_column_may_refuse_null(rt: HostRuntime) {
    let plain = Shape {
        header: false,
        ..plain_shape(&NAMES)
    };
    let first = Shape {
        not_null: 1,
        ..plain
    };
    let second = Shape {
        not_null: 2,
        ..plain
    };
    let dash = Shape {
        null: "-",
        ..second
    };
    let cases = [
        (first, "1,\n,a\n", "1,NULL;record 2 column 1: null refused"),
        (first, "\"\",a\n", "record 1 column 1: null refused"),
        (
            second,
            ",a\n1,\n",
            "NULL,'a';record 2 column 2: null refused",
        ),
        (second, "1,\"\"\n", "record 1 column 2: null refused"),
        (dash, "-,\n1,-\n", "NULL,'';record 2 column 2: null refused"),
    ];
    assert!(rt; first_wrong_of(rt.alloc(), &cases) == Ok(None));
}
