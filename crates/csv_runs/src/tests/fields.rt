//! Fields, plain and quoted.

use crate::session::first_wrong;
use crate::shape::{Shape, plain_shape};
use ooc_types::SqlType;

const NAMES: [SqlType; 2] = [SqlType::Integer, SqlType::Varchar];

#[test]
fn a_file_gives_its_rows(rt: HostRuntime) {
    let shape = plain_shape(&NAMES);
    let cases = [
        (
            "id,name\n1,ann\n2,bob\n3,cy\n",
            "1,'ann';2,'bob';3,'cy';end",
        ),
        ("id,name\n", "end"),
        ("", "end"),
        (
            "another header, of three, \"fields\"\n2,bob\n",
            "2,'bob';end",
        ),
        ("id,name\n 7\t, y \n", "7,' y ';end"),
        ("id,name\n1,\u{20ac}\n", "1,'\u{20ac}';end"),
    ];
    assert!(rt; first_wrong(rt.alloc(), &shape, &cases) == Ok(None));
}

// A doubled quote is one. Behind the quote that closes a field other bytes follow as they are, and a quote inside of a plain
// field is a byte like others.
#[test]
fn quoted_fields_are_read_without_their_quotes(rt: HostRuntime) {
    let shape = plain_shape(&NAMES);
    let cases = [
        ("id,s\r\n1,\"a,\"\"b\"\"\nc\"\r\n", "1,'a,\"b\"\nc';end"),
        ("id,s\n\"1\",\"x\"\n\" 2 \",\" y \"\n", "1,'x';2,' y ';end"),
        ("id,s\n1,\"a\r\n\r,b\"\n2,c\n", "1,'a\r\n\r,b';2,'c';end"),
        ("id,s\n1,a\"b\n2,\"a\"b\n", "1,'a\"b';2,'ab';end"),
        ("id,s\n1,\"a\"\"\"\n2,\"\"\"\"\n", "1,'a\"';2,'\"';end"),
        ("id,s\n1,\"a\"b\"c\"\n", "1,'ab\"c\"';end"),
        ("id,s\n\"1\"\"\",x\n", "record 1 column 1: bad value"),
    ];
    assert!(rt; first_wrong(rt.alloc(), &shape, &cases) == Ok(None));
}

// More columns than are read by way of the short list.
#[test]
fn a_record_may_have_nine_fields(rt: HostRuntime) {
    let nine = [SqlType::Integer; 9];
    let shape = Shape {
        header: false,
        ..plain_shape(&nine)
    };
    let cases = [
        (
            "1,2,3,4,5,6,7,8,9\n9,8,\"7\",6,5,4,3,2,\n",
            "1,2,3,4,5,6,7,8,9;9,8,7,6,5,4,3,2,NULL;end",
        ),
        ("1,2,3,4,5,6,7,8,x\n", "record 1 column 9: bad value"),
        ("1,2,3,4,5,6,7,8\n", "record 1 column 0: field count"),
        ("1,2,3,4,5,6,7,8,9,\n", "record 1 column 0: field count"),
    ];
    assert!(rt; first_wrong(rt.alloc(), &shape, &cases) == Ok(None));
}
