//! Where records end, and the byte order mark.

use crate::session::{first_wrong, gives};
use crate::shape::{Shape, plain_shape};
use ooc_types::SqlType;

const NAMES: [SqlType; 2] = [SqlType::Integer, SqlType::Varchar];

const TEXTS: [SqlType; 1] = [SqlType::Varchar];

// CR and LF each end a record, and a record of no bytes is none, so CRLF ends one record. The last one needs no end.
#[test]
fn records_end_at_cr_and_at_lf(rt: HostRuntime) {
    let shape = plain_shape(&NAMES);
    let cases = [
        ("id,name\r\n1,a\r\n2,b\r\n", "1,'a';2,'b';end"),
        ("id,name\r1,a\r2,b\r", "1,'a';2,'b';end"),
        ("id,name\r1,a\n2,b\r\n3,c", "1,'a';2,'b';3,'c';end"),
        ("\n\r\n\rid,name\n\n\n1,a\r\r\n\n2,b\n\n", "1,'a';2,'b';end"),
        ("id,name", "end"),
        ("\n\r\n\n", "end"),
        (" \n1,a\n", "1,'a';end"),
        ("id,name\n1,a\n2,\"b\"", "1,'a';2,'b';end"),
        ("id,name\n1,a\n2,", "1,'a';2,NULL;end"),
    ];
    assert!(rt; first_wrong(rt.alloc(), &shape, &cases) == Ok(None));
}

// What has no bytes isn't counted, and the header has the number 0.
#[test]
fn records_have_their_numbers(rt: HostRuntime) {
    let shape = plain_shape(&NAMES);
    let cases = [
        (
            "id,name\n\n\n1,a\r\n\r\nx,b\n",
            "1,'a';record 2 column 1: bad value",
        ),
        ("\n\nid,name\nx,b\n", "record 1 column 1: bad value"),
        (
            "id,\"na\nme\"\n1,\"a\n\nb\"\n\nx,b\n",
            "1,'a\n\nb';record 2 column 1: bad value",
        ),
        ("id,name\n1,a\n \n", "1,'a';record 2 column 0: field count"),
        ("id,name\n1,a\nx,b", "1,'a';record 2 column 1: bad value"),
    ];
    assert!(rt; first_wrong(rt.alloc(), &shape, &cases) == Ok(None));
}

// It is skipped at the start of the file alone, and only once.
#[test]
fn a_byte_order_mark_is_skipped_at_the_start(rt: HostRuntime) {
    let shape = Shape {
        header: false,
        ..plain_shape(&TEXTS)
    };
    let cases = [
        ("\u{feff}a\nb\n", "'a';'b';end"),
        ("\u{feff}\"a,b\"\n", "'a,b';end"),
        ("\u{feff}", "end"),
        ("\u{feff}\n\u{feff}x\n", "'\u{feff}x';end"),
        ("\u{feff}\u{feff}x\n", "'\u{feff}x';end"),
        ("a\n\u{feff}b\n", "'a';'\u{feff}b';end"),
        ("\n\u{feff}b\n", "'\u{feff}b';end"),
        ("a\n\u{feff}\"b\"\n", "'a';'\u{feff}\"b\"';end"),
    ];
    assert!(rt; first_wrong(rt.alloc(), &shape, &cases) == Ok(None));
    // A part of the mark is no mark.
    let two = gives(
        rt.alloc(),
        &shape,
        b"\xEF\xBBa",
        b"record 1 column 1: bad utf8",
    );
    assert!(rt; two == Ok(true));
    let one = gives(rt.alloc(), &shape, b"\xEF", b"record 1 column 1: bad utf8");
    assert!(rt; one == Ok(true));
}
