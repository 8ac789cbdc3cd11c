//! Refusals, each at its record and column, and which of two comes first.

use crate::session::{first_wrong, first_wrong_of, gives};
use crate::shape::{Limits, Shape, plain_shape};
use ooc_types::SqlType;

const NAMES: [SqlType; 2] = [SqlType::Integer, SqlType::Varchar];

// In a file the first record decides, and in a record the quote, then the number of fields, then the first column.
#[test]
fn the_first_refusal_is_told(rt: HostRuntime) {
    let shape = Shape {
        not_null: 2,
        ..plain_shape(&NAMES)
    };
    let cases = [
        ("h\n1,x\n2,\"abc", "1,'x';record 2 column 2: open quote"),
        ("h\nx,a\n1\n", "record 1 column 1: bad value"),
        ("h\n1\nx,a\n", "record 1 column 0: field count"),
        ("h\n1,\nx,\"a", "record 1 column 2: null refused"),
        ("h\nx,\"a\n1,\n", "record 1 column 2: open quote"),
        ("h\nx,\n", "record 1 column 1: bad value"),
        ("h\nx\n", "record 1 column 0: field count"),
        ("h\nx,a,\n", "record 1 column 0: field count"),
        ("h\n\"x\"\n", "record 1 column 0: field count"),
        ("h\n1,a,\"b\"\n", "record 1 column 0: field count"),
        ("h\n1,2,3,\"x\n", "record 1 column 4: open quote"),
        ("h\n\"x", "record 1 column 1: open quote"),
        ("h\n1,\"a\"\"", "record 1 column 2: open quote"),
        ("h\n1,\"a\nb,c\n2,d\n", "record 1 column 2: open quote"),
        ("h\n1,\"", "record 1 column 2: open quote"),
    ];
    assert!(rt; first_wrong(rt.alloc(), &shape, &cases) == Ok(None));
}

// Of the header, which has the number 0, nothing but its length and its quotes is looked at.
#[test]
fn a_header_may_end_inside_of_quotes(rt: HostRuntime) {
    let shape = plain_shape(&NAMES);
    let cases = [
        ("\"", "record 0 column 1: open quote"),
        ("id,\"name\n1,a\n", "record 0 column 2: open quote"),
        ("\n\na,b,\"c", "record 0 column 3: open quote"),
        ("a,b,c\n1,a\n", "1,'a';end"),
    ];
    assert!(rt; first_wrong(rt.alloc(), &shape, &cases) == Ok(None));
    let good = gives(rt.alloc(), &shape, b"\xFF\n1,a\n", b"1,'a';end");
    assert!(rt; good == Ok(true));
}

// A text of 63 bytes is within the limit of pages of 4,096 bytes. The bytes count, without the quotes around them and with
// a doubled quote as one.
#[test]
fn texts_are_utf8_within_their_limit(rt: HostRuntime) {
    let shape = plain_shape(&NAMES);
    let cases = [
        (
            "h\n1,abcdefghijklmnopqrstuvwxyzabcdefghijklmnopqrstuvwxyzabcdefghijk\n",
            "1,'abcdefghijklmnopqrstuvwxyzabcdefghijklmnopqrstuvwxyzabcdefghijk';end",
        ),
        (
            "h\n1,abcdefghijklmnopqrstuvwxyzabcdefghijklmnopqrstuvwxyzabcdefghijkl\n",
            "record 1 column 2: text too long",
        ),
        (
            "h\n1,\"abcdefghijklmnopqrstuvwxyzabcdefghijklmnopqrstuvwxyzabcdefghij\"\"\"\n",
            "1,'abcdefghijklmnopqrstuvwxyzabcdefghijklmnopqrstuvwxyzabcdefghij\"';end",
        ),
        (
            "h\nx,abcdefghijklmnopqrstuvwxyzabcdefghijklmnopqrstuvwxyzabcdefghijkl\n",
            "record 1 column 1: bad value",
        ),
        (
            "h\n1,\u{e9}\u{e9}\u{e9}\u{e9}\u{e9}\u{e9}\u{e9}\u{e9}abcdefghijklmnopqrstuvwxyzabcdefghijklmnopqrstu\n",
            "1,'\u{e9}\u{e9}\u{e9}\u{e9}\u{e9}\u{e9}\u{e9}\u{e9}abcdefghijklmnopqrstuvwxyzabcdefghijklmnopqrstu';end",
        ),
        (
            "h\n1,\u{e9}\u{e9}\u{e9}\u{e9}\u{e9}\u{e9}\u{e9}\u{e9}abcdefghijklmnopqrstuvwxyzabcdefghijklmnopqrstuv\n",
            "record 1 column 2: text too long",
        ),
    ];
    assert!(rt; first_wrong(rt.alloc(), &shape, &cases) == Ok(None));
}

#[test]
fn texts_that_are_no_utf8_are_refused(rt: HostRuntime) {
    let shape = plain_shape(&NAMES);
    let ends = gives(
        rt.alloc(),
        &shape,
        b"h\n1,\xFFa\n",
        b"record 1 column 2: bad utf8",
    );
    assert!(rt; ends == Ok(true));
    let cut = gives(
        rt.alloc(),
        &shape,
        b"h\n1,\"\xE2\x82\"\n",
        b"record 1 column 2: bad utf8",
    );
    assert!(rt; cut == Ok(true));
    // It comes before the length, and behind an earlier column.
    let long = gives(
        rt.alloc(),
        &shape,
        b"h\n1,abcdefghijklmnopqrstuvwxyzabcdefghijklmnopqrstuvwxyzabcdefghijklmnop\xFF\n",
        b"record 1 column 2: bad utf8",
    );
    assert!(rt; long == Ok(true));
    let later = gives(
        rt.alloc(),
        &shape,
        b"h\nx,\xFF\n",
        b"record 1 column 1: bad value",
    );
    assert!(rt; later == Ok(true));
    // Bytes that are no UTF-8 are no number.
    let number = gives(
        rt.alloc(),
        &shape,
        b"h\n\xFF,a\n",
        b"record 1 column 1: bad value",
    );
    assert!(rt; number == Ok(true));
}

const NUMBERS: [SqlType; 1] = [SqlType::Integer];

// The record that has the seventh byte is refused, or, where that byte is in none, the one that would come next.
#[test]
fn a_file_may_have_six_bytes(rt: HostRuntime) {
    let six = Shape {
        header: false,
        limits: Limits::Within { text: 63, file: 6 },
        ..plain_shape(&NUMBERS)
    };
    let headed = Shape {
        header: true,
        ..six
    };
    let cases = [
        (six, "1\n2\n3\n", "1;2;3;end"),
        (six, "1\n2\n3\n\n", "1;2;3;record 4 column 0: file too long"),
        (six, "1\n2\n3\n4", "1;2;3;record 4 column 0: file too long"),
        (six, "1\n2\n34\n", "1;2;34;record 4 column 0: file too long"),
        (six, "1\n2\n345\n", "1;2;record 3 column 0: file too long"),
        (six, "1\nx\n3\n4\n5", "1;record 2 column 1: bad value"),
        (six, "1\n2\n\"3", "1;2;record 3 column 1: open quote"),
        (six, "1\n2\n\"34", "1;2;record 3 column 0: file too long"),
        (six, "\u{feff}1\n2", "1;2;end"),
        (six, "\u{feff}1\n23", "1;record 2 column 0: file too long"),
        (six, "\n\n\n\n\n\n\n", "record 1 column 0: file too long"),
        (headed, "\n\n\n\n\n\n\n", "record 0 column 0: file too long"),
        (headed, "ididid\n", "record 1 column 0: file too long"),
        (headed, "idididi\n", "record 0 column 0: file too long"),
        (headed, "h\n1\n2\n", "1;2;end"),
    ];
    assert!(rt; first_wrong_of(rt.alloc(), &cases) == Ok(None));
}
