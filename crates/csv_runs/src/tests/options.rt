//! The options of a file.

use crate::session::first_wrong_of;
use crate::shape::{Shape, plain_shape};
use ooc_types::SqlType;

const NAMES: [SqlType; 2] = [SqlType::Integer, SqlType::Varchar];

#[test]
fn a_file_is_read_by_its_options(rt: HostRuntime) {
    let plain = plain_shape(&NAMES);
    let headless = Shape {
        header: false,
        ..plain
    };
    let dashed = Shape {
        delimiter: b';',
        null: "-",
        ..headless
    };
    let tabbed = Shape {
        delimiter: b'\t',
        ..headless
    };
    let spaced = Shape {
        delimiter: b' ',
        ..headless
    };
    let cases = [
        (dashed, "1;-\n2;x\n", "1,NULL;2,'x';end"),
        (dashed, "1;a,b\n-;\"x;y\"\n", "1,'a,b';NULL,'x;y';end"),
        (dashed, "1;\n", "1,'';end"),
        (dashed, "1,x\n", "record 1 column 0: field count"),
        (tabbed, " 1 \ta b\n", "1,'a b';end"),
        (tabbed, "\"\t1\"\t\n", "1,NULL;end"),
        (spaced, "1 a\n2 \"b c\"\n", "1,'a';2,'b c';end"),
        (spaced, "1  a\n", "record 1 column 0: field count"),
        (headless, "1,a\n2,b\n", "1,'a';2,'b';end"),
        (headless, "id,name\n", "record 1 column 1: bad value"),
        (plain, "1,a\n2,b\n", "2,'b';end"),
    ];
    assert!(rt; first_wrong_of(rt.alloc(), &cases) == Ok(None));
}
