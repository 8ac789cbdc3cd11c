//! Small files.

use crate::session::{load_and_read, put_outcome, table_of};
use csv_runs::{Shape, one_file, plain_shape};
use ooc_types::{OutOfMemory, SqlType};
use page_body::MemPages;
use std::alloc::Global;

// What comes of a file in a pool in memory: the rows, or why it isn't loaded.
fn load_in_memory(alloc: Global, shape: &Shape, file: &[u8]) -> Result<Vec<u8>, OutOfMemory> {
    let table = table_of(alloc, shape)?;
    let mut files = one_file(alloc, "t.csv", file, &[])?;
    let mut pages = MemPages::new_pages(alloc, 4096, 24);
    let mut out = Vec::new(alloc);
    let loaded = load_and_read(alloc, &mut files, &mut pages, &table, &mut out);
    put_outcome(alloc, loaded, &mut out)?;
    Ok(out)
}

fn gives(alloc: Global, shape: &Shape, file: &str, wanted: &str) -> Result<bool, OutOfMemory> {
    let out = load_in_memory(alloc, shape, file.as_bytes())?;
    Ok(out.as_slice() == wanted.as_bytes())
}

const NAMES: [SqlType; 2] = [SqlType::Integer, SqlType::Varchar];

#[test]
fn a_file_is_loaded_whole_or_not_at_all(rt: HostRuntime) {
    let plain = plain_shape(&NAMES);
    let dashed = Shape {
        header: false,
        delimiter: b';',
        null: "-",
        ..plain
    };
    let cases = [
        (
            plain,
            "id,name\n1,ann\n2,bob\n3,cy\n",
            "1,'ann';2,'bob';3,'cy';end",
        ),
        (plain, "id,name\n", "end"),
        (plain, "", "end"),
        (
            plain,
            "id,s\r\n1,\"a,\"\"b\"\"\nc, d, e\"\r\n",
            "1,'a,\"b\"\nc, d, e';end",
        ),
        (
            plain,
            "id,name\n1,x\n2,\"abc",
            "record 2 column 2: open quote",
        ),
        (plain, "id,name\n1,x\ny,\n", "record 2 column 1: bad value"),
        (dashed, "1;-\n2;x\n", "1,NULL;2,'x';end"),
        (dashed, "-;\n", "NULL,'';end"),
    ];
    for (shape, file, rows) in cases {
        assert!(rt;
            gives(rt.alloc(), &shape, file, rows) == Ok(true),
            "at {file}"
        );
    }
}

const EACH: [SqlType; 7] = [
    SqlType::Boolean,
    SqlType::Integer,
    SqlType::BigInt,
    SqlType::HugeInt,
    SqlType::Decimal {
        width: 20,
        scale: 3,
    },
    SqlType::Date,
    SqlType::Varchar,
];

const NINE: [SqlType; 9] = [SqlType::Integer; 9];

// A set of more than eight columns is filled by way of the long list.
#[test]
fn values_of_each_type_are_stored(rt: HostRuntime) {
    let each = plain_shape(&EACH);
    let nine = plain_shape(&NINE);
    let cases = [
        (
            each,
            "h\nT,-5,9223372036854775807,-170141183460469231731687303715884105728,12.3455,2024-02-29,a text of its own\n,,,,,,\nf,0,-1,1,-.0005,0001-01-01,short\n",
            "true,-5,9223372036854775807,-170141183460469231731687303715884105728,12346:3,day 19782,'a text of its own';NULL,NULL,NULL,NULL,NULL,NULL,NULL;false,0,-1,1,-1:3,day -719162,'short';end",
        ),
        (
            nine,
            "h\n1,2,3,4,5,6,7,8,9\n,,,,,,,,\n9,8,7,6,5,4,3,2,1\n",
            "1,2,3,4,5,6,7,8,9;NULL,NULL,NULL,NULL,NULL,NULL,NULL,NULL,NULL;9,8,7,6,5,4,3,2,1;end",
        ),
        (
            nine,
            "h\n1,2,3,4,5,6,7,8,x\n",
            "record 1 column 9: bad value",
        ),
    ];
    for (shape, file, rows) in cases {
        assert!(rt;
            gives(rt.alloc(), &shape, file, rows) == Ok(true),
            "at {file}"
        );
    }
}
