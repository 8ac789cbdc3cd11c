//! Files that are longer than what is read at once.

use crate::session::gives;
use crate::shape::plain_shape;
use crate::tests::long::padded;
use ooc_types::{OutOfMemory, SqlType};
use std::alloc::Global;

const NAMES: [SqlType; 2] = [SqlType::Integer, SqlType::Varchar];

// Behind the header: fields that begin, plain ones, quoted ones, doubled quotes, and each end of a record.
const BEHIND: &str = "\n1,\"a\"\"b,\"\r\n2,c\n\n\"3\",\"d\ne\"\n,f";

// Whether a file whose header has so many bytes gives the rows behind it.
fn gives_behind(alloc: Global, header: usize) -> Result<bool, OutOfMemory> {
    let file = padded(alloc, "", header, BEHIND)?;
    gives(
        alloc,
        &plain_shape(&NAMES),
        file.as_slice(),
        b"1,'a\"b,';2,'c';3,'d\ne';NULL,'f';end",
    )
}

// What is read at once are 65,536 bytes. They end at each place of the rows in turn, and so in each state of a record.
#[test]
fn each_place_may_be_the_last_that_is_read_at_once(rt: HostRuntime) {
    for header in 65_490..65_540usize {
        assert!(rt; gives_behind(rt.alloc(), header) == Ok(true), "{header}");
    }
}
