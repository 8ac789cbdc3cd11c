//! Pages on real files.

use super::*;
use ooc_io::{SpillLane, Ticket};
use std::alloc::Global;
use std::fs;
use std::os::unix::fs::FileExt;
use std::process::Abort;

const PAGE: usize = 4096;

// A lane goes to the thread of its worker.
fn send<T: Send>(_lane: &T) {}

// A page of one byte.
fn page<R: Abort>(rt: &R, alloc: Global, byte: u8) -> Vec<u8> {
    vec![in alloc; byte; PAGE].expect(rt, "memory for a page")
}

// Writes a page of this byte.
fn spill<R: std::rt::Files + Abort>(
    rt: &R,
    alloc: Global,
    lane: &mut FileLane<FileStore<'_, R>>,
    byte: u8,
) -> Ticket
where
    R::File: FileExt,
{
    let image = page(rt, alloc, byte);
    lane.write(image.as_slice())
        .expect(rt, "the page is written")
}

// Whether the ticket's page is of this byte.
fn holds<R: std::rt::Files + Abort>(
    rt: &R,
    alloc: Global,
    lane: &mut FileLane<FileStore<'_, R>>,
    ticket: &Ticket,
    byte: u8,
) -> bool
where
    R::File: FileExt,
{
    let mut into = page(rt, alloc, 0);
    lane.read(ticket, into.as_mut_slice()).is_ok() && into.iter().all(|other| *other == byte)
}

#[test]
fn pages_are_read_back_in_any_order_and_freed_places_are_used_again(rt: HostRuntime) {
    let alloc = rt.alloc();
    let mut lane = FileLane::new_lane(alloc, FileStore::new_store(&rt, 7));
    let mut other = FileLane::new_lane(alloc, FileStore::new_store(&rt, 63));
    // A read makes no file.
    assert!(rt; !holds(&rt, alloc, &mut lane, &Ticket::new_ticket(7, 0), 0));
    assert_eq!(rt; lane.fault_count(), 1);
    assert!(rt; fs::metadata(&rt, "oocsql-spill-07.tmp").is_err());
    send(&lane);
    let first = spill(&rt, alloc, &mut lane, b'a');
    let second = spill(&rt, alloc, &mut lane, b'b');
    let third = spill(&rt, alloc, &mut lane, b'c');
    assert!(rt; holds(&rt, alloc, &mut lane, &third, b'c'));
    assert!(rt; holds(&rt, alloc, &mut lane, &first, b'a'));
    // Another lane reads its tickets too.
    assert!(rt; holds(&rt, alloc, &mut other, &second, b'b'));
    let place = second.place;
    lane.free(second);
    let fourth = spill(&rt, alloc, &mut lane, b'd');
    assert_eq!(rt; fourth.place, place);
    let found = fs::metadata(&rt, "oocsql-spill-07.tmp").expect(&rt, "the file is there");
    assert_eq!(rt; found.len(), 3 * 4096);
    assert!(rt; holds(&rt, alloc, &mut lane, &fourth, b'd'));
    assert_eq!(rt; lane.write_count(), 4);
    assert_eq!(rt; lane.fault_count(), 1);
    // No page was written there, nor is there a file of lane 62.
    assert!(rt; !holds(&rt, alloc, &mut lane, &Ticket::new_ticket(7, 3), 0));
    assert!(rt; !holds(&rt, alloc, &mut lane, &Ticket::new_ticket(62, 0), 0));
    assert_eq!(rt; lane.fault_count(), 3);
    // A place in the other lane's file is written again too.
    other.free(third);
    let fifth = spill(&rt, alloc, &mut other, b'e');
    assert_eq!(rt; fifth.lane, 7);
    assert!(rt; holds(&rt, alloc, &mut lane, &fifth, b'e'));
    lane.remove_file();
    other.remove_file();
    assert!(rt; fs::metadata(&rt, "oocsql-spill-07.tmp").is_err());
}
