//! The memory forms: contents, short answers, and the calls that fail.

use super::*;
use std::alloc::Global;
use std::test::Fail;

fn two_files(alloc: Global, failing: Vec<u64>) -> Result<MemFiles, Fail> {
    let mut named = Vec::new(alloc);
    named.push(("a.csv".to_string(alloc)?, b"one,two".to_vec(alloc)?))?;
    named.push(("a.csv".to_string(alloc)?, b"another".to_vec(alloc)?))?;
    Ok(MemFiles::new_files(named, failing))
}

#[test]
fn the_first_file_of_a_name_is_read_to_its_end(rt: HostRuntime) -> Result<(), Fail> {
    let alloc = rt.alloc();
    let mut files = two_files(alloc, vec![in alloc; 2, 5]?)?;
    assert!(rt; files.open("b.csv") == Err(OpenFault::Missing));
    assert!(rt; files.open("b.csv") == Err(OpenFault::Missing));
    assert_eq!(rt; files.fault_count(), 0);
    let mut piece = [0u8; 4];
    match files.open("a.csv") {
        Ok(()) => {
            assert!(rt; files.read(&mut piece) == Ok(4));
            assert_eq!(rt; piece.as_slice(), b"one,".as_slice());
            assert!(rt; files.read(&mut piece) == Err(FilesFailed));
            assert_eq!(rt; files.fault_count(), 1);
            assert!(rt; files.read(&mut piece) == Ok(3));
            assert_eq!(rt; &piece[..3], b"two".as_slice());
            assert!(rt; files.read(&mut piece) == Ok(0));
        }
        Err(_) => assert!(rt; false, "the file is there"),
    }
    let mut failing = two_files(alloc, vec![in alloc; 1]?)?;
    assert!(rt; failing.open("a.csv") == Err(OpenFault::Failed));
    assert_eq!(rt; failing.fault_count(), 1);
    Ok(())
}

#[test]
fn a_sink_takes_what_its_room_holds(rt: HostRuntime) -> Result<(), Fail> {
    let alloc = rt.alloc();
    let mut sink = MemSink::new_sink(alloc, vec![in alloc; 2]?, 5)?;
    assert!(rt; sink.write(b"abc") == Ok(3));
    assert!(rt; sink.write(b"xyz") == Err(WriteFailed));
    assert_eq!(rt; sink.fault_count(), 1);
    assert!(rt; sink.flush() == Ok(()));
    assert!(rt; sink.write(b"def") == Ok(2));
    assert!(rt; sink.write(b"f") == Err(WriteFailed));
    assert_eq!(rt; sink.fault_count(), 2);
    assert_eq!(rt; sink.bytes(), b"abcde".as_slice());
    Ok(())
}

#[test]
fn a_lane_gives_back_what_it_was_given(rt: HostRuntime) -> Result<(), Fail> {
    let alloc = rt.alloc();
    let mut lane = MemLane::new_lane(alloc, vec![in alloc; 1]?, vec![in alloc; 1]?);
    assert!(rt; lane.write(b"page").is_err());
    assert_eq!(rt; lane.write_count(), 0);
    match lane.write(b"page") {
        Ok(ticket) => {
            let mut into = [0u8; 4];
            assert!(rt; lane.read(&ticket, &mut into) == Err(SpillFailed));
            assert!(rt; lane.read(&ticket, &mut into) == Ok(()));
            assert_eq!(rt; into.as_slice(), b"page".as_slice());
            lane.free(ticket);
        }
        Err(_) => assert!(rt; false, "the second write succeeds"),
    }
    assert_eq!(rt; lane.write_count(), 1);
    assert_eq!(rt; lane.fault_count(), 2);
    assert_eq!(rt; Ticket::new_ticket(3, 7).place, 7);
    NoGate.at(0, GatePoint::Drew(1));
    Ok(())
}
