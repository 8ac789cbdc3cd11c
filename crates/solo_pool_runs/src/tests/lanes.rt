//! Runs over 64 lanes, of which the first is used.
ghost use Rattle.std.specs.Prelude.{◌≡◌, IfOk, length};

use crate::run::run_many;
use crate::tests::images::heap_image;
use ooc_io::MemLane;
use page_body::PoolFault;
use std::alloc::{AllocError, Global};
use std::test::Fail;

// 64 lanes, of which the first fails at the writes of a list.
fn lanes(alloc: Global, failing: Vec<u64>) -> Result<Vec<MemLane>, AllocError>
    ensures { IfOk result (λ lanes. length lanes.items ≡ 64) }
{
    let mut lanes = Vec::new(alloc);
    lanes.push(MemLane::new_lane(alloc, failing, Vec::new(alloc)))?;
    for _ in 0u32..63 {
        lanes.push(MemLane::new_lane(alloc, Vec::new(alloc), Vec::new(alloc)))?;
    }
    Ok(lanes)
}

#[test]
fn a_spill_write_that_fails(rt: HostRuntime) -> Result<(), Fail> {
    let alloc = rt.alloc();
    let mut many = lanes(alloc, Vec::new(alloc))?;
    let made = run_many(alloc, 4096, 24, &heap_image(), 34, many.as_mut_slice());
    assert!(rt; made == Ok(34));
    // Ten pages have no frame any more.
    assert_eq!(rt; many[0].write_count(), 10);
    assert_eq!(rt; many[1].write_count(), 0);
    let mut many = lanes(alloc, vec![in alloc; 3]?)?;
    let made = run_many(alloc, 4096, 24, &heap_image(), 34, many.as_mut_slice());
    assert!(rt; made == Err(PoolFault::Spill));
    assert_eq!(rt; many[0].write_count(), 2);
    assert_eq!(rt; many[0].fault_count(), 1);
    Ok(())
}
