//! Divisions.

use super::*;

#[test]
fn ten_frames_divided(rt: HostRuntime) {
    let wants = [(2, 9), (2, 3), (1, 9)];
    let mut grants = [0, 0, 0];
    divide(10, wants.as_slice(), grants.as_mut_slice());
    assert_eq!(rt; grants, [4, 3, 3]);
    let mut all = [0, 0, 0];
    divide(100, wants.as_slice(), all.as_mut_slice());
    assert_eq!(rt; all, [9, 3, 9]);
    let mut least = [0, 0, 0];
    divide(5, wants.as_slice(), least.as_mut_slice());
    assert_eq!(rt; least, [2, 2, 1]);
}
