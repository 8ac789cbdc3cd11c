//! A gate that a test can hold a worker at.

/// Where a worker stands.
#[derive(Clone, Copy, Debug, PartialEq, Eq)]
pub enum GatePoint {
    /// At the start of its work.
    Start,
    /// It drew this number.
    Drew(u64),
}

/// A gate may wait, and changes nothing.
pub trait Gate {
    fn at(&self, worker: u32, point: GatePoint);
}

/// A gate that is open.
pub struct NoGate;

impl Gate for NoGate {
    fn at(&self, _worker: u32, _point: GatePoint) {}
}
