//! The calls of a memory form that are to fail.
ghost use Rattle.std.specs.Prelude.{◌≡◌, ◌↔◌, IsTrue};
ghost use Rattle.ooc_io.specs.Calls.{FailsNext, called};

use std::marker::Model;

/// The numbers, from 1, of the calls that are to fail, and a count of the calls, which stands still at the last value
/// of a `u64`.
#[derive(Debug, Drop)]
pub struct Calls {
    failing: Vec<u64>,
    count: u64,
}

impl Model for Calls {
    ghost use Rattle.ooc_io.specs.Calls.{CallList};

    ghost Value = { CallList };

    ghost view = { λ c. record { failing = c.failing.items; count = c.count } };
}

impl Calls {
    pub fn new_calls(failing: Vec<u64>) -> Calls
        ensures { result ≡ record { failing = failing.items; count = 0 } }
    {
        Calls { failing, count: 0 }
    }

    /// Counts a call, and answers whether it is to fail.
    pub fn fails(&mut self) -> bool
        ensures listed { IsTrue result ↔ FailsNext self.old }
        ensures counted { self.new ≡ called self.old }
    {
        self.count = self.count.saturating_add(1);
        self.count < u64::MAX && self.failing.contains(&self.count)
    }
}
