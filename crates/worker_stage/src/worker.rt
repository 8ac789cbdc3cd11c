//! What a stage asks of a worker.

/// A worker of a stage over items of the type I, which are the numbers themselves where the stage goes over numbers.
pub trait StageWorker<I> {
    ghost use Rattle.std.specs.Prelude.{ℕ, List, IfErr, OnOk};
    ghost use Rattle.worker_stage.specs.Work.{IsAtWork, GoesOn, Breaks};

    /// Why it gave up.
    type Fault: Drop + Send;

    /// Whether it may be given the item.
    ghost takes: { Self → I → Type 0 };

    /// A worker that began as the first, and worked on these items in this order, may be the second.
    ghost made: { Self → List I → Self → Type 0 };

    /// A worker that began as the first, worked on these items, and gave up at this one by this fault, may be the second.
    ghost failed: { Self → List I → I → Self.Fault → Self → Type 0 };

    /// Works on an item.
    fn work(&mut self, item: I) -> Result<(), Self::Fault>
        requires at { IsAtWork made self.old }
        requires takes { takes self.old item }
        ensures takes { (x : I) → takes self.old x → takes self.new x }
        ensures done { OnOk result (GoesOn made item self.old self.new) }
        ensures failed { IfErr result (λ fault. Breaks made failed item fault self.old self.new) };
}
