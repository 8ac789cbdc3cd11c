//! The kinds of aggregates, and why one is refused.

use ooc_types::OutOfMemory;

/// What an aggregate computes of the values that it takes.
#[derive(Clone, Copy, Debug, PartialEq, Eq)]
pub enum AggKind {
    CountRows,
    Count,
    Sum,
    Min,
    Max,
}

/// Why a value or a partial aggregate wasn't taken.
#[derive(Clone, Copy, Debug, PartialEq, Eq)]
pub enum AggFault {
    /// There would be more than 100,000,000,000 rows.
    CountOverflow,
    OutOfMemory,
}

/// Which of two values an aggregate prefers.
#[derive(Clone, Copy, Debug, PartialEq, Eq)]
pub enum Best {
    Least,
    Most,
}

impl From<OutOfMemory> for AggFault {
    ghost use Rattle.std.specs.Prelude.{◌≡◌};
    ghost use Rattle.agg_states.specs.declared.kind.AggFault.TheVariants.{OutOfMemory as Memory};

    ghost from_gives = { λ _ fault. fault ≡ Memory };

    fn from(_: OutOfMemory) -> AggFault {
        AggFault::OutOfMemory
    }
}
