//! Why tokens are no script.
ghost use Rattle.std.specs.Prelude.{◌≡◌};
ghost use Rattle.sql_grammar.specs.declared.fault.Fault.TheVariants.{OutOfMemory};

use std::alloc::AllocError;

/// Why tokens are no script.
#[derive(Clone, Copy, Debug, PartialEq, Eq)]
pub enum ParseFault {
    /// At `place`, in bytes from 0, stands the first token with which no script begins; or the script ends there too early.
    Syntax { place: u64 },
    /// The token at `place` nests more than 32 levels deep.
    TooDeep { place: u64 },
    /// There was no memory for the tree.
    OutOfMemory,
}

/// Why a rule doesn't go on. The cursor stands at the token where.
#[derive(Clone, Copy)]
pub enum Fault {
    Syntax,
    TooDeep,
    OutOfMemory,
}

impl From<AllocError> for Fault {
    ghost from_gives = { λ _ fault. fault ≡ OutOfMemory };

    fn from(_: AllocError) -> Fault {
        Fault::OutOfMemory
    }
}
