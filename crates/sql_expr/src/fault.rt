//! Faults of values.

use ooc_types::OutOfMemory;

/// Why a value can't be given. An expression gives Overflow alone: a result outside its type.
#[derive(Clone, Copy, Debug, PartialEq, Eq)]
pub enum ValueFault {
    Overflow,
    CountOverflow,
}

/// Why an evaluation ended without a value.
#[derive(Clone, Copy, Debug, PartialEq, Eq)]
pub enum EvalFault {
    Fault(ValueFault),
    OutOfMemory,
}

impl From<OutOfMemory> for EvalFault {
    ghost use Rattle.std.specs.Prelude.{◌≡◌};
    ghost use Rattle.sql_expr.specs.declared.fault.EvalFault.TheVariants.{OutOfMemory};

    ghost from_gives = { λ _ e. e ≡ OutOfMemory };

    fn from(_: OutOfMemory) -> EvalFault {
        EvalFault::OutOfMemory
    }
}

impl From<ValueFault> for EvalFault {
    ghost use Rattle.std.specs.Prelude.{◌≡◌};
    ghost use Rattle.sql_expr.specs.declared.fault.EvalFault.TheVariants.{Fault};

    ghost from_gives = { λ fault e. e ≡ Fault fault };

    fn from(fault: ValueFault) -> EvalFault {
        EvalFault::Fault(fault)
    }
}
