//! Two parts that were bound, as one value that is handed on.
ghost use Rattle.std.specs.Prelude.{Ok};
ghost use Rattle.sql_scope.specs.Answer.{GoesOnBoth};

use sql_scope::BindFault;

/// Both parts, or the first fault. The drop of one where the other is a fault is proved here, once for all types.
pub(crate) fn both<A: Drop, B: Drop>(
    first: Result<A, BindFault>,
    second: Result<B, BindFault>,
) -> Result<(A, B), BindFault>
    ensures { GoesOnBoth (λ a b. Ok (a, b)) first second result }
{
    let first = first?;
    let second = second?;
    Ok((first, second))
}
