//! Lists that are made item by item, where memory may run out.
ghost use Rattle.std.specs.Prelude.{[], ◌∷◌, ◌++◌};
ghost use Rattle.sql_plan.specs.Steps.{GoesOnBoth};

use ooc_types::OutOfMemory;
use sqlite_items::Items;

/// Both parts, where both were made. The drop of one where the other is missing is proved here, once for all types.
pub(crate) fn both<A: Drop, B: Drop>(
    first: Result<A, OutOfMemory>,
    second: Result<B, OutOfMemory>,
) -> Result<(A, B), OutOfMemory>
    ensures { GoesOnBoth (λ a b. (a, b)) first second result }
{
    let first = first?;
    let second = second?;
    Ok((first, second))
}

/// The list with one more item.
pub(crate) fn one_more<T: Drop>(
    list: Result<Items<T>, OutOfMemory>,
    item: Result<T, OutOfMemory>,
) -> Result<Items<T>, OutOfMemory>
    ensures { GoesOnBoth (λ list item. list ++ item ∷ []) list item result }
{
    let mut list = list?;
    let item = item?;
    list.push(item)?;
    Ok(list)
}
