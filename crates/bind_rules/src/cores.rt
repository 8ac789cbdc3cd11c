//! A core, put together of its bound clauses: the first fault in the order of the clauses is handed on.
ghost use Rattle.std.specs.Prelude.{◌≡◌};
ghost use Rattle.sql_scope.specs.Answer.{GoesOn, GoesOnBoth};
ghost use Rattle.bind_rules.specs.Cores as rules;

use bound_tree::{BoundSource, Conjunct};
use sql_clauses::{Core, Joined, NamedRows, Selected, Unordered};
use sql_expr::{Expr, Exprs};
use sql_scope::{BindFault, ScopeColumn};
use sqlite_items::Items;

/// The sources with their ON, and the conjuncts of WHERE.
#[derive(Drop)]
pub struct Filtered {
    pub sources: Items<BoundSource>,
    pub conjuncts: Items<Conjunct>,
}

/// The keys of GROUP BY, and the items with HAVING.
#[derive(Drop)]
pub struct Shown {
    pub keys: Exprs,
    pub selected: Selected,
}

/// WHERE behind the joins.
pub fn with_conjuncts(
    joined: Result<Joined, BindFault>,
    conjuncts: Result<Items<Conjunct>, BindFault>,
) -> Result<Filtered, BindFault>
    ensures { GoesOnBoth rules.with_conjuncts joined conjuncts result }
{
    let joined = joined?;
    let conjuncts = conjuncts?;
    Ok(Filtered {
        sources: joined.joined,
        conjuncts,
    })
}

/// The keys that items may be covered by, or none where they weren't bound.
pub fn keys_of(keys: &Result<Exprs, BindFault>) -> &[Expr]
    ensures { result.now ≡ rules.keys_of keys.now }
{
    match keys {
        Ok(keys) => keys.as_slice(),
        Err(_) => &[],
    }
}

/// The items behind the keys.
pub fn with_selected(
    keys: Result<Exprs, BindFault>,
    selected: Result<Selected, BindFault>,
) -> Result<Shown, BindFault>
    ensures { GoesOnBoth rules.with_selected keys selected result }
{
    let keys = keys?;
    let selected = selected?;
    Ok(Shown { keys, selected })
}

/// The items behind WHERE.
pub fn bound_core(
    place: usize,
    distinct: bool,
    grouped: bool,
    columns: Items<ScopeColumn>,
    filtered: Result<Filtered, BindFault>,
    shown: Result<Shown, BindFault>,
) -> Result<Unordered, BindFault>
    ensures { GoesOnBoth (rules.bound_core place distinct grouped columns) filtered shown result }
{
    let Filtered { sources, conjuncts } = filtered?;
    let Shown { keys, selected } = shown?;
    Ok(Unordered::Core(Core {
        place,
        distinct,
        sources,
        columns,
        conjuncts,
        grouped,
        keys,
        selected,
    }))
}

/// A set operation as rows.
pub fn set(rows: Result<NamedRows, BindFault>) -> Result<Unordered, BindFault>
    ensures { GoesOn rules.set rows result }
{
    Ok(Unordered::Set(rows?))
}
