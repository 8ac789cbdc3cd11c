//! What the walk asks of a core beside its parts.
ghost use Rattle.std.specs.Prelude.{◌≡◌, ◌≤◌, ◌||◌, IfOk, is_some, length};
ghost use Rattle.sql_scope.specs.Answer.{GoesOn};
ghost use Rattle.bind_rules.specs.Bound as rules;
ghost use Rattle.bind_rules.specs.Expressions.{some_of};
ghost use Rattle.bind_rules.specs.From.{AreColumns, begin_joins as joins_begun};
ghost use Rattle.bind_rules.specs.Selects.{has_some};

use bind_rules::{FromClause, begin_joins, first_token, is_grouped};
use ooc_types::OutOfMemory;
use sql_clauses::Sources;
use sql_grammar::tree::{Condition, Expr, Item, Source};
use sql_scope::{BindFault, Scope};
use sqlite_items::Boxed;
use std::alloc::Global;

fn has_keys(group: &[Boxed<Expr>]) -> bool
    ensures { result ≡ has_some group.now }
{
    match group {
        [_key, ..] => true,
        [] => false,
    }
}

/// Whether a core is grouped: it has GROUP BY or HAVING, or an aggregate stands in an item.
pub(crate) fn core_is_grouped(
    alloc: Global,
    scope: &Scope<'_>,
    items: &[Item],
    group: &[Boxed<Expr>],
    having: &Option<Condition>,
) -> Result<bool, OutOfMemory>
    ensures { IfOk result (λ grouped. grouped ≡ ((has_some group.now || is_some having.now) || some_of (rules.item_aggregates scope.now.script) items.now)) }
{
    is_grouped(alloc, scope, has_keys(group), having.is_some(), items)
}

/// All sources, of which this is the first.
pub(crate) fn from_clause(
    alloc: Global,
    first: &Source,
    sources: Result<Sources, BindFault>,
) -> FromClause
    ensures joined { GoesOn (joins_begun (rules.first_token first.now)) sources result.joined }
    ensures columns { AreColumns (rules.first_token first.now) sources result.joined result.columns }
    ensures few { length result.columns ≤ 64 }
{
    let place = first_token(first);
    begin_joins(alloc, place, sources)
}
