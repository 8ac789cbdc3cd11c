//! The sources of a FROM, once they are bound, and the columns that the clauses behind it see.
ghost use Rattle.std.specs.Prelude.{◌≡◌, ◌≤◌, length};
ghost use Rattle.sql_scope.specs.Answer.{GoesOn};
ghost use Rattle.bind_rules.specs.Bound as bound;
ghost use Rattle.bind_rules.specs.From as rules;

use bound_tree::JoinKind;
use sql_clauses::{Joined, Sources, all_sources, not_joined, on_width};
use sql_grammar::tree::Source;
use sql_scope::{BindFault, ScopeColumn};
use sqlite_items::Items;
use std::alloc::Global;

/// The columns of all sources, and the sources, none of which is joined yet. Where they weren't bound there are no columns.
#[derive(Drop)]
pub struct FromClause {
    pub columns: Items<ScopeColumn>,
    pub joined: Result<Joined, BindFault>,
}

/// The place of a source's first token.
pub fn first_token(source: &Source) -> usize
    ensures { result ≡ bound.first_token source.now }
{
    match source {
        Source::Table { name, .. } => name.start,
        Source::Query { place, .. } => *place,
    }
}

pub fn join_kind(outer: bool) -> JoinKind
    ensures { result ≡ rules.join_kind outer }
{
    if outer {
        JoinKind::Left
    } else {
        JoinKind::Inner
    }
}

/// All sources, whose first token stands at `place`.
pub fn begin_joins(alloc: Global, place: usize, sources: Result<Sources, BindFault>) -> FromClause
    ensures joined { GoesOn (rules.begin_joins place) sources result.joined }
    ensures columns { rules.AreColumns place sources result.joined result.columns }
    ensures few { length result.columns ≤ 64 }
{
    match all_sources(place, sources) {
        Ok(Sources { list, columns, .. }) => {
            let joined = not_joined(alloc, columns.len(), list);
            FromClause {
                columns,
                joined: Ok(joined),
            }
        }
        Err(fault) => FromClause {
            columns: Items::new(alloc),
            joined: Err(fault),
        },
    }
}

/// How many columns the ON of the next source sees; none where the sources weren't bound.
pub fn width_of(joined: &Result<Joined, BindFault>) -> usize
    ensures { result ≡ rules.width_of joined.now }
{
    match joined {
        Ok(joined) => on_width(joined),
        Err(_) => 0,
    }
}
