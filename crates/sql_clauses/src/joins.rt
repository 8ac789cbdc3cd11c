//! The conditions of joins, source after source.
ghost use Rattle.std.specs.Prelude.{◌≡◌, ◌<◌, Ok, length};
ghost use Rattle.sql_scope.specs.Answer.{Gives, GoesOn, GoesOnBoth};
ghost use Rattle.sql_clauses.specs.Joins as rules;

use crate::conditions::on_condition;
use bound_tree::BoundSource;
use sql_expr::Exprs;
use sql_scope::{BindFault, BoundPart};
use sqlite_items::Items;
use std::alloc::Global;

/// Sources with their ON, and those that are left; how many columns all have, and those that are left.
#[derive(Drop)]
pub struct Joined {
    pub joined: Items<BoundSource>,
    pub rest: Items<BoundSource>,
    pub columns: usize,
    pub behind: usize,
}

/// The sources of these columns, none of which is joined yet.
pub fn not_joined(alloc: Global, columns: usize, sources: Items<BoundSource>) -> Joined
    ensures { result ≡ rules.not_joined columns sources }
{
    Joined {
        joined: Items::new(alloc),
        rest: sources,
        columns,
        behind: columns,
    }
}

fn width_of(sources: &[BoundSource]) -> usize
    ensures { result ≡ rules.width_of sources.now }
{
    match sources {
        [source, ..] => source.kinds.len(),
        [] => 0,
    }
}

fn with_on(source: BoundSource, on: Exprs) -> BoundSource
    ensures { result ≡ rules.with_on source on }
{
    let BoundSource {
        name,
        rows,
        kinds,
        join,
        ..
    } = source;
    BoundSource {
        name,
        rows,
        kinds,
        join,
        on,
    }
}

fn behind_next(all: &Joined) -> usize
    ensures { result ≡ rules.behind_next all.now }
{
    all.behind.saturating_sub(width_of(all.rest.as_slice()))
}

/// How many columns the ON of the next source sees: those of the sources before it and its own.
pub fn on_width(all: &Joined) -> usize
    ensures { result ≡ rules.on_width all.now }
{
    all.columns.saturating_sub(behind_next(all))
}

fn join_next(all: Joined, on: Exprs) -> Result<Joined, BindFault>
    ensures { Gives (Ok (rules.join_next all on)) result }
{
    if all.rest.is_empty() {
        return Ok(all);
    }
    let behind = behind_next(&all);
    let Joined {
        mut joined,
        mut rest,
        columns,
        ..
    } = all;
    let source = rest.remove(0);
    joined.push(with_on(source, on))?;
    Ok(Joined {
        joined,
        rest,
        columns,
        behind,
    })
}

/// The first source, or one behind CROSS JOIN.
pub fn join_plainly(alloc: Global, all: Result<Joined, BindFault>) -> Result<Joined, BindFault>
    ensures { GoesOn rules.join_plainly all result }
{
    let all = all?;
    join_next(all, Items::new(alloc))
}

/// A source behind JOIN, and its ON, whose first token stands at `place`.
pub fn join_on(
    alloc: Global,
    place: usize,
    all: Result<Joined, BindFault>,
    part: BoundPart,
) -> Result<Joined, BindFault>
    ensures { GoesOnBoth (rules.join_on place) all part result }
{
    let all = all?;
    let on = on_condition(alloc, place, part)?;
    join_next(all, on)
}
