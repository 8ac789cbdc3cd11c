//! ORDER BY, LIMIT and OFFSET.
ghost use Rattle.std.specs.Prelude.{◌≡◌, IfOk, Ok, Some, None, []};
ghost use Rattle.sql_scope.specs.Answer.{Gives, GoesOn, each};
ghost use Rattle.sql_clauses.specs.Order as rules;
ghost use Rattle.sql_clauses.specs.Places.{places, first_place, seen};
ghost use Rattle.sql_clauses.specs.Tables.{is_called};

use crate::names::small_name;
use crate::numbers::{number_at, written_number};
use crate::places::{Seen, counted};
use crate::tables;
use bound_tree::{Cut, SortKey};
use ooc_types::{Column, OutOfMemory, RefusalKind};
use sql_grammar::tree::{Key, KeyColumn, Span};
use sql_scope::{BindFault, Scope, ScopeColumn};
use sqlite_items::Items;
use std::alloc::Global;

fn position(count: usize, place: usize, number: u128) -> Result<usize, BindFault>
    ensures { Gives (rules.position count place number) result }
{
    if !(1 <= number && number <= count as u128) {
        return Err(BindFault::Refused {
            place,
            kind: RefusalKind::BadPosition,
        });
    }
    Ok((number - 1) as usize)
}

fn only_output(place: usize, seen: Seen) -> Result<usize, BindFault>
    ensures { Gives (rules.only_output place seen) result }
{
    match seen {
        Seen::Nothing => Err(BindFault::Refused {
            place,
            kind: RefusalKind::NoColumn,
        }),
        Seen::One(at) => Ok(at),
        Seen::Several => Err(BindFault::Refused {
            place,
            kind: RefusalKind::Ambiguous,
        }),
    }
}

fn named_outputs(alloc: Global, name: &[u8], columns: &[Column]) -> Result<Seen, OutOfMemory>
    ensures { IfOk result (λ found. found ≡ seen (places (is_called name.now) 0 columns.now)) }
{
    let mut seen = Seen::Nothing;
    for place in 0..columns.len() {
        let column = &columns[place];
        let holds = tables::is_called(alloc, column, name)?;
        seen = counted(holds, seen, place);
    }
    Ok(seen)
}

fn is_there(source: &[u8], name: &[u8], column: &ScopeColumn) -> bool
    ensures { result ≡ rules.is_there source.now name.now (Some column.now) }
{
    column.source.as_bytes() == source && column.name.as_bytes() == name
}

fn shows_column(columns: &[ScopeColumn], source: &[u8], name: &[u8], plain: Option<u32>) -> bool
    ensures { result ≡ rules.shows_column columns.now source.now name.now plain }
{
    match plain {
        Some(at) => match columns.get(at as usize) {
            Some(column) => is_there(source, name, column),
            None => false,
        },
        None => false,
    }
}

fn shown_column(
    columns: &[ScopeColumn],
    source: &[u8],
    name: &[u8],
    plain: &[Option<u32>],
) -> Option<usize>
    ensures { result ≡ first_place (rules.shows_column columns.now source.now name.now) 0 plain.now }
{
    for place in 0..plain.len() {
        if shows_column(columns, source, name, plain[place]) {
            return Some(place);
        }
    }
    None
}

fn output_of(
    columns: &[ScopeColumn],
    place: usize,
    source: &[u8],
    name: &[u8],
    plain: &[Option<u32>],
) -> Result<usize, BindFault>
    ensures { Gives (rules.output_of columns.now place source.now name.now plain.now) result }
{
    match shown_column(columns, source, name, plain) {
        Some(place) => Ok(place),
        None => Err(BindFault::Refused {
            place,
            kind: RefusalKind::NoColumn,
        }),
    }
}

fn qualified_key(
    alloc: Global,
    scope: &Scope<'_>,
    sources: &[ScopeColumn],
    plain: &[Option<u32>],
    source: Span,
    name: Span,
) -> Result<usize, BindFault>
    ensures { Gives (rules.named_key scope.now sources.now [] plain.now (Some source) name) result }
{
    let wanted = small_name(alloc, scope, source)?;
    let text = small_name(alloc, scope, name)?;
    output_of(
        sources,
        source.start,
        wanted.as_bytes(),
        text.as_bytes(),
        plain,
    )
}

fn output_named(
    alloc: Global,
    place: usize,
    name: &[u8],
    columns: &[Column],
) -> Result<usize, BindFault>
    ensures { Gives (rules.output_named place name.now columns.now) result }
{
    let seen = named_outputs(alloc, name, columns)?;
    only_output(place, seen)
}

fn named_key(
    alloc: Global,
    scope: &Scope<'_>,
    columns: &[Column],
    name: Span,
) -> Result<usize, BindFault>
    ensures { Gives (rules.named_key scope.now [] columns.now [] None name) result }
{
    let text = small_name(alloc, scope, name)?;
    output_named(alloc, name.start, text.as_bytes(), columns)
}

fn key_place(
    alloc: Global,
    scope: &Scope<'_>,
    sources: &[ScopeColumn],
    columns: &[Column],
    plain: &[Option<u32>],
    written: KeyColumn,
) -> Result<usize, BindFault>
    ensures { Gives (rules.key_place scope.now sources.now columns.now plain.now written) result }
{
    match written {
        KeyColumn::Position(span) => {
            let number = number_at(scope, span)?;
            position(columns.len(), span.start, number)
        }
        KeyColumn::Name(written) => match written.source {
            Some(source) => qualified_key(alloc, scope, sources, plain, source, written.name),
            None => named_key(alloc, scope, columns, written.name),
        },
    }
}

fn key_behind(
    alloc: Global,
    scope: &Scope<'_>,
    sources: &[ScopeColumn],
    columns: &[Column],
    plain: &[Option<u32>],
    written: Key,
    keys: Result<Items<SortKey>, BindFault>,
) -> Result<Items<SortKey>, BindFault>
    ensures { GoesOn (rules.key_behind scope.now sources.now columns.now plain.now written) keys result }
{
    let mut keys = keys?;
    let place = key_place(alloc, scope, sources, columns, plain, written.column)?;
    keys.push(SortKey {
        place,
        descending: written.descending,
    })?;
    Ok(keys)
}

fn sort_keys(
    alloc: Global,
    scope: &Scope<'_>,
    sources: &[ScopeColumn],
    columns: &[Column],
    plain: &[Option<u32>],
    order: &[Key],
) -> Result<Items<SortKey>, BindFault>
    ensures { Gives (rules.sort_keys scope.now sources.now columns.now plain.now order.now) result }
{
    let mut keys = Ok(Items::new(alloc));
    for key in order {
        keys = key_behind(alloc, scope, sources, columns, plain, *key, keys);
    }
    keys
}

fn cut_of(keys: Items<SortKey>, limit: Option<u128>, offset: Option<u128>) -> Option<Cut>
    ensures { result ≡ rules.cut_of keys limit offset }
{
    if keys.is_empty() && limit.is_none() && offset.is_none() {
        return None;
    }
    Some(Cut {
        keys,
        limit,
        offset,
    })
}

/// The order of outputs of these names and its cut. `plain` has the place, among the columns of the sources, of the column
/// that an output shows as it is; over a set operation it is empty.
pub(crate) fn cut(
    alloc: Global,
    scope: &Scope<'_>,
    sources: &[ScopeColumn],
    columns: &[Column],
    plain: &[Option<u32>],
    order: &[Key],
    limit: Option<Span>,
    offset: Option<Span>,
) -> Result<Option<Cut>, BindFault>
    ensures { Gives (rules.cut scope.now sources.now columns.now plain.now order.now limit offset) result }
{
    let keys = sort_keys(alloc, scope, sources, columns, plain, order)?;
    let limit = written_number(scope, limit)?;
    let offset = written_number(scope, offset)?;
    Ok(cut_of(keys, limit, offset))
}
