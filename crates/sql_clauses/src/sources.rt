//! The sources of FROM, once each one's columns are known.
ghost use Rattle.std.specs.Prelude.{◌≡◌, ◌++◌, ◌∷◌, [], IfOk, Ok};
ghost use Rattle.sql_scope.specs.Answer.{Gives, GoesOn, GoesOnBoth};
ghost use Rattle.sql_scope.specs.Texts.{folded};
ghost use Rattle.sql_clauses.specs.Sources as rules;

use crate::names::{small_name, written_name};
use crate::pairs::both;
use crate::sets::types_of;
use crate::tables::MOST_COLUMNS;
use bound_tree::{BoundSelect, BoundSource, JoinKind, SourceRows};
use ooc_types::{Column, OutOfMemory, RefusalKind, Text};
use sql_grammar::tree::Span;
use sql_scope::{BindFault, Scope, ScopeColumn, columns_of, small_letters};
use sqlite_items::{Boxed, Items};
use std::alloc::Global;

/// How many sources one FROM may have.
const MOST_SOURCES: usize = 8;

/// The sources as far as they were bound, their columns, and the place where the ninth begins.
#[derive(Drop)]
pub struct Sources {
    pub list: Items<BoundSource>,
    pub columns: Items<ScopeColumn>,
    pub ninth: Option<usize>,
}

/// No sources yet.
pub fn no_sources(alloc: Global) -> Sources
    ensures { result ≡ rules.no_sources }
{
    Sources {
        list: Items::new(alloc),
        columns: Items::new(alloc),
        ninth: None,
    }
}

fn is_called(alloc: Global, source: &BoundSource, name: &[u8]) -> Result<bool, OutOfMemory>
    ensures { IfOk result (λ called. called ≡ rules.is_called name.now source.now) }
{
    let small = small_letters(alloc, source.name.as_bytes())?;
    Ok(small.as_slice() == name)
}

fn has_source(alloc: Global, name: &[u8], sources: &[BoundSource]) -> Result<bool, OutOfMemory>
    ensures { IfOk result (λ has. has ≡ rules.has_source name.now sources.now) }
{
    for source in sources {
        if is_called(alloc, source, name)? {
            return Ok(true);
        }
    }
    Ok(false)
}

fn scope_column(alloc: Global, source: &[u8], column: &Column) -> Result<ScopeColumn, OutOfMemory>
    ensures { IfOk result (λ seen. seen ≡ rules.scope_column source.now column.now) }
{
    Ok(ScopeColumn {
        source: Text::from_slice(alloc, source)?,
        name: Text::from_vec(small_letters(alloc, column.name.as_bytes())?),
        declared: column.name.clone()?,
        kind: column.kind,
    })
}

fn with_columns(
    alloc: Global,
    source: &[u8],
    columns: &[Column],
    before: Items<ScopeColumn>,
) -> Result<Items<ScopeColumn>, OutOfMemory>
    ensures { IfOk result (λ all. all ≡ before ++ rules.scope_columns source.now columns.now) }
{
    let mut all = before;
    for column in columns {
        all.push(scope_column(alloc, source, column)?)?;
    }
    Ok(all)
}

fn ninth_of(place: usize, sources: &Sources) -> Option<usize>
    ensures { result ≡ rules.ninth_of place sources.now }
{
    if sources.list.len() == MOST_SOURCES {
        return Some(place);
    }
    sources.ninth
}

fn a_source(
    alloc: Global,
    name: Text,
    join: JoinKind,
    rows: SourceRows,
    columns: &[Column],
) -> Result<BoundSource, OutOfMemory>
    ensures { IfOk result (λ source. source ≡ rules.a_source name join rows columns.now) }
{
    Ok(BoundSource {
        name,
        rows,
        kinds: types_of(alloc, columns)?,
        join,
        on: Items::new(alloc),
    })
}

fn columns_behind(
    alloc: Global,
    name: &[u8],
    columns: &[Column],
    before: Items<ScopeColumn>,
) -> Result<Items<ScopeColumn>, OutOfMemory>
    ensures { IfOk result (λ all. all ≡ before ++ rules.scope_columns (folded name.now) columns.now) }
{
    let small = small_letters(alloc, name)?;
    let all = with_columns(alloc, small.as_slice(), columns, before)?;
    Ok(all)
}

fn list_behind(
    alloc: Global,
    name: Text,
    join: JoinKind,
    rows: SourceRows,
    columns: &[Column],
    before: Items<BoundSource>,
) -> Result<Items<BoundSource>, OutOfMemory>
    ensures { IfOk result (λ list. list ≡ before ++ rules.a_source name join rows columns.now ∷ []) }
{
    let source = a_source(alloc, name, join, rows, columns)?;
    let mut list = before;
    list.push(source)?;
    Ok(list)
}

fn with_source(
    alloc: Global,
    place: usize,
    name: Text,
    join: JoinKind,
    rows: SourceRows,
    columns: &[Column],
    sources: Sources,
) -> Result<Sources, BindFault>
    ensures { Gives (Ok (rules.with_source place name join rows columns.now sources)) result }
{
    let ninth = ninth_of(place, &sources);
    let Sources {
        list,
        columns: before,
        ..
    } = sources;
    let behind = columns_behind(alloc, name.as_bytes(), columns, before)?;
    let list = list_behind(alloc, name, join, rows, columns, list)?;
    Ok(Sources {
        list,
        columns: behind,
        ninth,
    })
}

fn is_taken(alloc: Global, name: &[u8], sources: &[BoundSource]) -> Result<bool, OutOfMemory>
    ensures { IfOk result (λ taken. taken ≡ rules.has_source (folded name.now) sources.now) }
{
    let small = small_letters(alloc, name)?;
    let taken = has_source(alloc, small.as_slice(), sources)?;
    Ok(taken)
}

fn source_behind(
    alloc: Global,
    place: usize,
    at: usize,
    name: Text,
    join: JoinKind,
    rows: SourceRows,
    columns: &[Column],
    sources: Sources,
) -> Result<Sources, BindFault>
    ensures { Gives (rules.source_behind place at name join rows columns.now sources) result }
{
    if is_taken(alloc, name.as_bytes(), sources.list.as_slice())? {
        return Err(BindFault::Refused {
            place: at,
            kind: RefusalKind::DuplicateName,
        });
    }
    with_source(alloc, place, name, join, rows, columns, sources)
}

fn source_name(name: Span, alias: Option<Span>) -> Span
    ensures { result ≡ rules.source_name name alias }
{
    match alias {
        Some(alias) => alias,
        None => name,
    }
}

fn named_table(
    alloc: Global,
    scope: &Scope<'_>,
    place: usize,
    table: Text,
    at: usize,
    name: Text,
    join: JoinKind,
    sources: Sources,
) -> Result<Sources, BindFault>
    ensures { Gives (rules.named_table scope.now place table at name join sources) result }
{
    match columns_of(scope.tables(), table.as_bytes()) {
        Some(columns) => {
            let rows = SourceRows::Table(table);
            source_behind(alloc, place, at, name, join, rows, columns, sources)
        }
        None => Err(BindFault::Refused {
            place,
            kind: RefusalKind::NoTable,
        }),
    }
}

fn add_table(
    alloc: Global,
    scope: &Scope<'_>,
    join: JoinKind,
    name: Span,
    alias: Option<Span>,
    sources: Sources,
) -> Result<Sources, BindFault>
    ensures { Gives (rules.table_source scope.now join name alias sources) result }
{
    let table = small_name(alloc, scope, name)?;
    let called = source_name(name, alias);
    let text = written_name(alloc, scope, called)?;
    named_table(
        alloc,
        scope,
        name.start,
        table,
        called.start,
        text,
        join,
        sources,
    )
}

/// A table behind the sources before it.
pub fn table_source(
    alloc: Global,
    scope: &Scope<'_>,
    join: JoinKind,
    name: Span,
    alias: Option<Span>,
    sources: Result<Sources, BindFault>,
) -> Result<Sources, BindFault>
    ensures { GoesOn (rules.table_source scope.now join name alias) sources result }
{
    add_table(alloc, scope, join, name, alias, sources?)
}

fn query_behind(
    alloc: Global,
    scope: &Scope<'_>,
    join: JoinKind,
    place: usize,
    alias: Span,
    sources: Sources,
    query: Boxed<BoundSelect>,
) -> Result<Sources, BindFault>
    ensures { Gives (rules.query_source scope.now join place alias sources query) result }
{
    let name = written_name(alloc, scope, alias)?;
    let columns = query.get().columns.clone()?;
    let rows = SourceRows::Query(query);
    source_behind(
        alloc,
        place,
        alias.start,
        name,
        join,
        rows,
        columns.as_slice(),
        sources,
    )
}

fn query_pair(
    alloc: Global,
    scope: &Scope<'_>,
    join: JoinKind,
    place: usize,
    alias: Span,
    pair: Result<(Sources, Boxed<BoundSelect>), BindFault>,
) -> Result<Sources, BindFault>
    ensures { GoesOn (λ p. rules.query_source scope.now join place alias p.0 p.1) pair result }
{
    let (sources, query) = pair?;
    query_behind(alloc, scope, join, place, alias, sources, query)
}

/// A subquery behind the sources before it; its parenthesis stands at `place`.
pub fn query_source(
    alloc: Global,
    scope: &Scope<'_>,
    join: JoinKind,
    place: usize,
    alias: Span,
    sources: Result<Sources, BindFault>,
    query: Result<Boxed<BoundSelect>, BindFault>,
) -> Result<Sources, BindFault>
    ensures { GoesOnBoth (rules.query_source scope.now join place alias) sources query result }
{
    query_pair(alloc, scope, join, place, alias, both(sources, query))
}

fn few_sources(sources: Sources) -> Result<Sources, BindFault>
    ensures { Gives (rules.few_sources sources sources.ninth) result }
{
    match sources.ninth {
        Some(place) => Err(BindFault::Refused {
            place,
            kind: RefusalKind::TooManyTables,
        }),
        None => Ok(sources),
    }
}

/// All sources of a FROM, once they are bound; `place` is that of the first token behind FROM.
pub fn all_sources(place: usize, sources: Result<Sources, BindFault>) -> Result<Sources, BindFault>
    ensures { GoesOn (rules.all_sources place) sources result }
{
    let sources = few_sources(sources?)?;
    if sources.columns.len() > MOST_COLUMNS {
        return Err(BindFault::Refused {
            place,
            kind: RefusalKind::TooManyColumns,
        });
    }
    Ok(sources)
}
