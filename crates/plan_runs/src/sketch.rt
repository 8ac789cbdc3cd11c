//! A bound SELECT that is put together word by word. The types of its output and of what a set operation gives are left
//! out, since no plan reads them.
use crate::exprs::{constant, last, last_boxed, operation};
use crate::words::{Part, Word, word_of};
use bound_tree::{
    Aggregate, AggregateKind, BoundCore, BoundRows, BoundSelect, BoundSource, Conjunct, Cut,
    Grouping, JoinKind, SetKind, SortKey, SourceRows,
};
use ooc_types::{Schema, SqlType, Text};
use sql_expr::{Expr, Exprs};
use sqlite_items::{Boxed, Items};
use std::alloc::Global;
use std::mem;
use std::test::Fail;

/// The types of a table's columns, as far as it has them.
static KINDS: [SqlType; 5] = [
    SqlType::Integer,
    SqlType::Integer,
    SqlType::Boolean,
    SqlType::Varchar,
    SqlType::Date,
];

/// What is known of the source that comes next.
#[derive(Drop)]
struct NextSource {
    name: Option<Text>,
    join: Option<JoinKind>,
    on: Exprs,
}

/// The parts of a core.
#[derive(Drop)]
struct CoreParts {
    sources: Items<BoundSource>,
    conjuncts: Items<Conjunct>,
    keys: Exprs,
    aggregates: Items<Aggregate>,
    having: Exprs,
    items: Exprs,
    distinct: bool,
}

/// What was put together so far.
#[derive(Drop)]
struct Sketch {
    /// Expressions that are no part of anything yet.
    exprs: Exprs,
    next: NextSource,
    core: CoreParts,
    /// The operands of set operations.
    rows: Items<BoundRows>,
    cut: Cut,
    /// Subqueries of what comes, or the whole.
    selects: Items<BoundSelect>,
}

fn no_source(alloc: Global) -> NextSource {
    NextSource {
        name: None,
        join: None,
        on: Items::new(alloc),
    }
}

fn no_parts(alloc: Global) -> CoreParts {
    CoreParts {
        sources: Items::new(alloc),
        conjuncts: Items::new(alloc),
        keys: Items::new(alloc),
        aggregates: Items::new(alloc),
        having: Items::new(alloc),
        items: Items::new(alloc),
        distinct: false,
    }
}

fn no_cut(alloc: Global) -> Cut {
    Cut {
        keys: Items::new(alloc),
        limit: None,
        offset: None,
    }
}

fn no_sketch(alloc: Global) -> Sketch {
    Sketch {
        exprs: Items::new(alloc),
        next: no_source(alloc),
        core: no_parts(alloc),
        rows: Items::new(alloc),
        cut: no_cut(alloc),
        selects: Items::new(alloc),
    }
}

// ---- FROM

fn kinds(alloc: Global, width: usize) -> Result<Items<SqlType>, Fail> {
    let mut kinds = Items::new(alloc);
    for kind in &KINDS {
        if kinds.len() < width {
            kinds.push(*kind)?;
        }
    }
    Ok(kinds)
}

fn text(alloc: Global, name: &str) -> Result<Text, Fail> {
    Ok(Text::from_slice(alloc, name.as_bytes())?)
}

// The name that was given, or this one.
fn name_or(alloc: Global, given: Option<Text>, name: &str) -> Result<Text, Fail> {
    match given {
        Some(given) => Ok(given),
        None => text(alloc, name),
    }
}

fn join_or(given: Option<JoinKind>, is_first: bool) -> JoinKind {
    match given {
        Some(join) => join,
        None if is_first => JoinKind::First,
        None => JoinKind::Inner,
    }
}

fn source(
    alloc: Global,
    next: NextSource,
    name: &str,
    width: usize,
    rows: SourceRows,
    is_first: bool,
) -> Result<BoundSource, Fail> {
    let kinds = kinds(alloc, width)?;
    let NextSource {
        name: given,
        join,
        on,
    } = next;
    let name = name_or(alloc, given, name)?;
    Ok(BoundSource {
        name,
        rows,
        kinds,
        join: join_or(join, is_first),
        on,
    })
}

fn add_source(
    alloc: Global,
    name: &str,
    width: usize,
    rows: SourceRows,
    sketch: &mut Sketch,
) -> Result<(), Fail> {
    let next = mem::replace(&mut sketch.next, no_source(alloc));
    let is_first = sketch.core.sources.is_empty();
    let source = source(alloc, next, name, width, rows, is_first)?;
    sketch.core.sources.push(source)?;
    Ok(())
}

fn last_select(selects: &mut Items<BoundSelect>) -> Result<BoundSelect, Fail> {
    match selects.pop() {
        Some(select) => Ok(select),
        None => Err("no SELECT".into()),
    }
}

fn last_query(alloc: Global, selects: &mut Items<BoundSelect>) -> Result<Boxed<BoundSelect>, Fail> {
    let select = last_select(selects)?;
    Ok(Boxed::new(alloc, select)?)
}

// ---- the parts of a core

fn aggregate(alloc: Global, kind: AggregateKind, exprs: &mut Exprs) -> Result<Aggregate, Fail> {
    let of = last_boxed(alloc, exprs)?;
    Ok(Aggregate {
        kind,
        of: Some(of),
        result: SqlType::BigInt,
    })
}

fn member(alloc: Global, negated: bool, sketch: &mut Sketch) -> Result<Conjunct, Fail> {
    let of = last(&mut sketch.exprs)?;
    let query = last_query(alloc, &mut sketch.selects)?;
    Ok(Conjunct::Member { of, query, negated })
}

fn add_part(alloc: Global, part: Part, sketch: &mut Sketch) -> Result<(), Fail> {
    match part {
        Part::On => move_last(&mut sketch.exprs, &mut sketch.next.on),
        Part::Where => {
            let expr = last(&mut sketch.exprs)?;
            sketch.core.conjuncts.push(Conjunct::Condition(expr))?;
            Ok(())
        }
        Part::In { negated } => {
            let conjunct = member(alloc, negated, sketch)?;
            sketch.core.conjuncts.push(conjunct)?;
            Ok(())
        }
        Part::Key => move_last(&mut sketch.exprs, &mut sketch.core.keys),
        Part::Aggregate(kind) => {
            let aggregate = aggregate(alloc, kind, &mut sketch.exprs)?;
            sketch.core.aggregates.push(aggregate)?;
            Ok(())
        }
        Part::Having => move_last(&mut sketch.exprs, &mut sketch.core.having),
        Part::Item => move_last(&mut sketch.exprs, &mut sketch.core.items),
    }
}

fn move_last(from: &mut Exprs, to: &mut Exprs) -> Result<(), Fail> {
    let expr = last(from)?;
    to.push(expr)?;
    Ok(())
}

fn add_count_rows(aggregates: &mut Items<Aggregate>) -> Result<(), Fail> {
    aggregates.push(Aggregate {
        kind: AggregateKind::CountRows,
        of: None,
        result: SqlType::BigInt,
    })?;
    Ok(())
}

// ---- whole cores and SELECTs

fn having_of(conjuncts: Exprs) -> Option<Exprs> {
    if conjuncts.is_empty() {
        None
    } else {
        Some(conjuncts)
    }
}

fn grouping_of(keys: Exprs, aggregates: Items<Aggregate>, having: Exprs) -> Option<Grouping> {
    if keys.is_empty() && aggregates.is_empty() && having.is_empty() {
        None
    } else {
        Some(Grouping {
            keys,
            aggregates,
            having: having_of(having),
        })
    }
}

fn core_of(parts: CoreParts) -> BoundRows {
    let CoreParts {
        sources,
        conjuncts,
        keys,
        aggregates,
        having,
        items,
        distinct,
    } = parts;
    BoundRows::Core(BoundCore {
        sources,
        conjuncts,
        grouping: grouping_of(keys, aggregates, having),
        items,
        distinct,
    })
}

fn end_core(alloc: Global, sketch: &mut Sketch) -> Result<(), Fail> {
    let parts = mem::replace(&mut sketch.core, no_parts(alloc));
    sketch.rows.push(core_of(parts))?;
    Ok(())
}

fn last_rows(alloc: Global, rows: &mut Items<BoundRows>) -> Result<Boxed<BoundRows>, Fail> {
    match rows.pop() {
        Some(rows) => Ok(Boxed::new(alloc, rows)?),
        None => Err("no core".into()),
    }
}

fn end_set(
    alloc: Global,
    kind: SetKind,
    all: bool,
    rows: &mut Items<BoundRows>,
) -> Result<(), Fail> {
    let right = last_rows(alloc, rows)?;
    let left = last_rows(alloc, rows)?;
    rows.push(BoundRows::Set {
        kind,
        all,
        left,
        right,
        kinds: Items::new(alloc),
    })?;
    Ok(())
}

fn cut_of(cut: Cut) -> Option<Cut> {
    if cut.keys.is_empty() && cut.limit.is_none() && cut.offset.is_none() {
        None
    } else {
        Some(cut)
    }
}

fn end_select(alloc: Global, sketch: &mut Sketch) -> Result<(), Fail> {
    let rows = last_rows(alloc, &mut sketch.rows)?;
    let cut = mem::replace(&mut sketch.cut, no_cut(alloc));
    sketch.selects.push(BoundSelect {
        rows,
        columns: Schema::new_schema(alloc),
        cut: cut_of(cut),
    })?;
    Ok(())
}

fn add_sort_key(keys: &mut Items<SortKey>) -> Result<(), Fail> {
    keys.push(SortKey {
        place: 0,
        descending: false,
    })?;
    Ok(())
}

// ---- words

fn add_expr(expr: Result<Expr, Fail>, exprs: &mut Exprs) -> Result<(), Fail> {
    exprs.push(expr?)?;
    Ok(())
}

fn add_table(alloc: Global, name: &str, width: usize, sketch: &mut Sketch) -> Result<(), Fail> {
    let table = text(alloc, name)?;
    add_source(alloc, name, width, SourceRows::Table(table), sketch)
}

fn add_query(alloc: Global, sketch: &mut Sketch) -> Result<(), Fail> {
    let query = last_query(alloc, &mut sketch.selects)?;
    add_source(alloc, "s", 1, SourceRows::Query(query), sketch)
}

fn add_word(alloc: Global, name: &str, word: Word, sketch: &mut Sketch) -> Result<(), Fail> {
    match word {
        Word::Column(place, kind) => {
            add_expr(Ok(Expr::Column { place, kind }), &mut sketch.exprs)
        }
        Word::Constant(one) => add_expr(constant(alloc, one), &mut sketch.exprs),
        Word::Operation(one) => {
            let expr = operation(alloc, one, &mut sketch.exprs);
            add_expr(expr, &mut sketch.exprs)
        }
        Word::Part(part) => add_part(alloc, part, sketch),
        Word::Join(join) => {
            sketch.next.join = Some(join);
            Ok(())
        }
        Word::Table(width) => add_table(alloc, name, width, sketch),
        Word::Query => add_query(alloc, sketch),
        Word::CountRows => add_count_rows(&mut sketch.core.aggregates),
        Word::Distinct => {
            sketch.core.distinct = true;
            Ok(())
        }
        Word::Select => end_core(alloc, sketch),
        Word::Set(kind, all) => end_set(alloc, kind, all, &mut sketch.rows),
        Word::SortKey => add_sort_key(&mut sketch.cut.keys),
        Word::Limit(rows) => {
            sketch.cut.limit = Some(u128::from(rows));
            Ok(())
        }
        Word::Offset(rows) => {
            sketch.cut.offset = Some(u128::from(rows));
            Ok(())
        }
        Word::End => end_select(alloc, sketch),
    }
}

// `:x` is the name of the next source.
fn add_text(alloc: Global, word: &str, sketch: &mut Sketch) -> Result<(), Fail> {
    if let Some(name) = word.strip_prefix(':') {
        sketch.next.name = Some(text(alloc, name)?);
        return Ok(());
    }
    match word_of(word) {
        Some(known) => add_word(alloc, word, known, sketch),
        None => Err("an unknown word".into()),
    }
}

/// The SELECT that is put together by these words.
pub(crate) fn select_of(alloc: Global, words: &str) -> Result<BoundSelect, Fail> {
    let mut sketch = no_sketch(alloc);
    for word in words.split_whitespace() {
        add_text(alloc, word, &mut sketch)?;
    }
    last_select(&mut sketch.selects)
}
