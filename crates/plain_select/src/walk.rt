//! The walk over a SELECT.
ghost use Rattle.std.specs.Prelude.{◌≡◌, IfOk, map};
ghost use Rattle.bound_tree.specs.declared.select.BoundRows.TheViews.{out-BoundSource};
ghost use Rattle.sql_meaning.specs.Statements.{conjunct_meaning, core_meaning, pads_of, rows_meaning, select_meaning, source_meaning, source_rows_meaning};
ghost use Rattle.plain_rows.specs.Answers.{found_in};
ghost use Rattle.plain_rows.specs.Froms.{source_in};
ghost use Rattle.plain_rows.specs.Tests.{parts_in, parts_of};
ghost use Rattle.plain_cores.specs.Known.{known_parts, meant_in};
ghost use Rattle.plain_cores.specs.Named.{tables_in};
ghost use Rattle.plain_select.specs.Settings.{CanAnswer, CanAnswerConjunct, CanAnswerConjuncts, CanAnswerCore, CanAnswerInput, CanAnswerRows, CanAnswerSources, conjunct_parts, on_parts, source_with};

use bound_tree::{BoundCore, BoundRows, BoundSelect, BoundSource, Conjunct, JoinKind, SourceRows};
use ooc_types::OutOfMemory;
use plain_cores::{Known, Table, core_answer, member_over, table_rows};
use plain_rows::{Answer, Source, combine, cut_answer, tests_of};
use std::alloc::Global;

fn pads(join: JoinKind) -> bool
    ensures { result ≡ pads_of join }
{
    match join {
        JoinKind::Left => true,
        JoinKind::First | JoinKind::Inner | JoinKind::Cross => false,
    }
}

// A source with what it gives.
fn source_over<'a>(
    alloc: Global,
    source: &'a BoundSource,
    found: Answer,
) -> Result<Source<'a>, OutOfMemory>
    ensures source { IfOk result (λ made. source_in made ≡ source_with (out-BoundSource source.now) (found_in found)) }
    ensures on { IfOk result (λ made. map parts_in made.on.items ≡ on_parts source.now) }
{
    let on = tests_of(alloc, source.on.as_slice())?;
    Ok(Source {
        found,
        width: source.kinds.as_slice().len(),
        pads: pads(source.join),
        on,
    })
}

#[cycle(answer)]
fn answer_input(alloc: Global, tables: &[Table], rows: &SourceRows) -> Result<Answer, OutOfMemory>
    requires { CanAnswerInput tables.now rows.now }
    ensures { IfOk result (λ answer. found_in answer ≡ source_rows_meaning (tables_in tables.now) rows.now) }
{
    match rows {
        SourceRows::Table(name) => table_rows(alloc, tables, name),
        SourceRows::Query(select) => answer_select(alloc, tables, select.get()),
    }
}

#[cycle(answer)]
fn answer_sources<'a>(
    alloc: Global,
    tables: &[Table],
    sources: &'a [BoundSource],
) -> Result<Vec<Source<'a>>, OutOfMemory>
    requires { CanAnswerSources tables.now sources.now }
    ensures sources { IfOk result (λ made. map source_in made.items ≡ map (source_meaning (tables_in tables.now)) sources.now) }
    ensures on { IfOk result (λ made. map (λ source. map parts_in source.on.items) made.items ≡ map on_parts sources.now) }
{
    let mut made = Vec::new(alloc);
    for source in sources {
        let found = answer_input(alloc, tables, &source.rows)?;
        made.push(source_over(alloc, source, found)?)?;
    }
    Ok(made)
}

#[cycle(answer)]
fn answer_conjunct<'a>(
    alloc: Global,
    tables: &[Table],
    conjunct: &'a Conjunct,
) -> Result<Known<'a>, OutOfMemory>
    requires { CanAnswerConjunct tables.now conjunct.now }
    ensures meant { IfOk result (λ known. meant_in known ≡ conjunct_meaning (tables_in tables.now) conjunct.now) }
    ensures parts { IfOk result (λ known. known_parts known ≡ conjunct_parts (tables_in tables.now) conjunct.now) }
{
    match conjunct {
        Conjunct::Condition(expr) => Ok(Known::Condition(expr)),
        Conjunct::Member { of, query, negated } => {
            let answer = answer_select(alloc, tables, query.get())?;
            member_over(alloc, of, *negated, answer)
        }
    }
}

#[cycle(answer)]
fn answer_conjuncts<'a>(
    alloc: Global,
    tables: &[Table],
    conjuncts: &'a [Conjunct],
) -> Result<Vec<Known<'a>>, OutOfMemory>
    requires { CanAnswerConjuncts tables.now conjuncts.now }
    ensures meant { IfOk result (λ knowns. map meant_in knowns.items ≡ map (conjunct_meaning (tables_in tables.now)) conjuncts.now) }
    ensures parts { IfOk result (λ knowns. map known_parts knowns.items ≡ map (conjunct_parts (tables_in tables.now)) conjuncts.now) }
{
    let mut knowns = Vec::new(alloc);
    for conjunct in conjuncts {
        knowns.push(answer_conjunct(alloc, tables, conjunct)?)?;
    }
    Ok(knowns)
}

#[cycle(answer)]
fn answer_core(alloc: Global, tables: &[Table], core: &BoundCore) -> Result<Answer, OutOfMemory>
    requires { CanAnswerCore tables.now core.now }
    ensures { IfOk result (λ answer. found_in answer ≡ core_meaning (tables_in tables.now) core.now) }
{
    let sources = answer_sources(alloc, tables, core.sources.as_slice())?;
    let knowns = answer_conjuncts(alloc, tables, core.conjuncts.as_slice())?;
    core_answer(alloc, core, sources.as_slice(), knowns.as_slice())
}

#[cycle(answer)]
fn answer_rows(alloc: Global, tables: &[Table], rows: &BoundRows) -> Result<Answer, OutOfMemory>
    requires { CanAnswerRows tables.now rows.now }
    ensures { IfOk result (λ answer. found_in answer ≡ rows_meaning (tables_in tables.now) rows.now) }
{
    match rows {
        BoundRows::Core(core) => answer_core(alloc, tables, core),
        BoundRows::Set {
            kind,
            all,
            left,
            right,
            ..
        } => {
            let left = answer_rows(alloc, tables, left.get())?;
            let right = answer_rows(alloc, tables, right.get())?;
            combine(alloc, *kind, *all, left, right)
        }
    }
}

#[cycle(answer)]
fn answer_select(
    alloc: Global,
    tables: &[Table],
    select: &BoundSelect,
) -> Result<Answer, OutOfMemory>
    requires { CanAnswer tables.now select.now }
    ensures { IfOk result (λ answer. found_in answer ≡ select_meaning (tables_in tables.now) select.now) }
{
    let rows = answer_rows(alloc, tables, select.rows.get())?;
    cut_answer(alloc, &select.cut, rows)
}

/// What a well-formed SELECT means over tables that meet their schemas: its rows, in order where it has one, and the
/// faults that it notes.
pub fn select_plain(
    alloc: Global,
    tables: &[Table],
    select: &BoundSelect,
) -> Result<Answer, OutOfMemory>
    requires { CanAnswer tables.now select.now }
    ensures { IfOk result (λ answer. found_in answer ≡ select_meaning (tables_in tables.now) select.now) }
{
    answer_select(alloc, tables, select)
}
