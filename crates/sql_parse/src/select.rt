//! Selects: a function for each rule of the grammar, by its name. `depth` is how many levels may still nest.
ghost use Rattle.std.specs.Prelude.{◌≤◌, ◌<◌, length, IsOk};
ghost use Rattle.sql_grammar.specs.Form.{many, a_select};
ghost use Rattle.sql_grammar.specs.Reading.{read, opened};
ghost use Rattle.sql_grammar.specs.Combinators.{list};
ghost use Rattle.sql_grammar.specs.Nesting.{readers};
ghost use Rattle.flat_rules.specs.Gives.{Gives};
ghost use Rattle.sql_grammar.specs.Expressions as expressions;
ghost use Rattle.sql_grammar.specs.Selects as form;

use crate::expr::expr;
use flat_rules::clauses::{
    alias, at_cross, at_intersect, at_join, at_set_operand, at_subquery, core_head, cross_word,
    intersect_head, join_word, set_head,
};
use flat_rules::rows::{Conditions, CoreEnd, Grouped, Sources, TakenRows};
use flat_rules::{Cursor, rows};
use sql_grammar::Fault;
use sql_grammar::tree::{Condition, Expr, Item, Join, Rows, Select, SetOperand, Source};
use sql_lex::{Sign, Word};
use sqlite_items::{Boxed, Items};
use std::alloc::Global;

/// The select behind the token that opens a level.
#[cycle(rule)]
pub(crate) fn nested_select(
    alloc: Global,
    cursor: &mut Cursor<'_>,
    depth: u8,
) -> Result<Boxed<Select>, Fault>
    ensures gives { Gives (opened (readers depth a_select) cursor.old) result cursor.new }
    ensures shrinks { length cursor.new ≤ length cursor.old }
{
    if depth == 0 {
        return Err(Fault::TooDeep);
    }
    cursor.shift();
    select(alloc, cursor, depth - 1)
}

#[cycle(rule)]
fn value_item(alloc: Global, cursor: &mut Cursor<'_>, depth: u8) -> Result<Item, Fault>
    ensures gives { Gives (read (readers depth) form.value_item cursor.old) result cursor.new }
    ensures shrinks { length cursor.new ≤ length cursor.old }
{
    let value = expr(alloc, cursor, depth);
    rows::value_item(cursor, value, depth)
}

#[cycle(rule)]
#[tactic(auto, unfolding(sql_grammar::specs::Selects::item))]
fn item(alloc: Global, cursor: &mut Cursor<'_>, depth: u8) -> Result<Item, Fault>
    ensures gives { Gives (read (readers depth) form.item cursor.old) result cursor.new }
    ensures shrinks { length cursor.new ≤ length cursor.old }
{
    if cursor.at_sign(Sign::Star) {
        return Ok(Item::Star(cursor.take().start));
    }
    if cursor.at_source_star() {
        let name = cursor.take();
        cursor.shift();
        cursor.shift();
        return Ok(Item::SourceStar(name));
    }
    value_item(alloc, cursor, depth)
}

/// `item { "," item }`
#[cycle(rule)]
fn items(alloc: Global, cursor: &mut Cursor<'_>, depth: u8) -> Result<Items<Item>, Fault>
    ensures gives { Gives (read (readers depth) (list form.item) cursor.old) result cursor.new }
    ensures shrinks { length cursor.new ≤ length cursor.old }
{
    let first = item(alloc, cursor, depth)?;
    let mut found = Items::new(alloc);
    found.push(first)?;
    'turns: while cursor.at_sign(Sign::Comma) {
        cursor.shift();
        let next = item(alloc, cursor, depth)?;
        found.push(next)?;
    }
    Ok(found)
}

/// `item { "," item } FROM`
#[cycle(rule)]
fn shown(alloc: Global, cursor: &mut Cursor<'_>, depth: u8) -> Result<Items<Item>, Fault>
    ensures gives { Gives (read (readers depth) form.shown cursor.old) result cursor.new }
    ensures shrinks { length cursor.new ≤ length cursor.old }
{
    let items = items(alloc, cursor, depth);
    rows::before_from(cursor, items)
}

#[cycle(rule)]
fn condition(alloc: Global, cursor: &mut Cursor<'_>, depth: u8) -> Result<Condition, Fault>
    ensures gives { Gives (read (readers depth) form.condition cursor.old) result cursor.new }
    ensures shrinks { length cursor.new ≤ length cursor.old }
{
    let span = cursor.span();
    let test = expr(alloc, cursor, depth);
    rows::condition(span.start, test)
}

/// `[ word expr ]`
#[cycle(rule)]
fn optional_condition(
    alloc: Global,
    cursor: &mut Cursor<'_>,
    word: Word,
    depth: u8,
) -> Result<Option<Condition>, Fault>
    ensures gives { Gives (read (readers depth) (form.optional_condition word) cursor.old) result cursor.new }
    ensures shrinks { length cursor.new ≤ length cursor.old }
{
    if !cursor.at_word(word) {
        return Ok(None);
    }
    cursor.shift();
    Ok(Some(condition(alloc, cursor, depth)?))
}

/// `expr { "," expr }`
#[cycle(rule)]
fn exprs(alloc: Global, cursor: &mut Cursor<'_>, depth: u8) -> Result<Items<Boxed<Expr>>, Fault>
    ensures gives { Gives (read (readers depth) (list expressions.expr) cursor.old) result cursor.new }
    ensures shrinks { length cursor.new ≤ length cursor.old }
{
    let first = expr(alloc, cursor, depth)?;
    let mut found = Items::new(alloc);
    found.push(first)?;
    'turns: while cursor.at_sign(Sign::Comma) {
        cursor.shift();
        let next = expr(alloc, cursor, depth)?;
        found.push(next)?;
    }
    Ok(found)
}

#[cycle(rule)]
#[tactic(auto, unfolding(sql_grammar::specs::Selects::grouping))]
fn grouping(alloc: Global, cursor: &mut Cursor<'_>, depth: u8) -> Result<Items<Boxed<Expr>>, Fault>
    ensures gives { Gives (read (readers depth) form.grouping cursor.old) result cursor.new }
    ensures shrinks { length cursor.new ≤ length cursor.old }
{
    if !cursor.at_word(Word::Group) {
        return Ok(Items::new(alloc));
    }
    cursor.shift();
    cursor.word(Word::By)?;
    exprs(alloc, cursor, depth)
}

/// `[ GROUP BY expr { "," expr } ] [ HAVING expr ]`
#[cycle(rule)]
fn grouped(alloc: Global, cursor: &mut Cursor<'_>, depth: u8) -> Result<Grouped, Fault>
    ensures gives { Gives (read (readers depth) form.grouped cursor.old) result cursor.new }
    ensures shrinks { length cursor.new ≤ length cursor.old }
{
    let group = grouping(alloc, cursor, depth)?;
    let having = optional_condition(alloc, cursor, Word::Having, depth);
    rows::grouped(group, having)
}

/// `[ WHERE expr ] [ GROUP BY expr { "," expr } ] [ HAVING expr ]`
#[cycle(rule)]
fn conditions(alloc: Global, cursor: &mut Cursor<'_>, depth: u8) -> Result<Conditions, Fault>
    ensures gives { Gives (read (readers depth) form.conditions cursor.old) result cursor.new }
    ensures shrinks { length cursor.new ≤ length cursor.old }
{
    let filter = optional_condition(alloc, cursor, Word::Where, depth)?;
    let grouped = grouped(alloc, cursor, depth);
    rows::conditions(filter, grouped)
}

#[cycle(rule)]
#[tactic(auto, unfolding(sql_grammar::specs::Selects::subquery_source))]
fn subquery_source(alloc: Global, cursor: &mut Cursor<'_>, depth: u8) -> Result<Source, Fault>
    ensures gives { Gives (read (readers depth) form.subquery_source cursor.old) result cursor.new }
    ensures shrinks { length cursor.new ≤ length cursor.old }
{
    if !cursor.at_opening() {
        return Err(Fault::Syntax);
    }
    let span = cursor.span();
    let query = nested_select(alloc, cursor, depth);
    rows::query_source(cursor, span.start, query, depth)
}

#[cycle(rule)]
#[tactic(auto, unfolding(sql_grammar::specs::Selects::source))]
fn source(alloc: Global, cursor: &mut Cursor<'_>, depth: u8) -> Result<Source, Fault>
    ensures gives { Gives (read (readers depth) form.source cursor.old) result cursor.new }
    ensures shrinks { length cursor.new ≤ length cursor.old }
{
    if at_subquery(cursor) {
        return subquery_source(alloc, cursor, depth);
    }
    let name = cursor.name()?;
    let alias = alias(cursor, depth)?;
    Ok(Source::Table { name, alias })
}

/// `ON expr`
#[cycle(rule)]
fn join_end(alloc: Global, cursor: &mut Cursor<'_>, depth: u8) -> Result<Condition, Fault>
    ensures gives { Gives (read (readers depth) form.join_end cursor.old) result cursor.new }
    ensures shrinks { length cursor.new ≤ length cursor.old }
{
    cursor.word(Word::On)?;
    condition(alloc, cursor, depth)
}

/// `source ON expr`
#[cycle(rule)]
fn source_on(
    alloc: Global,
    cursor: &mut Cursor<'_>,
    depth: u8,
) -> Result<(Source, Condition), Fault>
    ensures gives { Gives (read (readers depth) form.source_on cursor.old) result cursor.new }
    ensures shrinks { length cursor.new ≤ length cursor.old }
{
    let source = source(alloc, cursor, depth)?;
    let on = join_end(alloc, cursor, depth);
    rows::source_on(source, on)
}

#[cycle(rule)]
#[tactic(auto, unfolding(sql_grammar::specs::Selects::join_on))]
fn join_on(alloc: Global, cursor: &mut Cursor<'_>, depth: u8) -> Result<Join, Fault>
    ensures gives { Gives (read (readers depth) form.join_on cursor.old) result cursor.new }
    ensures shrinks { length cursor.new ≤ length cursor.old }
    ensures falls { IsOk result → length cursor.new < length cursor.old }
{
    let outer = join_word(cursor, depth)?;
    let end = source_on(alloc, cursor, depth);
    rows::join_on(outer, end)
}

#[cycle(rule)]
#[tactic(auto, unfolding(sql_grammar::specs::Selects::join_cross))]
fn join_cross(alloc: Global, cursor: &mut Cursor<'_>, depth: u8) -> Result<Join, Fault>
    ensures gives { Gives (read (readers depth) form.join_cross cursor.old) result cursor.new }
    ensures shrinks { length cursor.new ≤ length cursor.old }
    ensures falls { IsOk result → length cursor.new < length cursor.old }
{
    cross_word(cursor, depth)?;
    let source = source(alloc, cursor, depth);
    rows::join_cross(source)
}

#[cycle(rule)]
#[tactic(auto, unfolding(sql_grammar::specs::Selects::join))]
fn join(alloc: Global, cursor: &mut Cursor<'_>, depth: u8) -> Result<Join, Fault>
    ensures gives { Gives (read (readers depth) form.join cursor.old) result cursor.new }
    ensures shrinks { length cursor.new ≤ length cursor.old }
    ensures falls { IsOk result → length cursor.new < length cursor.old }
{
    if at_cross(cursor) {
        join_cross(alloc, cursor, depth)
    } else {
        join_on(alloc, cursor, depth)
    }
}

/// As many as come.
#[cycle(rule)]
fn joins(alloc: Global, cursor: &mut Cursor<'_>, depth: u8) -> Result<Items<Join>, Fault>
    ensures gives { Gives (read (readers depth) (many form.join) cursor.old) result cursor.new }
    ensures shrinks { length cursor.new ≤ length cursor.old }
{
    let mut found = Items::new(alloc);
    'turns: while at_join(cursor) {
        let next = join(alloc, cursor, depth)?;
        found.push(next)?;
    }
    Ok(found)
}

#[cycle(rule)]
#[tactic(auto, unfolding(sql_grammar::specs::Selects::sources))]
fn sources(alloc: Global, cursor: &mut Cursor<'_>, depth: u8) -> Result<Sources, Fault>
    ensures gives { Gives (read (readers depth) form.sources cursor.old) result cursor.new }
    ensures shrinks { length cursor.new ≤ length cursor.old }
{
    let first = source(alloc, cursor, depth)?;
    let joins = joins(alloc, cursor, depth);
    rows::sources(first, joins)
}

/// The sources and the conditions of a core.
#[cycle(rule)]
fn taken_rows(alloc: Global, cursor: &mut Cursor<'_>, depth: u8) -> Result<TakenRows, Fault>
    ensures gives { Gives (read (readers depth) form.taken_rows cursor.old) result cursor.new }
    ensures shrinks { length cursor.new ≤ length cursor.old }
{
    let sources = sources(alloc, cursor, depth)?;
    let conditions = conditions(alloc, cursor, depth);
    rows::taken_rows(sources, conditions)
}

/// What stands behind SELECT.
#[cycle(rule)]
fn core_end(alloc: Global, cursor: &mut Cursor<'_>, depth: u8) -> Result<CoreEnd, Fault>
    ensures gives { Gives (read (readers depth) form.core_end cursor.old) result cursor.new }
    ensures shrinks { length cursor.new ≤ length cursor.old }
{
    let items = shown(alloc, cursor, depth)?;
    let taken = taken_rows(alloc, cursor, depth);
    rows::core_end(items, taken)
}

#[cycle(rule)]
#[tactic(auto, unfolding(sql_grammar::specs::Selects::core))]
fn core(alloc: Global, cursor: &mut Cursor<'_>, depth: u8) -> Result<Boxed<Rows>, Fault>
    ensures gives { Gives (read (readers depth) form.core cursor.old) result cursor.new }
    ensures shrinks { length cursor.new ≤ length cursor.old }
{
    let head = core_head(cursor, depth)?;
    let end = core_end(alloc, cursor, depth);
    rows::core(alloc, head, end)
}

#[cycle(rule)]
#[tactic(auto, unfolding(sql_grammar::specs::Selects::intersect))]
fn intersect(alloc: Global, cursor: &mut Cursor<'_>, depth: u8) -> Result<SetOperand, Fault>
    ensures gives { Gives (read (readers depth) form.intersect cursor.old) result cursor.new }
    ensures shrinks { length cursor.new ≤ length cursor.old }
    ensures falls { IsOk result → length cursor.new < length cursor.old }
{
    let head = intersect_head(cursor, depth)?;
    let span = cursor.span();
    let right = core(alloc, cursor, depth);
    rows::set_operand(head, span.start, right)
}

/// As many as come.
#[cycle(rule)]
fn intersects(alloc: Global, cursor: &mut Cursor<'_>, depth: u8) -> Result<Items<SetOperand>, Fault>
    ensures gives { Gives (read (readers depth) (many form.intersect) cursor.old) result cursor.new }
    ensures shrinks { length cursor.new ≤ length cursor.old }
{
    let mut found = Items::new(alloc);
    'turns: while at_intersect(cursor) {
        let next = intersect(alloc, cursor, depth)?;
        found.push(next)?;
    }
    Ok(found)
}

#[cycle(rule)]
#[tactic(auto, unfolding(sql_grammar::specs::Selects::operand))]
fn operand(alloc: Global, cursor: &mut Cursor<'_>, depth: u8) -> Result<Boxed<Rows>, Fault>
    ensures gives { Gives (read (readers depth) form.operand cursor.old) result cursor.new }
    ensures shrinks { length cursor.new ≤ length cursor.old }
{
    let first = core(alloc, cursor, depth)?;
    let others = intersects(alloc, cursor, depth);
    rows::sets(alloc, first, others)
}

#[cycle(rule)]
#[tactic(auto, unfolding(sql_grammar::specs::Selects::set_operand))]
fn set_operand(alloc: Global, cursor: &mut Cursor<'_>, depth: u8) -> Result<SetOperand, Fault>
    ensures gives { Gives (read (readers depth) form.set_operand cursor.old) result cursor.new }
    ensures shrinks { length cursor.new ≤ length cursor.old }
    ensures falls { IsOk result → length cursor.new < length cursor.old }
{
    let head = set_head(cursor, depth)?;
    let span = cursor.span();
    let right = operand(alloc, cursor, depth);
    rows::set_operand(head, span.start, right)
}

/// As many as come.
#[cycle(rule)]
fn set_operands(
    alloc: Global,
    cursor: &mut Cursor<'_>,
    depth: u8,
) -> Result<Items<SetOperand>, Fault>
    ensures gives { Gives (read (readers depth) (many form.set_operand) cursor.old) result cursor.new }
    ensures shrinks { length cursor.new ≤ length cursor.old }
{
    let mut found = Items::new(alloc);
    'turns: while at_set_operand(cursor) {
        let next = set_operand(alloc, cursor, depth)?;
        found.push(next)?;
    }
    Ok(found)
}

/// The rows of a select.
#[cycle(rule)]
#[tactic(auto, unfolding(sql_grammar::specs::Selects::rows))]
fn all_rows(alloc: Global, cursor: &mut Cursor<'_>, depth: u8) -> Result<Boxed<Rows>, Fault>
    ensures gives { Gives (read (readers depth) form.rows cursor.old) result cursor.new }
    ensures shrinks { length cursor.new ≤ length cursor.old }
{
    let first = operand(alloc, cursor, depth)?;
    let others = set_operands(alloc, cursor, depth);
    rows::sets(alloc, first, others)
}

#[cycle(rule)]
pub(crate) fn select(
    alloc: Global,
    cursor: &mut Cursor<'_>,
    depth: u8,
) -> Result<Boxed<Select>, Fault>
    ensures gives { Gives (read (readers depth) form.select cursor.old) result cursor.new }
    ensures shrinks { length cursor.new ≤ length cursor.old }
{
    let span = cursor.span();
    let rows = all_rows(alloc, cursor, depth);
    rows::select(alloc, cursor, span.start, rows, depth)
}
