//! Parts of a select, made of what was read: the fault of a part that wasn't is handed on.
ghost use Rattle.std.specs.Prelude.{◌≤◌, length, Ok};
ghost use Rattle.sql_grammar.specs.Reading.{and_then, read};
ghost use Rattle.sql_grammar.specs.Combinators as parts;
ghost use Rattle.sql_grammar.specs.Nesting.{readers};
ghost use Rattle.flat_rules.specs.Gives.{Makes, GoesOn};
ghost use Rattle.sql_grammar.specs.Selects as form;
ghost use Rattle.sql_grammar.specs.declared.tree.select.Item.TheVariants as item;
ghost use Rattle.sql_grammar.specs.declared.tree.select.Join.TheVariants as join;
ghost use Rattle.sql_grammar.specs.declared.tree.select.Source.TheVariants as source;

use crate::clauses::{CoreHead, SetHead, alias, query_end, window};
use crate::cursor::Cursor;
use sql_grammar::Fault;
use sql_grammar::tree::{Condition, Expr, Item, Join, Rows, Select, SetOperand, Source};
use sql_lex::Word;
use sqlite_items::{Boxed, Items};
use std::alloc::Global;

/// An expression that is shown, whose name may follow.
pub fn value_item(
    cursor: &mut Cursor<'_>,
    value: Result<Boxed<Expr>, Fault>,
    depth: u8,
) -> Result<Item, Fault>
    ensures goes_on { GoesOn (λ v r. and_then (read (readers depth) form.alias r) (λ alias s. Ok (item.Value v alias, s))) value cursor.old result cursor.new }
    ensures shrinks { length cursor.new ≤ length cursor.old }
{
    let value = value?;
    let alias = alias(cursor, depth)?;
    Ok(Item::Value { value, alias })
}

/// The items, which FROM has to follow.
pub fn before_from(
    cursor: &mut Cursor<'_>,
    items: Result<Items<Item>, Fault>,
) -> Result<Items<Item>, Fault>
    ensures goes_on { GoesOn (λ i r. and_then (read (readers 0) (parts.word Word.From) r) (λ _ s. Ok (i, s))) items cursor.old result cursor.new }
    ensures shrinks { length cursor.new ≤ length cursor.old }
{
    let items = items?;
    cursor.word(Word::From)?;
    Ok(items)
}

/// A condition whose first token stands at `place`.
pub fn condition(place: usize, test: Result<Boxed<Expr>, Fault>) -> Result<Condition, Fault>
    ensures { Makes (λ e. record { place = place; test = e }) test result }
{
    let test = test?;
    Ok(Condition { place, test })
}

/// A subquery as a source, whose closing parenthesis and name have to follow.
pub fn query_source(
    cursor: &mut Cursor<'_>,
    place: usize,
    query: Result<Boxed<Select>, Fault>,
    depth: u8,
) -> Result<Source, Fault>
    ensures goes_on { GoesOn (λ q r. and_then (read (readers depth) form.query_end r) (λ alias s. Ok (source.Query place q alias, s))) query cursor.old result cursor.new }
    ensures shrinks { length cursor.new ≤ length cursor.old }
{
    let query = query?;
    let alias = query_end(cursor, depth)?;
    Ok(Source::Query {
        place,
        query,
        alias,
    })
}

/// A source that is joined, and its condition.
pub fn source_on(source: Source, on: Result<Condition, Fault>) -> Result<(Source, Condition), Fault>
    ensures { Makes (λ o. (source, o)) on result }
{
    let on = on?;
    Ok((source, on))
}

/// A join with a condition.
pub fn join_on(outer: bool, end: Result<(Source, Condition), Fault>) -> Result<Join, Fault>
    ensures { Makes (λ e. join.On outer e.0 e.1) end result }
{
    let (source, on) = end?;
    Ok(Join::On { outer, source, on })
}

/// A join without a condition.
pub fn join_cross(source: Result<Source, Fault>) -> Result<Join, Fault>
    ensures { Makes (λ s. join.Cross s) source result }
{
    let source = source?;
    Ok(Join::Cross(source))
}

/// The first source of a core, and those joined to it.
pub type Sources = (Source, Items<Join>);

/// The sources of a core.
pub fn sources(first: Source, joins: Result<Items<Join>, Fault>) -> Result<Sources, Fault>
    ensures { Makes (λ j. (first, j)) joins result }
{
    let joins = joins?;
    Ok((first, joins))
}

/// Those of GROUP BY and HAVING.
pub type Grouped = (Items<Boxed<Expr>>, Option<Condition>);

/// The keys of a core, and its HAVING.
pub fn grouped(
    group: Items<Boxed<Expr>>,
    having: Result<Option<Condition>, Fault>,
) -> Result<Grouped, Fault>
    ensures { Makes (λ h. (group, h)) having result }
{
    let having = having?;
    Ok((group, having))
}

/// Those of WHERE, GROUP BY and HAVING.
pub type Conditions = (Option<Condition>, Items<Boxed<Expr>>, Option<Condition>);

/// The conditions of a core, with its keys.
pub fn conditions(
    filter: Option<Condition>,
    grouped: Result<Grouped, Fault>,
) -> Result<Conditions, Fault>
    ensures { Makes (λ g. (filter, g.0, g.1)) grouped result }
{
    let (group, having) = grouped?;
    Ok((filter, group, having))
}

/// What a core takes its rows from, and what they must meet.
pub type TakenRows = (Sources, Conditions);

/// The sources and the conditions of a core.
pub fn taken_rows(
    sources: Sources,
    conditions: Result<Conditions, Fault>,
) -> Result<TakenRows, Fault>
    ensures { Makes (λ c. (sources, c)) conditions result }
{
    let conditions = conditions?;
    Ok((sources, conditions))
}

/// What stands behind SELECT in a core.
pub type CoreEnd = (Items<Item>, TakenRows);

/// The items of a core, and what they are taken from.
pub fn core_end(items: Items<Item>, taken: Result<TakenRows, Fault>) -> Result<CoreEnd, Fault>
    ensures { Makes (λ t. (items, t)) taken result }
{
    let taken = taken?;
    Ok((items, taken))
}

/// A core.
pub fn core(
    alloc: Global,
    head: CoreHead,
    end: Result<CoreEnd, Fault>,
) -> Result<Boxed<Rows>, Fault>
    ensures { Makes (form.core_of head) end result }
{
    let (items, (sources, conditions)) = end?;
    let (place, distinct) = head;
    let (first, joins) = sources;
    let (filter, group, having) = conditions;
    let node = Rows::Core {
        place,
        distinct,
        items,
        first,
        joins,
        filter,
        group,
        having,
    };
    Ok(Boxed::new(alloc, node)?)
}

/// Operands of set operations; one alone is itself.
pub fn sets(
    alloc: Global,
    first: Boxed<Rows>,
    others: Result<Items<SetOperand>, Fault>,
) -> Result<Boxed<Rows>, Fault>
    ensures { Makes (form.sets_of first) others result }
{
    let others = others?;
    if others.is_empty() {
        return Ok(first);
    }
    let node = Rows::Sets { first, others };
    Ok(Boxed::new(alloc, node)?)
}

/// An operand behind the word of its operation; `place` is where it begins.
pub fn set_operand(
    head: SetHead,
    place: usize,
    right: Result<Boxed<Rows>, Fault>,
) -> Result<SetOperand, Fault>
    ensures { Makes (λ r. form.operand_of head (place, r)) right result }
{
    let right = right?;
    let (kind, all) = head;
    Ok(SetOperand {
        kind,
        all,
        place,
        right,
    })
}

/// The select of these rows, whose order and cut may follow; `place` is where it begins.
pub fn select(
    alloc: Global,
    cursor: &mut Cursor<'_>,
    place: usize,
    rows: Result<Boxed<Rows>, Fault>,
    depth: u8,
) -> Result<Boxed<Select>, Fault>
    ensures goes_on { GoesOn (λ v r. and_then (read (readers depth) form.window r) (λ w s. Ok (form.select_of (place, v) w, s))) rows cursor.old result cursor.new }
    ensures shrinks { length cursor.new ≤ length cursor.old }
{
    let rows = rows?;
    let (order, limit, offset) = window(alloc, cursor, depth)?;
    let node = Select {
        place,
        rows,
        order,
        limit,
        offset,
    };
    Ok(Boxed::new(alloc, node)?)
}
