//! Parts of a select in which nothing nests, a function for each rule of the grammar. `depth` is how many levels may still nest.
ghost use Rattle.std.specs.Prelude.{◌≡◌, ◌≤◌, ◌<◌, length, IsOk};
ghost use Rattle.sql_grammar.specs.Lexeme.{first};
ghost use Rattle.sql_grammar.specs.Reading.{read, begins};
ghost use Rattle.sql_grammar.specs.Combinators.{list};
ghost use Rattle.sql_grammar.specs.Nesting.{readers};
ghost use Rattle.flat_rules.specs.Gives.{Gives};
ghost use Rattle.sql_grammar.specs.Selects as form;

use crate::cursor::{Cursor, INTEGER};
use crate::leaves::column_name;
use sql_grammar::Fault;
use sql_grammar::tree::{Key, KeyColumn, SetKind, Span};
use sql_lex::{Sign, Word};
use sqlite_items::Items;
use std::alloc::Global;

/// `[ [ AS ] name ]`
#[tactic(auto, unfolding(sql_grammar::specs::Selects::alias))]
pub fn alias(cursor: &mut Cursor<'_>, depth: u8) -> Result<Option<Span>, Fault>
    ensures gives { Gives (read (readers depth) form.alias cursor.old) result cursor.new }
    ensures shrinks { length cursor.new ≤ length cursor.old }
{
    if !cursor.at_word(Word::As) && !cursor.at_name() {
        return Ok(None);
    }
    cursor.skip_word(Word::As);
    Ok(Some(cursor.name()?))
}

/// Whether it is descending.
#[tactic(auto, unfolding(sql_grammar::specs::Selects::direction))]
fn direction(cursor: &mut Cursor<'_>, depth: u8) -> bool
    ensures gives { read (readers depth) form.direction cursor.old ≡ Ok (result, cursor.new) }
    ensures shrinks { length cursor.new ≤ length cursor.old }
{
    if cursor.at_word(Word::Desc) {
        cursor.shift();
        return true;
    }
    if cursor.at_word(Word::Asc) {
        cursor.shift();
    }
    false
}

#[tactic(auto, unfolding(sql_grammar::specs::Selects::key_column))]
fn key_column(cursor: &mut Cursor<'_>, depth: u8) -> Result<KeyColumn, Fault>
    ensures gives { Gives (read (readers depth) form.key_column cursor.old) result cursor.new }
    ensures shrinks { length cursor.new ≤ length cursor.old }
{
    if cursor.sees(INTEGER) {
        return Ok(KeyColumn::Position(cursor.take()));
    }
    Ok(KeyColumn::Name(column_name(cursor, depth)?))
}

#[tactic(auto, unfolding(sql_grammar::specs::Selects::key))]
fn key(cursor: &mut Cursor<'_>, depth: u8) -> Result<Key, Fault>
    ensures gives { Gives (read (readers depth) form.key cursor.old) result cursor.new }
    ensures shrinks { length cursor.new ≤ length cursor.old }
{
    let column = key_column(cursor, depth)?;
    let descending = direction(cursor, depth);
    Ok(Key { column, descending })
}

/// `key { "," key }`
fn keys(alloc: Global, cursor: &mut Cursor<'_>, depth: u8) -> Result<Items<Key>, Fault>
    ensures gives { Gives (read (readers depth) (list form.key) cursor.old) result cursor.new }
    ensures shrinks { length cursor.new ≤ length cursor.old }
{
    let first = key(cursor, depth)?;
    let mut found = Items::new(alloc);
    found.push(first)?;
    'turns: while cursor.at_sign(Sign::Comma) {
        cursor.shift();
        let next = key(cursor, depth)?;
        found.push(next)?;
    }
    Ok(found)
}

#[tactic(auto, unfolding(sql_grammar::specs::Selects::ordering))]
fn ordering(alloc: Global, cursor: &mut Cursor<'_>, depth: u8) -> Result<Items<Key>, Fault>
    ensures gives { Gives (read (readers depth) form.ordering cursor.old) result cursor.new }
    ensures shrinks { length cursor.new ≤ length cursor.old }
{
    if !cursor.at_word(Word::Order) {
        return Ok(Items::new(alloc));
    }
    cursor.shift();
    cursor.word(Word::By)?;
    keys(alloc, cursor, depth)
}

#[tactic(auto, unfolding(sql_grammar::specs::Selects::limit))]
fn limit(cursor: &mut Cursor<'_>, depth: u8) -> Result<Option<Span>, Fault>
    ensures gives { Gives (read (readers depth) form.limit cursor.old) result cursor.new }
    ensures shrinks { length cursor.new ≤ length cursor.old }
{
    if !cursor.at_word(Word::Limit) {
        return Ok(None);
    }
    cursor.shift();
    Ok(Some(cursor.integer()?))
}

#[tactic(auto, unfolding(sql_grammar::specs::Selects::offset))]
fn offset(cursor: &mut Cursor<'_>, depth: u8) -> Result<Option<Span>, Fault>
    ensures gives { Gives (read (readers depth) form.offset cursor.old) result cursor.new }
    ensures shrinks { length cursor.new ≤ length cursor.old }
{
    if !cursor.at_word(Word::Offset) {
        return Ok(None);
    }
    cursor.shift();
    Ok(Some(cursor.integer()?))
}

/// Whether a subquery comes next.
#[tactic(auto, unfolding(sql_grammar::specs::Selects::subquery_source))]
pub fn at_subquery(cursor: &Cursor<'_>) -> bool
    ensures { result ≡ begins form.subquery_source (first cursor.now) }
{
    cursor.at_opening()
}

/// Whether a select comes next.
#[tactic(auto, unfolding(sql_grammar::specs::Selects::select, sql_grammar::specs::Selects::rows, sql_grammar::specs::Selects::operand, sql_grammar::specs::Selects::core))]
pub fn at_select(cursor: &Cursor<'_>) -> bool
    ensures { result ≡ begins form.select (first cursor.now) }
{
    cursor.at_word(Word::Select)
}

/// Whether CROSS JOIN comes next.
#[tactic(auto, unfolding(sql_grammar::specs::Selects::join_cross))]
pub fn at_cross(cursor: &Cursor<'_>) -> bool
    ensures { result ≡ begins form.join_cross (first cursor.now) }
{
    cursor.at_word(Word::Cross)
}

/// Whether a join comes next.
#[tactic(auto, unfolding(sql_grammar::specs::Selects::join, sql_grammar::specs::Selects::join_cross, sql_grammar::specs::Selects::join_on, sql_grammar::specs::Selects::join_word))]
pub fn at_join(cursor: &Cursor<'_>) -> bool
    ensures { result ≡ begins form.join (first cursor.now) }
{
    cursor.at_word(Word::Cross)
        || cursor.at_word(Word::Left)
        || cursor.at_word(Word::Inner)
        || cursor.at_word(Word::Join)
}

/// `CROSS JOIN`
pub fn cross_word(cursor: &mut Cursor<'_>, depth: u8) -> Result<usize, Fault>
    ensures gives { Gives (read (readers depth) form.cross_word cursor.old) result cursor.new }
    ensures shrinks { length cursor.new ≤ length cursor.old }
    ensures falls { IsOk result → length cursor.new < length cursor.old }
{
    cursor.word(Word::Cross)?;
    cursor.word(Word::Join)
}

/// `[ INNER ] JOIN` or `LEFT [ OUTER ] JOIN`: whether the join is outer.
#[tactic(auto, unfolding(sql_grammar::specs::Selects::join_word))]
pub fn join_word(cursor: &mut Cursor<'_>, depth: u8) -> Result<bool, Fault>
    ensures gives { Gives (read (readers depth) form.join_word cursor.old) result cursor.new }
    ensures shrinks { length cursor.new ≤ length cursor.old }
    ensures falls { IsOk result → length cursor.new < length cursor.old }
{
    let outer = cursor.at_word(Word::Left);
    if outer {
        cursor.shift();
        cursor.skip_word(Word::Outer);
    } else {
        cursor.skip_word(Word::Inner);
    }
    cursor.word(Word::Join)?;
    Ok(outer)
}

/// `")" [ AS ] name`
pub(crate) fn query_end(cursor: &mut Cursor<'_>, depth: u8) -> Result<Span, Fault>
    ensures gives { Gives (read (readers depth) form.query_end cursor.old) result cursor.new }
    ensures shrinks { length cursor.new ≤ length cursor.old }
{
    cursor.sign(Sign::RightParenthesis)?;
    cursor.skip_word(Word::As);
    cursor.name()
}

/// The keys of ORDER BY, and what LIMIT and OFFSET say.
pub(crate) type Window = (Items<Key>, Option<Span>, Option<Span>);

/// `[ ORDER BY key { "," key } ] [ LIMIT int ] [ OFFSET int ]`
pub(crate) fn window(alloc: Global, cursor: &mut Cursor<'_>, depth: u8) -> Result<Window, Fault>
    ensures gives { Gives (read (readers depth) form.window cursor.old) result cursor.new }
    ensures shrinks { length cursor.new ≤ length cursor.old }
{
    let order = ordering(alloc, cursor, depth)?;
    let limit = limit(cursor, depth)?;
    let offset = offset(cursor, depth)?;
    Ok((order, limit, offset))
}

/// The place of SELECT, and whether DISTINCT is there.
pub type CoreHead = (usize, bool);

/// `SELECT [ DISTINCT ]`
pub fn core_head(cursor: &mut Cursor<'_>, depth: u8) -> Result<CoreHead, Fault>
    ensures gives { Gives (read (readers depth) form.core_head cursor.old) result cursor.new }
    ensures shrinks { length cursor.new ≤ length cursor.old }
{
    let place = cursor.word(Word::Select)?;
    let distinct = cursor.skip_word(Word::Distinct);
    Ok((place, distinct))
}

/// The word of a set operation, and whether ALL is there.
pub type SetHead = (SetKind, bool);

/// Whether INTERSECT comes next.
#[tactic(auto, unfolding(sql_grammar::specs::Selects::intersect))]
pub fn at_intersect(cursor: &Cursor<'_>) -> bool
    ensures { result ≡ begins form.intersect (first cursor.now) }
{
    cursor.at_word(Word::Intersect)
}

/// `INTERSECT [ ALL ]`
pub fn intersect_head(cursor: &mut Cursor<'_>, depth: u8) -> Result<SetHead, Fault>
    ensures gives { Gives (read (readers depth) form.intersect_head cursor.old) result cursor.new }
    ensures shrinks { length cursor.new ≤ length cursor.old }
    ensures falls { IsOk result → length cursor.new < length cursor.old }
{
    cursor.word(Word::Intersect)?;
    let all = cursor.skip_word(Word::All);
    Ok((SetKind::Intersect, all))
}

/// Whether UNION or EXCEPT comes next.
#[tactic(auto, unfolding(sql_grammar::specs::Selects::set_operand))]
pub fn at_set_operand(cursor: &Cursor<'_>) -> bool
    ensures { result ≡ begins form.set_operand (first cursor.now) }
{
    cursor.at_word(Word::Union) || cursor.at_word(Word::Except)
}

/// `( UNION | EXCEPT ) [ ALL ]`
pub fn set_head(cursor: &mut Cursor<'_>, depth: u8) -> Result<SetHead, Fault>
    ensures gives { Gives (read (readers depth) form.set_head cursor.old) result cursor.new }
    ensures shrinks { length cursor.new ≤ length cursor.old }
    ensures falls { IsOk result → length cursor.new < length cursor.old }
{
    let mut kind = SetKind::Union;
    if cursor.at_word(Word::Union) {
        cursor.shift();
    } else {
        cursor.word(Word::Except)?;
        kind = SetKind::Except;
    }
    let all = cursor.skip_word(Word::All);
    Ok((kind, all))
}
