//! Statements without expressions, a function for each rule of the grammar. `depth` is how many levels may still nest.
ghost use Rattle.std.specs.Prelude.{◌≡◌, ◌≤◌, length};
ghost use Rattle.sql_grammar.specs.Reading.{read, begins};
ghost use Rattle.sql_grammar.specs.Lexeme.{first};
ghost use Rattle.sql_grammar.specs.Combinators.{list};
ghost use Rattle.sql_grammar.specs.Nesting.{readers};
ghost use Rattle.flat_rules.specs.Gives.{Gives};
ghost use Rattle.sql_grammar.specs.Statements as form;

use crate::cursor::{Cursor, DELIMITER, HEADER};
use sql_grammar::Fault;
use sql_grammar::tree::{Column, CopyOption, Sizes, Statement, TypeName};
use sql_lex::{Sign, Word};
use sqlite_items::Items;
use std::alloc::Global;

/// `"(" int [ "," int ] ")"`
#[tactic(auto, unfolding(sql_grammar::specs::Statements::sizes))]
fn sizes(cursor: &mut Cursor<'_>, depth: u8) -> Result<Sizes, Fault>
    ensures gives { Gives (read (readers depth) form.sizes cursor.old) result cursor.new }
    ensures shrinks { length cursor.new ≤ length cursor.old }
{
    cursor.opening()?;
    let first = cursor.integer()?;
    let mut second = None;
    if cursor.at_sign(Sign::Comma) {
        cursor.shift();
        second = Some(cursor.integer()?);
    }
    cursor.sign(Sign::RightParenthesis)?;
    Ok(Sizes { first, second })
}

#[tactic(auto, unfolding(sql_grammar::specs::Statements::type_name, sql_grammar::specs::Statements::sizes))]
fn type_name(cursor: &mut Cursor<'_>, depth: u8) -> Result<TypeName, Fault>
    ensures gives { Gives (read (readers depth) form.type_name cursor.old) result cursor.new }
    ensures shrinks { length cursor.new ≤ length cursor.old }
{
    let name = cursor.name()?;
    if !cursor.at_opening() {
        return Ok(TypeName { name, sizes: None });
    }
    let sizes = sizes(cursor, depth)?;
    Ok(TypeName {
        name,
        sizes: Some(sizes),
    })
}

/// `[ NOT NULL ]`
#[tactic(auto, unfolding(sql_grammar::specs::Statements::not_null))]
fn not_null(cursor: &mut Cursor<'_>, depth: u8) -> Result<bool, Fault>
    ensures gives { Gives (read (readers depth) form.not_null cursor.old) result cursor.new }
    ensures shrinks { length cursor.new ≤ length cursor.old }
{
    if !cursor.at_word(Word::Not) {
        return Ok(false);
    }
    cursor.shift();
    cursor.word(Word::Null)?;
    Ok(true)
}

#[tactic(auto, unfolding(sql_grammar::specs::Statements::column))]
fn column(cursor: &mut Cursor<'_>, depth: u8) -> Result<Column, Fault>
    ensures gives { Gives (read (readers depth) form.column cursor.old) result cursor.new }
    ensures shrinks { length cursor.new ≤ length cursor.old }
{
    let name = cursor.name()?;
    let kind = type_name(cursor, depth)?;
    let not_null = not_null(cursor, depth)?;
    Ok(Column {
        name,
        kind,
        not_null,
    })
}

/// `column { "," column }`
fn columns(alloc: Global, cursor: &mut Cursor<'_>, depth: u8) -> Result<Items<Column>, Fault>
    ensures gives { Gives (read (readers depth) (list form.column) cursor.old) result cursor.new }
    ensures shrinks { length cursor.new ≤ length cursor.old }
{
    let first = column(cursor, depth)?;
    let mut found = Items::new(alloc);
    found.push(first)?;
    'turns: while cursor.at_sign(Sign::Comma) {
        cursor.shift();
        let next = column(cursor, depth)?;
        found.push(next)?;
    }
    Ok(found)
}

/// CREATE TABLE.
#[tactic(auto, unfolding(sql_grammar::specs::Statements::create))]
pub fn create(alloc: Global, cursor: &mut Cursor<'_>, depth: u8) -> Result<Statement, Fault>
    ensures gives { Gives (read (readers depth) form.create cursor.old) result cursor.new }
    ensures shrinks { length cursor.new ≤ length cursor.old }
{
    cursor.word(Word::Create)?;
    cursor.word(Word::Table)?;
    let name = cursor.name()?;
    cursor.opening()?;
    let columns = columns(alloc, cursor, depth)?;
    cursor.sign(Sign::RightParenthesis)?;
    Ok(Statement::CreateTable { name, columns })
}

/// DROP TABLE.
#[tactic(auto, unfolding(sql_grammar::specs::Statements::drop))]
pub fn drop_table(cursor: &mut Cursor<'_>, depth: u8) -> Result<Statement, Fault>
    ensures gives { Gives (read (readers depth) form.drop cursor.old) result cursor.new }
    ensures shrinks { length cursor.new ≤ length cursor.old }
{
    cursor.word(Word::Drop)?;
    cursor.word(Word::Table)?;
    let name = cursor.name()?;
    Ok(Statement::DropTable { name })
}

/// TRUE or FALSE.
#[tactic(auto, unfolding(sql_grammar::specs::Statements::truth))]
fn truth(cursor: &mut Cursor<'_>, depth: u8) -> Result<bool, Fault>
    ensures gives { Gives (read (readers depth) form.truth cursor.old) result cursor.new }
    ensures shrinks { length cursor.new ≤ length cursor.old }
{
    if cursor.at_word(Word::True) {
        cursor.shift();
        return Ok(true);
    }
    cursor.word(Word::False)?;
    Ok(false)
}

#[tactic(auto, unfolding(sql_grammar::specs::Statements::option))]
fn option(cursor: &mut Cursor<'_>, depth: u8) -> Result<CopyOption, Fault>
    ensures gives { Gives (read (readers depth) form.option cursor.old) result cursor.new }
    ensures shrinks { length cursor.new ≤ length cursor.old }
{
    if cursor.sees(HEADER) {
        let place = cursor.take().start;
        let value = truth(cursor, depth)?;
        return Ok(CopyOption::Header { place, value });
    }
    if cursor.sees(DELIMITER) {
        let place = cursor.take().start;
        let text = cursor.text()?;
        return Ok(CopyOption::Delimiter { place, text });
    }
    let place = cursor.word(Word::Null)?;
    let text = cursor.text()?;
    Ok(CopyOption::Null { place, text })
}

/// `option { "," option }`
fn option_list(
    alloc: Global,
    cursor: &mut Cursor<'_>,
    depth: u8,
) -> Result<Items<CopyOption>, Fault>
    ensures gives { Gives (read (readers depth) (list form.option) cursor.old) result cursor.new }
    ensures shrinks { length cursor.new ≤ length cursor.old }
{
    let first = option(cursor, depth)?;
    let mut found = Items::new(alloc);
    found.push(first)?;
    'turns: while cursor.at_sign(Sign::Comma) {
        cursor.shift();
        let next = option(cursor, depth)?;
        found.push(next)?;
    }
    Ok(found)
}

#[tactic(auto, unfolding(sql_grammar::specs::Statements::options))]
fn options(alloc: Global, cursor: &mut Cursor<'_>, depth: u8) -> Result<Items<CopyOption>, Fault>
    ensures gives { Gives (read (readers depth) form.options cursor.old) result cursor.new }
    ensures shrinks { length cursor.new ≤ length cursor.old }
{
    if !cursor.at_opening() {
        return Ok(Items::new(alloc));
    }
    cursor.shift();
    let found = option_list(alloc, cursor, depth)?;
    cursor.sign(Sign::RightParenthesis)?;
    Ok(found)
}

/// COPY.
#[tactic(auto, unfolding(sql_grammar::specs::Statements::copy))]
pub fn copy(alloc: Global, cursor: &mut Cursor<'_>, depth: u8) -> Result<Statement, Fault>
    ensures gives { Gives (read (readers depth) form.copy cursor.old) result cursor.new }
    ensures shrinks { length cursor.new ≤ length cursor.old }
{
    cursor.word(Word::Copy)?;
    let name = cursor.name()?;
    cursor.word(Word::From)?;
    let file = cursor.text()?;
    let options = options(alloc, cursor, depth)?;
    Ok(Statement::Copy {
        name,
        file,
        options,
    })
}

/// Whether CREATE TABLE comes next.
#[tactic(auto, unfolding(sql_grammar::specs::Statements::create))]
pub fn at_create(cursor: &Cursor<'_>) -> bool
    ensures { result ≡ begins form.create (first cursor.now) }
{
    cursor.at_word(Word::Create)
}

/// Whether DROP TABLE comes next.
#[tactic(auto, unfolding(sql_grammar::specs::Statements::drop))]
pub fn at_drop(cursor: &Cursor<'_>) -> bool
    ensures { result ≡ begins form.drop (first cursor.now) }
{
    cursor.at_word(Word::Drop)
}

/// Whether COPY comes next.
#[tactic(auto, unfolding(sql_grammar::specs::Statements::copy))]
pub fn at_copy(cursor: &Cursor<'_>) -> bool
    ensures { result ≡ begins form.copy (first cursor.now) }
{
    cursor.at_word(Word::Copy)
}
