//! Scripts, from their tokens.
ghost use Rattle.std.specs.Prelude.{◌≡◌, ◌≤◌, ◌++◌, ℕ, [], ◌∷◌, length, OnOk, IfOk, IfErr, MatchResult};
ghost use Rattle.sql_grammar.specs.declared.tree.statement.Script.{Script as ScriptTree};
ghost use Rattle.sql_grammar.specs.Lexeme.{first};
ghost use Rattle.sql_grammar.specs.Lexemes.{lexemes};
ghost use Rattle.sql_grammar.specs.Reading.{read, begins};
ghost use Rattle.sql_grammar.specs.Combinators.{optional};
ghost use Rattle.sql_grammar.specs.Nesting.{readers};
ghost use Rattle.sql_grammar.specs.Whole as whole;
ghost use Rattle.flat_rules.specs.Gives.{Gives};
ghost use Rattle.sql_grammar.specs.Verdict.{IsScript, Refuses, SyntaxAt, TooDeepAt, IsRefusedWith, limit};
ghost use Rattle.sql_grammar.specs.Statements as form;

use crate::select::select;
use flat_rules::Cursor;
use flat_rules::clauses::at_select;
use flat_rules::statements::{at_copy, at_create, at_drop, copy, create, drop_table};
use sql_grammar::tree::{Script, Statement};
use sql_grammar::{Fault, ParseFault};
use sql_lex::{Sign, Token, Tokens, Word};
use sqlite_items::Items;
use std::alloc::{AllocError, Global};

/// Whether a statement comes next.
#[tactic(auto, unfolding(sql_grammar::specs::Statements::statement))]
fn at_statement(cursor: &Cursor<'_>) -> bool
    ensures { result ≡ begins form.statement (first cursor.now) }
{
    at_create(cursor)
        || at_drop(cursor)
        || at_copy(cursor)
        || cursor.at_word(Word::Explain)
        || at_select(cursor)
}

#[tactic(auto, unfolding(sql_grammar::specs::Statements::statement))]
fn statement(alloc: Global, cursor: &mut Cursor<'_>, depth: u8) -> Result<Statement, Fault>
    ensures gives { Gives (read (readers depth) form.statement cursor.old) result cursor.new }
    ensures shrinks { length cursor.new ≤ length cursor.old }
{
    if at_create(cursor) {
        create(alloc, cursor, depth)
    } else if at_drop(cursor) {
        drop_table(cursor, depth)
    } else if at_copy(cursor) {
        copy(alloc, cursor, depth)
    } else if cursor.at_word(Word::Explain) {
        cursor.shift();
        Ok(Statement::Explain(select(alloc, cursor, depth)?))
    } else {
        Ok(Statement::Select(select(alloc, cursor, depth)?))
    }
}

/// `[ statement ]`
fn optional_statement(
    alloc: Global,
    cursor: &mut Cursor<'_>,
    depth: u8,
) -> Result<Option<Statement>, Fault>
    ensures gives { Gives (read (readers depth) (optional form.statement) cursor.old) result cursor.new }
    ensures shrinks { length cursor.new ≤ length cursor.old }
{
    if !at_statement(cursor) {
        return Ok(None);
    }
    Ok(Some(statement(alloc, cursor, depth)?))
}

/// Keeps a statement that is there.
fn keep(statements: &mut Items<Statement>, found: Option<Statement>) -> Result<(), AllocError>
    ensures { OnOk result (statements.new ≡ statements.old ++ form.present (found ∷ [])) }
{
    match found {
        Some(statement) => statements.push(statement),
        None => Ok(()),
    }
}

fn script(alloc: Global, cursor: &mut Cursor<'_>, depth: u8) -> Result<Script, Fault>
    ensures gives { Gives (read (readers depth) form.script cursor.old) result cursor.new }
    ensures shrinks { length cursor.new ≤ length cursor.old }
{
    let first = optional_statement(alloc, cursor, depth)?;
    let mut statements = Items::new(alloc);
    keep(&mut statements, first)?;
    'turns: while cursor.at_sign(Sign::Semicolon) {
        cursor.shift();
        let next = optional_statement(alloc, cursor, depth)?;
        keep(&mut statements, next)?;
    }
    Ok(Script { statements })
}

#[tactic(auto, unfolding(sql_grammar::specs::Whole::whole))]
fn whole(alloc: Global, cursor: &mut Cursor<'_>, depth: u8) -> Result<Script, Fault>
    ensures gives { Gives (whole.whole depth cursor.old) result cursor.new }
    ensures shrinks { length cursor.new ≤ length cursor.old }
{
    let found = script(alloc, cursor, depth)?;
    if !cursor.is_at_end() {
        return Err(Fault::Syntax);
    }
    Ok(found)
}

/// How many levels may nest.
const LIMIT: u8 = 32;

/// The script that these tokens are.
fn parse_tokens(alloc: Global, script: &[u8], tokens: &[Token]) -> Result<Script, ParseFault>
    // What is accepted is a script.
    ensures is_script { IfOk result (λ found. IsScript limit found (lexemes script.now tokens.now)) }
    // A script is accepted, as itself, unless memory runs out. So it is the only one.
    ensures only { (s : ScriptTree) → IsScript limit s (lexemes script.now tokens.now) → MatchResult result (λ found. found ≡ s) (λ e. e ≡ ParseFault.OutOfMemory) }
    // Each fault is where the grammar has it.
    ensures refuses { IfErr result (λ e. Refuses (length script.now) (lexemes script.now tokens.now) e) }
    // And where the grammar has one, it is given, unless memory runs out.
    ensures syntax { (place : ℕ) → SyntaxAt (length script.now) (lexemes script.now tokens.now) place → IsRefusedWith (ParseFault.Syntax place) result }
    ensures too_deep { (place : ℕ) → TooDeepAt (lexemes script.now tokens.now) place → IsRefusedWith (ParseFault.TooDeep place) result }
{
    let mut cursor = Cursor::new(script, tokens);
    match whole(alloc, &mut cursor, LIMIT) {
        Ok(found) => Ok(found),
        Err(Fault::Syntax) => Err(ParseFault::Syntax {
            place: cursor.place(script.len()) as u64,
        }),
        Err(Fault::TooDeep) => Err(ParseFault::TooDeep {
            place: cursor.place(script.len()) as u64,
        }),
        Err(Fault::OutOfMemory) => Err(ParseFault::OutOfMemory),
    }
}

/// The script that the tokens are.
///
/// `Syntax` stands at the first token with which no script begins, or at the script's end where it ends too early.
/// `TooDeep` stands at the token that nests more than 32 levels deep, where no `Syntax` comes before it.
/// The levels are the parentheses of expressions, of functions' arguments and of subqueries, those behind IN too, NOT before a test,
/// and unary minus.
pub fn parse(alloc: Global, tokens: &Tokens<'_>) -> Result<Script, ParseFault>
    // What is accepted is a script.
    ensures is_script { IfOk result (λ found. IsScript limit found (lexemes tokens.now.script tokens.now.list)) }
    // A script is accepted, as itself, unless memory runs out. So it is the only one.
    ensures only { (s : ScriptTree) → IsScript limit s (lexemes tokens.now.script tokens.now.list) → MatchResult result (λ found. found ≡ s) (λ e. e ≡ ParseFault.OutOfMemory) }
    // Each fault is where the grammar has it.
    ensures refuses { IfErr result (λ e. Refuses (length tokens.now.script) (lexemes tokens.now.script tokens.now.list) e) }
    // And where the grammar has one, it is given, unless memory runs out.
    ensures syntax { (place : ℕ) → SyntaxAt (length tokens.now.script) (lexemes tokens.now.script tokens.now.list) place → IsRefusedWith (ParseFault.Syntax place) result }
    ensures too_deep { (place : ℕ) → TooDeepAt (lexemes tokens.now.script tokens.now.list) place → IsRefusedWith (ParseFault.TooDeep place) result }
{
    parse_tokens(alloc, tokens.script(), tokens.as_slice())
}
