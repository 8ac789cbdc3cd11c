//! From a script's bytes to its statements.
ghost use Rattle.std.specs.Prelude.{◌≡◌, ◌≤◌, ◌+◌, IfErr, IfOk, length};
ghost use Rattle.sql_grammar.specs.Lexemes.{lexemes};
ghost use Rattle.script_opening.specs.Limits.{most_script};
ghost use Rattle.script_opening.specs.Reading.{IsOfTexts};
ghost use Rattle.script_opening.specs.Trees.{IsTokenTree, IsTreeAs, IsTreeOf};

use ooc_types::RefusalKind;
use run_settings::{Place, Refusal, Status};
use sql_lex::{LexFault, Tokens, lex};
use sql_parse::tree::Script;
use sql_parse::{ParseFault, parse};
use std::alloc::Global;

// A refusal of the script at a byte of it.
fn refuse_at(place: u64, kind: RefusalKind) -> Status
    ensures { result ≡ Status.Refused (record { statement = 0; place = Place.Byte place; kind = kind }) }
{
    Status::Refused(Refusal {
        statement: 0,
        place: Place::Byte(place),
        kind,
    })
}

// The script that the tokens are, or the first place where the grammar refuses them.
fn parse_tokens(alloc: Global, tokens: &Tokens<'_>) -> Result<Script, Status>
    ensures parsed { IsTreeAs (IsTokenTree (length tokens.now.script) (lexemes tokens.now.script tokens.now.list)) result }
    ensures kinds { IfErr result IsOfTexts }
{
    match parse(alloc, tokens) {
        Ok(script) => Ok(script),
        Err(ParseFault::Syntax { place }) => Err(refuse_at(place, RefusalKind::Syntax)),
        Err(ParseFault::TooDeep { place }) => Err(refuse_at(place, RefusalKind::TooDeep)),
        Err(ParseFault::OutOfMemory) => Err(Status::OutOfMemory),
    }
}

/// The statements that the bytes of a script are; or its first bad token, wherever that stands; or the first place where the
/// grammar refuses its tokens.
pub(crate) fn parse_script(alloc: Global, bytes: &[u8]) -> Result<Script, Status>
    requires { length bytes.now ≤ most_script }
    ensures parsed { IsTreeAs (IsTreeOf bytes.now) result }
    ensures kinds { IfErr result IsOfTexts }
    ensures few { IfOk result (λ script. length script.statements ≤ length bytes.now + 1) }
{
    match lex(alloc, bytes) {
        Ok(tokens) => parse_tokens(alloc, &tokens),
        Err(LexFault::BadToken { place }) => Err(refuse_at(place, RefusalKind::BadToken)),
        Err(LexFault::OutOfMemory) => Err(Status::OutOfMemory),
    }
}
