//! The tokens of a script.
ghost use Rattle.std.specs.Prelude.{◌≡◌, Ok, Err, IfOk, MatchOption, ℕ};
ghost use Rattle.sql_lex.specs.Cover.{Covers};
ghost use Rattle.sql_lex.specs.Lexed.{lexed, tokens_from};

use crate::fault::LexFault;
use crate::gaps::is_blank;
use crate::rules::{Front, front_of};
use crate::token::{Token, Tokens};
use std::alloc::Global;
use std::str;

/// The place of the first ill-formed sequence, if a script is no UTF-8.
fn ill_formed(script: &[u8]) -> Option<usize>
    ensures { MatchOption result (lexed script.now ≡ tokens_from 0 0 script.now) (λ place. lexed script.now ≡ Err place) }
{
    match str::from_utf8(script) {
        Ok(_) => None,
        Err(fault) => Some(fault.valid_up_to()),
    }
}

/// The tokens of a script, in one pass over it.
///
/// The script is any bytes. Where they are no UTF-8, the place is that of the first ill-formed sequence,
/// wherever other bad tokens stand.
pub fn lex(alloc: Global, script: &[u8]) -> Result<Tokens<'_>, LexFault>
    ensures script { IfOk result (λ tokens. tokens.script ≡ script.now) }
    ensures tokens { IfOk result (λ tokens. lexed script.now ≡ Ok tokens.list) }
    ensures cover { IfOk result (λ tokens. Covers 0 script.now tokens.list) }
    ensures bad { (place : ℕ) → result ≡ Err (LexFault.BadToken place) → lexed script.now ≡ Err place }
{
    if let Some(place) = ill_formed(script) {
        return Err(LexFault::BadToken {
            place: place as u64,
        });
    }
    let mut list = Vec::new(alloc);
    let mut at = 0;
    while at < script.len() {
        // Half of what stands at the front of a script is a blank.
        if is_blank(script[at]) {
            at += 1;
            continue;
        }
        match front_of(&script[at..]) {
            Front::Gap(length) => at += length,
            Front::Lexeme(kind, length) => {
                let end = at + length;
                list.push(Token {
                    kind,
                    start: at,
                    end,
                })?;
                at = end;
            }
            Front::Bad => return Err(LexFault::BadToken { place: at as u64 }),
        }
    }
    Ok(Tokens::new(script, list))
}
