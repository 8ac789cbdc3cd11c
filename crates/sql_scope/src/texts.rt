//! Names in a script, and what they stand for.
ghost use Rattle.std.specs.Prelude.{◌≡◌, IfOk};
ghost use Rattle.sql_scope.specs.Texts as texts;

use ooc_types::OutOfMemory;
use sql_grammar::text_at;
use sql_grammar::tree::Span;
use sql_lex::unquoted;
use std::alloc::Global;

fn is_quoted(text: &[u8]) -> bool
    ensures { result ≡ texts.is_quoted text.now }
{
    match text {
        [first, ..] => *first == b'"',
        [] => false,
    }
}

fn plain_name(alloc: Global, text: &[u8]) -> Result<Vec<u8>, OutOfMemory>
    ensures { IfOk result (λ bytes. bytes.items ≡ texts.plain_name text.now) }
{
    if is_quoted(text) {
        return Ok(unquoted(alloc, text)?);
    }
    Ok(Vec::from_slice(alloc, text)?)
}

/// A name as it is written, without its quotes.
pub fn name_at(alloc: Global, script: &[u8], span: Span) -> Result<Vec<u8>, OutOfMemory>
    ensures { IfOk result (λ bytes. bytes.items ≡ texts.plain_name (texts.text_at script.now span)) }
{
    plain_name(alloc, text_at(script, span))
}

/// A name in small letters.
pub fn small_letters(alloc: Global, name: &[u8]) -> Result<Vec<u8>, OutOfMemory>
    ensures { IfOk result (λ bytes. bytes.items ≡ texts.folded name.now) }
{
    let mut name = Vec::from_slice(alloc, name)?;
    name.as_mut_slice().make_ascii_lowercase();
    Ok(name)
}

/// A name in small letters, without its quotes.
pub fn folded_at(alloc: Global, script: &[u8], span: Span) -> Result<Vec<u8>, OutOfMemory>
    ensures { IfOk result (λ bytes. bytes.items ≡ texts.folded_at script.now span) }
{
    let mut name = plain_name(alloc, text_at(script, span))?;
    name.as_mut_slice().make_ascii_lowercase();
    Ok(name)
}
