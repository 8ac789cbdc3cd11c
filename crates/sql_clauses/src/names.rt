//! Names and texts of the script.
ghost use Rattle.std.specs.Prelude.{◌≡◌, IfOk};
ghost use Rattle.sql_scope.specs.Texts as texts;
ghost use Rattle.sql_clauses.specs.Names as rules;

use ooc_types::{OutOfMemory, Text};
use sql_grammar::text_at;
use sql_grammar::tree::Span;
use sql_lex::unquoted;
use sql_scope::{Scope, folded_at, name_at};
use std::alloc::Global;

/// A name in small letters, without its quotes.
pub(crate) fn small_name(alloc: Global, scope: &Scope<'_>, span: Span) -> Result<Text, OutOfMemory>
    ensures { IfOk result (λ name. name ≡ texts.folded_at scope.now.script span) }
{
    let name = folded_at(alloc, scope.script(), span)?;
    Ok(Text::from_vec(name))
}

/// A name as it is written, without its quotes.
pub(crate) fn written_name(
    alloc: Global,
    scope: &Scope<'_>,
    span: Span,
) -> Result<Text, OutOfMemory>
    ensures { IfOk result (λ name. name ≡ rules.name_of scope.now span) }
{
    let name = name_at(alloc, scope.script(), span)?;
    Ok(Text::from_vec(name))
}

/// What a text literal stands for.
pub(crate) fn literal_text(
    alloc: Global,
    scope: &Scope<'_>,
    span: Span,
) -> Result<Text, OutOfMemory>
    ensures { IfOk result (λ text. text ≡ rules.text_of scope.now span) }
{
    let text = unquoted(alloc, text_at(scope.script(), span))?;
    Ok(Text::from_vec(text))
}
