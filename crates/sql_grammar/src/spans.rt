//! Parts of a script.
ghost use Rattle.std.specs.Prelude.{◌≡◌};
ghost use Rattle.sql_grammar.specs.Spans as spans;

use crate::tree::Span;

/// The bytes of a span of the script, or none where the span isn't in it.
pub fn text_at(script: &[u8], span: Span) -> &[u8]
    ensures { result.now ≡ spans.text_at script.now span }
{
    if span.start <= span.end && span.end <= script.len() {
        &script[span.start..span.end]
    } else {
        &[]
    }
}
