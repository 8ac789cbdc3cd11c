//! Texts between quotes, in which a doubled quote stands for one.
ghost use Rattle.std.specs.Prelude.{◌≡◌, ℕ, List, Some, ◌<◌, ◌≤◌, ◌+◌, ◌∷◌, ◌++◌, length, drop, slice_index, IfSome};
ghost use Rattle.sql_lex.specs.Fronts.{is_quoted_name};
ghost use Rattle.sql_lex.specs.Quotes as quotes;

use crate::names::NAME_LIMIT;

/// The number of bytes up to and with the quote that ends a text, in what stands behind the quote that begins it.
pub fn to_closing(quote: u8, inside: &[u8]) -> Option<usize>
    ensures closing { result ≡ quotes.to_closing quote inside.now }
    ensures within { IfSome result (λ n. n ≤ length inside.now) }
{
    let mut at = 0;
    while at < inside.len() {
        if inside[at] != quote {
            at += 1;
        } else if at + 1 < inside.len() && inside[at + 1] == quote {
            at += 2;
        } else {
            return Some(at + 1);
        }
    }
    None
}

/// The number of bytes that the byte at a place between quotes is written with: two for a doubled quote.
pub fn written_length(quote: u8, inside: &[u8], at: usize) -> usize
    requires { at < length inside.now }
    ensures some { 0 < result }
    ensures within { at + result ≤ length inside.now }
    ensures byte { quotes.undoubled quote (drop at inside.now) ≡ slice_index inside.now at ∷ quotes.undoubled quote (drop (at + result) inside.now) }
{
    if inside[at] == quote && at + 1 < inside.len() {
        2
    } else {
        1
    }
}

/// Whether what stands between double quotes is a name: 1 to 63 bytes, with a doubled quote as one, and none below 32.
pub fn is_quoted_name(inside: &[u8]) -> bool
    ensures { result ≡ is_quoted_name (quotes.undoubled 34 inside.now) }
{
    let mut count: usize = 0;
    let mut at = 0;
    while at < inside.len() {
        let written = written_length(b'"', inside, at);
        if inside[at] < b' ' {
            return false;
        }
        count += 1;
        at += written;
    }
    0 < count && count <= NAME_LIMIT
}

/// The law of quotes. A text with its quotes doubled, and then a quote behind which no quote stands, ends there;
/// a text ends nowhere else; and what it stands for is what was doubled.
pub fn quoted_texts()
    ensures ends { (quote : ℕ) (content rest : List ℕ) → quotes.BeginsOther quote rest → quotes.to_closing quote (quotes.doubled quote content ++ quote ∷ rest) ≡ Some (length (quotes.doubled quote content) + 1) }
    ensures nowhere_else { (quote n : ℕ) (text : List ℕ) → quotes.to_closing quote text ≡ Some n → quotes.IsClosedAt quote text n }
    ensures content { (quote : ℕ) (content : List ℕ) → quotes.undoubled quote (quotes.doubled quote content) ≡ content }
{}
