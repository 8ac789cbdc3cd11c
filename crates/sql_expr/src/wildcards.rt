//! LIKE. A text and a pattern are taken apart character by character.
ghost use Rattle.std.specs.Prelude.{◌≡◌, ◌≤◌, ◌<◌, ◌∷◌, length, MatchOption, None, Some, false};
ghost use Rattle.std.specs.Str.{is_utf8};
ghost use Rattle.sql_expr.specs.Characters.{char_length, characters};
ghost use Rattle.sql_expr.specs.Characters as spec;
ghost use Rattle.sql_expr.specs.Like.{is_like};
ghost use Rattle.sql_expr.specs.Segments.{left_over, like_behind, IsStep};

use std::str::from_utf8;

fn is_text(bytes: &[u8]) -> bool
    ensures { result ≡ is_utf8 bytes.now }
{
    match from_utf8(bytes) {
        Ok(_) => true,
        Err(_) => false,
    }
}

// Whether the first `count` bytes are there, and are UTF-8.
fn has_front(bytes: &[u8], count: usize) -> bool
    ensures { result ≡ spec.has_front count bytes.now }
{
    count <= bytes.len() && is_text(&bytes[..count])
}

// How long the character is at the front.
#[tactic(auto, unfolding(crate::specs::Characters::char_length))]
fn char_len(bytes: &[u8]) -> usize
    requires { 1 ≤ length bytes.now }
    ensures value { result ≡ char_length bytes.now }
    ensures some { 1 ≤ result }
    ensures within { result ≤ length bytes.now }
{
    if has_front(bytes, 1) {
        1
    } else if has_front(bytes, 2) {
        2
    } else if has_front(bytes, 3) {
        3
    } else if has_front(bytes, 4) {
        4
    } else {
        1
    }
}

// The character at the front, and what stands behind it.
fn split_char(bytes: &[u8]) -> (&[u8], &[u8])
    requires { 1 ≤ length bytes.now }
    ensures parts { characters bytes.now ≡ result.0.now ∷ characters result.1.now }
    ensures shorter { length result.1.now < length bytes.now }
{
    let end = char_len(bytes);
    (&bytes[..end], &bytes[end..])
}

// What is left of the text and of the pattern behind the pattern's characters before its first `%`, or none where
// the text doesn't begin with what they stand for.
fn match_front<'a>(text: &'a [u8], pattern: &'a [u8]) -> Option<(&'a [u8], &'a [u8])>
    ensures { MatchOption result
        (left_over (characters pattern.now) (characters text.now) ≡ None)
        (λ left. (left_over (characters pattern.now) (characters text.now) ≡ Some (characters left.0.now, characters left.1.now))
        × (length left.0.now ≤ length text.now) × (length left.1.now ≤ length pattern.now)) }
{
    let mut rest = text;
    let mut signs = pattern;
    while !signs.is_empty() {
        let (sign, next_signs) = split_char(signs);
        if sign == b"%".as_slice() {
            return Some((rest, signs));
        }
        if rest.is_empty() {
            return None;
        }
        let (character, next_rest) = split_char(rest);
        if sign != b"_".as_slice() && sign != character {
            return None;
        }
        rest = next_rest;
        signs = next_signs;
    }
    Some((rest, signs))
}

// Where a search for a pattern behind a `%` stands.
enum Search<'a> {
    Decided(bool),
    Further { text: &'a [u8], pattern: &'a [u8] },
}

// The next place of the text, where the pattern doesn't fit at this one.
fn next_place<'a>(text: &'a [u8], pattern: &'a [u8]) -> Search<'a>
    requires { is_like (characters pattern.now) (characters text.now) ≡ false }
    ensures { IsStep pattern.now text.now result }
{
    if text.is_empty() {
        return Search::Decided(false);
    }
    let (_skipped, next) = split_char(text);
    Search::Further {
        text: next,
        pattern,
    }
}

// Of the places where the pattern up to its next `%` fits, the first serves: what fits behind a later one fits
// behind it too.
fn step<'a>(text: &'a [u8], pattern: &'a [u8]) -> Search<'a>
    ensures { IsStep pattern.now text.now result }
{
    if pattern.is_empty() {
        return Search::Decided(true);
    }
    match match_front(text, pattern) {
        Some((rest, behind)) => {
            if !behind.is_empty() {
                let (_percent, next) = split_char(behind);
                return Search::Further {
                    text: rest,
                    pattern: next,
                };
            }
            if rest.is_empty() {
                return Search::Decided(true);
            }
            next_place(text, pattern)
        }
        None => next_place(text, pattern),
    }
}

// Whether the text is like `%` and the pattern.
fn like_behind_percent(text: &[u8], pattern: &[u8]) -> bool
    ensures { result ≡ like_behind pattern.now text.now }
{
    let mut rest = text;
    let mut signs = pattern;
    'search: loop {
        match step(rest, signs) {
            Search::Decided(found) => return found,
            Search::Further { text, pattern } => {
                rest = text;
                signs = pattern;
            }
        }
    }
}

/// Whether a text is like a pattern: `%` stands for any characters, `_` for one, and all else for itself. A
/// character is a Unicode scalar, or one byte where none begins. It takes the product of the two lengths at worst,
/// and no memory.
pub fn like(text: &[u8], pattern: &[u8]) -> bool
    ensures { result ≡ is_like (characters pattern.now) (characters text.now) }
{
    match match_front(text, pattern) {
        Some((rest, behind)) => {
            if behind.is_empty() {
                return rest.is_empty();
            }
            let (_percent, next) = split_char(behind);
            like_behind_percent(rest, next)
        }
        None => false,
    }
}
