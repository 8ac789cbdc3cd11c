//! What stands at the front of a text.
ghost use Rattle.std.specs.Prelude.{◌≡◌, ◌<◌, ◌≤◌, length};
ghost use Rattle.sql_lex.specs.Fronts as fronts;
ghost use Rattle.sql_lex.specs.Gaps.{block_comment_length};

use crate::gaps::{before_close, is_blank, line_comment_length};
use crate::names::{NAME_LIMIT, is_name_start, name_length};
use crate::numbers::{
    WIDTH_LIMIT, begins_with_number, begins_with_point, decimal_width, digits_length, integer_of,
};
use crate::quotes::{is_quoted_name, to_closing};
use crate::signs::{byte_sign, pair_sign};
use crate::token::{Sign, TokenKind};
use crate::words::word_of;

/// What stands at the front of a text, with its length in bytes.
#[derive(Clone, Copy, Debug, PartialEq, Eq)]
pub enum Front {
    /// A blank or a comment.
    Gap(usize),
    /// A token of this kind.
    Lexeme(TokenKind, usize),
    /// Neither.
    Bad,
}

/// A name or a reserved word.
#[tactic(auto, unfolding(crate::specs::Fronts::name_front))]
fn name_front(text: &[u8]) -> Front
    ensures { result ≡ fronts.name_front text.now }
{
    let length = name_length(text);
    if length > NAME_LIMIT {
        return Front::Bad;
    }
    match word_of(&text[..length]) {
        Some(word) => Front::Lexeme(TokenKind::Word(word), length),
        None => Front::Lexeme(TokenKind::Name, length),
    }
}

/// A text literal.
#[tactic(auto, unfolding(crate::specs::Fronts::text_front))]
fn text_front(text: &[u8]) -> Front
    requires { 0 < length text.now }
    ensures { result ≡ fronts.text_front text.now }
{
    match to_closing(b'\'', &text[1..]) {
        Some(length) => Front::Lexeme(TokenKind::Text, length + 1),
        None => Front::Bad,
    }
}

/// A name between double quotes.
#[tactic(auto, unfolding(crate::specs::Fronts::quoted_front))]
fn quoted_front(text: &[u8]) -> Front
    requires { 0 < length text.now }
    ensures { result ≡ fronts.quoted_front text.now }
{
    let inside = &text[1..];
    match to_closing(b'"', inside) {
        Some(length) if is_quoted_name(&inside[..length - 1]) => Front::Lexeme(
            TokenKind::QuotedName,
            length + 1,
        ),
        _ => Front::Bad,
    }
}

/// A number.
#[tactic(auto, unfolding(crate::specs::Fronts::number_front))]
fn number_front(text: &[u8]) -> Front
    ensures { result ≡ fronts.number_front text.now }
{
    let whole = digits_length(text);
    if begins_with_point(&text[whole..]) {
        let fraction = &text[whole + 1..];
        if decimal_width(text, fraction) > WIDTH_LIMIT {
            return Front::Bad;
        }
        return Front::Lexeme(TokenKind::Decimal, whole + 1 + digits_length(fraction));
    }
    match integer_of(&text[..whole]) {
        Some(_) => Front::Lexeme(TokenKind::Integer, whole),
        None => Front::Bad,
    }
}

/// A comment that begins with `/*`.
fn block_comment_front(text: &[u8]) -> Front
    requires { 2 ≤ length text.now }
    ensures { result ≡ fronts.gap_of (block_comment_length text.now) }
{
    match before_close(&text[2..]) {
        Some(inside) => Front::Gap(inside + 4),
        None => Front::Bad,
    }
}

/// The sign of the first two bytes of a text, if it has two.
fn front_pair(text: &[u8]) -> Option<Sign>
    requires { 0 < length text.now }
    ensures { result ≡ fronts.pair_at text.now }
{
    if text.len() < 2 {
        return None;
    }
    pair_sign(text[0], text[1])
}

/// A sign.
fn sign_front(text: &[u8]) -> Front
    requires { 0 < length text.now }
    ensures { result ≡ fronts.sign_front text.now }
{
    if let Some(sign) = front_pair(text) {
        return Front::Lexeme(TokenKind::Sign(sign), 2);
    }
    match byte_sign(text[0]) {
        Some(sign) => Front::Lexeme(TokenKind::Sign(sign), 1),
        None => Front::Bad,
    }
}

/// What stands at the front of a text.
#[tactic(auto, unfolding(crate::specs::Fronts::front_of))]
pub fn front_of(text: &[u8]) -> Front
    ensures { result ≡ fronts.front_of text.now }
{
    let [first, ..] = text else {
        return Front::Bad;
    };
    if is_name_start(*first) {
        name_front(text)
    } else if is_blank(*first) {
        Front::Gap(1)
    } else if begins_with_number(text) {
        number_front(text)
    } else if *first == b'\'' {
        text_front(text)
    } else if *first == b'"' {
        quoted_front(text)
    } else if text.starts_with(b"--") {
        Front::Gap(line_comment_length(text))
    } else if text.starts_with(b"/*") {
        block_comment_front(text)
    } else {
        sign_front(text)
    }
}
