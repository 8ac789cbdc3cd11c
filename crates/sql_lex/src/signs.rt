//! The signs.
ghost use Rattle.std.specs.Prelude.{◌≡◌, [], ◌∷◌};
ghost use Rattle.sql_lex.specs.Signs as signs;

use crate::token::Sign;

/// The sign of these two bytes.
#[tactic(auto, unfolding(crate::specs::Signs::sign_of))]
pub fn pair_sign(first: u8, second: u8) -> Option<Sign>
    ensures { result ≡ signs.sign_of (first ∷ second ∷ []) }
{
    match (first, second) {
        (b'<', b'>') | (b'!', b'=') => Some(Sign::Unequal),
        (b'<', b'=') => Some(Sign::AtMost),
        (b'>', b'=') => Some(Sign::AtLeast),
        (b'/', b'/') => Some(Sign::Quotient),
        _ => None,
    }
}

/// The sign of this one byte.
#[tactic(auto, unfolding(crate::specs::Signs::sign_of))]
pub fn byte_sign(byte: u8) -> Option<Sign>
    ensures { result ≡ signs.sign_of (byte ∷ []) }
{
    match byte {
        b'(' => Some(Sign::LeftParenthesis),
        b')' => Some(Sign::RightParenthesis),
        b',' => Some(Sign::Comma),
        b';' => Some(Sign::Semicolon),
        b'.' => Some(Sign::Dot),
        b'*' => Some(Sign::Star),
        b'+' => Some(Sign::Plus),
        b'-' => Some(Sign::Minus),
        b'%' => Some(Sign::Remainder),
        b'=' => Some(Sign::Equal),
        b'<' => Some(Sign::Less),
        b'>' => Some(Sign::Greater),
        _ => None,
    }
}
