//! The tokens of a script.
ghost use Rattle.std.specs.Prelude.{◌≡◌, ◌≤◌, length, slice_range};

use std::marker::Model;

/// A reserved word. Words compare without regard to ASCII case.
#[derive(Clone, Copy, Debug, PartialEq, Eq)]
pub enum Word {
    All,
    And,
    As,
    Asc,
    Between,
    By,
    Copy,
    Create,
    Cross,
    Desc,
    Distinct,
    Drop,
    Except,
    Explain,
    False,
    From,
    Group,
    Having,
    In,
    Inner,
    Intersect,
    Is,
    Join,
    Left,
    Like,
    Limit,
    Not,
    Null,
    Offset,
    On,
    Or,
    Order,
    Outer,
    Select,
    Table,
    True,
    Union,
    Where,
}

/// A sign. `<>` and `!=` are one sign.
#[derive(Clone, Copy, Debug, PartialEq, Eq)]
pub enum Sign {
    LeftParenthesis,
    RightParenthesis,
    Comma,
    Semicolon,
    Dot,
    Star,
    Plus,
    Minus,
    Quotient,
    Remainder,
    Equal,
    Unequal,
    Less,
    AtMost,
    Greater,
    AtLeast,
}

/// What a token is.
#[derive(Clone, Copy, Debug, PartialEq, Eq)]
pub enum TokenKind {
    Word(Word),
    Name,
    QuotedName,
    Text,
    Integer,
    Decimal,
    Sign(Sign),
}

/// A token: its kind, and its span in the script, in bytes from 0; `end` is the place behind it.
#[derive(Clone, Copy, Debug, PartialEq, Eq)]
pub struct Token {
    pub kind: TokenKind,
    pub start: usize,
    pub end: usize,
}

/// The tokens of a script, over the script's bytes.
/// Contracts see `script`, the bytes, and `list`, the tokens in order.
#[derive(Drop)]
pub struct Tokens<'a> {
    script: &'a [u8],
    list: Vec<Token>,
}

impl<'a> Model for Tokens<'a> {
    ghost use Rattle.std.specs.Prelude.{length};
    ghost use Rattle.sql_lex.specs.Cover.{AreWithin};
    ghost use Rattle.sql_lex.specs.Tokens.{ScriptTokens};

    ghost Value = { ScriptTokens };

    ghost view = { λ tokens. record { script = tokens.script.now; list = tokens.list.items } };

    ghost invariant = { λ tokens. AreWithin (length tokens.script.now) tokens.list.items };
}

impl<'a> Tokens<'a> {
    ghost use Rattle.sql_lex.specs.Cover.{AreWithin};

    /// The tokens of a script, given as a list.
    pub(crate) fn new(script: &'a [u8], list: Vec<Token>) -> Self
        requires { AreWithin (length script.now) list.items }
        ensures script { result.script ≡ script.now }
        ensures list { result.list ≡ list.items }
    {
        Tokens { script, list }
    }

    /// The bytes of the script.
    pub fn script(&self) -> &'a [u8]
        ensures { result.now ≡ self.now.script }
    {
        self.script
    }

    /// The tokens, in the order of the script. None is empty, and each ends within the script.
    pub fn as_slice(&self) -> &[Token]
        ensures list { result.now ≡ self.now.list }
        ensures within { AreWithin (length self.now.script) self.now.list }
    {
        self.list.as_slice()
    }

    /// The bytes of a token.
    pub fn text(&self, token: &Token) -> &'a [u8]
        requires order { token.now.start ≤ token.now.end }
        requires within { token.now.end ≤ length self.now.script }
        ensures { result.now ≡ slice_range self.now.script token.now.start token.now.end }
    {
        &self.script[token.start..token.end]
    }
}
