//! A cursor over the tokens of a script.
ghost use Rattle.std.specs.Prelude.{◌≡◌, ◌≢◌, ◌≤◌, ◌<◌, ◌↔◌, [], ◌∷◌, None, length, map, IsTrue, IsOk, Ok};
ghost use Rattle.std.specs.Char.{to_ascii_lowercase};
ghost use Rattle.sql_grammar.specs.Lexeme.{first, tail, sees, is_among, lexeme_at};
ghost use Rattle.sql_grammar.specs.Lexemes.{lexemes, lexeme, name_class, parenthesis_class, is_spelled};
ghost use Rattle.sql_grammar.specs.Classes.{word_class, sign_class, query_class, opens, names, other_names, date_class, text_class};
ghost use Rattle.sql_grammar.specs.Form as rule;
ghost use Rattle.sql_grammar.specs.Combinators.{span_of};
ghost use Rattle.sql_grammar.specs.Combinators as form;
ghost use Rattle.sql_grammar.specs.Reading.{read, sees_phrase};
ghost use Rattle.sql_grammar.specs.Verdict.{place_of};
ghost use Rattle.sql_grammar.specs.Nesting.{readers};
ghost use Rattle.flat_rules.specs.Gives.{Gives};

use sql_grammar::Fault;
use sql_grammar::tree::Span;
use sql_lex::{Sign, Token, TokenKind, Word};
use std::marker::Model;

/// The tokens that are left. Contracts see them as the grammar does.
#[derive(Drop)]
pub struct Cursor<'a> {
    script: &'a [u8],
    tokens: &'a [Token],
}

impl<'a> Model for Cursor<'a> {
    ghost use Rattle.std.specs.Prelude.{List};
    ghost use Rattle.sql_grammar.specs.Lexeme.{Lexeme};
    ghost use Rattle.sql_grammar.specs.Lexemes.{lexemes};

    ghost Value = { List Lexeme };

    ghost view = { λ c. lexemes c.script.now c.tokens.now };
}

fn word_number(word: Word) -> u8
    ensures { result ≡ word_class word }
{
    match word {
        Word::All => 0,
        Word::And => 1,
        Word::As => 2,
        Word::Asc => 3,
        Word::Between => 4,
        Word::By => 5,
        Word::Copy => 6,
        Word::Create => 7,
        Word::Cross => 8,
        Word::Desc => 9,
        Word::Distinct => 10,
        Word::Drop => 11,
        Word::Except => 12,
        Word::Explain => 13,
        Word::False => 14,
        Word::From => 15,
        Word::Group => 16,
        Word::Having => 17,
        Word::In => 18,
        Word::Inner => 19,
        Word::Intersect => 20,
        Word::Is => 21,
        Word::Join => 22,
        Word::Left => 23,
        Word::Like => 24,
        Word::Limit => 25,
        Word::Not => 26,
        Word::Null => 27,
        Word::Offset => 28,
        Word::On => 29,
        Word::Or => 30,
        Word::Order => 31,
        Word::Outer => 32,
        Word::Select => 33,
        Word::Table => 34,
        Word::True => 35,
        Word::Union => 36,
        Word::Where => 37,
    }
}

fn sign_number(sign: Sign) -> u8
    ensures { result ≡ sign_class sign }
{
    match sign {
        Sign::LeftParenthesis => 40,
        Sign::RightParenthesis => 41,
        Sign::Comma => 42,
        Sign::Semicolon => 43,
        Sign::Dot => 44,
        Sign::Star => 45,
        Sign::Plus => 46,
        Sign::Minus => 47,
        Sign::Quotient => 48,
        Sign::Remainder => 49,
        Sign::Equal => 50,
        Sign::Unequal => 51,
        Sign::Less => 52,
        Sign::AtMost => 53,
        Sign::Greater => 54,
        Sign::AtLeast => 55,
    }
}

/// The class of a parenthesis before SELECT.
pub(crate) const QUERY: u8 = 56;

pub(crate) const PLAIN: u8 = 60;

pub(crate) const QUOTED: u8 = 61;

pub(crate) const HEADER: u8 = 62;

pub(crate) const DELIMITER: u8 = 63;

pub(crate) const TEXT: u8 = 64;

pub(crate) const INTEGER: u8 = 65;

pub(crate) const DECIMAL: u8 = 66;

pub(crate) const DATE: u8 = 67;

/// Whether the token from `start` to before `end` is spelled with these small letters.
#[tactic(auto, unfolding(sql_grammar::specs::Lexemes::is_spelled))]
fn is_spelled_so(script: &[u8], start: usize, end: usize, letters: &[u8]) -> bool
    requires { map to_ascii_lowercase letters.now ≡ letters.now }
    ensures { result ≡ is_spelled script.now start end letters.now }
{
    start <= end && end <= script.len() && script[start..end].eq_ignore_ascii_case(letters)
}

/// The class of a plain name.
#[tactic(auto, unfolding(sql_grammar::specs::Lexemes::name_class))]
fn name_number(script: &[u8], start: usize, end: usize) -> u8
    ensures { result ≡ name_class script.now start end }
{
    if is_spelled_so(script, start, end, b"header") {
        HEADER
    } else if is_spelled_so(script, start, end, b"delimiter") {
        DELIMITER
    } else if is_spelled_so(script, start, end, b"date") {
        DATE
    } else {
        PLAIN
    }
}

/// The class of an opening parenthesis before these tokens.
fn parenthesis_number(others: &[Token]) -> u8
    ensures { result ≡ parenthesis_class others.now }
{
    match others.first() {
        Some(token) if matches!(token.kind, TokenKind::Word(Word::Select)) => QUERY,
        _ => sign_number(Sign::LeftParenthesis),
    }
}

/// The class of a token before these others.
fn class_number(script: &[u8], token: &Token, others: &[Token]) -> u8
    ensures { result ≡ (lexeme script.now token.now others.now).class }
{
    match token.kind {
        TokenKind::Word(word) => word_number(word),
        TokenKind::Name => name_number(script, token.start, token.end),
        TokenKind::QuotedName => QUOTED,
        TokenKind::Text => TEXT,
        TokenKind::Integer => INTEGER,
        TokenKind::Decimal => DECIMAL,
        TokenKind::Sign(Sign::LeftParenthesis) => parenthesis_number(others),
        TokenKind::Sign(sign) => sign_number(sign),
    }
}

impl<'a> Cursor<'a> {
    /// The cursor before all of these tokens of the script.
    pub fn new(script: &'a [u8], tokens: &'a [Token]) -> Cursor<'a>
        ensures { result ≡ lexemes script.now tokens.now }
    {
        Cursor { script, tokens }
    }

    /// Whether the next token is of this class.
    pub(crate) fn sees(&self, class: u8) -> bool
        ensures { result ≡ sees (class ∷ []) (first self.now) }
    {
        match self.tokens {
            [token, others @ ..] => class_number(self.script, token, others) == class,
            [] => false,
        }
    }

    /// Whether no token is left.
    pub fn is_at_end(&self) -> bool
        ensures { IsTrue result ↔ (self.now ≡ []) }
    {
        self.tokens.is_empty()
    }

    /// Whether this word comes next.
    pub fn at_word(&self, word: Word) -> bool
        ensures { result ≡ sees (word_class word ∷ []) (first self.now) }
    {
        self.sees(word_number(word))
    }

    /// Whether this sign comes next.
    pub fn at_sign(&self, sign: Sign) -> bool
        ensures { result ≡ sees (sign_class sign ∷ []) (first self.now) }
    {
        self.sees(sign_number(sign))
    }

    /// Where the next token stands, if there is one.
    pub fn span(&self) -> Span
        ensures { result ≡ span_of (lexeme_at (first self.now)) }
    {
        match self.tokens.first() {
            Some(token) => Span {
                start: token.start,
                end: token.end,
            },
            None => Span { start: 0, end: 0 },
        }
    }

    /// Takes the next token, if there is one.
    pub fn shift(&mut self)
        ensures tail { self.new ≡ tail self.old }
        ensures shrinks { length self.new ≤ length self.old }
        ensures falls { first self.old ≢ None → length self.new < length self.old }
    {
        if let [_, rest @ ..] = self.tokens {
            self.tokens = rest;
        }
    }

    /// Takes the next token, and says where it stood.
    pub fn take(&mut self) -> Span
        ensures span { result ≡ span_of (lexeme_at (first self.old)) }
        ensures tail { self.new ≡ tail self.old }
        ensures shrinks { length self.new ≤ length self.old }
        ensures falls { first self.old ≢ None → length self.new < length self.old }
    {
        let span = self.span();
        self.shift();
        span
    }

    /// Takes this word, which has to come next.
    pub fn word(&mut self, word: Word) -> Result<usize, Fault>
        ensures gives { Gives (read (readers 0) (form.word word) self.old) result self.new }
        ensures shrinks { length self.new ≤ length self.old }
        ensures falls { IsOk result → length self.new < length self.old }
    {
        if !self.at_word(word) {
            return Err(Fault::Syntax);
        }
        Ok(self.take().start)
    }

    /// Takes this sign, which has to come next.
    pub fn sign(&mut self, sign: Sign) -> Result<usize, Fault>
        ensures gives { Gives (read (readers 0) (form.sign sign) self.old) result self.new }
        ensures shrinks { length self.new ≤ length self.old }
        ensures falls { IsOk result → length self.new < length self.old }
    {
        if !self.at_sign(sign) {
            return Err(Fault::Syntax);
        }
        Ok(self.take().start)
    }

    /// Whether an opening parenthesis before SELECT comes next.
    pub fn at_query(&self) -> bool
        ensures { result ≡ sees (query_class ∷ []) (first self.now) }
    {
        self.sees(QUERY)
    }

    /// Whether an opening parenthesis comes next.
    pub fn at_opening(&self) -> bool
        ensures { result ≡ sees opens (first self.now) }
    {
        self.at_sign(Sign::LeftParenthesis) || self.at_query()
    }

    /// Takes an opening parenthesis, which has to come next.
    pub(crate) fn opening(&mut self) -> Result<usize, Fault>
        ensures gives { Gives (read (readers 0) form.opening self.old) result self.new }
        ensures shrinks { length self.new ≤ length self.old }
        ensures falls { IsOk result → length self.new < length self.old }
    {
        if !self.at_opening() {
            return Err(Fault::Syntax);
        }
        Ok(self.take().start)
    }

    /// Whether a name other than DATE comes next.
    pub(crate) fn at_other_name(&self) -> bool
        ensures { result ≡ sees other_names (first self.now) }
    {
        self.sees(PLAIN) || self.sees(QUOTED) || self.sees(HEADER) || self.sees(DELIMITER)
    }

    /// Takes a name other than DATE, which has to come next.
    pub fn other_name(&mut self) -> Result<Span, Fault>
        ensures gives { Gives (read (readers 0) (rule.one other_names span_of) self.old) result self.new }
        ensures shrinks { length self.new ≤ length self.old }
        ensures falls { IsOk result → length self.new < length self.old }
    {
        if !self.at_other_name() {
            return Err(Fault::Syntax);
        }
        Ok(self.take())
    }

    /// Takes the name DATE, which has to come next.
    pub fn date_name(&mut self) -> Result<Span, Fault>
        ensures gives { Gives (read (readers 0) (form.token date_class span_of) self.old) result self.new }
        ensures shrinks { length self.new ≤ length self.old }
        ensures falls { IsOk result → length self.new < length self.old }
    {
        if !self.sees(DATE) {
            return Err(Fault::Syntax);
        }
        Ok(self.take())
    }

    /// Whether a name comes next.
    pub(crate) fn at_name(&self) -> bool
        ensures { result ≡ sees names (first self.now) }
    {
        self.sees(DATE) || self.at_other_name()
    }

    /// Takes a name, which has to come next.
    pub fn name(&mut self) -> Result<Span, Fault>
        ensures gives { Gives (read (readers 0) form.name self.old) result self.new }
        ensures shrinks { length self.new ≤ length self.old }
        ensures falls { IsOk result → length self.new < length self.old }
    {
        if !self.at_name() {
            return Err(Fault::Syntax);
        }
        Ok(self.take())
    }

    /// Whether a text literal comes next.
    pub fn at_text(&self) -> bool
        ensures { result ≡ sees (text_class ∷ []) (first self.now) }
    {
        self.sees(TEXT)
    }

    /// Takes a text literal, which has to come next.
    pub(crate) fn text(&mut self) -> Result<Span, Fault>
        ensures gives { Gives (read (readers 0) form.text self.old) result self.new }
        ensures shrinks { length self.new ≤ length self.old }
        ensures falls { IsOk result → length self.new < length self.old }
    {
        if !self.at_text() {
            return Err(Fault::Syntax);
        }
        Ok(self.take())
    }

    /// Takes an integer, which has to come next.
    pub(crate) fn integer(&mut self) -> Result<Span, Fault>
        ensures gives { Gives (read (readers 0) form.integer self.old) result self.new }
        ensures shrinks { length self.new ≤ length self.old }
        ensures falls { IsOk result → length self.new < length self.old }
    {
        if !self.sees(INTEGER) {
            return Err(Fault::Syntax);
        }
        Ok(self.take())
    }

    /// Takes this word if it comes next, and says whether it did.
    pub fn skip_word(&mut self, word: Word) -> bool
        ensures has { read (readers 0) (form.has (form.word word)) self.old ≡ Ok (result, self.new) }
        ensures shrinks { length self.new ≤ length self.old }
    {
        let found = self.at_word(word);
        if found {
            self.shift();
        }
        found
    }

    /// Takes this sign if it comes next, and says where it stood.
    pub(crate) fn optional_sign(&mut self, sign: Sign) -> Option<usize>
        ensures optional { read (readers 0) (form.optional (form.sign sign)) self.old ≡ Ok (result, self.new) }
        ensures shrinks { length self.new ≤ length self.old }
    {
        if !self.at_sign(sign) {
            return None;
        }
        Some(self.take().start)
    }

    /// The cursor behind the next token.
    fn behind(&self) -> Cursor<'a>
        ensures { result ≡ tail self.now }
    {
        let tokens = match self.tokens {
            [_, rest @ ..] => rest,
            [] => self.tokens,
        };
        Cursor {
            script: self.script,
            tokens,
        }
    }

    /// Whether a name, a point and a star come next.
    pub fn at_source_star(&self) -> bool
        ensures { result ≡ sees_phrase names (sign_class Sign.Dot) (sign_class Sign.Star) self.now }
    {
        if !self.at_name() {
            return false;
        }
        let second = self.behind();
        second.at_sign(Sign::Dot) && second.behind().at_sign(Sign::Star)
    }

    /// Where the next token stands, or the end of a script of that length.
    pub fn place(&self, end: usize) -> usize
        ensures { result ≡ place_of end self.now }
    {
        match self.tokens.first() {
            Some(token) => token.start,
            None => end,
        }
    }
}
