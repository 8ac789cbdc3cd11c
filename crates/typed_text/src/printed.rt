//! A text that grows, word by word.
use ooc_types::{SqlType, Text, Value};
use std::alloc::Global;
use std::fmt::Write;

/// A text that grows.
#[derive(Drop)]
pub struct Printed {
    pub text: String,
    /// Whether nothing is missing for want of memory.
    pub is_whole: bool,
}

impl Printed {
    /// No text yet.
    pub fn new(alloc: Global) -> Printed {
        Printed {
            text: String::new(alloc),
            is_whole: true,
        }
    }

    /// A text right behind what is there.
    pub fn put(&mut self, text: &str) {
        if self.text.push_str(text).is_err() {
            self.is_whole = false;
        }
    }

    /// A word behind what is there.
    pub fn word(&mut self, text: &str) {
        if !self.text.is_empty() {
            self.put(" ");
        }
        self.put(text);
    }

    fn bytes(&mut self, text: &Text) {
        match std::str::from_utf8(text.as_bytes()) {
            Ok(text) => self.put(text),
            Err(_) => self.put("?"),
        }
    }

    /// A name.
    pub fn name(&mut self, text: &Text) {
        self.word("");
        self.bytes(text);
    }

    /// A text in quotes.
    pub fn quoted(&mut self, text: &Text) {
        self.word("'");
        self.bytes(text);
        self.put("'");
    }

    /// Some words and a number.
    pub fn number(&mut self, before: &str, number: u128) {
        self.word(before);
        if write!(self.text, "{number}").is_err() {
            self.is_whole = false;
        }
    }

    /// What a node is, behind its parenthesis.
    pub fn open(&mut self, what: &str) {
        self.word("(");
        self.put(what);
    }

    /// A test, with NOT where it is negated.
    pub fn open_test(&mut self, negated: bool, what: &str) {
        self.word("(");
        if negated {
            self.put("not-");
        }
        self.put(what);
    }

    /// The end of a node.
    pub fn close(&mut self) {
        self.put(")");
    }

    /// A type.
    pub fn kind(&mut self, kind: SqlType) {
        match kind {
            SqlType::Boolean => self.word("bool"),
            SqlType::Integer => self.word("int"),
            SqlType::BigInt => self.word("big"),
            SqlType::HugeInt => self.word("huge"),
            SqlType::Date => self.word("date"),
            SqlType::Varchar => self.word("text"),
            SqlType::Decimal { width, scale } => {
                self.number("dec", u128::from(width));
                self.number(".", u128::from(scale));
            }
        }
    }

    /// A constant.
    pub fn constant(&mut self, value: &Value) {
        match value {
            Value::Null => self.word("null"),
            Value::Truth(true) => self.word("true"),
            Value::Truth(false) => self.word("false"),
            Value::Number { digits, scale } => {
                self.number("", digits.unsigned_abs());
                if *scale > 0 {
                    self.number("e-", u128::from(*scale));
                }
            }
            Value::Day(day) => self.number("day", u128::from(day.unsigned_abs())),
            Value::Text(text) => self.quoted(text),
        }
    }
}
