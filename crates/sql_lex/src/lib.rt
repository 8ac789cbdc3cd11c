//! The tokens of a SQL script.
#![tactic(auto)]

mod fault;
mod gaps;
mod laws;
mod lexer;
mod names;
mod numbers;
mod quotes;
mod rules;
mod signs;
mod token;
mod values;
mod words;

pub use fault::LexFault;
pub use laws::a_decimal_is_proper;
pub use lexer::lex;
pub use quotes::quoted_texts;
pub use token::{Sign, Token, TokenKind, Tokens, Word};
pub use values::{DecimalValue, decimal_value, integer_value, unquoted};
pub use words::word_of;

#[cfg(test)]
mod tests;
