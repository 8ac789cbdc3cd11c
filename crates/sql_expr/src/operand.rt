//! Operands that were evaluated.

use ooc_types::{SqlType, Truth};

/// The value of an operand that is compared several times. A text is lent.
#[derive(Clone, Copy)]
pub enum Operand<'a> {
    Truth(Truth),
    Amount { digits: Option<i128>, kind: SqlType },
    Text(Option<&'a [u8]>),
}
