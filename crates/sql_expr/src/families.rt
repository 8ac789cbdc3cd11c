//! Families of types.

/// What a value is, whatever its width: values of one family compare, and those of two don't.
#[derive(Clone, Copy, Debug, PartialEq, Eq)]
pub enum Family {
    Truths,
    Numbers,
    Texts,
    Dates,
}
