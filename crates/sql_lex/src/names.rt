//! Names, as to their bytes.
ghost use Rattle.std.specs.Prelude.{◌≡◌};
ghost use Rattle.sql_lex.specs.Names as names;

/// How many bytes a name has at most.
pub const NAME_LIMIT: usize = 63;

/// Whether a byte is an ASCII letter or `_`.
pub fn is_name_start(byte: u8) -> bool
    ensures { result ≡ names.is_name_start byte }
{
    byte.is_ascii_alphabetic() || byte == b'_'
}

/// Whether a byte is an ASCII letter, a digit or `_`.
pub fn is_name_byte(byte: u8) -> bool
    ensures { result ≡ names.is_name_byte byte }
{
    byte.is_ascii_alphanumeric() || byte == b'_'
}

/// The length of the run of letters, digits and `_` at the front of a text.
pub fn name_length(text: &[u8]) -> usize
    ensures { result ≡ names.name_length text.now }
{
    text.iter().take_while(|byte| is_name_byte(**byte)).count()
}
