//! Truths and dates.
ghost use Rattle.std.specs.Prelude.{◌≡◌, codes};
ghost use Rattle.csv_load.specs.Words as spec;
ghost use Rattle.csv_load.specs.Dates.{day_of};

use date_values::read_date;

// Whether the bytes are a word, without regard to the case of ASCII letters.
fn is_word(word: &[u8], bytes: &[u8]) -> bool
    ensures { result ≡ spec.is_word word.now bytes.now }
{
    bytes.eq_ignore_ascii_case(word)
}

/// The truth that a word says.
#[tactic(auto, unfolding(crate::specs::Words::truth_of))]
pub fn read_truth(bytes: &[u8]) -> Option<bool>
    ensures { result ≡ spec.truth_of bytes.now }
{
    if is_word(b"true", bytes) || is_word(b"t", bytes) || is_word(b"1", bytes) {
        return Some(true);
    }
    if is_word(b"false", bytes) || is_word(b"f", bytes) || is_word(b"0", bytes) {
        return Some(false);
    }
    None
}

/// The day of a text `YYYY-MM-DD`.
pub fn read_day(bytes: &[u8]) -> Option<i32>
    ensures { result ≡ day_of bytes.now }
{
    read_date(bytes)
}
