//! Where a record stops.
ghost use Rattle.std.specs.Prelude.{◌≡◌, ◌≢◌, ◌≤◌, ◌<◌, ℕ, Some, None, length, slice_range, slice_index, true, false};
ghost use Rattle.std.specs.List.{list_any};
ghost use Rattle.csv_records.specs.Stops.{StopsAt, IsStop};
ghost use Rattle.csv_records.specs.Table.{after, is_special, is_quoted, IsDelimiter};
ghost use Rattle.csv_records.specs.declared.mark.Mark.TheVariants.{FieldStart};

use crate::mark::Mark;

// The state after a byte, and none where it ends the record.
#[inline(always)]
fn next_mark(delimiter: u8, mark: Mark, byte: u8) -> Option<Mark>
    ensures { result ≡ after delimiter mark byte }
{
    match mark {
        Mark::Quoted => {
            if byte == b'"' {
                return Some(Mark::QuoteSeen);
            }
            return Some(Mark::Quoted);
        }
        Mark::Plain => {}
        Mark::FieldStart | Mark::QuoteSeen => {
            if byte == b'"' {
                return Some(Mark::Quoted);
            }
        }
    }
    if byte == delimiter {
        return Some(Mark::FieldStart);
    }
    if byte == b'\n' || byte == b'\r' {
        return None;
    }
    Some(Mark::Plain)
}

// The place of the next double quote, CR or LF, or the text's length.
fn plain_end(text: &[u8], from: usize) -> usize
    requires { from ≤ length text.now }
    ensures low { from ≤ result }
    ensures high { result ≤ length text.now }
    ensures lacks { list_any is_special (slice_range text.now from result) ≡ false }
    ensures special { result < length text.now → is_special (slice_index text.now result) ≡ true }
{
    for i in from..text.len() {
        let byte = text[i];
        if byte == b'"' || byte == b'\n' || byte == b'\r' {
            return i;
        }
    }
    text.len()
}

/// Where the bytes of a record stop: at the byte that ends it, or at the end of the text.
#[derive(Clone, Copy, Debug, PartialEq, Eq)]
pub struct Stop {
    pub place: usize,
    /// Whether the record may have a double quote.
    pub quotes: bool,
    /// Whether it stops inside of quotes.
    pub is_open: bool,
}

/// Where a record that is in a state stops, and its state there.
#[inline(never)]
pub fn table_stop(delimiter: u8, start: Mark, text: &[u8], from: usize) -> (usize, Mark)
    requires { from ≤ length text.now }
    ensures { StopsAt delimiter start text.now from result.0 result.1 }
{
    let mut mark = start;
    for i in from..text.len() {
        match next_mark(delimiter, mark, text[i]) {
            Some(next) => mark = next,
            None => return (i, mark),
        }
    }
    (text.len(), mark)
}

// Whether a record in this state is inside of quotes.
fn is_quoted(mark: Mark) -> bool
    ensures { result ≡ is_quoted mark }
{
    mark == Mark::Quoted
}

// The stop of a record that may have double quotes.
#[inline(never)]
fn quoted_stop(delimiter: u8, text: &[u8], from: usize) -> Stop
    requires { from ≤ length text.now }
    ensures stop { IsStop delimiter text.now from result.place result.is_open }
    ensures quotes { result.quotes ≡ true }
{
    let (place, mark) = table_stop(delimiter, Mark::FieldStart, text, from);
    Stop {
        place,
        quotes: true,
        is_open: is_quoted(mark),
    }
}

/// Where the record that begins at a place stops. One without double quotes is found by a search for its end alone.
#[inline(always)]
pub fn first_stop(delimiter: u8, text: &[u8], from: usize) -> Stop
    requires from { from ≤ length text.now }
    requires delimiter { IsDelimiter delimiter }
    ensures stop { IsStop delimiter text.now from result.place result.is_open }
    ensures plain { result.quotes ≡ false → list_any is_special (slice_range text.now from result.place) ≡ false }
{
    let place = plain_end(text, from);
    if place < text.len() && text[place] == b'"' {
        return quoted_stop(delimiter, text, from);
    }
    Stop {
        place,
        quotes: false,
        is_open: false,
    }
}
