//! The hash of a key, fed byte by byte over its values.
ghost use Rattle.std.specs.Prelude.{◌≡◌};
ghost use Rattle.std.specs.List.{fold};
ghost use Rattle.ooc_types.specs.Canonical.{value_bytes, number_bytes, text_bytes, reduce};
ghost use Rattle.row_hash.specs.Hash.{fnv_step, hash_of};

use crate::fnv::{START, feed, feed_bytes, mix};
use ooc_types::{Value, day_bytes, digits_bytes, length_bytes, reduce};

fn feed_number(hash: u64, digits: i128, scale: u8) -> u64
    ensures { result ≡ fold fnv_step hash (number_bytes (reduce digits scale)) }
{
    let (digits, scale) = reduce(digits, scale);
    feed_bytes(feed(feed(hash, 1), scale), &digits_bytes(digits))
}

fn feed_text(hash: u64, text: &[u8]) -> u64
    ensures { result ≡ fold fnv_step hash (text_bytes text.now) }
{
    let hash = feed_bytes(feed(hash, 3), &length_bytes(text.len()));
    feed_bytes(hash, text)
}

fn feed_value(hash: u64, value: &Value) -> u64
    ensures { result ≡ fold fnv_step hash (value_bytes value.now) }
{
    match value {
        Value::Null => feed(hash, 0),
        Value::Truth(truth) => feed(feed(hash, 2), u8::from(*truth)),
        Value::Number { digits, scale } => feed_number(hash, *digits, *scale),
        Value::Day(day) => feed_bytes(feed(hash, 4), &day_bytes(*day)),
        Value::Text(text) => feed_text(hash, text.as_bytes()),
    }
}

/// The hash of a key: that of its canonical bytes. It takes no memory.
pub fn hash_key(key: &[Value]) -> u64
    ensures { result ≡ hash_of key.now }
{
    let mut hash = START;
    for value in key {
        hash = feed_value(hash, value);
    }
    mix(hash)
}
