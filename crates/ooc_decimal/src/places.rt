//! Decimal digits as bytes.
ghost use Rattle.std.specs.Prelude.{◌≡◌, ◌++◌, ◌+◌, ◌*◌, ◌^◌, ◌<◌, ◌≤◌, ◌/◌, length, vec_len, OnOk, OnErr, decimal};
ghost use Rattle.ooc_decimal.specs.Printed.{places};
ghost use Rattle.ooc_decimal.specs.Kept.{KeepsFront};

use ooc_types::OutOfMemory;

// Ten to the power of 19, the greatest that a `u64` holds.
const WIDE: u128 = 10_000_000_000_000_000_000;

// Room for the digits of the greatest scale.
static ZEROS: [u8; 256] = [b'0'; 256];

// The last digits of `n`, as many as `part` has bytes.
fn fill_places(part: &mut [u8], n: u64)
    ensures { part.new ≡ places (length part.old) n }
{
    let mut rest = n;
    let mut at = part.len();
    while at > 0 {
        at -= 1;
        part[at] = b'0' + (rest % 10) as u8;
        rest /= 10;
    }
}

// The last `count` digits of `n`.
fn push_narrow_places(into: &mut Vec<u8>, count: u8, n: u64) -> Result<(), OutOfMemory>
    ensures ok { OnOk result (into.new.items ≡ into.old.items ++ places count n) }
    ensures err { OnErr result (into.new.items ≡ into.old.items) }
{
    let start = into.len();
    into.extend_from_slice(&ZEROS[..count as usize])?;
    fill_places(&mut into[start..], n);
    Ok(())
}

/// The last `count` digits of `n`. A failed call leaves `into` with some of them at most.
pub fn push_places(into: &mut Vec<u8>, count: u8, n: u128) -> Result<(), OutOfMemory>
    requires { n ≤ 2 ^ 127 }
    ensures ok { OnOk result (into.new.items ≡ into.old.items ++ places count n) }
    ensures err { OnErr result (KeepsFront into.old.items into.new.items) }
{
    if n < 1 << 64 {
        return push_narrow_places(into, count, n as u64);
    }
    if count > 19 {
        push_narrow_places(into, count - 19, (n / WIDE) as u64)?;
        return push_narrow_places(into, 19, (n % WIDE) as u64);
    }
    push_narrow_places(into, count, (n % WIDE) as u64)
}

/// How many digits `n` has, at least one.
pub fn digit_count(n: u128) -> u8
    requires { n ≤ 2 ^ 127 }
    ensures digits { decimal n ≡ places result n }
    ensures some { 0 < result }
    ensures few { result ≤ 39 }
{
    let last = if n < 10 {
        0
    } else if n < 1 << 64 {
        (n as u64).ilog10()
    } else {
        n.ilog10()
    };
    last as u8 + 1
}
