//! FNV-1a over 64 bits, and the mixing of the bits behind it.
ghost use Rattle.std.specs.Prelude.{◌≡◌};
ghost use Rattle.std.specs.List.{fold};
ghost use Rattle.row_hash.specs.Hash as spec;
ghost use Rattle.row_hash.specs.Hash.{fnv_step};

/// Where FNV-1a starts.
pub const START: u64 = 14_695_981_039_346_656_037;

const PRIME: u64 = 1_099_511_628_211;

const FIRST_FACTOR: u64 = 0xff51_afd7_ed55_8ccd;

const SECOND_FACTOR: u64 = 0xc4ce_b9fe_1a85_ec53;

/// One more byte.
#[tactic(auto, unfolding(crate::specs::Hash::fnv_step))]
pub fn feed(hash: u64, byte: u8) -> u64
    ensures { result ≡ fnv_step hash byte }
{
    (hash ^ byte as u64).wrapping_mul(PRIME)
}

/// More bytes, in order.
pub fn feed_bytes(hash: u64, bytes: &[u8]) -> u64
    ensures { result ≡ fold fnv_step hash bytes.now }
{
    let mut hash = hash;
    for byte in bytes {
        hash = feed(hash, *byte);
    }
    hash
}

/// Spreads each bit over the whole number.
#[tactic(auto, unfolding(crate::specs::Hash::mix))]
pub fn mix(hash: u64) -> u64
    ensures { result ≡ spec.mix hash }
{
    let mut x = hash;
    x ^= x >> 33;
    x = x.wrapping_mul(FIRST_FACTOR);
    x ^= x >> 33;
    x = x.wrapping_mul(SECOND_FACTOR);
    x ^ (x >> 33)
}
