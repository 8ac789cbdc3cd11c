//! What is taken of a hash.
ghost use Rattle.std.specs.Prelude.{◌≡◌, ◌≤◌};
ghost use Rattle.row_hash.specs.Hash.{salt_of, radix_of};

/// Bits 48 to 63.
pub fn salt(hash: u64) -> u16
    ensures { result ≡ salt_of hash }
{
    (hash >> 48) as u16
}

/// The lowest bits: the number of the part of a key with this hash.
pub fn radix(hash: u64, bits: u32) -> u32
    requires { bits ≤ 24 }
    ensures { result ≡ radix_of hash bits }
{
    (hash & ((1 << bits) - 1)) as u32
}
