//! Numbers in the bytes of an image, the lowest byte first.
ghost use Rattle.std.specs.Prelude.{◌≡◌, ◌+◌, ◌≤◌, length};
ghost use Rattle.row_image.specs.Bytes.{number_at, ChangesOnly};
ghost use Rattle.std.specs.Int.{w32, w64, w128, cast_signed};
ghost use Rattle.std.specs.Int.RustNames.{FitsSigned};

/// The number in the four bytes from `at`.
#[tactic(auto, unfolding(crate::specs::Bytes::number_at))]
pub fn word_at(image: &[u8], at: usize) -> u32
    requires { at + 4 ≤ length image.now }
    ensures { result ≡ number_at image.now at 4 }
{
    u32::from_le_bytes([image[at], image[at + 1], image[at + 2], image[at + 3]])
}

/// The number in the eight bytes from `at`.
#[tactic(auto, unfolding(crate::specs::Bytes::number_at))]
pub fn long_at(image: &[u8], at: usize) -> u64
    requires { at + 8 ≤ length image.now }
    ensures { result ≡ number_at image.now at 8 }
{
    u64::from_le_bytes([
        image[at],
        image[at + 1],
        image[at + 2],
        image[at + 3],
        image[at + 4],
        image[at + 5],
        image[at + 6],
        image[at + 7],
    ])
}

/// Writes a number into the four bytes from `at`.
#[tactic(auto, unfolding(crate::specs::Bytes::number_at))]
pub fn set_word(image: &mut [u8], at: usize, value: u32)
    requires { at + 4 ≤ length image.old }
    ensures stored { number_at image.new at 4 ≡ value }
    ensures others { ChangesOnly image.old image.new at (at + 4) }
{
    image[at] = (value & 0xff) as u8;
    image[at + 1] = (value >> 8 & 0xff) as u8;
    image[at + 2] = (value >> 16 & 0xff) as u8;
    image[at + 3] = (value >> 24 & 0xff) as u8;
}

/// Writes a number into the eight bytes from `at`.
#[tactic(auto, unfolding(crate::specs::Bytes::number_at))]
pub fn set_long(image: &mut [u8], at: usize, value: u64)
    requires { at + 8 ≤ length image.old }
    ensures stored { number_at image.new at 8 ≡ value }
    ensures others { ChangesOnly image.old image.new at (at + 8) }
{
    set_word(image, at, (value & 0xffff_ffff) as u32);
    set_word(image, at + 4, (value >> 32) as u32);
}

/// The number in the four bytes from `at`, in two's complement.
pub fn four_at(image: &[u8], at: usize) -> i128
    requires { at + 4 ≤ length image.now }
    ensures { result ≡ cast_signed w32 (number_at image.now at 4) }
{
    i128::from(word_at(image, at).cast_signed())
}

/// The number in the eight bytes from `at`, in two's complement.
pub fn eight_at(image: &[u8], at: usize) -> i128
    requires { at + 8 ≤ length image.now }
    ensures { result ≡ cast_signed w64 (number_at image.now at 8) }
{
    i128::from(long_at(image, at).cast_signed())
}

/// The number in the sixteen bytes from `at`, in two's complement.
pub fn sixteen_at(image: &[u8], at: usize) -> i128
    requires { at + 16 ≤ length image.now }
    ensures { result ≡ cast_signed w128 (number_at image.now at 16) }
{
    let low = u128::from(long_at(image, at));
    let high = u128::from(long_at(image, at + 8));
    (high * 0x1_0000_0000_0000_0000 + low).cast_signed()
}

/// Writes a number into the four bytes from `at`, in two's complement.
pub fn set_four(image: &mut [u8], at: usize, value: i128)
    requires room { at + 4 ≤ length image.old }
    requires fits { FitsSigned w32 value }
    ensures stored { cast_signed w32 (number_at image.new at 4) ≡ value }
    ensures others { ChangesOnly image.old image.new at (at + 4) }
{
    set_word(image, at, (value as i32).cast_unsigned());
}

/// Writes a number into the eight bytes from `at`, in two's complement.
pub fn set_eight(image: &mut [u8], at: usize, value: i128)
    requires room { at + 8 ≤ length image.old }
    requires fits { FitsSigned w64 value }
    ensures stored { cast_signed w64 (number_at image.new at 8) ≡ value }
    ensures others { ChangesOnly image.old image.new at (at + 8) }
{
    set_long(image, at, (value as i64).cast_unsigned());
}

/// Writes a number into the sixteen bytes from `at`, in two's complement.
pub fn set_sixteen(image: &mut [u8], at: usize, value: i128)
    requires { at + 16 ≤ length image.old }
    ensures stored { cast_signed w128 (number_at image.new at 16) ≡ value }
    ensures others { ChangesOnly image.old image.new at (at + 16) }
{
    let bits = value.cast_unsigned();
    set_long(image, at, (bits & 0xffff_ffff_ffff_ffff) as u64);
    set_long(image, at + 8, (bits >> 64) as u64);
}
