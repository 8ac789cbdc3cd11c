//! Numbers of two digits.
ghost use Rattle.std.specs.Prelude.{◌≡◌, ◌<◌, ◌+◌, ◌/◌, ◌%◌, ◌∷◌, [], ℕ, IfSome, IsNone};
ghost use Rattle.date_values.specs.DateText.{two_digits};

/// The number of two ASCII digits.
pub fn read_two(tens: u8, ones: u8) -> Option<u8>
    ensures some { IfSome result (λ n. (n < 100) × (tens ∷ ones ∷ [] ≡ two_digits n)) }
    ensures none { IsNone result → (n : ℕ) → n < 100 → tens ∷ ones ∷ [] ≡ two_digits n → ⊥ }
{
    if tens < b'0' || b'9' < tens || ones < b'0' || b'9' < ones {
        return None;
    }
    Some((tens - b'0') * 10 + (ones - b'0'))
}

/// The first of two digits.
pub fn tens(n: u8) -> u8
    requires { n < 100 }
    ensures { result ≡ 48 + n / 10 }
{
    b'0' + n / 10
}

/// The second of two digits.
pub fn ones(n: u8) -> u8
    ensures { result ≡ 48 + n % 10 }
{
    b'0' + n % 10
}
