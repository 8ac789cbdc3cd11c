//! Arithmetic on numbers that fit 64 bits, many times as fast as on 128; none where they don't.
ghost use Rattle.std.specs.Prelude.{◌≡◌, ◌≢◌, pos, ◌+ℤ◌, ◌-ℤ◌, ◌*ℤ◌, ◌^◌, int_div, int_rem, IfSome};

use crate::powers::narrow_power_of_ten;

// `a * 10^places`
fn raised(a: i128, places: u8) -> Option<i128>
    ensures { IfSome result (λ raised. raised ≡ a *ℤ pos (10 ^ places)) }
{
    let a = i64::try_from(a).ok()?;
    if places > 18 {
        return None;
    }
    Some(i128::from(a) * i128::from(narrow_power_of_ten(places)))
}

/// `a * 10^a_places + b * 10^b_places`
pub fn sum(a: i128, a_places: u8, b: i128, b_places: u8) -> Option<i128>
    ensures { IfSome result (λ sum. sum ≡ a *ℤ pos (10 ^ a_places) +ℤ b *ℤ pos (10 ^ b_places)) }
{
    raised(a, a_places)?.checked_add(raised(b, b_places)?)
}

/// `a * 10^a_places - b * 10^b_places`
pub fn difference(a: i128, a_places: u8, b: i128, b_places: u8) -> Option<i128>
    ensures { IfSome result (λ difference. difference ≡ a *ℤ pos (10 ^ a_places) -ℤ b *ℤ pos (10 ^ b_places)) }
{
    raised(a, a_places)?.checked_sub(raised(b, b_places)?)
}

/// The quotient without its fraction.
pub fn quotient(a: i128, b: i128) -> Option<i128>
    requires { b ≢ pos 0 }
    ensures { IfSome result (λ quotient. quotient ≡ int_div a b) }
{
    let a = i64::try_from(a).ok()?;
    let b = i64::try_from(b).ok()?;
    a.checked_div(b).map(i128::from)
}

/// What the quotient leaves of `a`.
pub fn remainder(a: i128, b: i128) -> Option<i128>
    requires { b ≢ pos 0 }
    ensures { IfSome result (λ remainder. remainder ≡ int_rem a b) }
{
    let a = i64::try_from(a).ok()?;
    let b = i64::try_from(b).ok()?;
    a.checked_rem(b).map(i128::from)
}
