//! Day numbers: their range, their sums, and their dates.
ghost use Rattle.std.specs.Prelude.{◌≡◌, ◌<◌, ℕ, ℤ, pos, ◌+ℤ◌, IfSome, IsNone, SomeIff};
ghost use Rattle.ooc_types.specs.Meets.{IsDay};
ghost use Rattle.date_values.specs.Calendar as spec;
ghost use Rattle.date_values.specs.Calendar.{date_of};

use crate::date::Date;
use jiff_core::civil;

const FIRST_DAY: i32 = -719_162;

const LAST_DAY: i32 = 2_932_896;

/// The day itself, or for a number outside 0001-01-01 to 9999-12-31 the nearest end.
pub fn nearest_day(day: i32) -> i32
    ensures value { result ≡ spec.nearest_day day }
    ensures within { IsDay result }
{
    if day < FIRST_DAY {
        return FIRST_DAY;
    }
    if LAST_DAY < day {
        return LAST_DAY;
    }
    day
}

/// The day so many days later. Nothing exactly where that is outside 0001-01-01 to 9999-12-31.
pub fn add_days(day: i32, days: i128) -> Option<i32>
    ensures { SomeIff result (IsDay (day +ℤ days)) (day +ℤ days) }
{
    if days < -10_000_000_000 || 10_000_000_000 < days {
        return None;
    }
    let sum = day as i64 + days as i64;
    if sum < FIRST_DAY as i64 || (LAST_DAY as i64) < sum {
        return None;
    }
    Some(sum as i32)
}

/// The date of a day.
pub fn date_of_day(day: i32) -> Date
    requires { IsDay day }
    ensures date { result ≡ date_of day }
    ensures short { (result.year < 10000) × (result.month < 100) × (result.day < 100) }
{
    let date = civil::Date::from_days_since_min((day + 4_371_587) as u32);
    Date {
        year: date.year.unsigned_abs(),
        month: date.month,
        day: date.day,
    }
}

/// The day of a date. Nothing exactly where the calendar doesn't have it in the years 1 to 9999.
pub fn day_of_date(date: Date) -> Option<i32>
    requires year { date.year < 10000 }
    requires month { date.month < 100 }
    requires day { date.day < 100 }
    ensures some { IfSome result (λ n. IsDay n × (date_of n ≡ date)) }
    ensures none { IsNone result → (n : ℤ) → IsDay n → (date_of n ≡ date) → ⊥ }
{
    match civil::Date::new(date.year as i16, date.month as i8, date.day as i8) {
        Ok(found) => {
            let day = found.to_unix_epoch_day();
            if day < FIRST_DAY { None } else { Some(day) }
        }
        Err(_) => None,
    }
}
