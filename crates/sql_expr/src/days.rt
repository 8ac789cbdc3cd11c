//! Days of the calendar, by their numbers.
ghost use Rattle.std.specs.Prelude.{◌≡◌, ◌+ℤ◌, ◌-ℤ◌};
ghost use Rattle.std.specs.Option.{SomeIff};
ghost use Rattle.ooc_types.specs.Meets.{IsDay};
ghost use Rattle.sql_expr.specs.Arithmetic.{nearest_day};

// 0001-01-01 and 9999-12-31, counted from 1970-01-01.
const FIRST_DAY: i128 = -719_162;

const LAST_DAY: i128 = 2_932_896;

/// The day, and the nearest end of the calendar where it lies outside.
pub fn nearest(day: i128) -> i128
    ensures { result ≡ nearest_day day }
{
    if day < FIRST_DAY {
        FIRST_DAY
    } else if LAST_DAY < day {
        LAST_DAY
    } else {
        day
    }
}

// The day, where the calendar has it.
fn in_calendar(day: i128) -> Option<i128>
    ensures { SomeIff result (IsDay day) day }
{
    if FIRST_DAY <= day && day <= LAST_DAY {
        Some(day)
    } else {
        None
    }
}

/// The day that stands so many days behind a day, where the calendar has it.
pub fn day_behind(day: i128, days: i128) -> Option<i128>
    ensures { SomeIff result (IsDay (day +ℤ days)) (day +ℤ days) }
{
    match day.checked_add(days) {
        Some(sum) => in_calendar(sum),
        None => None,
    }
}

/// The day that stands so many days before a day, where the calendar has it.
pub fn day_before(day: i128, days: i128) -> Option<i128>
    ensures { SomeIff result (IsDay (day -ℤ days)) (day -ℤ days) }
{
    match day.checked_sub(days) {
        Some(difference) => in_calendar(difference),
        None => None,
    }
}
