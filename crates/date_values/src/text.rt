//! Dates as texts.
ghost use Rattle.std.specs.Prelude.{◌≡◌, ◌<◌, ℕ, ℤ, IfSome, IsNone};
ghost use Rattle.ooc_types.specs.Meets.{IsDay};
ghost use Rattle.date_values.specs.Calendar as spec;
ghost use Rattle.date_values.specs.declared.date.Date.{Date as SpecDate};
ghost use Rattle.date_values.specs.DateText.{date_text, day_text};

use crate::date::Date;
use crate::days::{date_of_day, day_of_date, nearest_day};
use crate::digits::{ones, read_two, tens};

// Four digits, two and two, with hyphens between them.
fn read_parts(text: &[u8]) -> Option<Date>
    ensures some { IfSome result (λ d. (d.year < 10000) × (d.month < 100) × (d.day < 100) × (text.now ≡ date_text d)) }
    ensures none { IsNone result → (c : SpecDate) → c.year < 10000 → c.month < 100 → c.day < 100 → text.now ≡ date_text c → ⊥ }
{
    let [y0, y1, y2, y3, b'-', m0, m1, b'-', d0, d1] = text else {
        return None;
    };
    let century = read_two(*y0, *y1)?;
    let year = read_two(*y2, *y3)?;
    let month = read_two(*m0, *m1)?;
    let day = read_two(*d0, *d1)?;
    Some(Date {
        year: century as u16 * 100 + year as u16,
        month,
        day,
    })
}

/// The day of a text `YYYY-MM-DD`. Nothing exactly where the text is of no day from 0001-01-01 to 9999-12-31.
pub fn read_date(text: &[u8]) -> Option<i32>
    ensures some { IfSome result (λ day. IsDay day × (text.now ≡ day_text day)) }
    ensures none { IsNone result → (day : ℤ) → IsDay day → text.now ≡ day_text day → ⊥ }
{
    day_of_date(read_parts(text)?)
}

/// The text `YYYY-MM-DD` of a day. A number outside 0001-01-01 to 9999-12-31 is taken as the nearest end.
pub fn print_date(day: i32) -> [u8; 10]
    ensures { result ≡ day_text (spec.nearest_day day) }
{
    let date = date_of_day(nearest_day(day));
    let century = (date.year / 100) as u8;
    let year = (date.year % 100) as u8;
    [
        tens(century),
        ones(century),
        tens(year),
        ones(year),
        b'-',
        tens(date.month),
        ones(date.month),
        b'-',
        tens(date.day),
        ones(date.day),
    ]
}
