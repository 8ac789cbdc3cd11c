//! Laws of the calendar. The functions do nothing; their contracts say the laws.
ghost use Rattle.std.specs.Prelude.{◌≡◌, ℤ, pos};
ghost use Rattle.ooc_types.specs.Meets.{first_day, last_day, IsDay};
ghost use Rattle.date_values.specs.Calendar.{date_of};
ghost use Rattle.date_values.specs.DateText.{day_text};

/// Day 0 is 1970-01-01, and the ends of the range are 0001-01-01 and 9999-12-31.
pub fn days_count_from_1970()
    ensures zero { date_of (pos 0) ≡ record { year = 1970; month = 1; day = 1 } }
    ensures first { date_of first_day ≡ record { year = 1; month = 1; day = 1 } }
    ensures last { date_of last_day ≡ record { year = 9999; month = 12; day = 31 } }
{}

/// Two days with one text are one day, so `read_date` of what `print_date` gives is the day.
pub fn dates_are_told_apart_by_their_texts()
    ensures { (day other : ℤ) → IsDay day → IsDay other → day_text day ≡ day_text other → day ≡ other }
{}
