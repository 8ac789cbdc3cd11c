//! Days and their texts, from calendars.

use super::*;
use std::test::Fail;

#[test]
fn days_and_texts_are_of_one_calendar(rt: HostRuntime) -> Result<(), Fail> {
    let days: [(i32, [u8; 10]); 8] = [
        (-719_162, *b"0001-01-01"),
        (-25_509, *b"1900-02-28"),
        (-25_508, *b"1900-03-01"),
        (0, *b"1970-01-01"),
        (11_016, *b"2000-02-29"),
        (19_722, *b"2023-12-31"),
        (19_782, *b"2024-02-29"),
        (2_932_896, *b"9999-12-31"),
    ];
    for (day, text) in days {
        assert_eq!(rt; read_date(&text), Some(day), "read, for {day}");
        assert!(rt; print_date(day) == text, "printed, for {day}");
    }
    assert!(rt; print_date(-719_163) == *b"0001-01-01");
    assert!(rt; print_date(i32::MAX) == *b"9999-12-31");
    assert_eq!(rt; nearest_day(i32::MIN), -719_162);
    Ok(())
}

#[test]
fn texts_of_no_day_are_refused(rt: HostRuntime) -> Result<(), Fail> {
    let texts: [&[u8]; 12] = [
        b"1900-02-29",
        b"2023-02-29",
        b"2023-04-31",
        b"2023-13-01",
        b"2023-00-10",
        b"2023-01-00",
        b"0000-12-31",
        b"2023-1-01",
        b"2023-01-011",
        b"2023/01/01",
        b"+023-01-01",
        b"",
    ];
    for text in texts {
        assert_eq!(rt; read_date(text), None);
    }
    Ok(())
}

#[test]
fn sums_stay_within_the_years_1_to_9999(rt: HostRuntime) -> Result<(), Fail> {
    assert_eq!(rt; add_days(19_782, 1), Some(19_783));
    assert_eq!(rt; add_days(19_782, -19_783), Some(-1));
    assert_eq!(rt; add_days(2_932_896, 1), None);
    assert_eq!(rt; add_days(-719_162, -1), None);
    assert_eq!(rt; add_days(0, i128::MAX), None);
    assert_eq!(rt; add_days(0, i128::MIN), None);
    assert_eq!(rt; add_days(-719_162, 3_652_058), Some(2_932_896));
    Ok(())
}
