// The Gregorian calendar.
ghost use Rattle.std.specs.Prelude.{◌≡◌};
ghost use Rattle.unsolicited.specs.Calendar.{is_leap, days_in};

// The days of each month of a common year; there is no month 0.
const DAYS: [u8; 13] = [0, 31, 28, 31, 30, 31, 30, 31, 31, 30, 31, 30, 31];

// Of the full centuries every fourth, of the other years every fourth.
#[tactic(auto, using(crate::proofs::Calendars::full_century, crate::proofs::Calendars::other_year))]
fn is_leap(year: u16) -> bool
    ensures { result ≡ is_leap year }
{
    if year % 100 == 0 {
        return year % 400 == 0;
    }
    year % 4 == 0
}

// How many days the month has; 0 where there is no such month.
#[tactic(auto, using(crate::proofs::Calendars::no_month, crate::proofs::Calendars::leap_february, crate::proofs::Calendars::other_month))]
pub(crate) fn days_in(year: u16, month: u8) -> u8
    ensures { result ≡ days_in year month }
{
    if 12 < month {
        return 0;
    }
    if (month == 2) & is_leap(year) {
        return 29;
    }
    DAYS[month as usize]
}
