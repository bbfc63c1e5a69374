// +UGNSINF: the report of the satellite receiver.
ghost use Rattle.std.specs.Prelude.{◌≡◌, true, ◌+◌, ◌≤◌, ◌<◌, length, cond, MatchResult};
ghost use Rattle.text.specs.Bytes.{bytes, same, all_digits};
ghost use Rattle.text.specs.Field.{fields, nth};
ghost use Rattle.text.specs.Reading.{read, need, present, refusal_in};
ghost use Rattle.text.specs.says.Refusal.{number_of, option_said, option_mapped, refusal_said};
ghost use Rattle.text.specs.Reader.{FieldStartsKeeps};
ghost use Rattle.numeral.specs.Numeral.{float_of};
ghost use Rattle.unsolicited.specs.Date.{Date, figures, date_in, existing, is_fraction};
ghost use Rattle.unsolicited.specs.Places.{Places};
ghost use Rattle.unsolicited.specs.Gnss.{fix, float_or_zero, count_or_zero, fix_on, fix_of, ugnsinf_fields, ugnsinf_text};

use crate::{calendar, prefix};
use text::refusal::Refusal;
use text::{bytes, digit, line, number, part, reader};

#[derive(Clone, Copy, Debug, PartialEq, Eq)]
pub struct DateTime {
    pub year: u16,
    pub month: u8,
    pub day: u8,
    pub hour: u8,
    pub minute: u8,
    pub second: u8,
}

// The fourteen digits of a date.
#[derive(Clone, Copy)]
struct Digits<'a> {
    text: &'a [u8; 14],
    ghost are_digits: { all_digits text.now ≡ true },
    ghost fourteen: { length text.now ≡ 14 },
}

impl Digits<'_> {
    ghost use Rattle.unsolicited.specs.says.Gnss.{date_says};

    // The number that the two digits from `at` on are.
    #[tactic(auto, using(crate::proofs::Dates::pairs))]
    fn pair(self, at: usize) -> u8
        requires { at + 2 ≤ 14 }
        ensures value { result ≡ figures at (at + 2) self.entry.text.now }
        ensures low { result ≤ 99 }
    {
        10 * digit::value(self.text[at]) + digit::value(self.text[at + 1])
    }

    // The number that the first four are.
    #[tactic(auto, using(crate::proofs::Dates::year_is))]
    fn year(self) -> u16
        ensures { result ≡ figures 0 4 self.entry.text.now }
    {
        100 * self.pair(0) as u16 + self.pair(2) as u16
    }

    // What all of them say.
    #[tactic(auto, unfolding(crate::specs::Date::date_in))]
    fn date(self) -> DateTime
        ensures { date_says result ≡ date_in self.entry.text.now }
    {
        DateTime {
            year: self.year(),
            month: self.pair(4),
            day: self.pair(6),
            hour: self.pair(8),
            minute: self.pair(10),
            second: self.pair(12),
        }
    }
}

// Whether it is nothing, or a point and one or more digits.
#[tactic(auto, using(crate::proofs::Dates::fractions))]
fn is_fraction(s: &[u8]) -> bool
    ensures { result ≡ is_fraction s.now }
{
    match s {
        [] => true,
        [b'.', digits @ ..] => !digits.is_empty() && bytes::all_digits(digits),
        _ => false,
    }
}

impl DateTime {
    ghost use Rattle.unsolicited.specs.says.Gnss.{date_says, date_option_says, DateKeeps};

    // The date, if there is such a day and time in the years 1980 to 2099; no month that is none has
    // a day.
    #[tactic(auto, using(crate::proofs::Dates::existence))]
    fn existing_date(self) -> Option<DateTime>
        ensures { date_option_says result ≡ existing (date_says self) }
    {
        let days = calendar::days_in(self.year, self.month);
        let year = (1980 <= self.year) & (self.year <= 2099);
        let day = (1 <= self.day) & (self.day <= days);
        let time = (self.hour <= 23) & (self.minute <= 59) & (self.second <= 59);
        if year & day & time {
            return Some(self);
        }
        None
    }

    #[tactic(auto, using(crate::proofs::Dates::dates))]
    pub fn new(time_string: &[u8]) -> Option<DateTime>
        ensures { DateKeeps time_string.now result }
    {
        let (text, fraction) = time_string.split_first_chunk::<14>()?;
        if !bytes::all_digits(text) || !is_fraction(fraction) {
            return None;
        }
        Digits { text }.date().existing_date()
    }
}

#[derive(Clone, Copy, Debug, PartialEq)]
pub struct GnssFix {
    pub date_time: DateTime,
    pub latitude: f32,
    pub longitude: f32,
    pub altitude: f32,
    pub hdop: f32,
    pub pdop: f32,
    pub vdop: f32,
    pub speed_over_ground: f32,
    pub course_over_ground: f32,
    pub sat_gps_in_view: u32,
    pub sat_gnss_used: u32,
    pub sat_glonass_used: u32,
    pub signal_noise_ratio: u32,
}

#[derive(Clone, Copy, Debug, PartialEq)]
pub enum GnssReport {
    NotEnabled,
    NoFix { sat_gps_view: Option<u32> },
    Fix(GnssFix),
}

// What follows the prefix, and where each of its 21 fields begins, found once for all of them. The
// places are lent: the array is not copied.
#[derive(Drop)]
struct Fields<'a> {
    rest: &'a [u8],
    places: &'a [usize; 22],
    ghost found: { Places places.now rest.now },
}

impl<'a> Fields<'a> {
    ghost use Rattle.unsolicited.specs.says.Gnss.{date_says, fix_says, says};

    // There are exactly 21 fields where the last begins within the text and a next one does not.
    #[tactic(auto, using(crate::proofs::Reports::places))]
    fn new(rest: &'a [u8], places: &'a [usize; 22]) -> Result<Fields<'a>, Refusal>
        requires { FieldStartsKeeps rest.now places.now }
        ensures { MatchResult result
            (λ found. found.rest.now ≡ rest.now)
            (λ k. (length (fields 44 rest.now) ≡ 21 → ⊥) × (number_of k ≡ 3)) }
    {
        if rest.len() < places[20] {
            return Err(Refusal::NotThisLine);
        }
        if places[21] <= rest.len() {
            return Err(Refusal::NotThisLine);
        }
        Ok(Fields { rest, places })
    }

    // That n is below 21 is asked here and below: each caller has a literal, and a type for it
    // would ask the same where it is made.
    fn field(&self, n: usize) -> &'a [u8]
        requires { n < 21 }
        ensures { result.now ≡ nth n (fields 44 self.now.rest.now) }
    {
        part::part(self.rest, self.places[n], self.places[n + 1] - 1)
    }

    fn is_one(&self, n: usize) -> bool
        requires { n < 21 }
        ensures { result ≡ same (nth n (fields 44 self.now.rest.now)) (bytes "1") }
    {
        bytes::is_text(self.field(n), b"1")
    }

    #[tactic(auto, using(crate::proofs::Reports::float_said))]
    fn float(&self, n: usize) -> Option<f32>
        requires { n < 21 }
        ensures { option_said result ≡ float_of (nth n (fields 44 self.now.rest.now)) }
    {
        numeral::read(self.field(n))
    }

    // An empty field is zero, here and in the next. One function for both would be lent the reader,
    // and its contract would have to say what that answers.
    #[tactic(auto, using(crate::proofs::Reports::optional))]
    fn float_or_zero(&self, n: usize) -> Option<f32>
        requires { n < 21 }
        ensures { option_said result ≡ float_or_zero (nth n (fields 44 self.now.rest.now)) }
    {
        let text = self.field(n);
        if text.is_empty() {
            return Some(0.0);
        }
        numeral::read(text)
    }

    #[tactic(auto, using(crate::proofs::Reports::optional), unfolding(crate::specs::Gnss::count_or_zero))]
    fn count_or_zero(&self, n: usize) -> Option<u32>
        requires { n < 21 }
        ensures { option_said result ≡ count_or_zero (nth n (fields 44 self.now.rest.now)) }
    {
        let text = self.field(n);
        if text.is_empty() {
            return Some(0);
        }
        number::parse_u32(text)
    }

    // For sorting: whether the field is a numeral; nothing is rounded.
    #[tactic(auto, unfolding(numeral::specs::Numeral::is_numeral))]
    fn is_float(&self, n: usize) -> bool
        requires { n < 21 }
        ensures { result ≡ present (float_of (nth n (fields 44 self.now.rest.now))) }
    {
        numeral::is_numeral(self.field(n))
    }

    // The same of one that may be empty.
    #[tactic(auto, using(crate::proofs::Reports::optional))]
    fn is_float_or_empty(&self, n: usize) -> bool
        requires { n < 21 }
        ensures { result ≡ present (float_or_zero (nth n (fields 44 self.now.rest.now))) }
    {
        let text = self.field(n);
        text.is_empty() || numeral::is_numeral(text)
    }

    // Whether the field is a count, or empty.
    fn is_count_or_empty(&self, n: usize) -> bool
        requires { n < 21 }
        ensures { result ≡ present (count_or_zero (nth n (fields 44 self.now.rest.now))) }
    {
        self.count_or_zero(n).is_some()
    }

    // The fix, if all its values are readable.
    #[tactic(auto, unfolding(text::specs::Reading::need_else, crate::specs::Gnss::fix_on))]
    fn fix_on(&self, date_time: DateTime) -> Option<GnssFix>
        ensures { need (option_mapped fix_says result) (λ found. read (fix found))
            ≡ fix_on (date_says date_time) (fields 44 self.now.rest.now) }
    {
        let latitude = self.float(3)?;
        let longitude = self.float(4)?;
        let altitude = self.float(5)?;
        let speed_over_ground = self.float_or_zero(6)?;
        let course_over_ground = self.float_or_zero(7)?;
        let hdop = self.float_or_zero(10)?;
        let pdop = self.float_or_zero(11)?;
        let vdop = self.float_or_zero(12)?;
        let sat_gps_in_view = self.count_or_zero(14)?;
        let sat_gnss_used = self.count_or_zero(15)?;
        let sat_glonass_used = self.count_or_zero(16)?;
        let signal_noise_ratio = self.count_or_zero(18)?;
        Some(GnssFix {
            date_time,
            latitude,
            longitude,
            altitude,
            hdop,
            pdop,
            vdop,
            speed_over_ground,
            course_over_ground,
            sat_gps_in_view,
            sat_gnss_used,
            sat_glonass_used,
            signal_noise_ratio,
        })
    }

    // The date first: 13 where there is none, whatever the other fields are.
    #[tactic(auto, unfolding(text::specs::Reading::need_else, crate::specs::Gnss::fix_of))]
    fn gnss_fix(&self) -> Result<GnssReport, Refusal>
        ensures { says result ≡ fix_of (fields 44 self.now.rest.now) }
    {
        let date_time = DateTime::new(self.field(2)).ok_or(Refusal::NoSuchDate)?;
        let found = self.fix_on(date_time).ok_or(Refusal::NotThisLine)?;
        Ok(GnssReport::Fix(found))
    }

    // The same fields as `fix_on` reads, with no branch on one; which date stands before them does
    // not matter.
    fn is_readable(&self) -> bool
        ensures { (date : Date) → cond result 0 3 ≡ refusal_in (fix_on date (fields 44 self.now.rest.now)) }
    {
        let position = self.is_float(3) & self.is_float(4) & self.is_float(5);
        let motion = self.is_float_or_empty(6) & self.is_float_or_empty(7);
        let dilution = self.is_float_or_empty(10)
            & self.is_float_or_empty(11)
            & self.is_float_or_empty(12);
        let satellites = self.is_count_or_empty(14)
            & self.is_count_or_empty(15)
            & self.is_count_or_empty(16)
            & self.is_count_or_empty(18);
        position & motion & dilution & satellites
    }
}

impl GnssReport {
    ghost use Rattle.unsolicited.specs.says.Gnss.{says, GnssReportKeeps};

    // Reads what follows the prefix.
    #[tactic(auto, unfolding(text::specs::Reading::only, text::specs::Reading::either, crate::specs::Gnss::ugnsinf_fields))]
    fn gnss_report(rest: &[u8]) -> Result<GnssReport, Refusal>
        ensures { says result ≡ ugnsinf_fields (fields 44 rest.now) }
    {
        let places = reader::field_starts(rest);
        let found = Fields::new(rest, &places)?;
        if !found.is_one(0) {
            return Ok(GnssReport::NotEnabled);
        }
        if !found.is_one(1) {
            return Ok(GnssReport::NoFix {
                sat_gps_view: number::parse_u32(found.field(14)),
            });
        }
        found.gnss_fix()
    }

    // As `gnss_report`, with every value forgotten.
    #[tactic(auto, unfolding(text::specs::Reading::only, text::specs::Reading::either, text::specs::Reading::need_else, crate::specs::Gnss::ugnsinf_fields, crate::specs::Gnss::fix_of))]
    fn report_refusal(rest: &[u8]) -> Result<(), Refusal>
        ensures { refusal_said result ≡ refusal_in (ugnsinf_fields (fields 44 rest.now)) }
    {
        let places = reader::field_starts(rest);
        let found = Fields::new(rest, &places)?;
        if !found.is_one(0) {
            return Ok(());
        }
        if !found.is_one(1) {
            return Ok(());
        }
        if DateTime::new(found.field(2)).is_none() {
            return Err(Refusal::NoSuchDate);
        }
        if !found.is_readable() {
            return Err(Refusal::NotThisLine);
        }
        Ok(())
    }

    #[tactic(auto, unfolding(text::specs::Reading::only, crate::specs::Gnss::ugnsinf_text))]
    pub(crate) fn from_checked(line: &[u8]) -> Result<GnssReport, Refusal>
        ensures { says result ≡ ugnsinf_text line.now }
    {
        let rest = prefix::behind(line, b"+UGNSINF: ")?;
        GnssReport::gnss_report(rest)
    }

    #[tactic(auto, using(crate::proofs::Stripped::checks))]
    pub fn from_line(line: &[u8]) -> Result<GnssReport, Refusal>
        ensures { GnssReportKeeps line.now result }
    {
        line::check_line(line)?;
        GnssReport::from_checked(line)
    }

    // The answer of `from_checked` with its value forgotten.
    #[tactic(auto, unfolding(text::specs::Reading::only, crate::specs::Gnss::ugnsinf_text))]
    pub(crate) fn refusal_checked(line: &[u8]) -> Result<(), Refusal>
        ensures { refusal_said result ≡ refusal_in (ugnsinf_text line.now) }
    {
        let rest = prefix::behind(line, b"+UGNSINF: ")?;
        GnssReport::report_refusal(rest)
    }
}
