//! Days of the calendar of ISO 8601, from 2000-01-01 to 2099-12-31.

ghost use Rattle.std.specs.Prelude.{◌≡◌, ◌+◌, ◌≤◌, ◌<◌, IfSome, IfNone, pos, ◌≤ℤ◌};
ghost use Rattle.calendar_model.specs.Calendar.{IsCenturyDate, IsDay, IsMonthStart, IsMonthOf, first_day, is_day, last_day};
ghost use Rattle.calendar_model.specs.Texts.{IsDayText};
ghost use Rattle.jiff_core.specs.Date.{epoch_day};

use arrayvec::ArrayString;
use jiff::civil::Date;
use jiff::fmt::temporal::DateTimePrinter;
use jiff_core::civil;

// The days from the first date of `jiff`, -9999-01-01, to 2000-01-01.
const FIRST_DAY: u32 = 4_382_544;

/// The last day, 2099-12-31.
pub const LAST_DAY: u16 = 36_524;

/// A day of 2000 to 2099.
#[derive(Clone, Copy, Debug, PartialEq, Eq)]
pub struct Day {
    /// The days since 2000-01-01, at most [`LAST_DAY`].
    pub number: u16,
    pub ghost in_century: { number ≤ last_day },
}

/// Whether a day has this number.
pub fn is_day(number: u16) -> bool
    ensures { result ≡ is_day number }
{
    number <= LAST_DAY
}

/// The day of a date, and None exactly where the calendar has no such date in 2000 to 2099.
pub fn day_of(y: u16, m: u8, d: u8) -> Option<Day>
    ensures some { IfSome result (λ day. IsDay day.number y m d) }
    ensures none { IfNone result (¬ (IsCenturyDate y m d)) }
{
    if y < 2000 || y > 2099 {
        return None;
    }
    let (Ok(month), Ok(day)) = (i8::try_from(m), i8::try_from(d)) else {
        return None;
    };
    match Date::new(y as i16, month, day) {
        Ok(date) => Some(Day::at(date.to_plain())),
        Err(_) => None,
    }
}

impl Day {
    /// The year, the month from 1 and the day from 1.
    pub fn parts(self) -> (u16, u8, u8)
        ensures { IsDay self.number result.0 result.1 result.2 }
    {
        let date = self.date();
        (date.year as u16, date.month, date.day)
    }

    /// The first day of the day's month.
    pub fn month_start(self) -> Day
        ensures { IsMonthStart self.number result.number }
    {
        Day::first_of(self.month())
    }

    /// The date as `YYYY-MM-DD`.
    pub fn text(self) -> ArrayString<10>
        ensures { IsDayText self.number result.bytes }
    {
        let date = DateTimePrinter::new().date_text(self.date());
        let mut text = ArrayString::new();
        text.push_str(date.as_str());
        text
    }

    // The day of a date of 2000 to 2099.
    fn at(date: civil::Date) -> Day
        requires early { pos 2000 ≤ℤ date.year }
        requires late { date.year ≤ℤ pos 2099 }
        ensures { epoch_day date ≡ pos (10957 + result.number) }
    {
        Day {
            number: (date.days_since_min() - FIRST_DAY) as u16,
        }
    }

    fn date(self) -> civil::Date
        ensures counted { epoch_day result ≡ pos (10957 + self.number) }
        ensures early { pos 2000 ≤ℤ result.year }
        ensures late { result.year ≤ℤ pos 2099 }
    {
        civil::Date::from_days_since_min(FIRST_DAY + u32::from(self.number))
    }

    // The day's month, from 0 for January 2000.
    pub(crate) fn month(self) -> u16
        ensures { IsMonthOf self.number result }
    {
        let (year, month, _) = self.parts();
        (year - 2000) * 12 + u16::from(month) - 1
    }

    // The first day of a month, from 0 for January 2000.
    pub(crate) fn first_of(month: u16) -> Day
        requires { month < 1200 }
        ensures { result.number ≡ first_day month }
    {
        let year = 2000 + (month / 12) as i16;
        Day::at(civil::Date::constrain(year, (month % 12 + 1) as u8, 1))
    }
}
