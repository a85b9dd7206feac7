//! Words of decimal digits, and dates.

ghost use Rattle.std.specs.Prelude.{◌≡◌, ◌≤◌, ◌<◌, ◌^◌, IfSome, None, Some, cond, drop, length, take};
ghost use Rattle.std.specs.Option.{option_map};
ghost use Rattle.script_model.specs.Dates.{date_in, is_date_form};
ghost use Rattle.script_model.specs.Numbers.{all_digits, value_after};

use crate::{Day, day_of};

/// The number that at most eight digits say, with any leading zeros.
pub fn digits_word(word: &[u8]) -> Option<u32>
    requires { length word.now ≤ 8 }
    ensures value { result ≡ cond (all_digits word.now) (Some (value_after 0 word.now)) None }
    ensures range { IfSome result (λ n. n < 10 ^ length word.now) }
{
    let mut value: u32 = 0;
    for c in word {
        if !c.is_ascii_digit() {
            return None;
        }
        value = 10 * value + u32::from(*c - b'0');
    }
    Some(value)
}

/// The day that a word `YYYY-MM-DD` says, where the calendar has that date in 2000 to 2099.
pub fn date_word(word: &[u8]) -> Option<Day>
    ensures { option_map (λ day. day.number) result ≡ date_in word.now }
{
    let (year, month, day) = date_parts(word)?;
    day_of(year, month, day)
}

// The year, month and day of a word of four, two and two digits with a dash between them.
fn date_parts(word: &[u8]) -> Option<(u16, u8, u8)>
    ensures { result ≡ cond (is_date_form word.now)
        (Some (value_after 0 (take 4 word.now), value_after 0 (take 2 (drop 5 word.now)), value_after 0 (drop 8 word.now)))
        None }
{
    if word.len() != 10 || word[4] != b'-' || word[7] != b'-' {
        return None;
    }
    let year = digits_word(&word[..4])?;
    let month = digits_word(&word[5..7])?;
    let day = digits_word(&word[8..])?;
    Some((year as u16, month as u8, day as u8))
}
