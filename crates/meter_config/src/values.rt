//! What the keys of a configuration's text say.
#![tactic(auto, unfolding(accept_model::specs::Accepted::value_at))]

ghost use Rattle.std.specs.Prelude.{◌≡◌, ◌≤◌, IfOk, length, IsTrue};
ghost use Rattle.std.specs.Int.{IsInRange};
ghost use Rattle.std.specs.List.{list_all};
ghost use Rattle.serde_json.specs.View.{view};
ghost use Rattle.parts_model.specs.Ranges.{is_capital, is_pulse, is_sensor, max_serial};
ghost use Rattle.accept_model.specs.Values.{capitals, date, digits, place, whole, whole_in};
ghost use Rattle.accept_model.specs.Keys.{name_of};
ghost use Rattle.accept_model.specs.Accepted.{value_at};
ghost use Rattle.meter_config.specs.Faults.{Answers};
ghost use Rattle.meter_parts.specs.Views.{place_view, sensor_ohm};

use crate::fault::ConfigFault;
use crate::keys::member;
use billing_memory::{Day, date_word, digits_word};
use meter_parts::{Place, Sensor, is_pulse};
use serde_json::Value;

/// A whole number from `low` to `high`.
pub fn whole_at(object: &Value, key: u8, low: u16, high: u16) -> Result<u16, ConfigFault>
    ensures said { Answers (λ n. n) result (value_at key (name_of key) (whole_in low high) (view object.now)) }
    ensures range { IfOk result (IsInRange low high) }
{
    match member(object, key)?.as_u64() {
        Some(n) if u64::from(low) <= n && n <= u64::from(high) => Ok(n as u16),
        _ => Err(ConfigFault::Wrong { key }),
    }
}

/// A whole number from `low` to `high`, in a byte.
pub fn byte_at(object: &Value, key: u8, low: u8, high: u8) -> Result<u8, ConfigFault>
    ensures said { Answers (λ n. n) result (value_at key (name_of key) (whole_in low high) (view object.now)) }
    ensures range { IfOk result (IsInRange low high) }
{
    let n = whole_at(object, key, u16::from(low), u16::from(high))?;
    Ok(n as u8)
}

/// The sensor whose resistance at 0 °C in ohms is said.
pub fn sensor_at(object: &Value, key: u8) -> Result<Sensor, ConfigFault>
    ensures { Answers sensor_ohm result (value_at key (name_of key) (whole is_sensor) (view object.now)) }
{
    let Some(ohm) = member(object, key)?.as_u64() else {
        return Err(ConfigFault::Wrong { key });
    };
    Sensor::of_ohm(ohm).ok_or(ConfigFault::Wrong { key })
}

/// The litres of a pulse.
pub fn pulse_at(object: &Value, key: u8) -> Result<u16, ConfigFault>
    ensures said { Answers (λ n. n) result (value_at key (name_of key) (whole is_pulse) (view object.now)) }
    ensures range { IfOk result (λ litres. IsTrue (is_pulse litres)) }
{
    match member(object, key)?.as_u64() {
        Some(litres) if is_pulse(litres) => Ok(litres as u16),
        _ => Err(ConfigFault::Wrong { key }),
    }
}

/// A string of eight decimal digits.
pub fn digits_at(object: &Value, key: u8) -> Result<u32, ConfigFault>
    ensures said { Answers (λ n. n) result (value_at key (name_of key) (digits 8) (view object.now)) }
    ensures range { IfOk result (λ n. n ≤ max_serial) }
{
    let Some(text) = member(object, key)?.as_str() else {
        return Err(ConfigFault::Wrong { key });
    };
    if text.len() != 8 {
        return Err(ConfigFault::Wrong { key });
    }
    digits_word(text.as_bytes()).ok_or(ConfigFault::Wrong { key })
}

/// A string of three letters A to Z.
pub fn capitals_at(object: &Value, key: u8) -> Result<[u8; 3], ConfigFault>
    ensures said { Answers (λ letters. letters) result (value_at key (name_of key) (capitals 3) (view object.now)) }
    ensures range { IfOk result (λ letters. IsTrue (list_all is_capital letters)) }
    ensures three { IfOk result (λ letters. length letters ≡ 3) }
{
    let Some(text) = member(object, key)?.as_str() else {
        return Err(ConfigFault::Wrong { key });
    };
    let letters = text.as_bytes();
    if letters.len() != 3 || !letters.iter().all(u8::is_ascii_uppercase) {
        return Err(ConfigFault::Wrong { key });
    }
    Ok([letters[0], letters[1], letters[2]])
}

/// The string `flow` or `return`.
pub fn place_at(object: &Value, key: u8) -> Result<Place, ConfigFault>
    ensures { Answers place_view result (value_at key (name_of key) place (view object.now)) }
{
    match member(object, key)?.as_str() {
        Some("flow") => Ok(Place::Flow),
        Some("return") => Ok(Place::Return),
        _ => Err(ConfigFault::Wrong { key }),
    }
}

/// A string `YYYY-MM-DD`, a date of 2000 to 2099.
pub fn date_at(object: &Value, key: u8) -> Result<Day, ConfigFault>
    ensures { Answers (λ day. day.number) result (value_at key (name_of key) date (view object.now)) }
{
    let Some(text) = member(object, key)?.as_str() else {
        return Err(ConfigFault::Wrong { key });
    };
    date_word(text.as_bytes()).ok_or(ConfigFault::Wrong { key })
}
