//! The keys of a configuration's text.

ghost use Rattle.std.specs.Prelude.{◌≡◌, MatchResult, Some, None};
ghost use Rattle.std.specs.List.{list_any, position, range_with_len};
ghost use Rattle.std.specs.Str.{bytes_eq};
ghost use Rattle.std.specs.BTreeMap.{IsOrdered, keys};
ghost use Rattle.std.specs.String.{string_bytes, string_cmp};
ghost use Rattle.serde_json.specs.Find.{get};
ghost use Rattle.serde_json.specs.View.{view, members_view};
ghost use Rattle.accept_model.specs.Keys.{name_of};
ghost use Rattle.accept_model.specs.Accepted.{is_other, other_key as other_key_of};
ghost use Rattle.meter_config.specs.declared.fault.ConfigFault.TheVariants.{Missing};

use crate::fault::ConfigFault;
use serde_json::{Map, Value};

/// How many keys there are. Their numbers begin at 0.
const KEY_COUNT: u8 = 13;

/// The name of the key of this number, and nothing for a number that is no key's.
#[tactic(auto, unfolding(accept_model::specs::Keys::keys, accept_model::specs::Keys::key_names))]
pub fn key_name(key: u8) -> &'static str
    ensures { result.now ≡ name_of key }
{
    match key {
        0 => "serial",
        1 => "maker",
        2 => "version",
        3 => "address",
        4 => "place",
        5 => "pressure_kpa",
        6 => "sensor",
        7 => "litres_per_pulse",
        8 => "energy_decimals",
        9 => "volume_decimals",
        10 => "set_month",
        11 => "opening_day",
        12 => "calibration",
        _ => "",
    }
}

/// What an object has under the key of this number.
pub fn member(object: &Value, key: u8) -> Result<&Value, ConfigFault>
    ensures { MatchResult result
        (λ value. get (name_of key) (view object.now) ≡ Some (view value.now))
        (λ e. (e ≡ Missing key) × (get (name_of key) (view object.now) ≡ None)) }
{
    let name = key_name(key);
    match object.get(name) {
        Some(value) => Ok(value),
        None => Err(ConfigFault::Missing { key }),
    }
}

/// The place, from 0, of the first name that is no key's among the names of an object's members, in the
/// order of their bytes.
pub fn other_key(object: &Map<String, Value>) -> Option<u32>
    ensures { result ≡ other_key_of (members_view object.now.entries) }
{
    match first_other(object) {
        // The names before it are keys, so there are at most thirteen.
        Some(place) => Some(place as u32),
        None => None,
    }
}

fn first_other(object: &Map<String, Value>) -> Option<usize>
    ensures place { result ≡ position (λ name. is_other (string_bytes name)) (keys object.now) }
    ensures ordered { IsOrdered string_cmp object.now }
{
    object.keys().position(|name| is_other(name.as_str()))
}

fn is_other(name: &str) -> bool
    ensures { result ≡ is_other name.now }
{
    !is_key(name)
}

fn is_key(name: &str) -> bool
    ensures { result ≡ list_any (λ key. bytes_eq (name_of key) name.now) (range_with_len 0 13) }
{
    (0..KEY_COUNT).any(|key| key_name(key) == name)
}
