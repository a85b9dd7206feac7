//! A configuration from its text.

ghost use Rattle.std.specs.Prelude.{◌≡◌, ◌≢◌, ◌<◌, IfErr, IfOk, Err, Ok, Some, length};
ghost use Rattle.serde_json.specs.View.{view};
ghost use Rattle.config_model.specs.Configuration.{IsConfiguration};
ghost use Rattle.accept_model.specs.Accepted.{accepted, of_value, said_by};
ghost use Rattle.meter_config.specs.Faults.{Answers, Refuses};
ghost use Rattle.meter_config.specs.Views.{config_view};
ghost use Rattle.meter_config.specs.declared.fault.ConfigFault.TheVariants.{OutOfMemory, TooLong};

use crate::calibration::calibration_at;
use crate::config::Config;
use crate::fault::ConfigFault;
use crate::keys::other_key;
use crate::values::{
    byte_at, capitals_at, date_at, digits_at, place_at, pulse_at, sensor_at, whole_at,
};
use meter_parts::{
    LAST_MONTH, MAX_ADDRESS, MAX_DECIMALS, MAX_PRESSURE_KPA, MAX_VERSION, MIN_PRESSURE_KPA,
};
use serde_json::Value;
use std::alloc::Global;

/// The most bytes of a configuration's text.
const MAX_TEXT: usize = 4_096;

/// Reads a configuration from a text: one JSON object with the keys of [`crate::key_name`], and no other,
/// each with a value in the range of the field of [`Config`] that it is for; `calibration` alone may be
/// absent. `serial` is a string of eight digits, `maker` one of three letters A to Z, `place` is `"flow"` or
/// `"return"`, `opening_day` is a string `YYYY-MM-DD`, and `calibration` an object of the whole numbers
/// `flow_r0`, `flow_a`, `flow_b`, `return_r0`, `return_a` and `return_b`, the fields of [`meter_parts::Cal`] of
/// the two sensors. All other values are whole numbers. Of a repeated key the last value stands.
///
/// # Errors
/// [`ConfigFault`], the first cause that is met, in the order of its variants. Missing and Wrong are looked
/// for together, key by key. OutOfMemory comes for want of memory alone, and not where the text is too long.
pub fn read_config(alloc: Global, text: &[u8]) -> Result<Config, ConfigFault>
    ensures ok { IfOk result (λ c. accepted text.now ≡ Ok (config_view c)) }
    ensures range { IfOk result (λ c. IsConfiguration (config_view c)) }
    ensures err { IfErr result (λ e. e ≢ OutOfMemory → Refuses e (accepted text.now)) }
    ensures too_long { 4096 < length text.now → result ≡ Err TooLong }
{
    if text.len() > MAX_TEXT {
        return Err(ConfigFault::TooLong);
    }
    match Value::from_slice(alloc, text) {
        Ok(value) => config_of(&value),
        Err(e) if e.is_memory() => Err(ConfigFault::OutOfMemory),
        Err(_) => Err(ConfigFault::Text),
    }
}

fn config_of(value: &Value) -> Result<Config, ConfigFault>
    ensures said { Answers config_view result (of_value (Some (view value.now))) }
    ensures range { IfOk result (λ c. IsConfiguration (config_view c)) }
{
    let Some(object) = value.as_object() else {
        return Err(ConfigFault::NotObject);
    };
    let config = keyed_config(value)?;
    match other_key(object) {
        Some(place) => Err(ConfigFault::Unknown { place }),
        None => Ok(config),
    }
}

// What the keys of an object say.
fn keyed_config(object: &Value) -> Result<Config, ConfigFault>
    ensures said { Answers config_view result (said_by (view object.now)) }
    ensures range { IfOk result (λ c. IsConfiguration (config_view c)) }
{
    let serial = digits_at(object, 0)?;
    let maker = capitals_at(object, 1)?;
    let version = byte_at(object, 2, 0, MAX_VERSION)?;
    let address = byte_at(object, 3, 0, MAX_ADDRESS)?;
    let place = place_at(object, 4)?;
    let pressure_kpa = whole_at(object, 5, MIN_PRESSURE_KPA, MAX_PRESSURE_KPA)?;
    let sensor = sensor_at(object, 6)?;
    let per_pulse = pulse_at(object, 7)?;
    let energy_decimals = byte_at(object, 8, 0, MAX_DECIMALS)?;
    let volume_decimals = byte_at(object, 9, 0, MAX_DECIMALS)?;
    let set_month = byte_at(object, 10, 1, LAST_MONTH)?;
    let opening_day = date_at(object, 11)?;
    let cal = calibration_at(object, sensor)?;
    Ok(Config {
        serial,
        maker,
        version,
        address,
        place,
        pressure_kpa,
        sensor,
        per_pulse,
        energy_decimals,
        volume_decimals,
        set_month,
        opening_day,
        cal,
    })
}
