//! What the key `calibration` says: constants of the sensors in the flow and in the return.

ghost use Rattle.std.specs.Prelude.{◌≡◌, codes, cond, IfOk, IfSome, IsTrue, None, Some, option_map};
ghost use Rattle.serde_json.specs.Find.{as_object, get};
ghost use Rattle.serde_json.specs.View.{view};
ghost use Rattle.platinum_model.specs.Calibration.{fits};
ghost use Rattle.config_model.specs.Configuration.{is_calibration};
ghost use Rattle.accept_model.specs.Calibration.{are_six, calibration, constants_at, number_at};
ghost use Rattle.accept_model.specs.Accepted.{calibration_in};
ghost use Rattle.meter_parts.specs.Views.{calibration_view, constants, nominal_r0, sensor_ohm};
ghost use Rattle.meter_config.specs.Faults.{Answers};

use crate::fault::ConfigFault;
use meter_parts::{Cal, Sensor};
use serde_json::Value;

/// The number of the key `calibration`.
const KEY: u8 = 12;

/// The constants of both sensors, where the key is there: an object of the six keys `flow_r0`, `flow_a`,
/// `flow_b`, `return_r0`, `return_a` and `return_b`, whole numbers that fit the sensor.
pub fn calibration_at(object: &Value, sensor: Sensor) -> Result<Option<(Cal, Cal)>, ConfigFault>
    ensures said { Answers calibration_view result
        (calibration_in (sensor_ohm sensor) (get (codes "calibration") (view object.now))) }
    ensures range { IfOk result (λ cal. IsTrue (is_calibration (sensor_ohm sensor) (calibration_view cal))) }
{
    match object.get("calibration") {
        None => Ok(None),
        Some(value) => match both_in(value, sensor) {
            Some(cal) => Ok(Some(cal)),
            None => Err(ConfigFault::Wrong { key: KEY }),
        },
    }
}

fn both_in(value: &Value, sensor: Sensor) -> Option<(Cal, Cal)>
    ensures said { calibration_view result ≡ calibration (sensor_ohm sensor) (view value.now) }
    ensures range { IsTrue (is_calibration (sensor_ohm sensor) (calibration_view result)) }
{
    if !has_six(value) {
        return None;
    }
    let flow = cal_in(value, "flow_r0", "flow_a", "flow_b", sensor);
    let ret = cal_in(value, "return_r0", "return_a", "return_b", sensor);
    match (flow, ret) {
        (Some(flow), Some(ret)) => Some((flow, ret)),
        _ => None,
    }
}

fn has_six(value: &Value) -> bool
    ensures { result ≡ are_six (as_object (view value.now)) }
{
    match value.as_object() {
        Some(object) => object.len() == 6,
        None => false,
    }
}

fn cal_in(value: &Value, r0: &str, a: &str, b: &str, sensor: Sensor) -> Option<Cal>
    ensures said { option_map constants result ≡ constants_at r0.now a.now b.now (sensor_ohm sensor) (view value.now) }
    ensures fits { IfSome result (λ c. IsTrue (fits (constants c) (nominal_r0 sensor))) }
{
    match (
        number_in(value, r0),
        number_in(value, a),
        number_in(value, b),
    ) {
        (Some(r0), Some(a), Some(b)) => fitting(r0, a, b, sensor),
        _ => None,
    }
}

fn number_in(value: &Value, name: &str) -> Option<u64>
    ensures { result ≡ number_at name.now (view value.now) }
{
    match value.get(name) {
        Some(number) => number.as_u64(),
        None => None,
    }
}

// The constants, where they fit the sensor.
fn fitting(r0: u64, a: u64, b: u64, sensor: Sensor) -> Option<Cal>
    ensures fits { IfSome result (λ c. IsTrue (fits (constants c) (nominal_r0 sensor))) }
    ensures said { option_map constants result ≡ cond (fits (record { r0_uohm = r0; a_e10 = a; b_e10 = b }) (nominal_r0 sensor)) (Some (record { r0_uohm = r0; a_e10 = a; b_e10 = b })) None }
{
    let (Ok(r0_uohm), Ok(a_e10), Ok(b_e10)) = (
        u32::try_from(r0),
        u32::try_from(a),
        u16::try_from(b),
    ) else {
        return None;
    };
    let cal = Cal {
        r0_uohm,
        a_e10,
        b_e10,
    };
    if cal.fits(sensor) { Some(cal) } else { None }
}
