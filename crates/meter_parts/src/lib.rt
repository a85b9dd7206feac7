//! What the configuration of a meter is made of: the place of the flow sensor, the kind of the temperature sensors, the
//! constants of calibrated ones, and the range of each part.
#![tactic(auto)]

mod cal;
mod place;
mod ranges;
mod sensor;

pub use cal::Cal;
pub use place::Place;
pub use ranges::{
    LAST_MONTH, MAX_ADDRESS, MAX_DECIMALS, MAX_PRESSURE_KPA, MAX_SERIAL, MAX_VERSION,
    MIN_PRESSURE_KPA, is_address, is_decimals, is_pressure, is_pulse, is_serial, is_set_month,
};
pub use sensor::Sensor;
