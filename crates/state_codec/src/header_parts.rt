//! The parts of a configuration, as they follow each other in the header.

ghost use Rattle.std.specs.Prelude.{◌≤◌, IsTrue};
ghost use Rattle.std.specs.List.{list_all};
ghost use Rattle.std.specs.Int.{IsInRange};
ghost use Rattle.parts_model.specs.Ranges.{is_capital, is_pulse, last_month, max_address, max_decimals, max_pressure_kpa, max_serial, min_pressure_kpa};

use billing_memory::Day;
use meter_parts::{Place, Sensor};

/// Which meter it is.
#[derive(Clone, Copy)]
pub(crate) struct Identity {
    pub serial: u32,
    pub maker: [u8; 3],
    pub version: u8,
    pub address: u8,
    pub ghost serial_in_range: { serial ≤ max_serial },
    pub ghost maker_in_range: { IsTrue (list_all is_capital maker) },
    pub ghost address_in_range: { address ≤ max_address },
}

/// How it measures.
#[derive(Clone, Copy)]
pub(crate) struct Measuring {
    pub place: Place,
    pub pressure_kpa: u16,
    pub sensor: Sensor,
    pub per_pulse: u16,
    pub ghost pressure_in_range: { IsInRange min_pressure_kpa max_pressure_kpa pressure_kpa },
    pub ghost per_pulse_in_range: { IsTrue (is_pulse per_pulse) },
}

/// What it shows and keeps.
#[derive(Clone, Copy)]
pub(crate) struct Billing {
    pub energy_decimals: u8,
    pub volume_decimals: u8,
    pub set_month: u8,
    pub opening_day: Day,
    pub ghost energy_decimals_in_range: { energy_decimals ≤ max_decimals },
    pub ghost volume_decimals_in_range: { volume_decimals ≤ max_decimals },
    pub ghost set_month_in_range: { IsInRange 1 last_month set_month },
}
