ghost use Rattle.std.specs.Prelude.{◌≡◌, ◌∷◌, [], ◌≤◌, IsTrue, None};
ghost use Rattle.std.specs.Int.{IsInRange};
ghost use Rattle.std.specs.List.{list_all};
ghost use Rattle.config_model.specs.Configuration.{is_calibration};
ghost use Rattle.parts_model.specs.Ranges.{is_capital, is_pulse, last_month, max_address, max_decimals, max_pressure_kpa, max_serial, min_pressure_kpa};
ghost use Rattle.meter_parts.specs.Views.{calibration_view, sensor_ohm};

use billing_memory::Day;
use meter_parts::{Cal, Place, Sensor};

/// What a meter is told once, before it counts.
#[derive(Clone, Copy, Debug, PartialEq, Eq)]
pub struct Config {
    /// The serial number, at most [`meter_parts::MAX_SERIAL`].
    pub serial: u32,
    /// The three letters of the maker, A to Z in ASCII.
    pub maker: [u8; 3],
    /// The maker's version of the meter.
    pub version: u8,
    /// The primary address on the M-Bus (EN 13757-2), at most [`meter_parts::MAX_ADDRESS`].
    pub address: u8,
    /// The pipe in which the flow sensor sits.
    pub place: Place,
    /// The pressure of the water in kPa, [`meter_parts::MIN_PRESSURE_KPA`] to [`meter_parts::MAX_PRESSURE_KPA`].
    pub pressure_kpa: u16,
    /// The kind of both temperature sensors.
    pub sensor: Sensor,
    /// The litres that a pulse of the flow sensor stands for: 1, 10, 100 or 1,000.
    pub per_pulse: u16,
    /// The decimals that energy is shown with in kWh, at most [`meter_parts::MAX_DECIMALS`].
    pub energy_decimals: u8,
    /// The decimals that volume is shown with in m³, at most [`meter_parts::MAX_DECIMALS`].
    pub volume_decimals: u8,
    /// The month of the year whose first day is the set day, 1 to 12.
    pub set_month: u8,
    /// The day on which the meter begins to count.
    pub opening_day: Day,
    /// The constants of the sensors in the flow and in the return, where they are calibrated.
    pub cal: Option<(Cal, Cal)>,
    pub ghost serial_in_range: { serial ≤ max_serial },
    pub ghost maker_in_range: { IsTrue (list_all is_capital maker) },
    pub ghost address_in_range: { address ≤ max_address },
    pub ghost pressure_in_range: { IsInRange min_pressure_kpa max_pressure_kpa pressure_kpa },
    pub ghost per_pulse_in_range: { IsTrue (is_pulse per_pulse) },
    pub ghost energy_decimals_in_range: { energy_decimals ≤ max_decimals },
    pub ghost volume_decimals_in_range: { volume_decimals ≤ max_decimals },
    pub ghost set_month_in_range: { IsInRange 1 last_month set_month },
    pub ghost cal_fits: { IsTrue (is_calibration (sensor_ohm sensor) (calibration_view cal)) },
}

impl Config {
    ghost use Rattle.meter_parts.specs.declared.place.Place.TheVariants.{Return};
    ghost use Rattle.meter_parts.specs.declared.sensor.Sensor.TheVariants.{Pt500};

    /// The configuration that a meter has where no other is asked for.
    pub fn standard() -> Config
        ensures serial { result.serial ≡ 12345678 }
        ensures maker { result.maker ≡ 65 ∷ 66 ∷ 67 ∷ [] }
        ensures version { result.version ≡ 1 }
        ensures address { result.address ≡ 1 }
        ensures place { result.place ≡ Return }
        ensures pressure { result.pressure_kpa ≡ 1600 }
        ensures sensor { result.sensor ≡ Pt500 }
        ensures per_pulse { result.per_pulse ≡ 10 }
        ensures energy_decimals { result.energy_decimals ≡ 0 }
        ensures volume_decimals { result.volume_decimals ≡ 2 }
        ensures set_month { result.set_month ≡ 1 }
        ensures opening_day { result.opening_day.number ≡ 8780 }
        ensures cal { result.cal ≡ None }
    {
        Config {
            serial: 12_345_678,
            maker: *b"ABC",
            version: 1,
            address: 1,
            place: Place::Return,
            pressure_kpa: 1_600,
            sensor: Sensor::Pt500,
            per_pulse: 10,
            energy_decimals: 0,
            volume_decimals: 2,
            set_month: 1,
            opening_day: Day { number: 8_780 },
            cal: None,
        }
    }
}
