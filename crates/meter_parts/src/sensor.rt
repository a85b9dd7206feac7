/// The sensors of IEC 60751 that are read, named for their resistance at 0 °C in ohms.
#[derive(Clone, Copy, Debug, PartialEq, Eq)]
pub enum Sensor {
    Pt100,
    Pt500,
    Pt1000,
}

impl Sensor {
    ghost use Rattle.std.specs.Prelude.{◌≡◌, None, Some, cond};
    ghost use Rattle.std.specs.Option.{option_map};
    ghost use Rattle.parts_model.specs.Ranges.{is_sensor};
    ghost use Rattle.meter_parts.specs.Views.{nominal_r0, sensor_ohm};

    /// The sensor with this resistance at 0 °C in ohms, where there is one.
    pub fn of_ohm(ohm: u64) -> Option<Sensor>
        ensures { option_map sensor_ohm result ≡ cond (is_sensor ohm) (Some ohm) None }
    {
        match ohm {
            100 => Some(Sensor::Pt100),
            500 => Some(Sensor::Pt500),
            1_000 => Some(Sensor::Pt1000),
            _ => None,
        }
    }

    /// The nominal resistance at 0 °C in microohms.
    pub fn nominal_r0(self) -> u32
        ensures { result ≡ nominal_r0 self }
    {
        match self {
            Sensor::Pt100 => 100_000_000,
            Sensor::Pt500 => 500_000_000,
            Sensor::Pt1000 => 1_000_000_000,
        }
    }
}
