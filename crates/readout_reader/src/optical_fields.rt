use arrayvec::ArrayVec;
use billing_memory::Day;

/// A number of eight digits, as a display shows it.
#[derive(Clone, Copy, Debug, Default, PartialEq, Eq)]
pub struct Number {
    /// All digits, those behind the point too.
    pub digits: u32,
    /// How many of the digits stand behind the point, 0 to 3.
    pub decimals: u8,
}

/// An entry of a data message.
#[derive(Clone, Copy, Debug, PartialEq, Eq)]
pub struct Shown {
    /// 1 for the set day, and from 2 on for the months, the newest first.
    pub mark: u8,
    pub day: Day,
    /// Energy in kWh.
    pub energy: Number,
    /// Volume in m³.
    pub volume: Number,
}

impl Default for Shown {
    fn default() -> Self {
        Shown {
            mark: 0,
            day: Day { number: 0 },
            energy: Number::default(),
            volume: Number::default(),
        }
    }
}

/// What a data message says.
#[derive(Clone, Debug, PartialEq, Eq, Drop)]
pub struct OpticalFields {
    /// The serial number, of at most eight digits.
    pub serial: u32,
    /// Energy in kWh.
    pub energy: Number,
    /// Volume in m³.
    pub volume: Number,
    /// The day in force.
    pub day: Day,
    /// The entries in their order.
    pub entries: ArrayVec<Shown, 25>,
}
