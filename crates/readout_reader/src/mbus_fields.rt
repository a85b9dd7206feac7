use arrayvec::ArrayVec;
use meter_parts::Place;

/// What a data record is a value of.
#[derive(Clone, Copy, Debug, Default, PartialEq, Eq)]
pub enum Kind {
    /// Energy in Wh.
    #[default]
    Energy,
    /// Volume in m³.
    Volume,
    /// The temperature in the flow, in °C.
    FlowTemp,
    /// The temperature in the return, in °C.
    ReturnTemp,
    /// The temperature in the flow less that in the return, in °C.
    Difference,
    /// A date of 2000 to 2099, as the days since 2000-01-01.
    Date,
}

/// A data record.
#[derive(Clone, Copy, Debug, Default, PartialEq, Eq)]
pub struct Rec {
    /// 0 for a present value, 1 for the set day, and from 2 on for the months, the newest first.
    pub storage: u8,
    pub kind: Kind,
    /// The value, times 10^`exp` of its kind's unit.
    pub value: i64,
    pub exp: i8,
}

/// What a telegram says.
#[derive(Clone, Debug, PartialEq, Eq, Drop)]
pub struct MbusFields {
    /// The meter's address on the bus, at most [`meter_parts::MAX_ADDRESS`].
    pub address: u8,
    /// The serial number, of at most eight digits.
    pub serial: u32,
    /// The maker's three letters.
    pub maker: [u8; 3],
    pub version: u8,
    /// The pipe in which the flow sensor sits.
    pub place: Place,
    /// The telegram's number, counted by the meter modulo 256.
    pub access: u8,
    pub status: u8,
    /// The data records in their order: 240 bytes hold 60 at most.
    pub records: ArrayVec<Rec, 64>,
    /// Whether a further telegram of the reading follows.
    pub more: bool,
}
