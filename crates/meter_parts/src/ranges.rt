//! The range of each part of a configuration.

ghost use Rattle.std.specs.Prelude.{◌≡◌, ◌≤◌, IsTrue};
ghost use Rattle.parts_model.specs.Ranges.{is_address, is_decimals, is_pressure, is_pulse, is_serial, is_set_month};

/// The greatest serial number, of eight digits.
pub const MAX_SERIAL: u32 = 99_999_999;

/// The greatest version, that of a byte.
pub const MAX_VERSION: u8 = 255;

/// The last primary address on the M-Bus (EN 13757-2).
pub const MAX_ADDRESS: u8 = 250;

/// The least pressure of the water in kPa.
pub const MIN_PRESSURE_KPA: u16 = 1_100;

/// The greatest pressure of the water in kPa.
pub const MAX_PRESSURE_KPA: u16 = 4_000;

/// The most decimals that energy and volume are shown with.
pub const MAX_DECIMALS: u8 = 3;

/// The months of a year.
pub const LAST_MONTH: u8 = 12;

/// Whether a meter may have this serial number.
pub fn is_serial(serial: u32) -> bool
    ensures { result ≡ is_serial serial }
{
    serial <= MAX_SERIAL
}

/// Whether a meter may have this address on the bus.
pub fn is_address(address: u8) -> bool
    ensures { result ≡ is_address address }
{
    address <= MAX_ADDRESS
}

/// Whether the water may have this pressure in kPa.
pub fn is_pressure(kpa: u16) -> bool
    ensures { result ≡ is_pressure kpa }
{
    (MIN_PRESSURE_KPA..=MAX_PRESSURE_KPA).contains(&kpa)
}

/// Whether a pulse may stand for so many litres: 1, 10, 100 or 1,000.
pub fn is_pulse(litres: u64) -> bool
    ensures is { result ≡ is_pulse litres }
    ensures most { IsTrue result → litres ≤ 1000 }
{
    matches!(litres, 1 | 10 | 100 | 1_000)
}

/// Whether energy and volume may be shown with so many decimals.
pub fn is_decimals(decimals: u8) -> bool
    ensures { result ≡ is_decimals decimals }
{
    decimals <= MAX_DECIMALS
}

/// Whether the set day may lie in this month of the year, from 1.
pub fn is_set_month(month: u8) -> bool
    ensures { result ≡ is_set_month month }
{
    (1..=LAST_MONTH).contains(&month)
}
