//! The header, read.

ghost use Rattle.std.specs.Prelude.{◌≡◌, ◌+◌, ◌≤◌, IfOk, IfSome, IsTrue, None, false, true, length, option_map, slice_index};
ghost use Rattle.platinum_model.specs.Calibration.{fits};
ghost use Rattle.config_model.specs.Configuration.{is_calibration};
ghost use Rattle.meter_parts.specs.Views.{calibration_view, constants, nominal_r0, sensor_ohm};
ghost use Rattle.meter_config.specs.Views.{config_view};
ghost use Rattle.memory_model.specs.Fields.{value, zero_bytes};
ghost use Rattle.memory_model.specs.Header.{are_calibrated, billing_fields, calibrated_fields, calibration_fields, constants_fields, constants_of, header_in, header_size, identity_fields, measuring_fields, sensor_field};
ghost use Rattle.state_codec.specs.Reading.{Gives, Passes, checked};
ghost use Rattle.state_codec.specs.Header.{identity_view, identity_of, measuring_view, measuring_of, billing_view, billing_of, calibration_of};

use crate::Foreign;
use crate::fields::{u8_at, u16_at, u32_at};
use crate::header_parts::{Billing, Identity, Measuring};
use billing_memory::{Day, is_day};
use meter_config::Config;
use meter_parts::{
    Cal, Place, Sensor, is_address, is_decimals, is_pressure, is_pulse, is_serial, is_set_month,
};

/// How many bytes of a memory its header has, from byte 0 on.
pub const HEADER_SIZE: usize = 256;

/// The configuration that the header of a memory holds. Byte 0 is the mark A5.
///
/// # Errors
/// [`Foreign`] with the offset of the first field that breaks its rule.
pub fn decode_header(bytes: &[u8; HEADER_SIZE]) -> Result<Config, Foreign>
    requires { slice_index bytes.now 0 ≡ 165 }
    ensures { Gives config_view result (header_in bytes.now) }
{
    read_header(bytes.as_slice())
}

fn read_header(bytes: &[u8]) -> Result<Config, Foreign>
    requires { length bytes.now ≡ header_size }
    ensures { Gives config_view result (header_in bytes.now) }
{
    let identity = read_identity(bytes)?;
    let measuring = read_measuring(bytes)?;
    let billing = read_billing(bytes)?;
    let cal = read_calibration(bytes, measuring.sensor)?;
    check_blank(bytes)?;
    let maker = identity.maker;
    Ok(Config {
        serial: identity.serial,
        maker,
        version: identity.version,
        address: identity.address,
        place: measuring.place,
        pressure_kpa: measuring.pressure_kpa,
        sensor: measuring.sensor,
        per_pulse: measuring.per_pulse,
        energy_decimals: billing.energy_decimals,
        volume_decimals: billing.volume_decimals,
        set_month: billing.set_month,
        opening_day: billing.opening_day,
        cal,
    })
}

fn read_identity(bytes: &[u8]) -> Result<Identity, Foreign>
    requires { length bytes.now ≡ header_size }
    ensures { Gives identity_view result (checked identity_fields bytes.now (identity_of bytes.now)) }
{
    if u8_at(bytes, 1) % 2 != 1 {
        return Err(Foreign { at: 1 });
    }
    let serial = u32_at(bytes, 2);
    if !is_serial(serial) {
        return Err(Foreign { at: 2 });
    }
    let maker = [u8_at(bytes, 6), u8_at(bytes, 7), u8_at(bytes, 8)];
    if !maker[0].is_ascii_uppercase() {
        return Err(Foreign { at: 6 });
    }
    if !maker[1].is_ascii_uppercase() {
        return Err(Foreign { at: 7 });
    }
    if !maker[2].is_ascii_uppercase() {
        return Err(Foreign { at: 8 });
    }
    let address = u8_at(bytes, 10);
    if !is_address(address) {
        return Err(Foreign { at: 10 });
    }
    Ok(Identity {
        serial,
        maker,
        version: u8_at(bytes, 9),
        address,
    })
}

fn read_measuring(bytes: &[u8]) -> Result<Measuring, Foreign>
    requires { length bytes.now ≡ header_size }
    ensures { Gives measuring_view result (checked measuring_fields bytes.now (measuring_of bytes.now)) }
{
    let place = match u8_at(bytes, 11) {
        0 => Place::Flow,
        1 => Place::Return,
        _ => return Err(Foreign { at: 11 }),
    };
    let pressure_kpa = u16_at(bytes, 12);
    if !is_pressure(pressure_kpa) {
        return Err(Foreign { at: 12 });
    }
    let Some(sensor) = Sensor::of_ohm(u64::from(u16_at(bytes, 14))) else {
        return Err(Foreign { at: 14 });
    };
    let per_pulse = u16_at(bytes, 16);
    if !is_pulse(u64::from(per_pulse)) {
        return Err(Foreign { at: 16 });
    }
    Ok(Measuring {
        place,
        pressure_kpa,
        sensor,
        per_pulse,
    })
}

fn read_billing(bytes: &[u8]) -> Result<Billing, Foreign>
    requires { length bytes.now ≡ header_size }
    ensures { Gives billing_view result (checked billing_fields bytes.now (billing_of bytes.now)) }
{
    let energy_decimals = u8_at(bytes, 18);
    if !is_decimals(energy_decimals) {
        return Err(Foreign { at: 18 });
    }
    let volume_decimals = u8_at(bytes, 19);
    if !is_decimals(volume_decimals) {
        return Err(Foreign { at: 19 });
    }
    let set_month = u8_at(bytes, 20);
    if !is_set_month(set_month) {
        return Err(Foreign { at: 20 });
    }
    if u8_at(bytes, 21) != 0 {
        return Err(Foreign { at: 21 });
    }
    let number = u16_at(bytes, 22);
    if !is_day(number) {
        return Err(Foreign { at: 22 });
    }
    Ok(Billing {
        energy_decimals,
        volume_decimals,
        set_month,
        opening_day: Day { number },
    })
}

// The constants of both sensors, where they are calibrated.
fn read_calibration(bytes: &[u8], sensor: Sensor) -> Result<Option<(Cal, Cal)>, Foreign>
    requires size { length bytes.now ≡ header_size }
    requires sensor { value sensor_field bytes.now ≡ sensor_ohm sensor }
    ensures said { Gives calibration_view result (checked calibration_fields bytes.now (calibration_of bytes.now)) }
    ensures fits { IfOk result (λ cal. IsTrue (is_calibration (sensor_ohm sensor) (calibration_view cal))) }
{
    let calibrated = read_calibrated(bytes)?;
    let flow = read_cal(bytes, 28, calibrated, sensor)?;
    let ret = read_cal(bytes, 40, calibrated, sensor)?;
    match (flow, ret) {
        (Some(flow), Some(ret)) => Ok(Some((flow, ret))),
        _ => Ok(None),
    }
}

fn read_calibrated(bytes: &[u8]) -> Result<bool, Foreign>
    requires { length bytes.now ≡ header_size }
    ensures { Gives (λ b. b) result (checked calibrated_fields bytes.now (are_calibrated bytes.now)) }
{
    let calibrated = match u8_at(bytes, 24) {
        0 => false,
        1 => true,
        _ => return Err(Foreign { at: 24 }),
    };
    if u8_at(bytes, 25) != 0 {
        return Err(Foreign { at: 25 });
    }
    if u8_at(bytes, 26) != 0 {
        return Err(Foreign { at: 26 });
    }
    if u8_at(bytes, 27) != 0 {
        return Err(Foreign { at: 27 });
    }
    Ok(calibrated)
}

// The constants of one sensor, in the 12 bytes from `at` on.
fn read_cal(
    bytes: &[u8],
    at: usize,
    calibrated: bool,
    sensor: Sensor,
) -> Result<Option<Cal>, Foreign>
    requires size { length bytes.now ≡ header_size }
    requires place { at + 12 ≤ header_size }
    requires calibrated { are_calibrated bytes.now ≡ calibrated }
    requires sensor { value sensor_field bytes.now ≡ sensor_ohm sensor }
    ensures said { Gives (option_map constants) result (checked (constants_fields at) bytes.now (constants_of at bytes.now)) }
    ensures fits { IfOk result (λ cal. IfSome cal (λ c. IsTrue (fits (constants c) (nominal_r0 sensor)))) }
{
    if calibrated {
        read_constants(bytes, at, sensor)
    } else {
        read_no_constants(bytes, at)
    }
}

#[tactic(auto, unfolding(memory_model::specs::Header::constants_of))]
fn read_constants(bytes: &[u8], at: usize, sensor: Sensor) -> Result<Option<Cal>, Foreign>
    requires size { length bytes.now ≡ header_size }
    requires place { at + 12 ≤ header_size }
    requires calibrated { are_calibrated bytes.now ≡ true }
    requires sensor { value sensor_field bytes.now ≡ sensor_ohm sensor }
    ensures said { Gives (option_map constants) result (checked (constants_fields at) bytes.now (constants_of at bytes.now)) }
    ensures fits { IfOk result (λ cal. IfSome cal (λ c. IsTrue (fits (constants c) (nominal_r0 sensor)))) }
{
    let cal = Cal {
        r0_uohm: u32_at(bytes, at),
        a_e10: u32_at(bytes, at + 4),
        b_e10: u16_at(bytes, at + 8),
    };
    if !cal.r0_fits(sensor) {
        return Err(Foreign { at: at as u32 });
    }
    if !cal.a_fits() {
        return Err(Foreign { at: at as u32 + 4 });
    }
    if !cal.b_fits() {
        return Err(Foreign { at: at as u32 + 8 });
    }
    if u8_at(bytes, at + 10) != 0 {
        return Err(Foreign { at: at as u32 + 10 });
    }
    if u8_at(bytes, at + 11) != 0 {
        return Err(Foreign { at: at as u32 + 11 });
    }
    Ok(Some(cal))
}

#[tactic(auto, unfolding(memory_model::specs::Header::constants_of))]
fn read_no_constants(bytes: &[u8], at: usize) -> Result<Option<Cal>, Foreign>
    requires size { length bytes.now ≡ header_size }
    requires place { at + 12 ≤ header_size }
    requires calibrated { are_calibrated bytes.now ≡ false }
    ensures said { Gives (option_map constants) result (checked (constants_fields at) bytes.now (constants_of at bytes.now)) }
    ensures none { IfOk result (λ cal. cal ≡ None) }
{
    if u32_at(bytes, at) != 0 {
        return Err(Foreign { at: at as u32 });
    }
    if u32_at(bytes, at + 4) != 0 {
        return Err(Foreign { at: at as u32 + 4 });
    }
    if u16_at(bytes, at + 8) != 0 {
        return Err(Foreign { at: at as u32 + 8 });
    }
    if u8_at(bytes, at + 10) != 0 {
        return Err(Foreign { at: at as u32 + 10 });
    }
    if u8_at(bytes, at + 11) != 0 {
        return Err(Foreign { at: at as u32 + 11 });
    }
    Ok(None)
}

// The bytes from 52 on are 0.
fn check_blank(bytes: &[u8]) -> Result<(), Foreign>
    requires { length bytes.now ≡ header_size }
    ensures { Passes (zero_bytes 52 204) bytes.now result }
{
    for at in 52..HEADER_SIZE {
        if u8_at(bytes, at) != 0 {
            return Err(Foreign { at: at as u32 });
        }
    }
    Ok(())
}
