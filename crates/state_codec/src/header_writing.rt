//! The header's bytes, written.

ghost use Rattle.std.specs.Prelude.{◌≡◌, ℕ, List, ◌∷◌, length, drop, Ok};
ghost use Rattle.meter_parts.specs.Views.{calibration_view, constants, place_view, sensor_ohm};
ghost use Rattle.meter_config.specs.Views.{config_view};
ghost use Rattle.byte_model.specs.Bytes.{AreBytes};
ghost use Rattle.memory_model.specs.Header.{header_in, header_size};
ghost use Rattle.state_codec.specs.Header.{place_code, identity_bytes, measuring_bytes, billing_bytes, settings_bytes, constants_bytes, calibration_bytes};

use crate::fields::fill_front;
use meter_config::Config;
use meter_parts::{Cal, Place, Sensor};

/// The bytes 1 to 255 of a memory with this configuration, to stand behind the mark A5.
///
/// [`decode_header`](crate::decode_header) reads the same configuration again. Of the bytes that it
/// reads as this configuration, all but byte 1 are those that are written here.
pub fn encode_header(c: &Config) -> [u8; 255]
    ensures read_again { header_in (165 ∷ result) ≡ Ok (config_view c.now) }
    ensures one_spelling { (bytes : List ℕ) → AreBytes bytes → length bytes ≡ header_size
        → header_in bytes ≡ Ok (config_view c.now) → drop 1 result ≡ drop 2 bytes }
{
    let mut out = [0; 255];
    fill_front(&mut out, &write_settings(c), &write_calibration(c), &[]);
    out
}

fn write_settings(c: &Config) -> [u8; 23]
    ensures { result ≡ settings_bytes (config_view c.now) }
{
    let mut out = [0; 23];
    fill_front(
        &mut out,
        &write_identity(c),
        &write_measuring(c),
        &write_billing(c),
    );
    out
}

#[tactic(auto, unfolding(crate::specs::Header::calibration_bytes))]
fn write_calibration(c: &Config) -> [u8; 28]
    ensures { result ≡ calibration_bytes (calibration_view c.now.cal) }
{
    match c.cal {
        None => [0; 28],
        Some((flow, ret)) => {
            let mut out = [0; 28];
            fill_front(
                &mut out,
                &[1, 0, 0, 0],
                &write_constants(flow),
                &write_constants(ret),
            );
            out
        }
    }
}

#[tactic(auto, unfolding(crate::specs::Header::constants_bytes))]
fn write_constants(cal: Cal) -> [u8; 12]
    ensures { result ≡ constants_bytes (constants cal) }
{
    let r = cal.r0_uohm.to_le_bytes();
    let a = cal.a_e10.to_le_bytes();
    let b = cal.b_e10.to_le_bytes();
    [
        r[0], r[1], r[2], r[3], a[0], a[1], a[2], a[3], b[0], b[1], 0, 0,
    ]
}

#[tactic(auto, unfolding(crate::specs::Header::identity_bytes))]
fn write_identity(c: &Config) -> [u8; 10]
    ensures { result ≡ identity_bytes (config_view c.now) }
{
    let s = c.serial.to_le_bytes();
    let m = c.maker;
    [
        1, s[0], s[1], s[2], s[3], m[0], m[1], m[2], c.version, c.address,
    ]
}

#[tactic(auto, unfolding(crate::specs::Header::measuring_bytes))]
fn write_measuring(c: &Config) -> [u8; 7]
    ensures { result ≡ measuring_bytes (config_view c.now) }
{
    let p = c.pressure_kpa.to_le_bytes();
    let s = ohm_of(c.sensor).to_le_bytes();
    let l = c.per_pulse.to_le_bytes();
    [code_of(c.place), p[0], p[1], s[0], s[1], l[0], l[1]]
}

#[tactic(auto, unfolding(crate::specs::Header::billing_bytes))]
fn write_billing(c: &Config) -> [u8; 6]
    ensures { result ≡ billing_bytes (config_view c.now) }
{
    let d = c.opening_day.number.to_le_bytes();
    [
        c.energy_decimals,
        c.volume_decimals,
        c.set_month,
        0,
        d[0],
        d[1],
    ]
}

fn code_of(place: Place) -> u8
    ensures { result ≡ place_code (place_view place) }
{
    match place {
        Place::Flow => 0,
        Place::Return => 1,
    }
}

fn ohm_of(sensor: Sensor) -> u16
    ensures { result ≡ sensor_ohm sensor }
{
    match sensor {
        Sensor::Pt100 => 100,
        Sensor::Pt500 => 500,
        Sensor::Pt1000 => 1_000,
    }
}
