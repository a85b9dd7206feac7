//! What a display of eight digits shows of a register.

ghost use Rattle.std.specs.Prelude.{◌≡◌, ◌+◌, ◌*◌, ◌<◌, ◌≤◌, ◌^◌, ◌/◌, pos, nat_abs};
ghost use Rattle.display_model.specs.Display.{energy_unit, volume_unit, shown_digits, eight_digits, pointed};

use crate::Register;
use arrayvec::ArrayString;

impl Register {
    /// The eight digits of the energy in kWh with 0 to 3 decimals, rounded down, modulo 10^8.
    pub fn energy_digits(&self, decimals: u8) -> u32
        requires { decimals ≤ 3 }
        ensures value { result ≡ shown_digits self.now.energy_mj (energy_unit decimals) }
        ensures range { result < 10 ^ 8 }
    {
        let unit = last_unit(3_600_000_000, decimals);
        let units = self.energy_mj.div_euclid(i128::from(unit));
        units.rem_euclid(100_000_000) as u32
    }

    /// The eight digits of the volume in m³ with 0 to 3 decimals, rounded down, modulo 10^8, where
    /// a pulse stands for `per_pulse` litres.
    pub fn volume_digits(&self, per_pulse: u16, decimals: u8) -> u32
        requires { decimals ≤ 3 }
        ensures value { result ≡ shown_digits (pos (self.now.pulses * per_pulse)) (volume_unit decimals) }
        ensures range { result < 10 ^ 8 }
    {
        let unit = last_unit(1_000, decimals);
        (self.litres(per_pulse) / u128::from(unit) % 100_000_000) as u32
    }
}

// The unit of the last of 0 to 3 decimals, where a whole is so many.
fn last_unit(whole: u32, decimals: u8) -> u32
    requires large { 1000 ≤ whole }
    requires few { decimals ≤ 3 }
    ensures value { result ≡ whole / 10 ^ decimals }
    ensures positive { 0 < result }
{
    whole / 10_u32.pow(u32::from(decimals))
}

/// The text of a display: `digits`, below 10^8, in eight digits, with a point before the last
/// `decimals`, 0 to 3, of them where there are some.
pub fn digits_text(digits: u32, decimals: u8) -> ArrayString<9>
    requires eight { digits < 10 ^ 8 }
    requires few { decimals ≤ 3 }
    ensures { result.bytes ≡ pointed decimals (eight_digits digits) }
{
    let mut text = ArrayString::new();
    for place in (0..8_u8).rev() {
        text.push(char::from(b'0' + (digits / 10_u32.pow(u32::from(place)) % 10) as u8));
        if place > 0 && place == decimals {
            text.push('.');
        }
    }
    text
}
