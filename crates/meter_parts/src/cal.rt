use crate::sensor::Sensor;

/// The constants of a calibrated sensor: those of R(t) = R0 (1 + A t - B t²), t in °C.
#[derive(Clone, Copy, Debug, PartialEq, Eq)]
pub struct Cal {
    /// R0, the resistance at 0 °C, in microohms.
    pub r0_uohm: u32,
    /// A in 10^-10 per °C.
    pub a_e10: u32,
    /// The magnitude of B in 10^-10 per °C².
    pub b_e10: u16,
}

impl Cal {
    ghost use Rattle.std.specs.Prelude.{◌≡◌};
    ghost use Rattle.platinum_model.specs.Calibration.{fits, fits_a, fits_b, fits_r0};
    ghost use Rattle.meter_parts.specs.Views.{constants, nominal_r0};

    /// Whether a sensor of this kind may have these constants.
    pub fn fits(&self, s: Sensor) -> bool
        ensures { result ≡ fits (constants self.now) (nominal_r0 s) }
    {
        self.r0_fits(s) && self.a_fits() && self.b_fits()
    }

    /// Whether R0 is within 0.5 % of the nominal one, ends included.
    pub fn r0_fits(&self, s: Sensor) -> bool
        ensures { result ≡ fits_r0 (nominal_r0 s) self.now.r0_uohm }
    {
        let nominal = u64::from(s.nominal_r0());
        let r0 = 1_000 * u64::from(self.r0_uohm);
        995 * nominal <= r0 && r0 <= 1_005 * nominal
    }

    /// Whether A is from 38,800,000 to 39,400,000.
    pub fn a_fits(&self) -> bool
        ensures { result ≡ fits_a self.now.a_e10 }
    {
        (38_800_000..=39_400_000).contains(&self.a_e10)
    }

    /// Whether B is from 5,500 to 6,000.
    pub fn b_fits(&self) -> bool
        ensures { result ≡ fits_b self.now.b_e10 }
    {
        (5_500..=6_000).contains(&self.b_e10)
    }
}
