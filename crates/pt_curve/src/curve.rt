ghost use Rattle.std.specs.Prelude.{◌≡◌, ◌+◌, ◌*◌, ◌^◌, ◌≤◌, ◌↔◌, IsTrue, IsSome, IfSome, pos, ◌≤ℤ◌, ◌<ℤ◌};
ghost use Rattle.number_model.specs.Fraction.{IsRatio};
ghost use Rattle.number_model.specs.Enclosure.{max_ndeg, nanodegrees};
ghost use Rattle.platinum_model.specs.Element.{nominal, resistance, scaled_resistance};
ghost use Rattle.platinum_model.specs.Calibration.{fits_a_sensor};
ghost use Rattle.platinum_model.specs.Sample.{IsInRange, IsWholeTemp, IsCellSpan};
ghost use Rattle.pt_curve.specs.Steps.{IsLastStep};

use interval_num::Span;
use meter_parts::{Cal, Sensor};

/// Resistances are computed in units of 10^-28 microohms, in which they are whole at whole nanodegrees.
const SCALE: i128 = 10_000_000_000_000_000_000_000_000_000;

/// A of IEC 60751 in 10^-10 per °C.
const NOMINAL_A: u32 = 39_083_000;

/// The magnitude of B of IEC 60751 in 10^-10 per °C².
const NOMINAL_B: u16 = 5_775;

const MAX_UDEG: u64 = 180_000_000;

const MAX_NDEG: u64 = 180_000_000_000;

/// The curve of a platinum resistance thermometer at 0 to 180 °C, IEC 60751: R(t) = R0 (1 + A t - B t²), t
/// in °C. Its constants fit one of the sensors, as [`Cal::fits`] says.
#[derive(Clone, Copy, Debug, PartialEq, Eq)]
pub struct Curve {
    /// R0, the resistance at 0 °C, in microohms.
    pub r0_uohm: u32,
    /// A in 10^-10 per °C.
    pub a_e10: u32,
    /// The magnitude of B in 10^-10 per °C².
    pub b_e10: u16,
    pub ghost fit: { IsTrue (fits_a_sensor (record { r0_uohm = r0_uohm; a_e10 = a_e10; b_e10 = b_e10 })) },
}

impl Curve {
    ghost use Rattle.pt_curve.specs.Curve.{element};
    ghost use Rattle.meter_parts.specs.Views.{constants, nominal_r0};

    /// The curve of a sensor with the nominal constants.
    pub fn nominal(s: Sensor) -> Curve
        ensures { element result ≡ nominal (nominal_r0 s) }
    {
        Curve {
            r0_uohm: s.nominal_r0(),
            a_e10: NOMINAL_A,
            b_e10: NOMINAL_B,
        }
    }

    /// The curve of a sensor with constants of its own, which fit one of the sensors.
    pub fn calibrated(cal: Cal) -> Curve
        requires { IsTrue (fits_a_sensor (constants cal)) }
        ensures { element result ≡ constants cal }
    {
        Curve {
            r0_uohm: cal.r0_uohm,
            a_e10: cal.a_e10,
            b_e10: cal.b_e10,
        }
    }

    /// The resistance at `t_ndeg` nanodegrees Celsius in units of 10^-28 microohms, exactly.
    pub fn resist(&self, t_ndeg: u64) -> i128
        requires { t_ndeg ≤ max_ndeg }
        ensures exact { IsRatio result (pos (10 ^ 28))
            (resistance (element self.now) (nanodegrees t_ndeg)) }
        ensures positive { pos 0 ≤ℤ result }
        ensures limit { result ≤ℤ pos (18 * 10 ^ 36) }
    {
        let t = u128::from(t_ndeg);
        let a = u128::from(self.a_e10) * 1_000_000_000;
        let b = u128::from(self.b_e10);
        let ratio = SCALE as u128 + a * t - b * (t * t);
        (u128::from(self.r0_uohm) * ratio) as i128
    }

    /// The greatest whole number of microdegrees Celsius, 0 to 180,000,000, at which the resistance is at
    /// most `r` microohms. None where `r` isn't within the resistances at 0 °C and 180 °C by 1 microohm.
    pub fn whole_temp(&self, r: u32) -> Option<u32>
        ensures in_range { IsSome result ↔ IsInRange (element self.now) r }
        ensures whole { IfSome result (IsWholeTemp (element self.now) r) }
    {
        if !self.is_in_range(r) {
            return None;
        }
        let target = 2 * SCALE * i128::from(r);
        let near = self.near_ndeg(r);
        Some(self.last_step(target, near, 1_000, MAX_UDEG, 28) as u32)
    }

    /// The temperatures at which the resistance is within half a microohm of `r` microohms, rounded
    /// outwards to whole nanodegrees Celsius. None as for `whole_temp`.
    pub fn cell(&self, r: u32) -> Option<Span>
        ensures in_range { IsSome result ↔ IsInRange (element self.now) r }
        ensures span { IfSome result (λ s. IsCellSpan (element self.now) r s.lo s.hi) }
    {
        if !self.is_in_range(r) {
            return None;
        }
        let sample = 2 * SCALE * i128::from(r);
        let near = self.near_ndeg(r);
        let lo = self.last_step(sample - SCALE, near, 1, MAX_NDEG, 38);
        let before_hi = self.last_step(sample + SCALE - 1, near, 1, MAX_NDEG, 38);
        Some(Span {
            lo,
            hi: before_hi + 1,
        })
    }

    fn is_in_range(&self, r: u32) -> bool
        ensures { IsTrue result ↔ IsInRange (element self.now) r }
    {
        let resistance = SCALE * i128::from(r);
        let low = self.resist(0) + SCALE;
        let high = self.resist(MAX_NDEG) - SCALE;
        low <= resistance && resistance <= high
    }

    /// Nanodegrees at which the resistance is about `r` microohms: where `r` is in range, at most a
    /// thousandth of a degree from there. One step of Newton's method for A t - B t² = r / R0 - 1, from
    /// the chord's temperature. Nothing rests on it but the time that [`Curve::last_step`] takes.
    fn near_ndeg(&self, r: u32) -> u64
        ensures { result ≤ max_ndeg }
    {
        let a = u64::from(self.a_e10);
        let b = u64::from(self.b_e10);
        let r0 = u64::from(self.r0_uohm);
        let above = u64::from(r).saturating_sub(r0).min(r0);
        // r / R0 - 1 in 10^-10
        let share = 10_000_000_000 * above / r0;
        let chord_udeg = (1_000_000 * share / (a - 90 * b)).min(MAX_UDEG);
        // B t in 10^-13 per °C
        let bend = b * chord_udeg / 1_000;
        let rest = (1_000_000_000 * share).saturating_sub(bend * chord_udeg);
        1_000 * (rest / (1_000 * a - 2 * bend)).min(MAX_UDEG)
    }

    /// How many steps of `step` nanodegrees from 0 °C, fewer than `steps`, are the last at which twice the
    /// resistance is at most `target`. Twice, as a target may lie half a microohm from a sample. The
    /// answer is looked for at the temperature that the slope at `near` leads to, then everywhere.
    fn last_step(&self, target: i128, near: u64, step: u64, steps: u64, halvings: u32) -> u64
        requires near { near ≤ max_ndeg }
        requires positive { 1 ≤ step }
        requires range { step * steps ≤ max_ndeg }
        requires enough { steps ≤ 2 ^ halvings }
        requires low { pos (2 * scaled_resistance (element self.now) 0) ≤ℤ target }
        requires high { target
            <ℤ pos (2 * scaled_resistance (element self.now) (step * steps)) }
        ensures { IsLastStep (element self.now) target step steps result }
    {
        let tangent = self.tangent_ndeg(target, near) / step;
        if self.is_last_step(target, step, steps, tangent) {
            return tangent;
        }
        // The curve bends away from its tangent, which comes early where it errs.
        if self.is_last_step(target, step, steps, tangent + 1) {
            return tangent + 1;
        }
        self.last_step_by_halving(target, step, steps, halvings)
    }

    /// Nanodegrees at which the tangent at `near` says that twice the resistance is `target`.
    fn tangent_ndeg(&self, target: i128, near: u64) -> u64
        requires near { near ≤ max_ndeg }
        requires low { pos 0 ≤ℤ target }
        requires high { target ≤ℤ pos (36 * 10 ^ 36) }
        ensures { result ≤ max_ndeg }
    {
        let rest = target - 2 * self.resist(near);
        // Both are cut to 64 bits, which they keep to where the resistance at `near` is close to the target.
        let apart = (rest >> 48).div_euclid(self.rise(near) >> 48);
        i128::from(near)
            .saturating_add(apart)
            .clamp(0, MAX_NDEG as i128) as u64
    }

    /// By how much twice the resistance rises at `near`, a nanodegree.
    fn rise(&self, near: u64) -> i128
        requires { near ≤ max_ndeg }
        ensures least { pos (2 ^ 80) ≤ℤ result }
        ensures most { result ≤ℤ pos (2 ^ 90) }
    {
        let a = u128::from(self.a_e10) * 1_000_000_000;
        let b = u128::from(self.b_e10);
        (2 * u128::from(self.r0_uohm) * (a - b * (2 * u128::from(near)))) as i128
    }

    fn is_last_step(&self, target: i128, step: u64, steps: u64, k: u64) -> bool
        requires range { step * steps ≤ max_ndeg }
        ensures { IsTrue result ↔ IsLastStep (element self.now) target step steps k }
    {
        if k >= steps {
            return false;
        }
        let here = 2 * self.resist(step * k);
        let next = 2 * self.resist(step * (k + 1));
        here <= target && target < next
    }

    /// As [`Curve::last_step`], wherever it lies.
    fn last_step_by_halving(&self, target: i128, step: u64, steps: u64, halvings: u32) -> u64
        requires range { step * steps ≤ max_ndeg }
        requires enough { steps ≤ 2 ^ halvings }
        requires low { pos (2 * scaled_resistance (element self.now) 0) ≤ℤ target }
        requires high { target
            <ℤ pos (2 * scaled_resistance (element self.now) (step * steps)) }
        ensures { IsLastStep (element self.now) target step steps result }
    {
        let mut last = 0;
        let mut past = steps;
        for _halving in 0..halvings {
            let middle = last + (past - last) / 2;
            if 2 * self.resist(step * middle) <= target {
                last = middle;
            } else {
                past = middle;
            }
        }
        last
    }
}
