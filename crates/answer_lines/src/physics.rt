//! The commands on one sample of a sensor, and on water at one pressure and at one or two temperatures.
ghost use Rattle.std.specs.Prelude.{◌≡◌, ◌^◌, ◌<◌, ◌++◌, pos, ◌*ℤ◌, length, codes};
ghost use Rattle.std.specs.Fmt.{signed_decimal};
ghost use Rattle.number_model.specs.Rounding.{floor_div, ceil_div};
ghost use Rattle.pt_curve.specs.Curve.{element};
ghost use Rattle.meter_parts.specs.Views.{place_view};
ghost use Rattle.command_words.specs.Command.{IsHeatCoefficient, IsWaterState};
ghost use Rattle.answer_lines.specs.Coef.{IsCoefText};
ghost use Rattle.answer_lines.specs.Temp.{IsTempText, element_of};
ghost use Rattle.answer_lines.specs.Water.{IsWaterText};

use crate::line::{LINE_ROOM, ended, range_line};
use arrayvec::ArrayString;
use command_words::{HeatCoefficient, Sample, WaterState};
use heat_coeff::coeff;
use if97_region1::Water;
use interval_num::{Enc, Span};
use itoa::Buffer;
use pt_curve::Curve;

/// The units of a line of `water` in one m³/kg, and in one kJ/kg.
const VOLUME_UNITS: i128 = 1_000_000_000_000_000;

const ENTHALPY_UNITS: i128 = 1_000_000_000;

/// The whole temperature of a sample in microdegrees Celsius, or `out` where it is out of range.
#[tactic(auto, using(crate::proofs::Temps::temp_of))]
pub fn temp_line(sample: Sample) -> ArrayString<LINE_ROOM>
    ensures text { IsTempText (element_of sample.sensor) sample.r result.bytes }
    ensures some { 0 < length result.bytes }
{
    let curve = Curve::nominal(sample.sensor);
    sample_line(&curve, sample.r)
}

// The line of a sample of a sensor with this curve.
fn sample_line(curve: &Curve, r: u32) -> ArrayString<LINE_ROOM>
    ensures text { IsTempText (element curve.now) r result.bytes }
    ensures some { 0 < length result.bytes }
{
    let mut digits = Buffer::new();
    match curve.whole_temp(r) {
        None => ended("out"),
        Some(udeg) => ended(digits.format(udeg)),
    }
}

/// The ends of the specific volume in 10^-15 m³/kg, and of the specific enthalpy in 10^-9 kJ/kg (IAPWS-IF97, region 1).
pub fn water_line(state: WaterState) -> ArrayString<LINE_ROOM>
    requires { IsWaterState state }
    ensures text { IsWaterText state.p_kpa state.t_udeg result.bytes }
    ensures some { 0 < length result.bytes }
{
    let water = Water::new(state.p_kpa).unwrap();
    let t_ndeg = 1000 * u64::from(state.t_udeg);
    let at = Span {
        lo: t_ndeg,
        hi: t_ndeg,
    };
    let v = volume_ends(water.volume(at));
    let h = enthalpy_ends(water.enthalpy(at));
    ends_line(v, h)
}

/// Two ends in some decimal unit.
#[derive(Clone, Copy, Debug)]
struct Ends {
    lo: i128,
    hi: i128,
}

// The ends of a volume in 10^-15 m³/kg, rounded outwards.
fn volume_ends(v: Enc<56>) -> Ends
    ensures lo { result.lo ≡ floor_div (v.lo *ℤ pos (10 ^ 15)) (2 ^ 56) }
    ensures hi { result.hi ≡ ceil_div (v.hi *ℤ pos (10 ^ 15)) (2 ^ 56) }
{
    Ends {
        lo: (v.lo * VOLUME_UNITS) >> 56,
        hi: -((-(v.hi * VOLUME_UNITS)) >> 56),
    }
}

// The ends of an enthalpy in 10^-9 kJ/kg, rounded outwards.
fn enthalpy_ends(h: Enc<48>) -> Ends
    ensures lo { result.lo ≡ floor_div (h.lo *ℤ pos (10 ^ 9)) (2 ^ 48) }
    ensures hi { result.hi ≡ ceil_div (h.hi *ℤ pos (10 ^ 9)) (2 ^ 48) }
{
    Ends {
        lo: (h.lo * ENTHALPY_UNITS) >> 48,
        hi: -((-(h.hi * ENTHALPY_UNITS)) >> 48),
    }
}

fn ends_line(v: Ends, h: Ends) -> ArrayString<LINE_ROOM>
    ensures text { result.bytes ≡ codes "v " ++ signed_decimal v.lo ++ codes " " ++ signed_decimal v.hi ++ codes " h " ++ signed_decimal h.lo ++ codes " " ++ signed_decimal h.hi ++ codes "\n" }
    ensures some { 0 < length result.bytes }
{
    let mut digits = Buffer::new();
    let mut line = ArrayString::new();
    line.push_str("v ");
    line.push_str(digits.format(v.lo));
    line.push_str(" ");
    line.push_str(digits.format(v.hi));
    line.push_str(" h ");
    line.push_str(digits.format(h.lo));
    line.push_str(" ");
    line.push_str(digits.format(h.hi));
    line.push_str("\n");
    line
}

/// The ends of the heat coefficient of EN 1434-1, in 10^-6 kJ/(m³ K).
pub fn coef_line(k: HeatCoefficient) -> ArrayString<LINE_ROOM>
    requires { IsHeatCoefficient k }
    ensures text { IsCoefText (place_view k.place) k.p_kpa k.tf_udeg k.tr_udeg result.bytes }
    ensures some { 0 < length result.bytes }
{
    let water = Water::new(k.p_kpa).unwrap();
    let factor = coeff(&water, k.place, k.tf_udeg, k.tr_udeg);
    range_line("k ", factor.lo, factor.hi)
}
