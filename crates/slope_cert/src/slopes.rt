ghost use Rattle.std.specs.Prelude.{◌≡◌, ℕ, ◌+◌, ◌-◌, ◌*◌, ◌^◌, ◌<◌, ◌≤◌, ◌↔◌, IsOk, IfErr, IfSome, All, length, position, int_le, None, Some, pos, ◌-ℤ◌, ◌*ℤ◌, ◌≤ℤ◌};
ghost use Rattle.parts_model.specs.Ranges.{max_pressure_kpa, min_pressure_kpa};
ghost use Rattle.number_model.specs.Fraction.{Fraction, ◌<ℚ◌, ◌*ℚ◌, whole};
ghost use Rattle.number_model.specs.Enclosure.{Holds, SpanHolds};
ghost use Rattle.number_model.specs.Rounding.{floor_div, ceil_div};
ghost use Rattle.heat_model.specs.Heat.{LiesBetween};
ghost use Rattle.enclosure_sizes.specs.Size.{SizedBy};
ghost use Rattle.slope_model.specs.Slope.{enthalpy_slope, IsInSegment, SlopesLie};
ghost use Rattle.slope_cert.specs.Sizes.{slope_size};

use crate::curvature::curvature_sum;
use crate::factor::slope_factor;
use interval_num::{Enc, Span};
use region1_terms::{PressureVariable, Variables};

/// A range of slopes, in 10^-9 kJ/(kg K).
#[derive(Clone, Copy, Debug, PartialEq, Eq)]
pub struct Incline {
    pub lo: i128,
    pub hi: i128,
}

// segment i, from i to i + 1 °C
#[tactic(auto, using(crate::proofs::Segments::in_segment))]
fn segment_span(i: u8) -> Span
    requires { i < 180 }
    ensures holds { (t : Fraction) → IsInSegment i t → SpanHolds result.lo result.hi t }
    ensures width { result.hi - result.lo ≤ 10 ^ 9 }
{
    let lo = u64::from(i) * 1_000_000_000;
    Span {
        lo,
        hi: lo + 1_000_000_000,
    }
}

// R tau1 tau2 times the quotient of the differences of g_tau and y, in kJ/(kg K)
fn slope_over(x: &PressureVariable, v: &Variables) -> Enc<48>
    ensures holds { (t1 t2 : Fraction) →
        SpanHolds v.now.span.lo v.now.span.hi t1 → SpanHolds v.now.span.lo v.now.span.hi t2 → t1 <ℚ t2 →
        Holds 48 result.lo result.hi (enthalpy_slope x.now.pressure t1 t2) }
    ensures sized { SizedBy slope_size (v.now.span.hi - v.now.span.lo) result.lo result.hi }
{
    let curvature: Enc<48> = curvature_sum(x, v).scale_to();
    let factor: Enc<48> = slope_factor(v.span).scale_to();
    curvature.mul(factor)
}

// the same range in 10^-9 kJ/(kg K), rounded outwards
fn in_billionths(range: Enc<48>) -> Incline
    ensures lo { result.lo ≡ floor_div (range.lo *ℤ pos (10 ^ 9)) (2 ^ 48) }
    ensures hi { result.hi ≡ ceil_div (range.hi *ℤ pos (10 ^ 9)) (2 ^ 48) }
{
    Incline {
        lo: (range.lo * 1_000_000_000) >> 48,
        hi: -((-(range.hi * 1_000_000_000)) >> 48),
    }
}

// the range of the slope over any two temperatures of a span of at most one degree
fn slope_within(x: &PressureVariable, span: Span) -> Incline
    requires degree { span.hi - span.lo ≤ 10 ^ 9 }
    ensures holds { (t1 t2 : Fraction) →
        SpanHolds span.lo span.hi t1 → SpanHolds span.lo span.hi t2 → t1 <ℚ t2 →
        LiesBetween result.lo result.hi (whole (10 ^ 9) *ℚ enthalpy_slope x.now.pressure t1 t2) }
    ensures width { (result.hi -ℤ result.lo) ≤ℤ pos (4 * 10 ^ 9) }
{
    in_billionths(slope_over(x, &Variables::over(span)))
}

/// The range of the slope of the enthalpy over any two temperatures of a segment, from `segment` to
/// `segment + 1` °C, at `p_kpa` kPa, 1,100 to 4,000. It is at most 4 kJ/(kg K) wide.
pub fn slope(p_kpa: u32, segment: u8) -> Incline
    requires low { min_pressure_kpa ≤ p_kpa }
    requires high { p_kpa ≤ max_pressure_kpa }
    requires segment { segment < 180 }
    ensures holds { SlopesLie p_kpa segment result.lo result.hi }
    ensures width { (result.hi -ℤ result.lo) ≤ℤ pos (4 * 10 ^ 9) }
{
    slope_at(&PressureVariable::at(p_kpa), segment)
}

/// As `slope`, for the variable of a pressure that was made before.
pub fn slope_at(x: &PressureVariable, segment: u8) -> Incline
    requires { segment < 180 }
    ensures holds { SlopesLie x.now.pressure segment result.lo result.hi }
    ensures width { (result.hi -ℤ result.lo) ≤ℤ pos (4 * 10 ^ 9) }
{
    slope_within(x, segment_span(segment))
}

fn first_not_rising(slopes: &[Incline]) -> Option<usize>
    ensures first { result ≡ position (λ s. int_le s.lo (pos 0)) slopes.now }
    ensures bound { IfSome result (λ i. i < length slopes.now) }
    ensures none { (result ≡ None) ↔ All (λ s. pos 1 ≤ℤ s.lo) slopes.now }
{
    slopes.iter().position(|s| s.lo <= 0)
}

/// Whether the slopes of all segments lie above 0, or the first segment whose `lo` is 0 or below.
pub fn rises(slopes: &[Incline; 180]) -> Result<(), u8>
    ensures rising { IsOk result ↔ All (λ s. pos 1 ≤ℤ s.lo) slopes.now }
    ensures first { IfErr result (λ i. position (λ s. int_le s.lo (pos 0)) slopes.now ≡ Some i) }
{
    match first_not_rising(slopes) {
        Some(segment) => Err(segment as u8),
        None => Ok(()),
    }
}
