ghost use Rattle.std.specs.Prelude.{◌≡◌, ◌-◌, ◌*◌, ◌≤◌, pos, ◌-ℤ◌};
ghost use Rattle.number_model.specs.Enclosure.{max_ndeg};
ghost use Rattle.number_model.specs.Rounding.{IsWithin};
ghost use Rattle.water_model.specs.Decimal.{integer};
ghost use Rattle.bench_model.specs.Ranges.{IsSensorPair};
ghost use Rattle.platinum_model.specs.Element.{max_udeg};
ghost use Rattle.bench_model.specs.Verdicts.{pair_verdict};
ghost use Rattle.bench_limits.specs.Verdict.{verdict_view};
ghost use Rattle.bench_limits.specs.Judged.{IsJudged};

use crate::judged::Judged;
use crate::verdict::Verdict;
use interval_num::Span;

const NDEG_PER_UDEG: i128 = 1_000;

/// The verdict on a pair of temperature sensors that read temperatures within the spans `f` in the flow and `r` in
/// the return, where the true ones are `tf_udeg` and `tr_udeg` microdegrees Celsius. Its limits are
/// ±(0.5 + 3 Δmin / Δ) % of EN 1434-1, with the least difference `dmin_udeg` in microdegrees. The ends of the
/// difference that was read are in nanodegrees.
pub fn judge_pair(dmin_udeg: u32, tf_udeg: u32, tr_udeg: u32, f: Span, r: Span) -> Judged
    requires { IsSensorPair dmin_udeg tf_udeg tr_udeg }
    ensures { IsJudged (pair_verdict (1000 * dmin_udeg) (1000 * (tf_udeg - tr_udeg)))
        (pos f.lo -ℤ pos r.hi) (pos f.hi -ℤ pos r.lo) result }
{
    let lo = i128::from(f.lo) - i128::from(r.hi);
    let hi = i128::from(f.hi) - i128::from(r.lo);
    let delta_udeg = tf_udeg - tr_udeg;
    let at_lo = verdict_at(dmin_udeg, delta_udeg, lo);
    let at_hi = verdict_at(dmin_udeg, delta_udeg, hi);
    Judged::between(lo, hi, at_lo, at_hi)
}

// The verdict where the pair read a difference of `read_ndeg` nanodegrees.
fn verdict_at(dmin_udeg: u32, delta_udeg: u32, read_ndeg: i128) -> Verdict
    requires most_least_difference { dmin_udeg ≤ max_udeg }
    requires most_difference { delta_udeg ≤ max_udeg }
    requires read { IsWithin max_ndeg read_ndeg }
    ensures { verdict_view result
        ≡ pair_verdict (1000 * dmin_udeg) (1000 * delta_udeg) (integer read_ndeg) }
{
    let dmin = NDEG_PER_UDEG * i128::from(dmin_udeg);
    let delta = NDEG_PER_UDEG * i128::from(delta_udeg);
    let limit = delta + 6 * dmin;
    Verdict::within(200 * (read_ndeg - delta), -limit, limit)
}
