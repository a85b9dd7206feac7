ghost use Rattle.std.specs.Prelude.{◌≡◌, ◌≤◌};
ghost use Rattle.number_model.specs.Rounding.{IsWithin};
ghost use Rattle.water_model.specs.Decimal.{integer};
ghost use Rattle.bench_model.specs.Ranges.{IsCalculator, max_energy, max_litres};
ghost use Rattle.platinum_model.specs.Element.{max_udeg};
ghost use Rattle.bench_model.specs.Verdicts.{calculator_verdict};
ghost use Rattle.bench_limits.specs.Factors.{least_factor, most_factor};
ghost use Rattle.bench_limits.specs.Verdict.{verdict_view};
ghost use Rattle.bench_limits.specs.Judged.{IsJudged};

use crate::judged::Judged;
use crate::verdict::Verdict;
use heat_coeff::Litre;

/// The verdict on a calculator that indicated `energy_mj` millijoules, at most 10^18, for `litres`, 1 to 10^9, at
/// a temperature difference of `delta_udeg` microdegrees, where a litre gives off an energy within `q`. Its limits
/// are ±(0.5 + Δmin / Δ) % of EN 1434-1, with the least difference `dmin_udeg` in microdegrees.
pub fn judge_point(dmin_udeg: u32, delta_udeg: u32, litres: u64, energy_mj: u64, q: Litre) -> Judged
    requires calculator { IsCalculator dmin_udeg litres energy_mj }
    requires difference { 1 ≤ delta_udeg }
    requires most_difference { delta_udeg ≤ max_udeg }
    requires lo { IsWithin 2000000000 q.lo_mj }
    requires hi { IsWithin 2000000000 q.hi_mj }
    ensures { IsJudged (calculator_verdict dmin_udeg delta_udeg litres energy_mj)
        q.lo_mj q.hi_mj result }
{
    let at_lo = verdict_at(dmin_udeg, delta_udeg, litres, energy_mj, q.lo_mj);
    let at_hi = verdict_at(dmin_udeg, delta_udeg, litres, energy_mj, q.hi_mj);
    Judged::between(q.lo_mj, q.hi_mj, at_lo, at_hi)
}

// The verdict where a litre gives off `q_mj` millijoules.
fn verdict_at(dmin_udeg: u32, delta_udeg: u32, litres: u64, energy_mj: u64, q_mj: i128) -> Verdict
    requires most_least_difference { dmin_udeg ≤ max_udeg }
    requires most_difference { delta_udeg ≤ max_udeg }
    requires most_litres { litres ≤ max_litres }
    requires most_energy { energy_mj ≤ max_energy }
    requires litre { IsWithin 2000000000 q_mj }
    ensures { verdict_view result
        ≡ calculator_verdict dmin_udeg delta_udeg litres energy_mj (integer q_mj) }
{
    let factors = factors_of(dmin_udeg, delta_udeg);
    let given = i128::from(litres) * q_mj;
    let indicated = 200 * i128::from(delta_udeg) * i128::from(energy_mj);
    Verdict::within(indicated, factors.least * given, factors.most * given)
}

/// How many 1 / (200 Δ) of the energy given off are the limits of the energy that is indicated.
#[derive(Clone, Copy)]
struct Factors {
    least: i128,
    most: i128,
}

fn factors_of(dmin_udeg: u32, delta_udeg: u32) -> Factors
    requires most_least_difference { dmin_udeg ≤ max_udeg }
    requires most_difference { delta_udeg ≤ max_udeg }
    ensures least { result.least ≡ least_factor dmin_udeg delta_udeg }
    ensures most { result.most ≡ most_factor dmin_udeg delta_udeg }
{
    let (dmin, delta) = (i128::from(dmin_udeg), i128::from(delta_udeg));
    Factors {
        least: 199 * delta - 2 * dmin,
        most: 201 * delta + 2 * dmin,
    }
}
