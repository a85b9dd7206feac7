ghost use Rattle.std.specs.Prelude.{◌≡◌, ◌≤◌};
ghost use Rattle.bench_model.specs.Ranges.{IsFlowSensor, last_class, max_flow, max_volume};
ghost use Rattle.bench_model.specs.Verdicts.{flow_verdict, is_within_flow_limits, small_flow_share, greatest_limit};
ghost use Rattle.bench_limits.specs.Judged.{judged_verdict};

use crate::judged::Judged;

/// The limits of a class of flow sensors.
#[derive(Clone, Copy)]
struct ClassLimits {
    /// What the permanent flow over the flow adds to the limit, in 0.01 %, beside the number of the class in percent.
    small_flow_share: u128,
    /// The greatest limit, in 0.1 %.
    greatest: u128,
}

/// The verdict on a flow sensor of class 1, 2 or 3 with the permanent flow `qp`, which indicated `indicated`
/// millilitres for `reference`, each at most 10^12, at the flow `q`. Both flows are 1 to 10^9, in one unit. The limits
/// are this project's own: ±(1 + 0.01 qp / q) % and at most 3.5 % for class 1, ±(2 + 0.02 qp / q) % and at most 5 %
/// for class 2, ±(3 + 0.05 qp / q) % and at most 5 % for class 3. Never undecided.
pub fn judge_flow(class: u8, qp: u32, q: u32, reference: u64, indicated: u64) -> Judged
    requires { IsFlowSensor class qp q reference indicated }
    ensures { result ≡ judged_verdict (flow_verdict class qp q reference indicated) }
{
    if is_within(class, qp, q, reference, indicated) {
        Judged::Pass
    } else if indicated > reference {
        Judged::High
    } else {
        Judged::Low
    }
}

fn is_within(class: u8, qp: u32, q: u32, reference: u64, indicated: u64) -> bool
    requires last_class { class ≤ last_class }
    requires most_permanent { qp ≤ max_flow }
    requires most_flow { q ≤ max_flow }
    requires most_reference { reference ≤ max_volume }
    requires most_indicated { indicated ≤ max_volume }
    ensures { result ≡ is_within_flow_limits class qp q reference indicated }
{
    let limits = limits_of(class);
    let (q, qp) = (u128::from(q), u128::from(qp));
    let reference = u128::from(reference);
    let distance = u128::from(indicated).abs_diff(reference);
    let at_flow = 100 * u128::from(class) * q + limits.small_flow_share * qp;
    10_000 * q * distance <= at_flow * reference && 1_000 * distance <= limits.greatest * reference
}

fn limits_of(class: u8) -> ClassLimits
    ensures share { result.small_flow_share ≡ small_flow_share class }
    ensures greatest { result.greatest ≡ greatest_limit class }
{
    let (small_flow_share, greatest) = match class {
        1 => (1, 35),
        2 => (2, 50),
        _ => (5, 50),
    };
    ClassLimits {
        small_flow_share,
        greatest,
    }
}
