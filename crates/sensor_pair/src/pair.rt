ghost use Rattle.std.specs.Prelude.{◌≡◌, ◌+◌, ◌≤◌, ◌↔◌};
ghost use Rattle.platinum_model.specs.Sample.{IsInRange, IsCellSpan};
ghost use Rattle.platinum_model.specs.Pair.{IsCountingPair, IsSmallPair};
ghost use Rattle.pt_curve.specs.Curve.{element};
ghost use Rattle.sensor_pair.specs.Verdict.{IsCounts, IfCounts};
ghost use Rattle.std.specs.Prelude.{IsTrue};
ghost use Rattle.config_model.specs.Configuration.{flow_or_nominal, is_calibration, return_or_nominal};
ghost use Rattle.meter_parts.specs.Views.{calibration_view, sensor_ohm};

use crate::verdict::Verdict;
use meter_parts::{Cal, Sensor};
use pt_curve::Curve;

/// The least whole temperature difference, in microdegrees Celsius, that counts energy.
const MIN_DIFFERENCE_UDEG: u32 = 10_000;

/// The curves of the sensors in the flow and in the return.
#[derive(Clone, Copy, Debug, PartialEq, Eq)]
pub struct Pair {
    pub flow: Curve,
    pub ret: Curve,
}

impl Pair {
    /// The curves of two sensors of this kind, with these constants in flow and return where they are calibrated.
    pub fn of(sensor: Sensor, cal: Option<(Cal, Cal)>) -> Pair
        requires fits { IsTrue (is_calibration (sensor_ohm sensor) (calibration_view cal)) }
        ensures flow { element result.flow ≡ flow_or_nominal (sensor_ohm sensor) (calibration_view cal) }
        ensures ret { element result.ret ≡ return_or_nominal (sensor_ohm sensor) (calibration_view cal) }
    {
        match cal {
            None => Pair {
                flow: Curve::nominal(sensor),
                ret: Curve::nominal(sensor),
            },
            Some((flow, ret)) => Pair {
                flow: Curve::calibrated(flow),
                ret: Curve::calibrated(ret),
            },
        }
    }

    /// What the samples `rf` of the flow and `rr` of the return say, both in microohms.
    pub fn judge(&self, rf: u32, rr: u32) -> Verdict
        ensures flow_out { (result ≡ Verdict.FlowOut)
            ↔ (¬ IsInRange (element self.now.flow) rf × IsInRange (element self.now.ret) rr) }
        ensures return_out { (result ≡ Verdict.ReturnOut)
            ↔ (IsInRange (element self.now.flow) rf × ¬ IsInRange (element self.now.ret) rr) }
        ensures both_out { (result ≡ Verdict.BothOut)
            ↔ (¬ IsInRange (element self.now.flow) rf × ¬ IsInRange (element self.now.ret) rr) }
        ensures small { (result ≡ Verdict.Small)
            ↔ IsSmallPair (element self.now.flow) (element self.now.ret) rf rr }
        ensures counts { IsCounts result
            ↔ IsCountingPair (element self.now.flow) (element self.now.ret) rf rr }
        ensures cells { IfCounts result (λ f r. IsCellSpan (element self.now.flow) rf f.lo f.hi
            × IsCellSpan (element self.now.ret) rr r.lo r.hi) }
    {
        match (self.flow.whole_temp(rf), self.ret.whole_temp(rr)) {
            (None, None) => Verdict::BothOut,
            (None, Some(_)) => Verdict::FlowOut,
            (Some(_), None) => Verdict::ReturnOut,
            (Some(flow_udeg), Some(return_udeg)) => {
                if flow_udeg < return_udeg + MIN_DIFFERENCE_UDEG {
                    return Verdict::Small;
                }
                Verdict::Counts {
                    f: self.flow.cell(rf).unwrap(),
                    r: self.ret.cell(rr).unwrap(),
                }
            }
        }
    }
}
