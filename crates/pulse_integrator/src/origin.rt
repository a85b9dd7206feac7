//! What a rate is made from.

ghost use Rattle.std.specs.Prelude.{◌≡◌, Some};

use crate::per_litre::PerLitre;
use heat_coeff::litre_energy;
use if97_region1::Water;
use meter_parts::Place;
use sensor_pair::{Pair, Verdict};

/// What a rate was made from.
#[derive(Clone, Copy, Debug, PartialEq, Eq)]
pub struct Origin {
    /// The pressure of the water in kPa.
    pub p_kpa: u32,
    pub pair: Pair,
    pub place: Place,
    /// The sample of the flow, in microohms.
    pub rf: u32,
    /// The sample of the return, in microohms.
    pub rr: u32,
}

impl Origin {
    ghost use Rattle.pulse_integrator.specs.Adds.{AddsLitre};

    /// What a litre of this water adds.
    pub(crate) fn litre(self, water: &Water) -> PerLitre
        requires { water.now.p_kpa ≡ self.p_kpa }
        ensures { AddsLitre (Some self) result }
    {
        match self.pair.judge(self.rf, self.rr) {
            Verdict::Counts { f, r } => {
                PerLitre::of(litre_energy(water, self.place, f, r), f, r)
            }
            Verdict::Small => PerLitre::none(false),
            Verdict::FlowOut | Verdict::ReturnOut | Verdict::BothOut => PerLitre::none(true),
        }
    }
}
