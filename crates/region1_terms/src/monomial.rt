ghost use Rattle.std.specs.Prelude.{◌≡◌, IsTrue};
ghost use Rattle.region1_terms.specs.Monomial.{fits, Evaluates};

use crate::powers::{power_shift, scaled_product, unit_power, unit_product};
use crate::{PressureVariable, Variables};
use dec_tables::{Term, enclose};
use interval_num::Enc;

impl Variables {
    /// n x^I y^J, the value of a term.
    pub fn monomial(&self, x: &PressureVariable, t: &Term) -> Enc<56>
        requires { IsTrue (fits t.now) }
        ensures { Evaluates x.now.pressure self.now.span.lo self.now.span.hi t.now result.lo result.hi }
    {
        let powers = unit_product(unit_power(x.x_eighth, u32::from(t.i)), self.y_power(t.j));
        let up = 3 * u32::from(t.i) + power_shift(t.j) - 56;
        scaled_product(enclose(t, up), powers)
    }
}
