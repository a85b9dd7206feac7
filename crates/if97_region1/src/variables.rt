ghost use Rattle.std.specs.Prelude.{ℕ, ◌-◌, ◌^◌, pos, ◌≤ℤ◌};
ghost use Rattle.std.proofs.Common.{lit<};
ghost use Rattle.number_model.specs.Fraction.{Fraction, ◌*ℚ◌, part, inverse};
ghost use Rattle.number_model.specs.Enclosure.{Holds, SpanHolds};
ghost use Rattle.water_model.specs.Water.{y_of};
ghost use Rattle.enclosure_sizes.specs.Size.{SizedBy};
ghost use Rattle.region1_terms.specs.Variables.{y_size, z_size};
ghost use Rattle.if97_region1.specs.Sizes.{quarter_size, inverse_size};

use interval_num::Enc;
use region1_terms::Variables;

/// y / 4, at the scale of the tables that rise with it.
pub(crate) fn quarter(v: &Variables) -> Enc<48>
    ensures low { pos 0 ≤ℤ result.lo }
    ensures high { result.hi ≤ℤ pos (2 ^ 48) }
    ensures holds { (t : Fraction) →
        SpanHolds v.now.span.lo v.now.span.hi t → Holds 48 result.lo result.hi (y_of t *ℚ part 4 (lit< tt)) }
    ensures sized { SizedBy quarter_size (v.now.span.hi - v.now.span.lo) result.lo result.hi }
{
    at_48(v.y_quarter)
}

/// 1 / y, at the scale of the tables that rise with it.
pub(crate) fn inverse(v: &Variables) -> Enc<40>
    ensures low { pos 0 ≤ℤ result.lo }
    ensures high { result.hi ≤ℤ pos (2 ^ 40) }
    ensures holds { (t : Fraction) →
        SpanHolds v.now.span.lo v.now.span.hi t → Holds 40 result.lo result.hi (inverse (y_of t)) }
    ensures sized { SizedBy inverse_size (v.now.span.hi - v.now.span.lo) result.lo result.hi }
{
    at_40(v.inverse_y)
}

// a number from 0 to 1, at the scale 2^48
fn at_48(e: Enc<56>) -> Enc<48>
    requires low { pos 0 ≤ℤ e.lo }
    requires high { e.hi ≤ℤ pos (2 ^ 56) }
    ensures low { pos 0 ≤ℤ result.lo }
    ensures high { result.hi ≤ℤ pos (2 ^ 48) }
    ensures holds { (x : Fraction) → Holds 56 e.lo e.hi x → Holds 48 result.lo result.hi x }
    ensures sized { (d : ℕ) → SizedBy y_size d e.lo e.hi → SizedBy quarter_size d result.lo result.hi }
{
    e.scale_to()
}

// a number from 0 to 1, at the scale 2^40
fn at_40(e: Enc<56>) -> Enc<40>
    requires low { pos 0 ≤ℤ e.lo }
    requires high { e.hi ≤ℤ pos (2 ^ 56) }
    ensures low { pos 0 ≤ℤ result.lo }
    ensures high { result.hi ≤ℤ pos (2 ^ 40) }
    ensures holds { (x : Fraction) → Holds 56 e.lo e.hi x → Holds 40 result.lo result.hi x }
    ensures sized { (d : ℕ) → SizedBy z_size d e.lo e.hi → SizedBy inverse_size d result.lo result.hi }
{
    e.scale_to()
}
