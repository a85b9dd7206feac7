ghost use Rattle.std.specs.Prelude.{ℕ};
ghost use Rattle.number_model.specs.Enclosure.{Holds};
ghost use Rattle.enclosure_sizes.specs.Size.{SizedBy};
ghost use Rattle.region1_algebra.specs.Forms.{volume_factor, heat_factor};
ghost use Rattle.region1_algebra.specs.TableForms.{y_offset};
ghost use Rattle.if97_region1.specs.Sizes.{offset_size, volume_factor_size, heat_factor_size};

use interval_num::Enc;

/// 1.222, by which y lies below tau.
pub(crate) fn offset_of_y() -> Enc<56>
    ensures holds { Holds 56 result.lo result.hi y_offset }
    ensures sized { (d : ℕ) → SizedBy offset_size d result.lo result.hi }
{
    Enc::of_ratio(1_222, 1_000)
}

/// 1386 R / 16530.
pub(crate) fn factor_of_volume() -> Enc<56>
    ensures holds { Holds 56 result.lo result.hi volume_factor }
    ensures sized { (d : ℕ) → SizedBy volume_factor_size d result.lo result.hi }
{
    Enc::of_ratio(639_675_036, 16_530_000_000)
}

/// 1386 R.
pub(crate) fn factor_of_heat() -> Enc<48>
    ensures holds { Holds 48 result.lo result.hi heat_factor }
    ensures sized { (d : ℕ) → SizedBy heat_factor_size d result.lo result.hi }
{
    Enc::of_ratio(639_675_036, 1_000_000)
}
