ghost use Rattle.std.specs.Prelude.{◌≡◌, ◌+◌, ◌-◌, ◌*◌, ◌^◌, ◌≤◌, ◌↔◌, IsOk, IfOk, IfErr, pos, neg_ℤ, ◌+ℤ◌, ◌-ℤ◌, ◌*ℤ◌, ◌≤ℤ◌};
ghost use Rattle.parts_model.specs.Ranges.{max_pressure_kpa, min_pressure_kpa};
ghost use Rattle.number_model.specs.Fraction.{Fraction};
ghost use Rattle.number_model.specs.Enclosure.{Holds, SpanHolds};
ghost use Rattle.water_model.specs.Water.{x_of, volume, enthalpy};
ghost use Rattle.table_model.specs.Tables.{eighth_of};
ghost use Rattle.if97_region1.specs.Collapsed.{HoldsParts};

use crate::heat::enthalpy_over;
use crate::joined::volume_over;
use crate::polys::Polys;
use dec_tables::{Part, collapse, region1_table};
use interval_num::{Enc, Span};
use meter_parts::{MAX_PRESSURE_KPA, MIN_PRESSURE_KPA};
use region1_terms::{PressureVariable, Variables};
use thiserror::Error;

/// The range of pressures in kPa.
const LEAST: u32 = MIN_PRESSURE_KPA as u32;

const MOST: u32 = MAX_PRESSURE_KPA as u32;

/// A pressure outside 1,100 to 4,000 kPa.
#[derive(Clone, Copy, Debug, PartialEq, Eq, Error)]
#[error("{p_kpa} kPa is outside 1100 to 4000 kPa")]
pub struct Pressure {
    pub p_kpa: u32,
}

/// Water at one pressure, 1,100 to 4,000 kPa, with the tables of coefficients at this pressure.
#[derive(Drop)]
pub struct Water {
    pub p_kpa: u32,
    tables: Polys,
    pub ghost low: { min_pressure_kpa ≤ p_kpa },
    pub ghost high: { p_kpa ≤ max_pressure_kpa },
    pub ghost collapsed: { HoldsParts (x_of p_kpa) tables },
}

// x / 8 at p kPa, as `collapse` wants it
fn x_eighth(p: u32) -> Enc<56>
    requires low { min_pressure_kpa ≤ p }
    requires high { p ≤ max_pressure_kpa }
    ensures holds { Holds 56 result.lo result.hi (eighth_of (x_of p)) }
    ensures width { result.hi ≤ℤ (result.lo +ℤ pos 4) }
{
    PressureVariable::at(p).x_eighth
}

// the tables at p kPa
fn tables_at(p: u32) -> Polys
    requires low { min_pressure_kpa ≤ p }
    requires high { p ≤ max_pressure_kpa }
    ensures { HoldsParts (x_of p) result }
{
    let rows = region1_table();
    let x = x_eighth(p);
    Polys {
        volume_up: collapse(&rows, Part::VolumeUp, x),
        volume_down: collapse(&rows, Part::VolumeDown, x),
        heat_up: collapse(&rows, Part::HeatUp, x),
        heat_down: collapse(&rows, Part::HeatDown, x),
    }
}

impl Water {
    /// Water at `p_kpa` kPa, or the pressure where it is outside 1,100 to 4,000.
    pub fn new(p_kpa: u32) -> Result<Water, Pressure>
        ensures accepted { IsOk result ↔ ((min_pressure_kpa ≤ p_kpa) × (p_kpa ≤ max_pressure_kpa)) }
        ensures kept { IfOk result (λ w. w.p_kpa ≡ p_kpa) }
        ensures refused { IfErr result (λ e. e.p_kpa ≡ p_kpa) }
    {
        if (LEAST..=MOST).contains(&p_kpa) {
            Ok(Water {
                p_kpa,
                tables: tables_at(p_kpa),
            })
        } else {
            Err(Pressure { p_kpa })
        }
    }

    /// The tables of coefficients at this pressure: each coefficient holds its sum over the rows, and is
    /// as narrow as `collapse` says.
    pub fn polys(&self) -> &Polys
        ensures { HoldsParts (x_of self.now.p_kpa) result.now }
    {
        &self.tables
    }

    /// The specific volume in m³/kg at each temperature of `s`, which is d <= 3,000 nanodegrees wide.
    /// It lies between 0.0009 and 0.0014, and its width is at most (268 + 3 d) * 10^-15.
    pub fn volume(&self, s: Span) -> Enc<56>
        requires { s.hi - s.lo ≤ 3000 }
        ensures holds { (t : Fraction) →
            SpanHolds s.lo s.hi t → Holds 56 result.lo result.hi (volume self.now.p_kpa t) }
        ensures least { pos (9 * 2 ^ 56) ≤ℤ (result.lo *ℤ pos 10000) }
        ensures most { (result.hi *ℤ pos 10000) ≤ℤ pos (14 * 2 ^ 56) }
        ensures width { ((result.hi -ℤ result.lo) *ℤ pos (10 ^ 15)) ≤ℤ
            pos ((1000 + 3 * (s.hi - s.lo)) * 2 ^ 56) }
        ensures closer { ((result.hi -ℤ result.lo) *ℤ pos (10 ^ 15)) ≤ℤ
            pos ((268 + 3 * (s.hi - s.lo)) * 2 ^ 56) }
    {
        self.volume_at(&Variables::over(s))
    }

    /// The specific enthalpy in kJ/kg at each temperature of `s`, which is d <= 3,000 nanodegrees wide.
    /// It lies between -200 and 1,000, and its width is at most (27 + 116 d) * 10^-9.
    pub fn enthalpy(&self, s: Span) -> Enc<48>
        requires { s.hi - s.lo ≤ 3000 }
        ensures holds { (t : Fraction) →
            SpanHolds s.lo s.hi t → Holds 48 result.lo result.hi (enthalpy self.now.p_kpa t) }
        ensures least { neg_ℤ (pos (200 * 2 ^ 48)) ≤ℤ result.lo }
        ensures most { result.hi ≤ℤ pos (1000 * 2 ^ 48) }
        ensures width { ((result.hi -ℤ result.lo) *ℤ pos (10 ^ 9)) ≤ℤ
            pos ((1000 + 150 * (s.hi - s.lo)) * 2 ^ 48) }
        ensures closer { ((result.hi -ℤ result.lo) *ℤ pos (10 ^ 9)) ≤ℤ
            pos ((27 + 116 * (s.hi - s.lo)) * 2 ^ 48) }
    {
        self.enthalpy_at(&Variables::over(s))
    }

    /// As `volume`, for the variables of a span that were made before.
    pub fn volume_at(&self, v: &Variables) -> Enc<56>
        requires { v.now.span.hi - v.now.span.lo ≤ 3000 }
        ensures holds { (t : Fraction) →
            SpanHolds v.now.span.lo v.now.span.hi t → Holds 56 result.lo result.hi (volume self.now.p_kpa t) }
        ensures least { pos (9 * 2 ^ 56) ≤ℤ (result.lo *ℤ pos 10000) }
        ensures most { (result.hi *ℤ pos 10000) ≤ℤ pos (14 * 2 ^ 56) }
        ensures width { ((result.hi -ℤ result.lo) *ℤ pos (10 ^ 15)) ≤ℤ
            pos ((1000 + 3 * (v.now.span.hi - v.now.span.lo)) * 2 ^ 56) }
        ensures closer { ((result.hi -ℤ result.lo) *ℤ pos (10 ^ 15)) ≤ℤ
            pos ((268 + 3 * (v.now.span.hi - v.now.span.lo)) * 2 ^ 56) }
    {
        volume_over(self, v)
    }

    /// As `enthalpy`, for the variables of a span that were made before.
    pub fn enthalpy_at(&self, v: &Variables) -> Enc<48>
        requires { v.now.span.hi - v.now.span.lo ≤ 3000 }
        ensures holds { (t : Fraction) →
            SpanHolds v.now.span.lo v.now.span.hi t → Holds 48 result.lo result.hi (enthalpy self.now.p_kpa t) }
        ensures least { neg_ℤ (pos (200 * 2 ^ 48)) ≤ℤ result.lo }
        ensures most { result.hi ≤ℤ pos (1000 * 2 ^ 48) }
        ensures width { ((result.hi -ℤ result.lo) *ℤ pos (10 ^ 9)) ≤ℤ
            pos ((1000 + 150 * (v.now.span.hi - v.now.span.lo)) * 2 ^ 48) }
        ensures closer { ((result.hi -ℤ result.lo) *ℤ pos (10 ^ 9)) ≤ℤ
            pos ((27 + 116 * (v.now.span.hi - v.now.span.lo)) * 2 ^ 48) }
    {
        enthalpy_over(self, v)
    }
}
