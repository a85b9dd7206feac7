//! What one litre adds.

ghost use Rattle.std.specs.Prelude.{◌≡◌, ◌+◌, ◌-◌, ◌*◌, ◌≤◌, true, false, pos, ◌+ℤ◌, ◌-ℤ◌, ◌*ℤ◌, ◌≤ℤ◌};
ghost use Rattle.number_model.specs.Rounding.{IsWithin};
ghost use Rattle.integral_model.specs.Integral.{bound_at_points, margin_per_litre};

use heat_coeff::Litre;
use interval_num::Span;

/// The millijoules of a litre that are left in its bound, for whoever checks it with enclosures of his
/// own.
const MARGIN_MJ: i128 = 1_200;

// The cell of no sample.
const NOWHERE: Span = Span { lo: 0, hi: 0 };

/// What a litre adds.
#[derive(Clone, Copy, Debug, PartialEq, Eq)]
pub(crate) struct PerLitre {
    /// Energy in millijoules.
    pub(crate) e_mj: i64,
    /// The bound of the energy's error, in millijoules.
    pub(crate) b_mj: u32,
    /// Whether a sample is out of range.
    pub(crate) faulty: bool,
    /// The cell of the flow sample, where energy counts.
    pub(crate) flow: Span,
    /// The cell of the return sample, where energy counts.
    pub(crate) ret: Span,
}

impl PerLitre {
    /// A litre without energy.
    pub(crate) fn none(faulty: bool) -> PerLitre
        ensures energy { result.e_mj ≡ pos 0 }
        ensures bound { result.b_mj ≡ 0 }
        ensures faulty { result.faulty ≡ faulty }
    {
        PerLitre {
            e_mj: 0,
            b_mj: 0,
            faulty,
            flow: NOWHERE,
            ret: NOWHERE,
        }
    }

    /// A litre of the energy `q` at samples with these cells: the middle, and the least bound that
    /// leaves the margin.
    pub(crate) fn of(q: Litre, flow: Span, ret: Span) -> PerLitre
        requires ordered { q.lo_mj ≤ℤ q.hi_mj }
        requires least { IsWithin 1400000000 q.lo_mj }
        requires most { IsWithin 1400000000 q.hi_mj }
        requires flow_narrow { flow.hi - flow.lo ≤ 2800 }
        requires return_narrow { ret.hi - ret.lo ≤ 2800 }
        requires close { (pos 15 *ℤ (q.hi_mj -ℤ q.lo_mj)) ≤ℤ
            pos (241 + 2 * ((flow.hi - flow.lo) + (ret.hi - ret.lo))) }
        ensures low { (result.e_mj -ℤ (pos result.b_mj -ℤ pos margin_per_litre)) ≤ℤ q.lo_mj }
        ensures high { q.hi_mj ≤ℤ (result.e_mj +ℤ (pos result.b_mj -ℤ pos margin_per_litre)) }
        ensures closer { 15 * result.b_mj ≤
            bound_at_points + (flow.hi - flow.lo) + (ret.hi - ret.lo) }
        ensures narrow { pos (12 * result.b_mj) ≤ℤ (pos 14406 +ℤ pos 6 *ℤ (q.hi_mj -ℤ q.lo_mj)) }
        ensures size { IsWithin 2000000000 result.e_mj }
        ensures faulty { result.faulty ≡ false }
        ensures flow { result.flow ≡ flow }
        ensures ret { result.ret ≡ ret }
    {
        let e_mj = middle(q);
        let b_mj = bound(q.hi_mj, e_mj);
        PerLitre {
            e_mj,
            b_mj,
            faulty: false,
            flow,
            ret,
        }
    }
}

// The middle of the energy `q`, rounded down.
fn middle(q: Litre) -> i64
    requires least { IsWithin 1400000000 q.lo_mj }
    requires most { IsWithin 1400000000 q.hi_mj }
    ensures low { (pos 2 *ℤ result) ≤ℤ (q.lo_mj +ℤ q.hi_mj) }
    ensures high { (q.lo_mj +ℤ q.hi_mj) ≤ℤ (pos 2 *ℤ result +ℤ pos 1) }
{
    ((q.lo_mj + q.hi_mj) >> 1) as i64
}

// The bound of a litre that has at most `hi_mj`, and is counted as `e_mj`: the margin is left.
fn bound(hi_mj: i128, e_mj: i64) -> u32
    requires size { IsWithin 1400000000 hi_mj }
    requires least { e_mj ≤ℤ hi_mj }
    requires most { hi_mj ≤ℤ (e_mj +ℤ pos margin_per_litre) }
    ensures { pos result ≡ pos margin_per_litre +ℤ (hi_mj -ℤ e_mj) }
{
    (MARGIN_MJ + (hi_mj - i128::from(e_mj))) as u32
}
