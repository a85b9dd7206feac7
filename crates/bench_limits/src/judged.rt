ghost use Rattle.std.specs.Prelude.{◌≡◌};

use crate::verdict::Verdict;

/// What a test says of a value that is known to lie between two ends.
#[derive(Clone, Copy, Debug, PartialEq, Eq)]
pub enum Judged {
    /// Within the limits, or at one of them.
    Pass,
    /// Above the upper limit.
    High,
    /// Below the lower limit.
    Low,
    /// The verdicts at the two ends differ.
    Undecided { lo: i128, hi: i128 },
}

impl Judged {
    ghost use Rattle.bench_limits.specs.Verdict.{verdict_view};
    ghost use Rattle.bench_limits.specs.Judged.{judged_verdict, judged_ends};

    /// The judgement that has this verdict.
    pub(crate) fn decided(verdict: Verdict) -> Judged
        ensures { result ≡ judged_verdict (verdict_view verdict) }
    {
        match verdict {
            Verdict::Pass => Judged::Pass,
            Verdict::High => Judged::High,
            Verdict::Low => Judged::Low,
        }
    }

    /// The verdict at the ends `lo` and `hi` where it is the same, and the ends where it isn't.
    pub(crate) fn between(lo: i128, hi: i128, at_lo: Verdict, at_hi: Verdict) -> Judged
        ensures { result ≡ judged_ends lo hi (verdict_view at_lo) (verdict_view at_hi) }
    {
        if at_lo == at_hi {
            Judged::decided(at_lo)
        } else {
            Judged::Undecided { lo, hi }
        }
    }
}
