ghost use Rattle.std.specs.Prelude.{◌≡◌, int_lt};
ghost use Rattle.bench_model.specs.Verdicts.{verdict_of};

/// Whether what was indicated lies within its limits, above or below them.
#[derive(Clone, Copy, Debug, PartialEq, Eq)]
pub(crate) enum Verdict {
    Pass,
    High,
    Low,
}

impl Verdict {
    ghost use Rattle.bench_limits.specs.Verdict.{verdict_view};

    /// The verdict on a value, which passes at the limits themselves.
    pub(crate) fn within(value: i128, least: i128, most: i128) -> Verdict
        ensures { verdict_view result ≡ verdict_of (int_lt most value) (int_lt value least) }
    {
        if value > most {
            Verdict::High
        } else if value < least {
            Verdict::Low
        } else {
            Verdict::Pass
        }
    }
}
