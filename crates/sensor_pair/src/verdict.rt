use interval_num::Span;

/// What a pair of samples says of the energy of the water that passes.
#[derive(Clone, Copy, Debug, PartialEq, Eq)]
pub enum Verdict {
    /// Energy counts, with the cells of the flow and the return sample.
    Counts { f: Span, r: Span },
    /// The flow sample alone is out of range.
    FlowOut,
    /// The return sample alone is out of range.
    ReturnOut,
    /// Both samples are out of range.
    BothOut,
    /// Both are in range, and the flow is less than 10,000 microdegrees warmer than the return.
    Small,
}
