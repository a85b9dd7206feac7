//! Cuts of the power that are ordered, and what a cut leaves of a range.
ghost use Rattle.std.specs.Prelude.{◌≡◌, ◌-◌, ◌↔◌, length, IsTrue};
ghost use Rattle.meter_board.specs.Tears.{torn};

/// A cut of the power that waits for its call.
#[derive(Clone, Copy, Debug, Default, PartialEq, Eq)]
pub struct Armed {
    /// The call of `store` or `sync` that is cut, counted from 1 for the next one. At 0 none is.
    pub calls: u16,
    /// How many bytes of the range are written.
    pub keep: u16,
    /// What stands in the others.
    pub fill: u8,
}

/// A range of the memory.
#[derive(Clone, Copy, Debug, Default, PartialEq, Eq)]
pub struct Span {
    pub at: u32,
    pub len: usize,
}

impl Armed {
    /// Counts a call of `store` or `sync`, and answers whether it is the one that is cut.
    pub fn count(&mut self) -> bool
        ensures due { IsTrue result ↔ (self.old.calls ≡ 1) }
        ensures left { self.new ≡ record self.old { calls = self.old.calls - 1 } }
    {
        let due = self.calls == 1;
        self.calls = self.calls.saturating_sub(1);
        due
    }
}

/// Leaves the first `keep` bytes of a range, and writes `fill` in the others.
pub fn tear(range: &mut [u8], keep: usize, fill: u8)
    ensures { range.new ≡ torn keep fill range.old }
{
    let kept = keep.min(range.len());
    range[kept..].fill(fill);
}
