/// How many calls have failed, each count up to 2^64 - 1.
#[derive(Clone, Copy, Debug, Default)]
pub struct FaultCounts {
    /// Calls on the memory that failed.
    pub memory: u64,
    /// Puts that failed.
    pub output: u64,
    /// Calls on the memory that were cut by a power failure. A call of `power` is none of these.
    pub cuts: u64,
}
