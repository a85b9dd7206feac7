/// How many calls there were of each kind, each count up to 2^64 - 1.
#[derive(Clone, Copy, Debug, Default)]
pub struct CallCounts {
    pub loads: u64,
    pub stores: u64,
    pub syncs: u64,
    pub puts: u64,
    pub arms: u64,
    pub powers: u64,
}
