/// An entry of a trace that is kept in memory. Its bytes stand behind those of the entries before it.
#[derive(Clone, Copy, Debug, PartialEq, Eq)]
pub enum Mark {
    Store { at: u32, len: usize },
    Sync,
    Missed,
    Put { len: usize },
    Arm { n: u16, keep: u16, fill: u8 },
    Cut { forced: bool, len: usize },
}
