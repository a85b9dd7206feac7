//! One trial: the top call over a board and a source in memory.
ghost use Rattle.std.specs.Prelude.{◌≡◌, ◌+◌, ◌≤◌, length};
ghost use Rattle.meter_board.specs.Sim.{sim_trace};

use billing_memory::{Day, MeterRecord};
use meter_board::{Board, CallKind, SimBoard, SliceSource};
use meter_cli::{Status, meter};
use meter_config::Config;
use register_store::{format, recover};
use std::process::Abort;
use std::test::Fail;

/// The length of a memory.
const MEMORY: usize = 16_384;

/// A memory of zeros alone, which is not formatted.
pub(crate) const EMPTY: [u8; MEMORY] = [0; MEMORY];

/// 2024-01-15, the opening day of the standard configuration.
pub(crate) const FIRST_DAY: Day = Day { number: 8_780 };

/// The text of the standard configuration.
pub(crate) const STANDARD: &str =
    "{\"serial\":\"12345678\",\"maker\":\"ABC\",\"version\":1,\"address\":1,\"place\":\"return\",\"pressure_kpa\":1600,\"sensor\":500,\"litres_per_pulse\":10,\"energy_decimals\":0,\"volume_decimals\":2,\"set_month\":1,\"opening_day\":\"2024-01-15\"}";

/// What goes wrong in a trial.
#[derive(Clone, Copy, Debug)]
pub(crate) enum Trouble {
    Nothing,
    /// The call on the board of this kind and number, from 1, fails.
    Call { kind: CallKind, number: u32 },
    /// The read of this number, from 1, fails.
    Read { number: u32 },
    /// The first five loads, stores and syncs fail.
    Memory,
    /// The power is cut in the store or sync of this number, from 1.
    Cut { call: u16, keep: u16, fill: u8 },
}

/// What is tried: words, over a memory with this image, on these bytes of the source.
#[derive(Clone, Copy, Debug)]
pub(crate) struct Trial<'a> {
    /// The words, with a space between each and the next.
    pub words: &'a str,
    pub memory: &'a [u8],
    pub given: &'a [u8],
    /// How many bytes the source gives at a time, 1 at least.
    pub piece: usize,
    pub trouble: Trouble,
    /// The room of the board for entries of its trace, and for bytes in them.
    pub entries: usize,
    pub bytes: usize,
}

impl<'a> Trial<'a> {
    /// A trial in which nothing goes wrong.
    pub fn new(words: &'a str, memory: &'a [u8], given: &'a [u8]) -> Trial<'a> {
        Trial {
            words,
            memory,
            given,
            piece: 64,
            trouble: Trouble::Nothing,
            entries: 200,
            bytes: 100_000,
        }
    }

    pub fn in_pieces(self, piece: usize) -> Trial<'a> {
        Trial { piece, ..self }
    }

    pub fn with(self, trouble: Trouble) -> Trial<'a> {
        Trial { trouble, ..self }
    }

    pub fn with_room(self, entries: usize, bytes: usize) -> Trial<'a> {
        Trial {
            entries,
            bytes,
            ..self
        }
    }
}

/// What a trial leaves.
#[derive(Drop)]
pub(crate) struct Left {
    pub status: Status,
    pub output: Vec<u8>,
    pub memory: Vec<u8>,
}

/// Makes the top call.
pub(crate) fn attempt(rt: &impl AllocGlobal, trial: &Trial<'_>) -> Result<Left, Fail> {
    if trial.memory.len() != MEMORY {
        return Err(Fail::from("a memory of another size"));
    }
    let mut words: Vec<&str> = Vec::new(rt.alloc());
    if !trial.words.is_empty() {
        for word in trial.words.split(' ') {
            words.push(word)?;
        }
    }
    let mut board = SimBoard::new(rt.alloc(), trial.memory, trial.entries, trial.bytes)?;
    let mut source = SliceSource::new(trial.given, trial.piece.max(1));
    order(&mut board, &mut source, trial.trouble);
    let status = meter(rt.alloc(), &words, &mut source, &mut board);
    Ok(Left {
        status,
        output: board.output().collect(rt.alloc())?,
        memory: Vec::from_slice(rt.alloc(), board.image())?,
    })
}

// Orders what goes wrong.
fn order(board: &mut SimBoard, source: &mut SliceSource<'_>, trouble: Trouble)
    ensures { sim_trace board.new ≡ sim_trace board.old }
{
    match trouble {
        Trouble::Nothing => (),
        Trouble::Call { kind, number } => {
            board.fail_on(kind, number);
        }
        Trouble::Read { number } => {
            source.fail_on(number);
        }
        Trouble::Memory => {
            fail_first(board, CallKind::Load);
            fail_first(board, CallKind::Store);
            fail_first(board, CallKind::Sync);
        }
        Trouble::Cut { call, keep, fill } => {
            board.cut_on(call.max(1), keep, fill);
        }
    }
}

// Lets the first five calls of this kind fail.
fn fail_first(board: &mut SimBoard, kind: CallKind)
    ensures { sim_trace board.new ≡ sim_trace board.old }
{
    board.fail_on(kind, 1);
    board.fail_on(kind, 2);
    board.fail_on(kind, 3);
    board.fail_on(kind, 4);
    board.fail_on(kind, 5);
}

/// The trial ends with this status after this output.
pub(crate) fn ends(
    rt: &(impl Abort + AllocGlobal),
    trial: &Trial<'_>,
    status: Status,
    output: &[u8],
) -> Result<Left, Fail> {
    let left = attempt(rt, trial)?;
    assert_eq!(rt; left.status, status);
    assert!(rt; left.output.as_slice() == output);
    Ok(left)
}

/// The trial is done with this output.
pub(crate) fn is_done(
    rt: &(impl Abort + AllocGlobal),
    trial: &Trial<'_>,
    output: &str,
) -> Result<Left, Fail> {
    ends(rt, trial, Status::Done, output.as_bytes())
}

/// The memory of the standard configuration, as `init` leaves it.
pub(crate) fn standard_meter(rt: &(impl Abort + AllocGlobal)) -> Result<Vec<u8>, Fail> {
    let trial = Trial::new("init", &EMPTY, STANDARD.as_bytes());
    Ok(is_done(rt, &trial, "init 12345678\n")?.memory)
}

/// The memory of the standard configuration with this record.
pub(crate) fn meter_with(rt: &impl AllocGlobal, m: &MeterRecord) -> Result<Vec<u8>, Fail> {
    let mut board = SimBoard::new(rt.alloc(), &EMPTY, 100, 10_000)?;
    format(&mut board, &Config::standard(), m)?;
    Ok(Vec::from_slice(rt.alloc(), board.image())?)
}

/// The record that this memory holds.
pub(crate) fn held_by(rt: &impl AllocGlobal, memory: &[u8]) -> Result<MeterRecord, Fail> {
    if memory.len() != MEMORY {
        return Err(Fail::from("a memory of another size"));
    }
    let mut board = SimBoard::new(rt.alloc(), memory, 100, 10_000)?;
    let (_, held, _) = recover(&mut board)?;
    Ok(held)
}

/// A standard meter in whose memory these bytes stand from this place on.
pub(crate) fn damaged(
    rt: &(impl Abort + AllocGlobal),
    at: usize,
    bytes: &[u8],
) -> Result<Vec<u8>, Fail> {
    let mut memory = standard_meter(rt)?;
    for (place, byte) in bytes.iter().enumerate() {
        let Some(stored) = memory.get_mut(at.saturating_add(place)) else {
            return Err(Fail::from("a place beyond the memory"));
        };
        *stored = *byte;
    }
    Ok(memory)
}
