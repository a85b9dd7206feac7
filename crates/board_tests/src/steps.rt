//! Calls on a board, each with the answer that it must have.
ghost use Rattle.std.specs.Prelude.{◌+◌, ◌≤◌};
ghost use Rattle.trace_model.specs.Images.{memory_size};

use meter_board::{Board, CallKind, Failed, Refusal, SimBoard};
use std::process::Abort;

/// The bytes of a memory.
pub(crate) const MEMORY: usize = 16_384;

/// A call, with what it must answer.
#[derive(Clone, Copy, Debug)]
pub(crate) enum Step<'a> {
    /// These bytes are stored from this place on.
    Store(u32, &'a [u8], Result<(), Refusal>),
    Sync(Result<(), Refusal>),
    /// Up to eight bytes are loaded from this place on, which read so.
    Load(u32, &'a [u8]),
    /// Eight bytes are loaded from this place on, and the memory fails.
    FailedLoad(u32),
    Put(&'a [u8], Result<(), Failed>),
    Arm {
        n: u16,
        keep: u16,
        fill: u8,
        want: Result<(), Failed>,
    },
    Power(Result<(), Failed>),
}

/// Orders a cut, as a script does.
pub(crate) fn arm(n: u16, keep: u16, fill: u8) -> Step<'static> {
    Step::Arm {
        n,
        keep,
        fill,
        want: Ok(()),
    }
}

/// Makes these calls.
pub(crate) fn takes<B: Board>(rt: &impl Abort, board: &mut B, steps: &[Step<'_>]) {
    for step in steps {
        take(rt, board, step);
    }
}

fn take<B: Board>(rt: &impl Abort, board: &mut B, step: &Step<'_>) {
    match step {
        Step::Store(at, bytes, want) => store(rt, board, *at, bytes, *want),
        Step::Sync(want) => {
            assert_eq!(rt; board.sync(), *want);
        }
        Step::Load(at, want) => load(rt, board, *at, want),
        Step::FailedLoad(at) => load_failed(rt, board, *at),
        Step::Put(bytes, want) => put(rt, board, bytes, *want),
        Step::Arm {
            n,
            keep,
            fill,
            want,
        } => {
            assert!(rt; *n >= 1);
            assert_eq!(rt; board.arm(*n, *keep, *fill), *want);
        }
        Step::Power(want) => {
            assert_eq!(rt; board.power(), *want);
        }
    }
}

// So many bytes stand in the memory from this place on.
fn fits(rt: &impl Abort, at: u32, len: usize)
    ensures small { len ≤ 8 }
    ensures inside { at + len ≤ memory_size }
{
    assert!(rt; len <= 8);
    assert!(rt; at <= 16_384 - len as u32);
}

fn store<B: Board>(
    rt: &impl Abort,
    board: &mut B,
    at: u32,
    bytes: &[u8],
    want: Result<(), Refusal>,
) {
    fits(rt, at, bytes.len());
    assert_eq!(rt; board.store(at, bytes), want);
}

fn load<B: Board>(rt: &impl Abort, board: &mut B, at: u32, want: &[u8]) {
    fits(rt, at, want.len());
    let mut into = [0xEE; 8];
    let answer = board.load(at, &mut into[..want.len()]);
    assert_eq!(rt; answer, Ok(()));
    assert!(rt; into.starts_with(want));
}

fn load_failed<B: Board>(rt: &impl Abort, board: &mut B, at: u32) {
    fits(rt, at, 8);
    let mut into = [0xEE; 8];
    assert_eq!(rt; board.load(at, &mut into), Err(Failed));
}

fn put<B: Board>(rt: &impl Abort, board: &mut B, bytes: &[u8], want: Result<(), Failed>) {
    assert!(rt; !bytes.is_empty());
    assert_eq!(rt; board.put(bytes), want);
}

/// Lets these calls fail.
pub(crate) fn fails(rt: &impl Abort, board: &mut SimBoard, calls: &[(CallKind, u32)]) {
    for (kind, number) in calls {
        assert!(rt; board.fail_on(*kind, *number));
    }
}
