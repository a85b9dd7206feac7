//! A source over bytes in memory.
ghost use Rattle.std.specs.Prelude.{◌≡◌, ◌<◌, ◌≤◌, ◌↔◌, [], ◌∷◌, ◌++◌, length, min, false, IsTrue, IsErr, is_err, if◌then◌else◌, IfOk, Contains};
ghost use Rattle.meter_board.specs.Causes.{HasCause, one_more};
ghost use Rattle.meter_board.specs.Reads.{ReadGives};

use crate::counts::raise;
use crate::{Failed, Source};
use arrayvec::ArrayVec;

/// How many reads can be made to fail.
const MAX_FAILING: usize = 16;

/// Gives the bytes of a slice, a piece in each read.
#[derive(Debug, Drop)]
pub struct SliceSource<'a> {
    rest: &'a [u8],
    piece: usize,
    faults: u64,
    reads: u64,
    failing: ArrayVec<u32, MAX_FAILING>,
    ghost some: { 1 ≤ piece },
}

impl<'a> SliceSource<'a> {
    ghost use Rattle.meter_board.specs.Slice.{slice_left, slice_piece, slice_faults, slice_reads, slice_failing, ReadsAsBefore};

    /// A source of these bytes that gives at most `piece` of them in a read.
    pub fn new(bytes: &'a [u8], piece: usize) -> SliceSource<'a>
        requires { 1 ≤ piece }
        ensures left { slice_left result ≡ bytes.now }
        ensures piece { slice_piece result ≡ piece }
        ensures faults { slice_faults result ≡ 0 }
        ensures reads { slice_reads result ≡ 0 }
        ensures failing { slice_failing result ≡ [] }
    {
        SliceSource {
            rest: bytes,
            piece,
            faults: 0,
            reads: 0,
            failing: ArrayVec::new(),
        }
    }

    /// Lets the read of this number, counted from 1, fail. Answers false, and changes nothing, where 16
    /// numbers are held.
    ///
    /// A number stays held after its read, and one that is given twice is held twice.
    pub fn fail_on(&mut self, number: u32) -> bool
        ensures room { IsTrue result ↔ (length (slice_failing self.old) < 16) }
        ensures held { IsTrue result → slice_failing self.new ≡ slice_failing self.old ++ number ∷ [] }
        ensures full { (result ≡ false) → self.new ≡ self.old }
        ensures same { ReadsAsBefore self.old self.new }
    {
        if self.failing.is_full() {
            return false;
        }
        self.failing.push(number);
        true
    }

    // The read that is counted last fails.
    fn fails_now(&self) -> bool
        ensures { IsTrue result ↔ Contains (slice_failing self.now) (slice_reads self.now) }
    {
        let reads = self.reads;
        self.failing
            .iter()
            .any(|number| u64::from(*number) == reads)
    }
}

impl Source for SliceSource<'_> {
    ghost use Rattle.meter_board.specs.Slice.{slice_left, slice_piece, slice_faults, slice_reads, slice_failing};

    ghost tells = { Unit {0} };

    ghost left = { λ s. s.rest.now };

    ghost faults = { λ s. s.faults };

    /// Every read counts, one that fails too.
    fn read(&mut self, into: &mut [u8]) -> Result<usize, Failed>
        requires { 0 < length into.old }
        ensures bound { IfOk result (λ n. n ≤ length into.new) }
        ensures gives { Unit {0} → ReadGives (slice_left self.old) (slice_left self.new) result into.new }
        ensures cause { HasCause (slice_faults self.old) (slice_faults self.new) result }
        ensures fails { IsErr result ↔ Contains (slice_failing self.old) (one_more (slice_reads self.old)) }
        ensures count { IfOk result (λ n. n ≡ min (slice_piece self.old) (min (length into.new) (length (slice_left self.old)))) }
        ensures faults { slice_faults self.new ≡ (if is_err result then one_more (slice_faults self.old) else slice_faults self.old) }
        ensures reads { slice_reads self.new ≡ one_more (slice_reads self.old) }
        ensures failing { slice_failing self.new ≡ slice_failing self.old }
        ensures piece { slice_piece self.new ≡ slice_piece self.old }
    {
        raise(&mut self.reads);
        if self.fails_now() {
            raise(&mut self.faults);
            return Err(Failed);
        }
        let count = self.piece.min(into.len()).min(self.rest.len());
        let (front, back) = self.rest.split_at(count);
        into[..count].copy_from_slice(front);
        self.rest = back;
        Ok(count)
    }
}
