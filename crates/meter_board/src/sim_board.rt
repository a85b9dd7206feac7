//! A board in memory.
ghost use Rattle.std.specs.Prelude.{◌≡◌, ◌+◌, ◌<◌, ◌≤◌, ◌↔◌, [], ◌∷◌, ◌++◌, true, false, length, take, drop, IfOk, OnOk, OnErr, IsOk, IsErrOf, is_err, if◌then◌else◌, IsTrue, Any};
ghost use Rattle.std.specs.Iterator.{YieldsFirst, item_count};
ghost use Rattle.std.proofs.Props.{props};
ghost use Rattle.trace_model.specs.Trace.{Start, Store, Sync, Missed, Put, Arm, Cut, ◌▷◌};
ghost use Rattle.trace_model.specs.Output.{output_of};
ghost use Rattle.trace_model.specs.Images.{IsImage, memory_size, pending, replaced, written};
ghost use Rattle.meter_board.specs.Causes.{CausedBy, MemoryCause, OutputCause, RefusalCause, one_more};
ghost use Rattle.meter_board.specs.Puts.{PutGives};
ghost use Rattle.meter_board.specs.Stores.{ArmGives, PowerGives, StoreGives, SyncGives};
ghost use Rattle.meter_board.specs.Tears.{last_at, last_len, last_torn, torn};
ghost use Rattle.meter_board.specs.Histories.{HistoryHasRoom, HistoryHasRoomForTwo, history_trace};

use crate::arm::{Armed, Span, tear};
use crate::call_counts::CallCounts;
use crate::counts::raise;
use crate::history::History;
use crate::mark::Mark;
use crate::{Board, Failed, FaultCounts, Refusal};
use arrayvec::ArrayVec;
use std::alloc::{AllocError, Global};

/// A kind of call that can be made to fail.
#[derive(Clone, Copy, Debug, Default, PartialEq, Eq)]
pub enum CallKind {
    #[default]
    Load,
    Store,
    Sync,
    Put,
    Power,
}

/// The call of this kind and number, counted from 1 for each kind.
#[derive(Clone, Copy, Debug, Default, PartialEq, Eq)]
pub struct Call {
    pub kind: CallKind,
    pub number: u32,
}

/// How many calls can be made to fail.
const MAX_FAILING: usize = 16;

/// A board in memory, which tells its trace and what it reads. It takes no memory after it is made.
#[derive(Debug, Drop)]
pub struct SimBoard {
    history: History,
    memory: Vec<u8>,
    faults: FaultCounts,
    calls: CallCounts,
    armed: Armed,
    // The range of the last store since the last sync or cut, an empty one where there is none.
    last: Span,
    failing: ArrayVec<Call, MAX_FAILING>,
    ghost newest: { memory.items ≡ written (history_trace history) },
    ghost possible: { IsImage (history_trace history) memory.items } by { Prim.hlevel props },
    ghost last_place: { last.at ≡ last_at (pending (history_trace history)) },
    ghost last_size: { last.len ≡ last_len (pending (history_trace history)) },
    ghost last_fits: { last.at + last.len ≤ memory_size },
}

impl SimBoard {
    ghost use Rattle.meter_board.specs.Sim.{BoardAsBefore, IsFailing, output_left, sim_trace, sim_reads, sim_faults, sim_calls, sim_armed, sim_failing, sim_entry_room, sim_byte_room};

    /// A board over this image of its memory, with room for so many entries of its trace, and for so many
    /// bytes in them together.
    ///
    /// # Errors
    /// [`AllocError`] where memory runs out.
    pub fn new(
        alloc: Global,
        image: &[u8],
        entries: usize,
        bytes: usize,
    ) -> Result<SimBoard, AllocError>
        requires { length image.now ≡ memory_size }
        ensures trace { IfOk result (λ b. sim_trace b ≡ Start image.now) }
        ensures reads { IfOk result (λ b. sim_reads b ≡ image.now) }
        ensures faults { IfOk result (λ b. sim_faults b ≡ record { memory = 0; output = 0; cuts = 0 }) }
        ensures calls { IfOk result (λ b. sim_calls b ≡ record { loads = 0; stores = 0; syncs = 0; puts = 0; arms = 0; powers = 0 }) }
        ensures armed { IfOk result (λ b. sim_armed b ≡ record { calls = 0; keep = 0; fill = 0 }) }
        ensures failing { IfOk result (λ b. sim_failing b ≡ []) }
        ensures entry_room { IfOk result (λ b. sim_entry_room b ≡ entries) }
        ensures byte_room { IfOk result (λ b. sim_byte_room b ≡ bytes) }
    {
        Ok(SimBoard {
            history: History::new(alloc, image, entries, bytes)?,
            memory: Vec::from_slice(alloc, image)?,
            faults: FaultCounts::default(),
            calls: CallCounts::default(),
            armed: Armed::default(),
            last: Span::default(),
            failing: ArrayVec::new(),
        })
    }

    /// What the memory reads now.
    pub fn image(&self) -> &[u8]
        ensures { result.now ≡ sim_reads self.now }
    {
        self.memory.as_slice()
    }

    /// The bytes of all puts, in order.
    pub fn output(&self) -> Output<'_>
        ensures { output_left result ≡ output_of (sim_trace self.now) }
    {
        Output {
            rest: self.history.output(),
        }
    }

    /// Lets the call of this kind and number, counted from 1 for each kind, fail. Answers false, and changes
    /// nothing, where 16 calls are held.
    ///
    /// A number stays held after its call, and one that is given twice is held twice.
    pub fn fail_on(&mut self, kind: CallKind, number: u32) -> bool
        ensures room { IsTrue result ↔ (length (sim_failing self.old) < 16) }
        ensures held { IsTrue result → sim_failing self.new ≡ sim_failing self.old ++ record { kind = kind; number = number } ∷ [] }
        ensures full { (result ≡ false) → self.new ≡ self.old }
        ensures same { BoardAsBefore self.old self.new }
        ensures armed { sim_armed self.new ≡ sim_armed self.old }
    {
        if self.failing.is_full() {
            return false;
        }
        self.failing.push(Call { kind, number });
        true
    }

    /// Lets the n-th call of `store` or `sync` from now on be cut, as [`Board::arm`] does, but for the entry.
    pub fn cut_on(&mut self, n: u16, keep: u16, fill: u8)
        requires { 1 ≤ n }
        ensures armed { sim_armed self.new ≡ record { calls = n; keep = keep; fill = fill } }
        ensures same { BoardAsBefore self.old self.new }
        ensures failing { sim_failing self.new ≡ sim_failing self.old }
    {
        self.armed = Armed {
            calls: n,
            keep,
            fill,
        };
    }

    // The call of this kind and number is one that fails.
    fn is_failing(&self, kind: CallKind, number: u64) -> bool
        ensures { IsTrue result ↔ IsFailing self.now kind number }
    {
        self.failing.iter().any(|call| call.kind == kind && u64::from(call.number) == number)
    }
}

// Stores these bytes in a memory.
fn overwrite(memory: &mut Vec<u8>, at: usize, bytes: &[u8])
    requires { at + length bytes.now ≤ length memory.old.items }
    ensures { memory.new.items ≡ replaced memory.old.items at bytes.now }
{
    memory[at..at + bytes.len()].copy_from_slice(bytes);
}

// Tears this range of a memory.
fn tear_at(memory: &mut Vec<u8>, range: Span, armed: Armed)
    requires { range.at + range.len ≤ length memory.old.items }
    ensures { memory.new.items ≡ replaced memory.old.items range.at (torn armed.keep armed.fill (take range.len (drop range.at memory.old.items))) }
{
    let from = range.at as usize;
    tear(
        &mut memory[from..from + range.len],
        armed.keep as usize,
        armed.fill,
    );
}

// Cuts the power within a store of these bytes, where there is room for both entries. Else answers false, and changes
// nothing.
fn cut_store(
    history: &mut History,
    memory: &mut Vec<u8>,
    armed: Armed,
    at: u32,
    bytes: &[u8],
) -> bool
    requires whole { length memory.old.items ≡ memory_size }
    requires fits { at + length bytes.now ≤ memory_size }
    ensures room { IsTrue result ↔ HistoryHasRoomForTwo history.old (length bytes.now + memory_size) }
    ensures torn { IsTrue result → memory.new.items ≡ replaced memory.old.items at (torn armed.keep armed.fill bytes.now) }
    ensures added { IsTrue result → history_trace history.new ≡ history_trace history.old ▷ Store at bytes.now ▷ Cut true memory.new.items }
    ensures same_trace { result ≡ false → history_trace history.new ≡ history_trace history.old }
    ensures same_memory { result ≡ false → memory.new.items ≡ memory.old.items }
    ensures entry_room { history.new.entry_room ≡ history.old.entry_room }
    ensures byte_room { history.new.byte_room ≡ history.old.byte_room }
{
    let len = bytes.len();
    if !history.has_room_for_two(len + memory.len()) {
        return false;
    }
    overwrite(memory, at as usize, bytes);
    tear_at(memory, Span { at, len }, armed);
    history.add_cut_store(at, bytes, memory);
    true
}

// Cuts the power within a sync, where there is room for the entry. Else answers false, and changes nothing.
fn cut_sync(history: &mut History, memory: &mut Vec<u8>, armed: Armed, last: Span) -> bool
    requires whole { length memory.old.items ≡ memory_size }
    requires fits { last.at + last.len ≤ memory_size }
    ensures room { IsTrue result ↔ HistoryHasRoom history.old memory_size }
    ensures torn { IsTrue result → memory.new.items ≡ replaced memory.old.items last.at (torn armed.keep armed.fill (take last.len (drop last.at memory.old.items))) }
    ensures added { IsTrue result → history_trace history.new ≡ history_trace history.old ▷ Cut true memory.new.items }
    ensures same_trace { result ≡ false → history_trace history.new ≡ history_trace history.old }
    ensures same_memory { result ≡ false → memory.new.items ≡ memory.old.items }
    ensures entry_room { history.new.entry_room ≡ history.old.entry_room }
    ensures byte_room { history.new.byte_room ≡ history.old.byte_room }
{
    let len = memory.len();
    if !history.has_room(len) {
        return false;
    }
    tear_at(memory, last, armed);
    history.add(Mark::Cut { forced: true, len }, memory);
    true
}

impl Board for SimBoard {
    ghost use Rattle.meter_board.specs.Sim.{Adds, AddsCut, AddsCutStore, FailsAsTold, FailsLoad, FailsPower, FailsPut, FailsStore, FailsSync, HasRoom, IsDue, RoomsAsBefore, counted, half_of, after_refusal, memory_fault, output_fault, sim_trace, sim_reads, sim_memory_calls, sim_faults, sim_calls, sim_armed};
    ghost use Rattle.meter_board.specs.SimLaws.{sim_whole};

    ghost tells = { Unit {0} };

    ghost trace = { λ b. sim_trace b };

    ghost reads = { λ b. b.memory.items };

    ghost memory_calls = { λ b. sim_memory_calls b };

    ghost faults = { λ b. sim_faults b };

    /// Every load counts, one that fails too. It fails where it is one that fails.
    fn load(&mut self, at: u32, into: &mut [u8]) -> Result<(), Failed>
        requires { at + length into.old ≤ memory_size }
        ensures memory_calls { sim_memory_calls self.new ≡ one_more (sim_memory_calls self.old) }
        ensures bytes { Unit {0} → OnOk result (into.new ≡ take (length into.old) (drop at (sim_reads self.old))) }
        ensures trace { Unit {0} → sim_trace self.new ≡ sim_trace self.old }
        ensures reads { Unit {0} → sim_reads self.new ≡ sim_reads self.old }
        ensures cause { CausedBy MemoryCause (sim_faults self.old) (sim_faults self.new) result }
        ensures ok { IsOk result ↔ ¬ FailsLoad self.old }
        ensures faults { sim_faults self.new ≡ (if is_err result then memory_fault (sim_faults self.old) else sim_faults self.old) }
        ensures calls { sim_calls self.new ≡ record (sim_calls self.old) { loads = one_more (sim_calls self.old).loads } }
        ensures armed { sim_armed self.new ≡ sim_armed self.old }
        ensures rooms { RoomsAsBefore self.old self.new }
    {
        raise(&mut self.calls.loads);
        if self.is_failing(CallKind::Load, self.calls.loads) {
            raise(&mut self.faults.memory);
            return Err(Failed);
        }
        let from = at as usize;
        let end = from + into.len();
        into.copy_from_slice(&self.memory[from..end]);
        Ok(())
    }

    /// Every store counts, one that fails too, for a cut that waits too. It fails where there is no room, and where it
    /// is one that fails, and stores nothing then. A store that is cut needs room for both its entries.
    fn store(&mut self, at: u32, bytes: &[u8]) -> Result<(), Refusal>
        requires { at + length bytes.now ≤ memory_size }
        ensures memory_calls { sim_memory_calls self.new ≡ one_more (sim_memory_calls self.old) }
        ensures gives { Unit {0} → StoreGives at bytes.now (sim_trace self.old) (sim_reads self.old) result (sim_trace self.new) (sim_reads self.new) }
        ensures cause { CausedBy RefusalCause (sim_faults self.old) (sim_faults self.new) result }
        ensures ok { IsOk result ↔ ((¬ IsDue self.old) × Adds self.old (Store at bytes.now) (FailsStore self.old)) }
        ensures cut { IsErrOf result Refusal.Cut ↔ (IsDue self.old × AddsCutStore self.old bytes.now (FailsStore self.old)) }
        ensures same_trace { IsErrOf result Refusal.Failed → sim_trace self.new ≡ sim_trace self.old }
        ensures same_reads { IsErrOf result Refusal.Failed → sim_reads self.new ≡ sim_reads self.old }
        ensures torn { IsErrOf result Refusal.Cut → sim_reads self.new ≡ replaced (sim_reads self.old) at (torn (sim_armed self.old).keep (sim_armed self.old).fill bytes.now) }
        ensures faults { sim_faults self.new ≡ after_refusal result (sim_faults self.old) }
        ensures calls { sim_calls self.new ≡ record (sim_calls self.old) { stores = one_more (sim_calls self.old).stores } }
        ensures armed { sim_armed self.new ≡ counted (sim_armed self.old) }
        ensures rooms { RoomsAsBefore self.old self.new }
    {
        raise(&mut self.calls.stores);
        let due = self.armed.count();
        if self.is_failing(CallKind::Store, self.calls.stores) {
            raise(&mut self.faults.memory);
            return Err(Refusal::Failed);
        }
        if due {
            if !cut_store(&mut self.history, &mut self.memory, self.armed, at, bytes) {
                raise(&mut self.faults.memory);
                return Err(Refusal::Failed);
            }
            self.last = Span::default();
            raise(&mut self.faults.cuts);
            return Err(Refusal::Cut);
        }
        let len = bytes.len();
        if !self.history.add(Mark::Store { at, len }, bytes) {
            raise(&mut self.faults.memory);
            return Err(Refusal::Failed);
        }
        overwrite(&mut self.memory, at as usize, bytes);
        self.last = Span { at, len };
        Ok(())
    }

    /// Every sync counts, one that fails too, for a cut that waits too. It fails where there is no room, and where it
    /// is one that fails: then the trace tells that it was missed, where there is room for that.
    fn sync(&mut self) -> Result<(), Refusal>
        ensures memory_calls { sim_memory_calls self.new ≡ one_more (sim_memory_calls self.old) }
        ensures gives { Unit {0} → SyncGives (sim_trace self.old) (sim_reads self.old) result (sim_trace self.new) (sim_reads self.new) }
        ensures cause { CausedBy RefusalCause (sim_faults self.old) (sim_faults self.new) result }
        ensures ok { IsOk result ↔ ((¬ IsDue self.old) × Adds self.old Sync (FailsSync self.old)) }
        ensures cut { IsErrOf result Refusal.Cut ↔ (IsDue self.old × AddsCut self.old (FailsSync self.old)) }
        ensures missed { IsErrOf result Refusal.Failed → FailsAsTold self.old Missed (FailsSync self.old) (sim_trace self.new) }
        ensures torn { IsErrOf result Refusal.Cut → sim_reads self.new ≡ last_torn (sim_armed self.old).keep (sim_armed self.old).fill (pending (sim_trace self.old)) (sim_reads self.old) }
        ensures faults { sim_faults self.new ≡ after_refusal result (sim_faults self.old) }
        ensures calls { sim_calls self.new ≡ record (sim_calls self.old) { syncs = one_more (sim_calls self.old).syncs } }
        ensures armed { sim_armed self.new ≡ counted (sim_armed self.old) }
        ensures rooms { RoomsAsBefore self.old self.new }
    {
        raise(&mut self.calls.syncs);
        let due = self.armed.count();
        if self.is_failing(CallKind::Sync, self.calls.syncs) {
            self.history.add(Mark::Missed, &[]);
            raise(&mut self.faults.memory);
            return Err(Refusal::Failed);
        }
        if due {
            if !cut_sync(&mut self.history, &mut self.memory, self.armed, self.last) {
                raise(&mut self.faults.memory);
                return Err(Refusal::Failed);
            }
            self.last = Span::default();
            raise(&mut self.faults.cuts);
            return Err(Refusal::Cut);
        }
        if !self.history.add(Mark::Sync, &[]) {
            raise(&mut self.faults.memory);
            return Err(Refusal::Failed);
        }
        self.last = Span::default();
        Ok(())
    }

    /// Every put counts, one that fails too. It fails where there is no room, and where it is one that fails:
    /// then the first half of the bytes, rounded down, goes out where there is room for it.
    fn put(&mut self, bytes: &[u8]) -> Result<(), Failed>
        requires { 0 < length bytes.now }
        ensures memory_calls { sim_memory_calls self.new ≡ sim_memory_calls self.old }
        ensures gives { Unit {0} → PutGives (sim_trace self.old) bytes.now result (sim_trace self.new) }
        ensures reads { Unit {0} → sim_reads self.new ≡ sim_reads self.old }
        ensures cause { CausedBy OutputCause (sim_faults self.old) (sim_faults self.new) result }
        ensures ok { IsOk result ↔ Adds self.old (Put bytes.now) (FailsPut self.old) }
        ensures half { OnErr result (FailsAsTold self.old (Put (half_of bytes.now)) (FailsPut self.old) (sim_trace self.new)) }
        ensures faults { sim_faults self.new ≡ (if is_err result then output_fault (sim_faults self.old) else sim_faults self.old) }
        ensures calls { sim_calls self.new ≡ record (sim_calls self.old) { puts = one_more (sim_calls self.old).puts } }
        ensures armed { sim_armed self.new ≡ sim_armed self.old }
        ensures rooms { RoomsAsBefore self.old self.new }
    {
        raise(&mut self.calls.puts);
        if self.is_failing(CallKind::Put, self.calls.puts) {
            let half = &bytes[..bytes.len() / 2];
            self.history.add(Mark::Put { len: half.len() }, half);
            raise(&mut self.faults.output);
            return Err(Failed);
        }
        if !self.history.add(Mark::Put { len: bytes.len() }, bytes) {
            raise(&mut self.faults.output);
            return Err(Failed);
        }
        Ok(())
    }

    /// It fails where there is no room. A cut that waits is replaced.
    fn arm(&mut self, n: u16, keep: u16, fill: u8) -> Result<(), Failed>
        requires { 1 ≤ n }
        ensures memory_calls { sim_memory_calls self.new ≡ one_more (sim_memory_calls self.old) }
        ensures gives { Unit {0} → ArmGives n keep fill (sim_trace self.old) result (sim_trace self.new) }
        ensures reads { Unit {0} → sim_reads self.new ≡ sim_reads self.old }
        ensures cause { CausedBy MemoryCause (sim_faults self.old) (sim_faults self.new) result }
        ensures ok { IsOk result ↔ HasRoom self.old (Arm n keep fill) }
        ensures faults { sim_faults self.new ≡ (if is_err result then memory_fault (sim_faults self.old) else sim_faults self.old) }
        ensures calls { sim_calls self.new ≡ record (sim_calls self.old) { arms = one_more (sim_calls self.old).arms } }
        ensures armed { sim_armed self.new ≡ (if is_err result then sim_armed self.old else record { calls = n; keep = keep; fill = fill }) }
        ensures rooms { RoomsAsBefore self.old self.new }
    {
        raise(&mut self.calls.arms);
        if !self.history.add(Mark::Arm { n, keep, fill }, &[]) {
            raise(&mut self.faults.memory);
            return Err(Failed);
        }
        self.cut_on(n, keep, fill);
        Ok(())
    }

    /// Every call counts, one that fails too. It fails where there is no room, and where it is one that fails. The
    /// image is what the memory reads, and a cut that waits goes on waiting.
    fn power(&mut self) -> Result<(), Failed>
        ensures memory_calls { sim_memory_calls self.new ≡ one_more (sim_memory_calls self.old) }
        ensures gives { Unit {0} → PowerGives (sim_trace self.old) (sim_reads self.old) result (sim_trace self.new) (sim_reads self.new) }
        ensures cause { CausedBy MemoryCause (sim_faults self.old) (sim_faults self.new) result }
        ensures ok { IsOk result ↔ AddsCut self.old (FailsPower self.old) }
        ensures same_reads { sim_reads self.new ≡ sim_reads self.old }
        ensures faults { sim_faults self.new ≡ (if is_err result then memory_fault (sim_faults self.old) else sim_faults self.old) }
        ensures calls { sim_calls self.new ≡ record (sim_calls self.old) { powers = one_more (sim_calls self.old).powers } }
        ensures armed { sim_armed self.new ≡ sim_armed self.old }
        ensures rooms { RoomsAsBefore self.old self.new }
    {
        raise(&mut self.calls.powers);
        if self.is_failing(CallKind::Power, self.calls.powers) {
            raise(&mut self.faults.memory);
            return Err(Failed);
        }
        let cut = Mark::Cut {
            forced: false,
            len: self.memory.len(),
        };
        if !self.history.add(cut, &self.memory) {
            raise(&mut self.faults.memory);
            return Err(Failed);
        }
        self.last = Span::default();
        Ok(())
    }

    ghost whole = { λ b _. sim_whole b };

    ghost possible = { λ b _. b.possible };
}

/// The bytes of all puts of a board in memory, in order.
#[derive(Clone, Copy, Debug)]
pub struct Output<'a> {
    rest: &'a [u8],
}

impl Iterator for Output<'_> {
    type Item = u8;

    ghost next_gives = { YieldsFirst (λ s. s.rest.now) };

    ghost remaining = { item_count (λ s. s.rest.now) };

    fn next(&mut self) -> Option<u8> {
        let (first, others) = self.rest.split_first()?;
        self.rest = others;
        Some(*first)
    }
}
