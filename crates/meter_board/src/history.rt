//! The trace of a board, kept in memory.
ghost use Rattle.std.specs.Prelude.{◌≡◌, ◌+◌, ◌<◌, ◌≤◌, ◌↔◌, [], true, false, length, vec_len, vec_capacity, IfOk, IsTrue};
ghost use Rattle.trace_model.specs.Images.{memory_size};
ghost use Rattle.trace_model.specs.Trace.{Start, Store, Cut, ◌▷◌};
ghost use Rattle.trace_model.specs.Output.{output_of};
ghost use Rattle.meter_board.specs.Told.{entry_with, put_by, size_of, stored_by};

use crate::mark::Mark;
use std::alloc::{AllocError, Global};

/// The bytes of a memory at first, and what happened since. It takes no memory after it is made.
#[derive(Debug, Drop)]
pub struct History {
    pub base: Vec<u8>,
    pub marks: Vec<Mark>,
    /// The bytes of all stores and the images of all cuts, in order.
    pub stored: Vec<u8>,
    /// The bytes of all puts, in order.
    pub output: Vec<u8>,
    pub entry_room: usize,
    pub byte_room: usize,
    ghost base_whole: { length base.items ≡ memory_size },
    ghost stored_whole: { stored_by marks.items ≡ length stored.items },
    ghost output_whole: { put_by marks.items ≡ length output.items },
    ghost entries_fit: { entry_room ≤ vec_capacity marks },
    ghost stored_fit: { byte_room ≤ vec_capacity stored },
    ghost output_fit: { byte_room ≤ vec_capacity output },
}

impl History {
    ghost use Rattle.meter_board.specs.Histories.{HistoryHasRoom, HistoryHasRoomForTwo, history_trace};

    /// Nothing has happened to this memory, and there is room for so many entries, with so many bytes together.
    ///
    /// # Errors
    /// [`AllocError`] where memory runs out.
    pub fn new(
        alloc: Global,
        image: &[u8],
        entries: usize,
        bytes: usize,
    ) -> Result<History, AllocError>
        requires { length image.now ≡ memory_size }
        ensures trace { IfOk result (λ h. history_trace h ≡ Start image.now) }
        ensures entry_room { IfOk result (λ h. h.entry_room ≡ entries) }
        ensures byte_room { IfOk result (λ h. h.byte_room ≡ bytes) }
    {
        Ok(History {
            base: Vec::from_slice(alloc, image)?,
            marks: Vec::with_capacity(alloc, entries)?,
            stored: Vec::with_capacity(alloc, bytes)?,
            output: Vec::with_capacity(alloc, bytes)?,
            entry_room: entries,
            byte_room: bytes,
        })
    }

    /// Whether there is room for an entry with so many bytes.
    pub fn has_room(&self, count: usize) -> bool
        ensures { IsTrue result ↔ HistoryHasRoom self.now count }
    {
        self.marks.len() < self.entry_room
            && self.stored.len() <= self.byte_room
            && self.output.len() <= self.byte_room - self.stored.len()
            && count <= self.byte_room - self.stored.len() - self.output.len()
    }

    /// Whether there is room for two entries with so many bytes together.
    pub fn has_room_for_two(&self, count: usize) -> bool
        ensures { IsTrue result ↔ HistoryHasRoomForTwo self.now count }
    {
        self.has_room(count) && self.entry_room - self.marks.len() >= 2
    }

    /// Adds an entry with its bytes where there is room for it. Else answers false, and changes nothing.
    pub fn add(&mut self, mark: Mark, bytes: &[u8]) -> bool
        requires { size_of mark ≡ length bytes.now }
        ensures room { IsTrue result ↔ HistoryHasRoom self.old (length bytes.now) }
        ensures added { IsTrue result → history_trace self.new ≡ history_trace self.old ▷ entry_with mark bytes.now }
        ensures full { result ≡ false → self.new ≡ self.old }
        ensures entries { IsTrue result → vec_len self.new.marks ≡ vec_len self.old.marks + 1 }
        ensures bytes { IsTrue result → vec_len self.new.stored + vec_len self.new.output ≡ vec_len self.old.stored + vec_len self.old.output + length bytes.now }
        ensures entry_room { self.new.entry_room ≡ self.old.entry_room }
        ensures byte_room { self.new.byte_room ≡ self.old.byte_room }
    {
        if !self.has_room(bytes.len()) {
            return false;
        }
        self.marks.push(mark).unwrap();
        match mark {
            Mark::Put { .. } => self.output.extend_from_slice(bytes).unwrap(),
            Mark::Store { .. } | Mark::Sync | Mark::Missed | Mark::Arm { .. } | Mark::Cut { .. } =>
                {
                    self.stored.extend_from_slice(bytes).unwrap();
                }
        }
        true
    }

    /// Adds a store of these bytes that was cut, and left this image. There is room for both entries.
    pub fn add_cut_store(&mut self, at: u32, bytes: &[u8], image: &[u8])
        requires { HistoryHasRoomForTwo self.old (length bytes.now + length image.now) }
        ensures added { history_trace self.new ≡ history_trace self.old ▷ Store at bytes.now ▷ Cut true image.now }
        ensures entry_room { self.new.entry_room ≡ self.old.entry_room }
        ensures byte_room { self.new.byte_room ≡ self.old.byte_room }
    {
        let len = bytes.len();
        self.add(Mark::Store { at, len }, bytes);
        let cut = Mark::Cut {
            forced: true,
            len: image.len(),
        };
        self.add(cut, image);
    }

    /// The bytes of all puts, in order.
    pub fn output(&self) -> &[u8]
        ensures { result.now ≡ output_of (history_trace self.now) }
    {
        self.output.as_slice()
    }
}
