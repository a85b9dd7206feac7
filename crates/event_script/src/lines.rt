//! The lines of a script, as a source gives its bytes.
ghost use Rattle.std.specs.Prelude.{◌≡◌, ◌≢◌, ◌+◌, ◌≤◌, ◌⊎◌, ◌++◌, [], true, false, length, take, drop, if◌then◌else◌};
ghost use Rattle.answer_model.specs.Faults.{is_open};
ghost use Rattle.meter_board.specs.Causes.{Rose};
ghost use Rattle.event_script.specs.Held.{held};
ghost use Rattle.event_script.specs.Next.{AsksWhereOpen, GivesInRange, GivesLine, GivesMessage, NextGives, is_got};

use crate::buffer::Buffer;
use crate::message::Message;
use crate::next::{Next, first_len, judge};
use meter_board::{Failed, Source};

/// The lines of a script, one after the other, from the bytes of a source. A line is given as soon as the bytes
/// that were read decide it, however the source cuts them. It takes no memory.
#[derive(Debug, Drop)]
pub struct Lines {
    buffer: Buffer,
    /// The bytes of the `opt` or `mbus` line that was read last.
    message: Message,
    /// How many lines were given.
    given: u32,
    has_ended: bool,
    ghost few: { given ≤ 1000000 },
}

impl Lines {
    /// No byte was read.
    pub fn new() -> Lines
        ensures held { held result.buffer ≡ [] }
        ensures given { result.given ≡ 0 }
        ensures has_ended { result.has_ended ≡ false }
    {
        Lines {
            buffer: Buffer::new(),
            message: Message::new(),
            given: 0,
            has_ended: false,
        }
    }

    /// How many lines were given.
    pub fn given(&self) -> u32
        ensures { result ≡ self.now.given }
    {
        self.given
    }

    /// The bytes of an `opt` or `mbus` line, where one was given last.
    pub fn message(&self) -> &[u8]
        ensures { result.now ≡ self.now.message.items }
    {
        self.message.as_slice()
    }

    /// What comes next. Each answer but a line ends it.
    #[inline(always)]
    pub fn next<S: Source>(&mut self, source: &mut S) -> Next
        requires { self.old.has_ended ≡ false }
        ensures gives { S.tells → NextGives self.old.given (held self.old.buffer ++ S.left source.old) result self.new.message.items (held self.new.buffer ++ S.left source.new) }
        ensures range { GivesInRange result }
        ensures message { GivesMessage result self.new.message.items }
        ensures given { self.new.given ≡ (if is_got result then self.old.given + 1 else self.old.given) }
        ensures has_ended { self.new.has_ended ≡ (if is_got result then false else true) }
        ensures open { result ≡ Next.ReadFault → is_open self.old.given (held self.new.buffer) ≡ true }
        ensures asks { (source.new ≡ source.old) ⊎ (S.tells → AsksWhereOpen self.old.given (held self.old.buffer) (S.left source.old) (S.left source.new)) }
        ensures fault { result ≡ Next.ReadFault → Rose (S.faults source.old) (S.faults source.new) }
        ensures later { S.faults source.old ≤ S.faults source.new }
    {
        let mut decided = first_len(self.buffer.held(), 0, self.given);
        while decided.is_none() {
            let looked = self.buffer.held().len();
            match self.buffer.fill(source) {
                Ok(0) => return self.give_last(),
                Ok(_) => decided = first_len(self.buffer.held(), looked, self.given),
                Err(Failed) => {
                    self.has_ended = true;
                    return Next::ReadFault;
                }
            }
        }
        match decided {
            Some(len) => self.give(len),
            None => self.give_last(),
        }
    }

    // Gives the last line, which has no LF, where there is one.
    #[inline(never)]
    fn give_last(&mut self) -> Next
        requires open { is_open self.old.given (held self.old.buffer) ≡ true }
        requires fresh { self.old.has_ended ≡ false }
        ensures gives { NextGives self.old.given (held self.old.buffer) result self.new.message.items (held self.new.buffer) }
        ensures range { GivesInRange result }
        ensures message { GivesMessage result self.new.message.items }
        ensures given { self.new.given ≡ (if is_got result then self.old.given + 1 else self.old.given) }
        ensures has_ended { self.new.has_ended ≡ (if is_got result then false else true) }
        ensures fault { result ≢ Next.ReadFault }
    {
        let len = self.buffer.held().len();
        if len == 0 {
            self.has_ended = true;
            return Next::End;
        }
        self.give(len)
    }

    // Gives the line of the first `len` bytes that are held, and goes on behind its LF.
    #[inline(always)]
    fn give(&mut self, len: usize) -> Next
        requires len { len ≤ length (held self.old.buffer) }
        requires fresh { self.old.has_ended ≡ false }
        ensures gives { GivesLine self.old.given (take len (held self.old.buffer)) result self.new.message.items (drop (len + 1) (held self.old.buffer)) (held self.new.buffer) }
        ensures range { GivesInRange result }
        ensures message { GivesMessage result self.new.message.items }
        ensures given { self.new.given ≡ (if is_got result then self.old.given + 1 else self.old.given) }
        ensures has_ended { self.new.has_ended ≡ (if is_got result then false else true) }
    {
        let held = self.buffer.held();
        let behind = held.len().min(len + 1);
        match judge(&held[..len], self.given, &mut self.message) {
            Ok(line) => {
                self.buffer.skip(behind);
                self.given += 1;
                Next::Got(line)
            }
            Err(fault) => {
                self.has_ended = true;
                Next::Bad(fault)
            }
        }
    }
}
