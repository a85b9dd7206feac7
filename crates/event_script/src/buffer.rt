//! The bytes that were read and belong to no line that was given.
ghost use Rattle.std.specs.Prelude.{◌≡◌, ◌≤◌, ◌<◌, [], length, drop, IfOk, OnErr};
ghost use Rattle.meter_board.specs.Causes.{HasCause};
ghost use Rattle.event_script.specs.Filled.{Fills};

use meter_board::{Failed, Source};

/// How many bytes are held at most.
const ROOM: usize = 4_096;

/// Bytes in the order in which a source gave them, up to 4,096.
#[derive(Debug, Drop)]
pub struct Buffer {
    // The bytes from `begin` to `end` are held.
    bytes: [u8; ROOM],
    begin: usize,
    end: usize,
    ghost ordered: { begin ≤ end },
    ghost within: { end ≤ 4096 },
}

impl Buffer {
    ghost use Rattle.event_script.specs.Held.{held};

    /// No byte is held.
    pub fn new() -> Buffer
        ensures { held result ≡ [] }
    {
        Buffer {
            bytes: [0; ROOM],
            begin: 0,
            end: 0,
        }
    }

    /// The bytes that are held.
    pub fn held(&self) -> &[u8]
        ensures { result.now ≡ held self.now }
    {
        &self.bytes[self.begin..self.end]
    }

    /// Gives away the first bytes, so many.
    pub fn skip(&mut self, count: usize)
        requires { count ≤ length (held self.old) }
        ensures { held self.new ≡ drop count (held self.old) }
    {
        self.begin += count;
    }

    /// Reads further bytes behind those that are held, at most 120, and answers how many: none only at the end of the
    /// source.
    ///
    /// # Errors
    /// [`Failed`] where the read failed: nothing is taken.
    pub fn fill<S: Source>(&mut self, source: &mut S) -> Result<usize, Failed>
        requires { length (held self.old) ≤ 120 }
        ensures filled { IfOk result (λ n. Fills n S.tells (held self.old) (held self.new) (S.left source.old) (S.left source.new)) }
        ensures failed { OnErr result (held self.new ≡ held self.old) }
        ensures kept { OnErr result (S.tells → S.left source.new ≡ S.left source.old) }
        ensures cause { HasCause (S.faults source.old) (S.faults source.new) result }
    {
        self.make_room();
        self.read(source)
    }

    // Moves the bytes that are held to the front where there is no room behind them.
    fn make_room(&mut self)
        requires { length (held self.old) ≤ 120 }
        ensures held { held self.new ≡ held self.old }
        ensures room { self.new.end < 4096 }
    {
        if self.end < ROOM {
            return;
        }
        self.bytes.copy_within(self.begin..self.end, 0);
        self.end -= self.begin;
        self.begin = 0;
    }

    fn read<S: Source>(&mut self, source: &mut S) -> Result<usize, Failed>
        requires { self.old.end < 4096 }
        ensures filled { IfOk result (λ n. Fills n S.tells (held self.old) (held self.new) (S.left source.old) (S.left source.new)) }
        ensures failed { OnErr result (held self.new ≡ held self.old) }
        ensures kept { OnErr result (S.tells → S.left source.new ≡ S.left source.old) }
        ensures cause { HasCause (S.faults source.old) (S.faults source.new) result }
    {
        match source.read(&mut self.bytes[self.end..]) {
            Ok(count) => {
                self.end += count;
                Ok(count)
            }
            Err(Failed) => Err(Failed),
        }
    }
}
