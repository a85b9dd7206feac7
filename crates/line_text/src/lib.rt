//! The text of a line, written from its last byte to its first, so that no digit is moved.
#![tactic(auto)]

ghost use Rattle.std.specs.Prelude.{◌≡◌, ◌+◌, ◌≤◌, ◌++◌, [], length};
ghost use Rattle.std.specs.Fmt.{decimal, signed_decimal};

use itoa::{Buffer, write_digits};

/// The most bytes of a text.
const ROOM: usize = 160;

/// The end of a line, up to 160 bytes, which grows at its front.
#[derive(Debug, Drop)]
pub struct LineText {
    // The text stands from `start` on.
    bytes: [u8; ROOM],
    start: usize,
    ghost within: { start ≤ 160 },
}

impl LineText {
    ghost use Rattle.line_text.specs.Text.{text_of};

    /// No byte.
    pub fn new() -> LineText
        ensures { text_of result ≡ [] }
    {
        LineText {
            bytes: [0; ROOM],
            start: ROOM,
        }
    }

    /// Takes all bytes away.
    pub fn clear(&mut self)
        ensures { text_of self.new ≡ [] }
    {
        self.start = ROOM;
    }

    /// The bytes of the text.
    pub fn as_bytes(&self) -> &[u8]
        ensures { result.now ≡ text_of self.now }
    {
        &self.bytes[self.start..]
    }

    /// Puts bytes in front.
    #[inline]
    pub fn put(&mut self, bytes: &[u8])
        requires { length bytes.now + length (text_of self.old) ≤ 160 }
        ensures text { text_of self.new ≡ bytes.now ++ text_of self.old }
    {
        let start = self.start - bytes.len();
        self.bytes[start..self.start].copy_from_slice(bytes);
        self.start = start;
    }

    /// Puts the digits of a number in front, at most 20.
    #[inline]
    pub fn put_number(&mut self, number: u64)
        requires { length (text_of self.old) ≤ 140 }
        ensures text { text_of self.new ≡ decimal number ++ text_of self.old }
        ensures short { length (text_of self.new) ≤ length (text_of self.old) + 20 }
    {
        self.start = write_digits(number, &mut self.bytes, self.start);
    }

    /// Puts the digits of a number in front, at most 39. Up to 64 bits they are written where they stand.
    #[inline]
    pub fn put_wide(&mut self, number: u128)
        requires { length (text_of self.old) ≤ 121 }
        ensures text { text_of self.new ≡ decimal number ++ text_of self.old }
        ensures short { length (text_of self.new) ≤ length (text_of self.old) + 39 }
    {
        match u64::try_from(number) {
            Ok(number) => self.put_number(number),
            Err(_) => self.put_formatted(number),
        }
    }

    // Puts the digits of a number in front by way of a buffer.
    #[cold]
    #[inline(never)]
    fn put_formatted(&mut self, number: u128)
        requires { length (text_of self.old) ≤ 121 }
        ensures text { text_of self.new ≡ decimal number ++ text_of self.old }
        ensures short { length (text_of self.new) ≤ length (text_of self.old) + 39 }
    {
        self.put(Buffer::new().format(number).as_bytes());
    }

    /// Puts a number in front, with its sign where it is negative: at most 40 bytes.
    #[inline(always)]
    pub fn put_signed(&mut self, number: i128)
        requires { length (text_of self.old) ≤ 120 }
        ensures text { text_of self.new ≡ signed_decimal number ++ text_of self.old }
        ensures short { length (text_of self.new) ≤ length (text_of self.old) + 40 }
    {
        self.put_wide(number.unsigned_abs());
        if number < 0 {
            self.put(b"-");
        }
    }
}

#[cfg(test)]
mod tests {
    use super::*;

    #[test]
    fn a_text_grows_at_its_front(rt: HostRuntime) {
        let mut text = LineText::new();
        assert_eq!(rt; text.as_bytes(), b"".as_slice());
        text.put(b"\n");
        text.put_wide(340_282_366_920_938_463_463_374_607_431_768_211_455);
        text.put(b" ");
        text.put_signed(-18_446_744_073_709_551_616);
        text.put(b" ");
        text.put_signed(-7);
        text.put(b" ");
        text.put_number(18_446_744_073_709_551_615);
        text.put(b"ok ");
        assert_eq!(rt;
            text.as_bytes(),
            b"ok 18446744073709551615 -7 -18446744073709551616 340282366920938463463374607431768211455\n".as_slice()
        );
        text.clear();
        assert_eq!(rt; text.as_bytes(), b"".as_slice());
    }
}
