//! Bytes, read as a frame.

ghost use Rattle.std.specs.Prelude.{◌≡◌, ℕ, List, ◌∷◌, ◌≤◌, length, IfSome, MatchOption};
ghost use Rattle.frame_model.specs.Frames as frames;
ghost use Rattle.frame_model.specs.Frames.{Spells, closed};
ghost use Rattle.byte_model.specs.Bytes.{AreBytes};
ghost use Rattle.mbus_link.specs.Views.{Parses, frame_view};

use crate::Frame;
use crate::frame::checksum;
use arrayvec::ArrayVec;

/// The frame that the bytes spell, and None exactly where they spell none.
///
/// A frame is, in hexadecimal, `E5`; or `10 C A CS 16`; or `68 L L 68 C A CI body CS 16`. CS is the sum
/// of the bytes from C to the end of the body, modulo 256, and L is their number, 3 to 255. Nothing
/// stands before a frame or behind it, so each has one spelling, and no two share one.
pub fn parse(bytes: &[u8]) -> Option<Frame>
    ensures spelled { Parses bytes.now result }
    ensures only { IfSome result (λ f. (other : frames.Frame) → Spells other bytes.now → other ≡ frame_view f) }
{
    match bytes {
        [0xE5] => Some(Frame::Ack),
        [0x10, rest @ ..] => short_frame(rest),
        [0x68, len, again, 0x68, rest @ ..] => long_frame(*len, *again, rest),
        _ => None,
    }
}

// The frame of these bytes behind 10.
fn short_frame(rest: &[u8]) -> Option<Frame>
    ensures { Parses (16 ∷ rest.now) result }
{
    let Some(counted) = opened(rest) else {
        return None;
    };
    match counted {
        [c, a] => Some(Frame::Short { c: *c, a: *a }),
        _ => None,
    }
}

// The frame of these bytes behind 68, the two lengths and 68.
fn long_frame(len: u8, again: u8, rest: &[u8]) -> Option<Frame>
    ensures { Parses (104 ∷ len ∷ again ∷ 104 ∷ rest.now) result }
{
    if len != again {
        return None;
    }
    let Some(counted) = opened(rest) else {
        return None;
    };
    if usize::from(len) != counted.len() {
        return None;
    }
    match counted {
        [c, a, ci, body @ ..] => Some(Frame::Long {
            c: *c,
            a: *a,
            ci: *ci,
            body: body_of(body),
        }),
        _ => None,
    }
}

fn body_of(bytes: &[u8]) -> ArrayVec<u8, 252>
    requires { length bytes.now ≤ 252 }
    ensures { result.items ≡ bytes.now }
{
    ArrayVec::try_from(bytes).unwrap()
}

// The bytes before a right checksum and the stop byte.
fn opened(bytes: &[u8]) -> Option<&[u8]>
    ensures { MatchOption result ((counted : List ℕ) → ¬ (bytes.now ≡ closed counted))
        (λ counted. AreBytes counted.now × (bytes.now ≡ closed counted.now)) }
{
    match bytes {
        [counted @ .., sum, 0x16] if checksum(counted) == *sum => Some(counted),
        _ => None,
    }
}
