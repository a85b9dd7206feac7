//! A frame, written as bytes.

ghost use Rattle.std.specs.Prelude.{◌≡◌, ◌+◌, ◌≤◌, [], ◌∷◌, ◌++◌, length};
ghost use Rattle.frame_model.specs.Frames.{Spells, closed};
ghost use Rattle.byte_model.specs.Bytes.{AreBytes};
ghost use Rattle.mbus_link.specs.Views.{frame_view};

use crate::Frame;
use crate::frame::checksum;
use arrayvec::ArrayVec;
use byte_lists::append;

/// The bytes of a frame, its one spelling. [`parse`](crate::parse) reads the same frame again.
pub fn write(f: &Frame) -> ArrayVec<u8, 261>
    ensures { Spells (frame_view f.now) result.items }
{
    match f {
        Frame::Ack => acknowledgement(),
        Frame::Short { c, a } => framed(&[0x10], &[*c, *a], &[]),
        Frame::Long { c, a, ci, body } => {
            let len = 3 + body.len() as u8;
            framed(&[0x68, len, len, 0x68], &[*c, *a, *ci], body.as_slice())
        }
    }
}

fn acknowledgement() -> ArrayVec<u8, 261>
    ensures { result.items ≡ 229 ∷ [] }
{
    let mut out = ArrayVec::new();
    out.push(0xE5);
    out
}

// The start, and the fields and the body with their checksum and the stop byte.
fn framed(start: &[u8], fields: &[u8], body: &[u8]) -> ArrayVec<u8, 261>
    requires { length start.now + length fields.now + length body.now ≤ 259 }
    ensures spelled { result.items ≡ start.now ++ closed (fields.now ++ body.now) }
    ensures bytes { AreBytes (fields.now ++ body.now) }
{
    let mut out = ArrayVec::new();
    append(&mut out, start);
    append(&mut out, fields);
    append(&mut out, body);
    let sum = checksum(&out[start.len()..]);
    out.push(sum);
    out.push(0x16);
    out
}
