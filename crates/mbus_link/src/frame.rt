//! A frame.

ghost use Rattle.std.specs.Prelude.{◌≡◌};
ghost use Rattle.frame_model.specs.Frames.{checksum};
ghost use Rattle.byte_model.specs.Bytes.{AreBytes};

use arrayvec::ArrayVec;

/// A frame of the link layer.
#[derive(Clone, Debug, PartialEq, Eq, Drop)]
pub enum Frame {
    /// The single byte that acknowledges.
    Ack,
    /// A frame of fixed length: the control field and the address.
    Short {
        c: u8,
        a: u8,
    },
    /// A frame of variable length: the control field, the address, the control information, and a
    /// body of at most 252 bytes.
    Long {
        c: u8,
        a: u8,
        ci: u8,
        body: ArrayVec<u8, 252>,
    },
}

/// The sum of bytes, modulo 256.
pub(crate) fn checksum(bytes: &[u8]) -> u8
    ensures sum { result ≡ checksum bytes.now }
    ensures bytes { AreBytes bytes.now }
{
    bytes
        .iter()
        .fold(0, |sum: u8, byte| sum.wrapping_add(*byte))
}
