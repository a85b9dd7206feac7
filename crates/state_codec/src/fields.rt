//! The numbers of fields, whose lowest byte comes first, and parts that are written.

ghost use Rattle.std.specs.Prelude.{◌≡◌, ◌+◌, ◌≤◌, ◌++◌, length, drop};
ghost use Rattle.memory_model.specs.Fields.{part, number, signed, are_zero};

/// The `N` bytes at an offset.
pub(crate) fn array_at<const N: usize>(bytes: &[u8], at: usize) -> [u8; N]
    requires { at + N ≤ length bytes.now }
    ensures { result ≡ part at N bytes.now }
{
    bytes[at..at + N].try_into().unwrap()
}

pub(crate) fn u8_at(bytes: &[u8], at: usize) -> u8
    requires { at + 1 ≤ length bytes.now }
    ensures { result ≡ number at 1 bytes.now }
{
    bytes[at]
}

pub(crate) fn u16_at(bytes: &[u8], at: usize) -> u16
    requires { at + 2 ≤ length bytes.now }
    ensures { result ≡ number at 2 bytes.now }
{
    u16::from_le_bytes(array_at(bytes, at))
}

pub(crate) fn u32_at(bytes: &[u8], at: usize) -> u32
    requires { at + 4 ≤ length bytes.now }
    ensures { result ≡ number at 4 bytes.now }
{
    u32::from_le_bytes(array_at(bytes, at))
}

pub(crate) fn u64_at(bytes: &[u8], at: usize) -> u64
    requires { at + 8 ≤ length bytes.now }
    ensures { result ≡ number at 8 bytes.now }
{
    u64::from_le_bytes(array_at(bytes, at))
}

pub(crate) fn u128_at(bytes: &[u8], at: usize) -> u128
    requires { at + 16 ≤ length bytes.now }
    ensures { result ≡ number at 16 bytes.now }
{
    u128::from_le_bytes(array_at(bytes, at))
}

pub(crate) fn i128_at(bytes: &[u8], at: usize) -> i128
    requires { at + 16 ≤ length bytes.now }
    ensures { result ≡ signed (number at 16 bytes.now) }
{
    i128::from_le_bytes(array_at(bytes, at))
}

pub(crate) fn is_blank(bytes: &[u8]) -> bool
    ensures { result ≡ are_zero bytes.now }
{
    bytes.iter().all(|byte| *byte == 0)
}

/// Writes three parts to the front, one after another.
pub(crate) fn fill_front(out: &mut [u8], first: &[u8], second: &[u8], third: &[u8])
    requires { length first.now + length second.now + length third.now ≤ length out.old }
    ensures { out.new ≡ first.now ++ (second.now ++ (third.now
        ++ drop (length first.now + length second.now + length third.now) out.old)) }
{
    let a = first.len();
    let b = a + second.len();
    let c = b + third.len();
    out[..a].copy_from_slice(first);
    out[a..b].copy_from_slice(second);
    out[b..c].copy_from_slice(third);
}
