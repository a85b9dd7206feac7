//! Lists of bytes of a bounded length.
#![tactic(auto)]

ghost use Rattle.std.specs.Prelude.{◌≡◌, ◌+◌, ◌≤◌, ◌++◌, length};
ghost use Rattle.arrayvec.specs.ArrayVec.{array_vec_len};

use arrayvec::ArrayVec;

/// Appends bytes to a list that has room for them.
pub fn append<const ROOM: usize>(list: &mut ArrayVec<u8, ROOM>, bytes: &[u8])
    requires { array_vec_len list.old + length bytes.now ≤ ROOM }
    ensures items { list.new.items ≡ list.old.items ++ bytes.now }
    ensures len { array_vec_len list.new ≡ array_vec_len list.old + length bytes.now }
{
    list.try_extend_from_slice(bytes).unwrap();
}

#[cfg(test)]
mod tests {
    use super::*;

    #[test]
    fn bytes_are_appended_up_to_the_room(rt: HostRuntime) {
        let mut list: ArrayVec<u8, 4> = ArrayVec::new();
        append(&mut list, b"ab");
        append(&mut list, b"cd");
        assert_eq!(rt; list.as_slice(), b"abcd".as_slice());
    }
}
