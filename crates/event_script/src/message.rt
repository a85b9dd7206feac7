//! Words in hexadecimal: messages, and single bytes.
ghost use Rattle.std.specs.Prelude.{◌≡◌, ◌≤◌, IfSome, length};
ghost use Rattle.std.specs.Option.{option_map};
ghost use Rattle.script_model.specs.Hex.{byte_in, hex_in};

use arrayvec::ArrayVec;

/// The bytes of an `opt` or `mbus` line, 1 to 58: a line has at most 120 bytes, so at most 116 digits stand
/// behind `opt `.
pub type Message = ArrayVec<u8, 58>;

/// The bytes that a word says, where it is an even number of hexadecimal digits of either case and at least
/// two. It has at most 116 bytes.
pub fn message_word(word: &[u8]) -> Option<Message>
    requires { length word.now ≤ 116 }
    ensures value { option_map (λ message. message.items) result ≡ hex_in word.now }
    ensures some { IfSome result (λ message. 1 ≤ length message.items) }
{
    if word.is_empty() {
        return None;
    }
    let mut room = [0; 58];
    let bytes = &mut room[..word.len() / 2];
    hex::decode_to_slice(word, bytes).ok()?;
    ArrayVec::try_from(&*bytes).ok()
}

/// The byte that a word says, where it is two hexadecimal digits of either case.
pub fn byte_word(word: &[u8]) -> Option<u8>
    ensures { result ≡ byte_in word.now }
{
    let mut byte = [0];
    match hex::decode_to_slice(word, &mut byte) {
        Ok(()) => Some(byte[0]),
        Err(_) => None,
    }
}
