//! Lines of the output.
ghost use Rattle.std.specs.Prelude.{◌≡◌, ◌<◌, ◌≤◌, ◌++◌, codes, length};
ghost use Rattle.std.specs.Fmt.{signed_decimal};

use arrayvec::ArrayString;
use itoa::Buffer;

/// The room of a line.
pub const LINE_ROOM: usize = 192;

/// A text with the end of its line.
pub fn ended(text: &str) -> ArrayString<LINE_ROOM>
    requires { length text.now ≤ 40 }
    ensures text { result.bytes ≡ text.now ++ codes "\n" }
    ensures some { 0 < length result.bytes }
{
    let mut line = ArrayString::new();
    line.push_str(text);
    line.push_str("\n");
    line
}

/// A text between two others, of which the second ends the line.
pub fn labelled(name: &str, text: &str, end: &str) -> ArrayString<LINE_ROOM>
    requires name { length name.now ≤ 10 }
    requires text { length text.now ≤ 40 }
    requires end { length end.now ≤ 10 }
    ensures { result.bytes ≡ name.now ++ text.now ++ end.now }
{
    let mut line = ArrayString::new();
    line.push_str(name);
    line.push_str(text);
    line.push_str(end);
    line
}

/// The two ends of a range behind a name.
pub fn range_line(name: &str, lo: i128, hi: i128) -> ArrayString<LINE_ROOM>
    requires { length name.now ≤ 10 }
    ensures text { result.bytes ≡ name.now ++ signed_decimal lo ++ codes " " ++ signed_decimal hi ++ codes "\n" }
    ensures some { 0 < length result.bytes }
{
    let mut digits = Buffer::new();
    let mut line = ArrayString::new();
    line.push_str(name);
    line.push_str(digits.format(lo));
    line.push_str(" ");
    line.push_str(digits.format(hi));
    line.push_str("\n");
    line
}
