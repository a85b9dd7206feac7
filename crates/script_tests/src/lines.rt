//! Lines of sources that cut their bytes in pieces, end without an LF, and fail.
ghost use Rattle.std.specs.Prelude.{◌≡◌, ◌≤◌, false};

use event_script::{Event, Line, LineFault, Lines, Next};
use meter_board::SliceSource;
use std::process::Abort;

// A line, and a last one without LF, in pieces of this length.
fn two_lines_come(rt: &impl Abort, piece: usize)
    requires { 1 ≤ piece }
{
    let mut source = SliceSource::new(b"pulse 3\npulse 4", piece);
    let mut lines = Lines::new();
    let Next::Got(first) = lines.next(&mut source) else {
        panic!(rt; "no first line");
    };
    assert!(rt; first == Line::Metering(Event::Pulse { n: 3 }));
    let Next::Got(last) = lines.next(&mut source) else {
        panic!(rt; "no last line");
    };
    assert!(rt; last == Line::Metering(Event::Pulse { n: 4 }));
    assert_eq!(rt; lines.given(), 2);
    assert!(rt; lines.next(&mut source) == Next::End);
}

#[test]
fn lines_come_however_the_source_cuts_them(rt: HostRuntime) {
    two_lines_come(&rt, 1);
    two_lines_come(&rt, 2);
    two_lines_come(&rt, 7);
    two_lines_come(&rt, 4096);
}

/// A line of 111 bytes, with a message of 53.
const LONG_LINE: [u8; 111] =
    *b"opt A5A5A5A5A5A5A5A5A5A5A5A5A5A5A5A5A5A5A5A5A5A5A5A5A5A5A5A5A5A5A5A5A5A5A5A5A5A5A5A5A5A5A5A5A5A5A5A5A5A5A5A5A5\n";

fn a_long_line_comes(rt: &impl Abort, lines: &mut Lines, source: &mut SliceSource)
    requires { lines.old.has_ended ≡ false }
    ensures { lines.new.has_ended ≡ false }
{
    let Next::Got(Line::Opt) = lines.next(source) else {
        panic!(rt; "no line");
    };
    assert_eq!(rt; lines.message().len(), 53);
}

fn four_long_lines_come(rt: &impl Abort, lines: &mut Lines, source: &mut SliceSource)
    requires { lines.old.has_ended ≡ false }
    ensures { lines.new.has_ended ≡ false }
{
    a_long_line_comes(rt, lines, source);
    a_long_line_comes(rt, lines, source);
    a_long_line_comes(rt, lines, source);
    a_long_line_comes(rt, lines, source);
}

fn sixteen_long_lines_come(rt: &impl Abort, lines: &mut Lines, source: &mut SliceSource)
    requires { lines.old.has_ended ≡ false }
    ensures { lines.new.has_ended ≡ false }
{
    four_long_lines_come(rt, lines, source);
    four_long_lines_come(rt, lines, source);
    four_long_lines_come(rt, lines, source);
    four_long_lines_come(rt, lines, source);
}

// The buffer has no room behind its 36th line.
#[test]
fn lines_come_beyond_the_room_of_the_buffer(rt: HostRuntime) {
    let text = [LONG_LINE; 48];
    let mut source = SliceSource::new(text.as_flattened(), 4093);
    let mut lines = Lines::new();
    sixteen_long_lines_come(&rt, &mut lines, &mut source);
    sixteen_long_lines_come(&rt, &mut lines, &mut source);
    sixteen_long_lines_come(&rt, &mut lines, &mut source);
    assert!(rt; lines.next(&mut source) == Next::End);
}

#[test]
fn delivered_bytes_are_worked_off_before_a_failed_read(rt: HostRuntime) {
    let mut source = SliceSource::new(b"pulse 0\npulse 3\n", 1);
    assert!(rt; source.fail_on(9));
    let mut lines = Lines::new();
    assert!(rt; lines.next(&mut source) == Next::Bad(LineFault::Grammar { at: 1 }));
}

#[test]
fn a_read_that_fails_within_a_line_ends_them(rt: HostRuntime) {
    let mut source = SliceSource::new(b"pulse 3\npulse 4", 1);
    assert!(rt; source.fail_on(10));
    let mut lines = Lines::new();
    let Next::Got(first) = lines.next(&mut source) else {
        panic!(rt; "no first line");
    };
    assert!(rt; first == Line::Metering(Event::Pulse { n: 3 }));
    assert!(rt; lines.next(&mut source) == Next::ReadFault);
}

#[test]
fn byte_121_decides_a_line_without_its_end(rt: HostRuntime) {
    let mut source = SliceSource::new(&[b'x'; 121], 1);
    assert!(rt; source.fail_on(122));
    let mut lines = Lines::new();
    assert!(rt; lines.next(&mut source) == Next::Bad(LineFault::TooLong));
}
