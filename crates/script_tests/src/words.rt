//! What lines say, and at which word they are wrong.
ghost use Rattle.std.specs.Prelude.{◌≤◌, length};

use event_script::{Event, Grammar, Line, Message, read_line};

// What a line says that is no message.
fn read(line: &[u8]) -> Result<Line, Grammar>
    requires { length line.now ≤ 120 }
{
    read_line(line, &mut Message::new())
}

#[test]
fn samples_are_read(rt: HostRuntime) {
    assert_eq!(rt;
        read(b"sample 616209500 596985625"),
        Ok(Line::Metering(Event::Sample {
            rf: 616_209_500,
            rr: 596_985_625
        }))
    );
    assert_eq!(rt; read(b"sample 1"), Err(Grammar { at: 2 }));
    assert_eq!(rt; read(b"sample 4294967296 1"), Err(Grammar { at: 1 }));
}

#[test]
fn pulses_are_read(rt: HostRuntime) {
    assert_eq!(rt; read(b"pulse 7"), Ok(Line::Metering(Event::Pulse { n: 7 })));
    assert_eq!(rt; read(b"pulse 07"), Err(Grammar { at: 1 }));
    assert_eq!(rt; read(b"pulses 7"), Err(Grammar { at: 0 }));
}

#[test]
fn dates_are_read(rt: HostRuntime) {
    let Ok(Line::Metering(Event::Date { day })) = read(b"date 2024-02-29") else {
        panic!(rt; "no date");
    };
    assert_eq!(rt; day.number, 8825);
    assert_eq!(rt; read(b"date 2023-02-29"), Err(Grammar { at: 1 }));
    assert_eq!(rt; read(b"date 2024-2-29"), Err(Grammar { at: 1 }));
    assert_eq!(rt; read(b"date 2024-01-15 x"), Err(Grammar { at: 2 }));
}

#[test]
fn failures_of_the_power_are_read(rt: HostRuntime) {
    assert_eq!(rt; read(b"power"), Ok(Line::Power));
    assert_eq!(rt; read(b"power 1"), Err(Grammar { at: 1 }));
    assert_eq!(rt; read(b"power "), Err(Grammar { at: 1 }));
    assert_eq!(rt; read(b"powers"), Err(Grammar { at: 0 }));
}

#[test]
fn orders_of_cuts_are_read(rt: HostRuntime) {
    for (line, n, keep, fill) in [
        (b"cut 1 7 5A".as_slice(), 1, 7, 0x5A),
        (b"cut 3 0 a5".as_slice(), 3, 0, 0xA5),
        (b"cut 65535 16384 fF".as_slice(), 65_535, 16_384, 0xFF),
    ] {
        assert_eq!(rt; read(line), Ok(Line::Cut { n, keep, fill }));
    }
}

#[test]
fn words_that_order_no_cut_are_refused(rt: HostRuntime) {
    for (line, at) in [
        (b"cut".as_slice(), 1),
        (b"cut 0 0 00".as_slice(), 1),
        (b"cut 65536 0 00".as_slice(), 1),
        (b"cut 1".as_slice(), 2),
        (b"cut 1 16385 00".as_slice(), 2),
        (b"cut 1 -1 00".as_slice(), 2),
        (b"cut 1 0".as_slice(), 3),
        (b"cut 1 0 ".as_slice(), 3),
        (b"cut 1 0 0".as_slice(), 3),
        (b"cut 1 0 000".as_slice(), 3),
        (b"cut 1 0 0000".as_slice(), 3),
        (b"cut 1 0 0g".as_slice(), 3),
        (b"cut 1 0 00 1".as_slice(), 4),
    ] {
        assert_eq!(rt; read(line), Err(Grammar { at }));
    }
}

#[test]
fn messages_are_read(rt: HostRuntime) {
    let mut message = Message::new();
    for line in [b"opt 2F3F210D0A".as_slice(), b"opt 2f3f210d0a".as_slice()] {
        assert_eq!(rt; read_line(line, &mut message), Ok(Line::Opt));
        assert_eq!(rt;
            message.as_slice(),
            [0x2F, 0x3F, 0x21, 0x0D, 0x0A].as_slice()
        );
    }
    assert_eq!(rt; read_line(b"mbus 1040014116", &mut message), Ok(Line::Mbus));
    assert_eq!(rt;
        message.as_slice(),
        [0x10, 0x40, 0x01, 0x41, 0x16].as_slice()
    );
}

#[test]
fn the_longest_message_is_read(rt: HostRuntime) {
    let mut message = Message::new();
    assert_eq!(rt;
        read_line(
            b"opt A5A5A5A5A5A5A5A5A5A5A5A5A5A5A5A5A5A5A5A5A5A5A5A5A5A5A5A5A5A5A5A5A5A5A5A5A5A5A5A5A5A5A5A5A5A5A5A5A5A5A5A5A5A5A5A5A5A5",
            &mut message
        ),
        Ok(Line::Opt)
    );
    assert_eq!(rt; message, Message::from([0xA5; 58]));
}

#[test]
fn words_that_are_no_message_are_refused(rt: HostRuntime) {
    for (line, at) in [
        (b"opt".as_slice(), 1),
        (b"opt ".as_slice(), 1),
        (b"opt 2F3".as_slice(), 1),
        (b"opt 2G".as_slice(), 1),
        (b"opt 2F 3F".as_slice(), 2),
        (b"mbus 104001411".as_slice(), 1),
    ] {
        assert_eq!(rt; read(line), Err(Grammar { at }));
    }
}
