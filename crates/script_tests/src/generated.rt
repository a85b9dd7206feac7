//! Generated events.
use event_script::Event;
use load_gen::Script;
use std::test::Fail;

#[test]
fn one_event(rt: HostRuntime) {
    let mut script = Script::from_number(1, 1);
    let sample = Event::Sample {
        rf: 617_669_548,
        rr: 567_669_548,
    };
    assert_eq!(rt; script.next_event(), Some(sample));
    assert_eq!(rt; script.next_event(), None);
    assert_eq!(rt; script.next_event(), None);
}

// the events of seed 7 were computed apart from this code
#[test]
fn a_day_of_events(rt: HostRuntime) -> Result<(), Fail> {
    let mut script = Script::from_number(7, 1_001);
    for i in 1..=1_001 {
        let event = script.next_event().ok_or("an event")?;
        let wanted = match i {
            1 => Event::Sample {
                rf: 718_330_556,
                rr: 548_330_556,
            },
            2 => Event::Pulse { n: 9 },
            3 => Event::Pulse { n: 1 },
            10 => Event::Pulse { n: 7 },
            11 => Event::Sample {
                rf: 606_224_391,
                rr: 556_224_391,
            },
            100 => Event::Pulse { n: 8 },
            999 => Event::Pulse { n: 5 },
            1_001 => Event::Sample {
                rf: 620_466_241,
                rr: 570_466_241,
            },
            _ => event,
        };
        assert_eq!(rt; event, wanted);
        if i == 1_000 {
            let Event::Date { day } = event else {
                return Err("no date".into());
            };
            assert_eq!(rt; day.number, 8_781);
        }
    }
    assert_eq!(rt; script.next_event(), None);
    Ok(())
}
