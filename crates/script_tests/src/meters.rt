//! A meter that takes events.
use arrayvec::ArrayVec;
use billing_memory::{MeterRecord, day_of};
use energy_register::Register;
use event_script::Event;
use meter_config::Config;
use meter_core::{Meter, Refused};
use std::test::Fail;

fn opened() -> Meter {
    let config = Config::standard();
    Meter::start(config, MeterRecord::opening(config.opening_day))
}

#[test]
fn events_are_taken(rt: HostRuntime) -> Result<(), Fail> {
    let mut meter = opened();
    let cold = Event::Sample {
        rf: 0,
        rr: 596_985_625,
    };
    let warm = Event::Sample {
        rf: 616_209_500,
        rr: 596_985_625,
    };
    let february = day_of(2024, 2, 1).ok_or("no date")?;
    for event in [
        Event::Pulse { n: 1 },
        cold,
        Event::Pulse { n: 2 },
        warm,
        Event::Pulse { n: 4 },
        Event::Date { day: february },
    ] {
        assert!(rt; meter.apply(&event).is_ok());
    }
    let record = meter.state();
    assert_eq!(rt; record.seq, 6);
    assert_eq!(rt; record.day, february);
    assert_eq!(rt; record.samples, Some((616_209_500, 596_985_625)));
    assert_eq!(rt; record.faulty, 2);
    assert_eq!(rt; record.register.pulses, 7);
    // 40 litres at 41,303,818.149 mJ
    assert!(rt; (record.register.energy_mj - 1_652_152_726).abs() <= 2_500);
    // 10 of them
    let pulse_mj = meter.rate().unit().e_mj;
    assert!(rt; 413_037_181 <= pulse_mj && pulse_mj <= 413_039_181);
    assert_eq!(rt; record.months.len(), 1);
    assert_eq!(rt; meter.config(), &Config::standard());
    Ok(())
}

#[test]
fn refusals_change_nothing(rt: HostRuntime) -> Result<(), Fail> {
    let mut meter = opened();
    let before = day_of(2024, 1, 14).ok_or("no date")?;
    let in_force = Config::standard().opening_day;
    assert_eq!(rt;
        meter.apply(&Event::Date { day: before }),
        Err(Refused::DateBack { in_force })
    );
    assert!(rt;
        meter
            .apply(&Event::Pulse {
                n: 1_000_000_000_000_000
            })
            .is_ok()
    );
    assert_eq!(rt;
        meter.apply(&Event::Pulse { n: 1 }),
        Err(Refused::PulsesFull {
            sum: 1_000_000_000_000_001
        })
    );
    assert_eq!(rt; meter.state().seq, 1);
    Ok(())
}

#[test]
fn a_full_record_takes_no_event(rt: HostRuntime) {
    let config = Config::standard();
    let record = MeterRecord {
        seq: 1_000_000_000_000_000_000,
        day: config.opening_day,
        samples: None,
        faulty: 0,
        register: Register::zero(),
        months: ArrayVec::new(),
        set_day: None,
    };
    let mut meter = Meter::start(config, record);
    let full = Refused::EventsFull {
        seq: 1_000_000_000_000_000_000,
    };
    assert_eq!(rt; meter.apply(&Event::Pulse { n: 1 }), Err(full));
    let back = Event::Date {
        day: config.opening_day,
    };
    assert_eq!(rt; meter.apply(&back), Err(full));
}
