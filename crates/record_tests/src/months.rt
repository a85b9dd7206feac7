use billing_memory::{DateBack, Day, MeterRecord, day_of};
use energy_register::Step;
use std::test::Fail;

fn day(y: u16, m: u8, d: u8) -> Result<Day, Fail> {
    Ok(day_of(y, m, d).ok_or("no date")?)
}

#[test]
fn days_are_counted_from_2000(rt: HostRuntime) -> Result<(), Fail> {
    assert_eq!(rt; day(2024, 1, 15)?.number, 8780);
    assert_eq!(rt; day(2000, 2, 29)?.number, 59);
    assert_eq!(rt; day(2099, 12, 31)?.number, 36_524);
    assert_eq!(rt; day_of(2100, 1, 1), None);
    assert_eq!(rt; day_of(2023, 2, 29), None);
    Ok(())
}

#[test]
fn days_have_dates(rt: HostRuntime) -> Result<(), Fail> {
    let leap_day = day(2024, 2, 29)?;
    assert_eq!(rt; leap_day.number, 8825);
    assert_eq!(rt; leap_day.parts(), (2024, 2, 29));
    assert_eq!(rt; leap_day.text().as_str(), "2024-02-29");
    assert_eq!(rt; leap_day.month_start().number, 8797);
    Ok(())
}

#[test]
fn each_passed_month_is_entered(rt: HostRuntime) -> Result<(), Fail> {
    let mut record = MeterRecord::opening(day(2024, 1, 15)?);
    let step = Step {
        e_mj: 0,
        b_mj: 0,
        faulty: 0,
    };
    let register = record.register.after(step, 3)?;
    record.register = register;
    let set = record.move_to(day(2024, 4, 1)?, 1);
    assert!(rt; set.is_ok());
    let copy = record.duplicate();
    assert_eq!(rt; copy.months.len(), 3);
    let entries = copy.months.as_slice();
    assert_eq!(rt; entries[0].day, day(2024, 2, 1)?);
    assert_eq!(rt; entries[1].day, day(2024, 3, 1)?);
    assert_eq!(rt; entries[2].day, day(2024, 4, 1)?);
    assert_eq!(rt; entries[0].register.pulses, 3);
    assert_eq!(rt; entries[2].register.pulses, 3);
    assert_eq!(rt; copy.set_day, None);
    Ok(())
}

#[test]
fn no_day_goes_back(rt: HostRuntime) -> Result<(), Fail> {
    let in_force = day(2024, 1, 15)?;
    let mut record = MeterRecord::opening(in_force);
    assert!(rt; record.move_to(in_force, 1).is_ok());
    assert_eq!(rt;
        record.move_to(day(2024, 1, 14)?, 1),
        Err(DateBack { in_force })
    );
    Ok(())
}

#[test]
fn the_latest_24_months_are_kept(rt: HostRuntime) -> Result<(), Fail> {
    let mut record = MeterRecord::opening(day(2000, 1, 1)?);
    assert!(rt; record.move_to(day(2099, 12, 31)?, 1).is_ok());
    assert_eq!(rt; record.months.len(), 24);
    assert_eq!(rt; record.months.as_slice()[0].day, day(2098, 1, 1)?);
    let set_day = record.set_day.ok_or("no set day")?;
    assert_eq!(rt; set_day.day, day(2099, 1, 1)?);
    Ok(())
}
