//! The standard configuration, and its text.
use billing_memory::day_of;
use meter_config::{Config, ConfigFault, read_config};
use meter_parts::{Place, Sensor};
use std::test::Fail;

/// The text of the standard configuration.
pub(crate) const STANDARD: &str =
    "{\"serial\":\"12345678\",\"maker\":\"ABC\",\"version\":1,\"address\":1,\"place\":\"return\",\"pressure_kpa\":1600,\"sensor\":500,\"litres_per_pulse\":10,\"energy_decimals\":0,\"volume_decimals\":2,\"set_month\":1,\"opening_day\":\"2024-01-15\"}";

/// What that text gives with `old` in it replaced by `new`.
pub(crate) fn changed(
    rt: &HostRuntime,
    old: &str,
    new: &str,
) -> Result<Result<Config, ConfigFault>, Fail> {
    let text = STANDARD.replace(rt.alloc(), old, new)?;
    Ok(read_config(rt.alloc(), text.as_bytes()))
}

#[test]
fn standard_configuration(rt: HostRuntime) {
    let config = Config::standard();
    assert_eq!(rt; config.serial, 12_345_678);
    assert_eq!(rt; config.maker, [b'A', b'B', b'C']);
    assert_eq!(rt; (config.version, config.address), (1, 1));
    assert_eq!(rt; config.place, Place::Return);
    assert_eq!(rt; (config.pressure_kpa, config.per_pulse), (1_600, 10));
    assert_eq!(rt; config.sensor, Sensor::Pt500);
    assert_eq!(rt; (config.energy_decimals, config.volume_decimals), (0, 2));
    assert_eq!(rt; config.set_month, 1);
    assert_eq!(rt; Some(config.opening_day), day_of(2024, 1, 15));
}
