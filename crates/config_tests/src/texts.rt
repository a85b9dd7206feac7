//! Texts that are configurations, and the first fault of others.
use crate::standard::{STANDARD, changed};
use meter_config::{Config, ConfigFault, read_config};
use meter_parts::Cal;
use std::test::Fail;

#[test]
fn the_standard_text_is_read(rt: HostRuntime) {
    assert_eq!(rt;
        read_config(rt.alloc(), STANDARD.as_bytes()),
        Ok(Config::standard())
    );
}

#[test]
fn refused_texts(rt: HostRuntime) {
    for (text, fault) in [
        ("[]", ConfigFault::NotObject),
        ("{}", ConfigFault::Missing { key: 0 }),
        ("{", ConfigFault::Text),
    ] {
        assert_eq!(rt; read_config(rt.alloc(), text.as_bytes()), Err(fault));
    }
    assert_eq!(rt;
        read_config(rt.alloc(), &[b' '; 4_097]),
        Err(ConfigFault::TooLong)
    );
    assert_eq!(rt;
        read_config(rt.alloc(), &[b' '; 4_096]),
        Err(ConfigFault::Text)
    );
}

#[test]
fn changed_texts(rt: HostRuntime) -> Result<(), Fail> {
    for (old, new, fault) in [
        (
            "\"address\":1",
            "\"address\":251",
            ConfigFault::Wrong { key: 3 },
        ),
        (
            "\"version\":1",
            "\"version\":1.0",
            ConfigFault::Wrong { key: 2 },
        ),
        ("}", ",\"zone\":1}", ConfigFault::Unknown { place: 12 }),
    ] {
        assert_eq!(rt; changed(&rt, old, new)?, Err(fault));
    }
    assert_eq!(rt;
        changed(&rt, "}", ",\"version\":1}")?,
        Ok(Config::standard())
    );
    assert_eq!(rt;
        changed(&rt, "{", "{\"version\":256,")?,
        Ok(Config::standard())
    );
    assert_eq!(rt;
        changed(&rt, "}", ",\"version\":256}")?,
        Err(ConfigFault::Wrong { key: 2 })
    );
    Ok(())
}

const CALIBRATION: &str =
    "\"calibration\":{\"flow_r0\":501000000,\"flow_a\":39083000,\"flow_b\":5775,\"return_r0\":500000000,\"return_a\":39083000,\"return_b\":5775}";

// What the default text gives with a calibration in which `old` is replaced by `new`.
fn calibrated(rt: &HostRuntime, old: &str, new: &str) -> Result<Result<Config, ConfigFault>, Fail> {
    let calibration = CALIBRATION.replace(rt.alloc(), old, new)?;
    let mut text = STANDARD.replace(rt.alloc(), "}", ",")?;
    text.push_str(calibration.as_str())?;
    text.push_str("}")?;
    Ok(read_config(rt.alloc(), text.as_bytes()))
}

#[test]
fn calibrated_texts(rt: HostRuntime) -> Result<(), Fail> {
    let nominal = Cal {
        r0_uohm: 500_000_000,
        a_e10: 39_083_000,
        b_e10: 5_775,
    };
    let mut flow = nominal;
    flow.r0_uohm = 501_000_000;
    let read = calibrated(&rt, "501000000", "501000000")?;
    assert_eq!(rt; read.map(|c| c.cal), Ok(Some((flow, nominal))));
    for (old, new, fault) in [
        (
            "\"flow_b\":5775",
            "\"flow_b\":5499",
            ConfigFault::Wrong { key: 12 },
        ),
        ("501000000", "502500001", ConfigFault::Wrong { key: 12 }),
        ("}", ",\"more\":1}", ConfigFault::Wrong { key: 12 }),
        ("}", "},\"zone\":1", ConfigFault::Unknown { place: 13 }),
        (
            "5775}",
            "5775.0},\"zone\":1",
            ConfigFault::Wrong { key: 12 },
        ),
    ] {
        assert_eq!(rt; calibrated(&rt, old, new)?, Err(fault));
    }
    Ok(())
}
