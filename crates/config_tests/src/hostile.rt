//! Texts that nobody would write for a meter.

use crate::standard::{STANDARD, changed};
use meter_config::{Config, ConfigFault, key_name, read_config};
use std::test::Fail;

#[test]
fn bytes_that_are_no_json(rt: HostRuntime) {
    let open = [b'['; 4_096];
    for text in [
        b"".as_slice(),
        b"\xff".as_slice(),
        open.as_slice(),
        b"1e999".as_slice(),
        b"\"\\ud800\"".as_slice(),
        b"\"\xc0\xaf\"".as_slice(),
        b"\xef\xbb\xbf{}".as_slice(),
        b"{}{}".as_slice(),
        b"{}\0".as_slice(),
    ] {
        assert_eq!(rt; read_config(rt.alloc(), text), Err(ConfigFault::Text));
    }
}

#[test]
fn nested_levels(rt: HostRuntime) {
    let mut read = [b'['; 254];
    read[127..].fill(b']');
    assert_eq!(rt; read_config(rt.alloc(), &read), Err(ConfigFault::NotObject));
    let mut refused = [b'['; 256];
    refused[128..].fill(b']');
    assert_eq!(rt; read_config(rt.alloc(), &refused), Err(ConfigFault::Text));
}

#[test]
fn an_object_is_a_level(rt: HostRuntime) {
    let mut read = [b'['; 258];
    read[..5].copy_from_slice(b"{\"a\":");
    read[131..].fill(b']');
    read[257] = b'}';
    assert_eq!(rt;
        read_config(rt.alloc(), &read),
        Err(ConfigFault::Missing { key: 0 })
    );
    let mut refused = [b'['; 260];
    refused[..5].copy_from_slice(b"{\"a\":");
    refused[132..].fill(b']');
    refused[259] = b'}';
    assert_eq!(rt; read_config(rt.alloc(), &refused), Err(ConfigFault::Text));
}

#[test]
fn values_that_are_wrong(rt: HostRuntime) -> Result<(), Fail> {
    for (old, new, key) in [
        ("\"12345678\"", "12345678", 0),
        ("\"version\":1", "\"version\":-1", 2),
        ("\"version\":1", "\"version\":256", 2),
        ("\"version\":1", "\"version\":\"1\"", 2),
        ("\"version\":1", "\"version\":-0", 2),
        ("\"version\":1", "\"version\":1.0", 2),
        ("\"version\":1", "\"version\":1e-999", 2),
        ("\"version\":1", "\"version\":18446744073709551616", 2),
        ("\"version\":1", "\"version\":null", 2),
        ("\"litres_per_pulse\":10", "\"litres_per_pulse\":1e3", 7),
        ("\"energy_decimals\":0", "\"energy_decimals\":0.0", 8),
        ("2024-01-15", "2023-02-29", 11),
        ("2024-01-15", "1999-12-31", 11),
    ] {
        assert_eq!(rt;
            changed(&rt, old, new)?,
            Err(ConfigFault::Wrong { key }),
            "{new}"
        );
    }
    Ok(())
}

#[test]
fn numbers_that_are_no_json(rt: HostRuntime) -> Result<(), Fail> {
    for number in [
        "1e999", "-1e999", "+1", "01", "1.", ".5", "1e", "-", "0x1", "NaN",
    ] {
        assert_eq!(rt;
            changed(&rt, "500", number)?,
            Err(ConfigFault::Text),
            "{number}"
        );
    }
    Ok(())
}

#[test]
fn strings_are_read_unescaped(rt: HostRuntime) -> Result<(), Fail> {
    assert_eq!(rt;
        changed(&rt, "ABC", "\\u0041B\\u0043")?,
        Ok(Config::standard())
    );
    // a pair of surrogates is one character, of four bytes
    assert_eq!(rt;
        changed(&rt, "ABC", "\\ud83d\\ude00")?,
        Err(ConfigFault::Wrong { key: 1 })
    );
    for lone in ["\\ud800", "\\udc00", "\\ud800A", "\\ud800\\u0041"] {
        for place in ["ABC", "maker"] {
            assert_eq!(rt;
                changed(&rt, place, lone)?,
                Err(ConfigFault::Text),
                "{lone}"
            );
        }
    }
    Ok(())
}

#[test]
fn white_space_alone_stands_around_the_object(rt: HostRuntime) -> Result<(), Fail> {
    assert_eq!(rt; changed(&rt, "{", " \t\r\n{ ")?, Ok(Config::standard()));
    assert_eq!(rt; changed(&rt, "}", " } \t\r\n")?, Ok(Config::standard()));
    for (old, new) in [
        ("{", "\u{feff}{"),
        ("{", "\x0c{"),
        ("}", ",}"),
        ("}", "},"),
        ("}", "}}"),
        ("}", "}//"),
    ] {
        assert_eq!(rt; changed(&rt, old, new)?, Err(ConfigFault::Text), "{new}");
    }
    Ok(())
}

#[test]
fn keys_are_compared_unescaped(rt: HostRuntime) -> Result<(), Fail> {
    assert_eq!(rt;
        changed(&rt, "\"serial\"", "\"\\u0073erial\"")?,
        Ok(Config::standard())
    );
    assert_eq!(rt;
        changed(&rt, "}", ",\"\\u0073erial\":1}")?,
        Err(ConfigFault::Wrong { key: 0 })
    );
    assert_eq!(rt;
        changed(&rt, "}", ",\"serial\\u0000\":1}")?,
        Err(ConfigFault::Unknown { place: 9 })
    );
    Ok(())
}

#[test]
fn repeated_keys_have_the_last_value(rt: HostRuntime) -> Result<(), Fail> {
    assert_eq!(rt;
        changed(&rt, "{", "{\"sensor\":\"none\",\"sensor\":[],")?,
        Ok(Config::standard())
    );
    assert_eq!(rt;
        changed(&rt, "}", ",\"sensor\":\"none\"}")?,
        Err(ConfigFault::Wrong { key: 6 })
    );
    // a repeated key has one place
    assert_eq!(rt;
        changed(&rt, "{", "{\"zone\":1,\"address\":2,\"zone\":3,")?,
        Err(ConfigFault::Unknown { place: 12 })
    );
    assert_eq!(rt;
        changed(&rt, "}", ",\"zone\":1,\"\":2,\"Zone\":3}")?,
        Err(ConfigFault::Unknown { place: 0 })
    );
    Ok(())
}
