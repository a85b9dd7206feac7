//! The words of the command line.
use crate::trial::{EMPTY, Trial, ends};
use command_words::{HeatCoefficient, Job, Query, Sample, command};
use meter_cli::Status;
use meter_parts::{Place, Sensor};
use std::test::Fail;

#[test]
fn words_are_commands(rt: HostRuntime) {
    for (words, job) in [
        (["dry"].as_slice(), Job::Dry),
        (["init"].as_slice(), Job::Init),
        (["run"].as_slice(), Job::Run),
        (["show"].as_slice(), Job::Show),
        (["read", "mbus"].as_slice(), Job::ReadMbus),
        (["read", "optical"].as_slice(), Job::ReadOptical),
        (["cert", "1100"].as_slice(), Job::Cert { p_kpa: 1_100 }),
        (["cert", "4000"].as_slice(), Job::Cert { p_kpa: 4_000 }),
        (
            ["temp", "500", "0"].as_slice(),
            Job::Ask(Query::Temp(Sample {
                sensor: Sensor::Pt500,
                r: 0,
            })),
        ),
        (
            ["k", "flow", "1100", "60000000", "59990000"].as_slice(),
            Job::Ask(Query::Coef(HeatCoefficient {
                place: Place::Flow,
                p_kpa: 1100,
                tf_udeg: 60_000_000,
                tr_udeg: 59_990_000,
            })),
        ),
    ] {
        assert_eq!(&rt; command(words), Ok(job));
    }
}

// Words that are no command, and the place of the first wrong, missing or extra one.
#[test]
fn words_are_tested(rt: HostRuntime) -> Result<(), Fail> {
    for (words, word) in [
        ("", 0),
        ("Run", 0),
        ("run now", 1),
        ("--help", 0),
        ("dry now", 1),
        ("init now", 1),
        ("show now", 1),
        ("temp 200 1", 1),
        ("temp 0100 1", 1),
        ("temp 100", 2),
        ("temp 100 4294967296", 2),
        ("temp 100 -1", 2),
        ("temp 100 1 1", 3),
        ("water 1099 0", 1),
        ("water 4001 0", 1),
        ("water 1100 180000001", 2),
        // The last word is an empty one.
        ("water 4000 180000000 ", 3),
        ("k up 1600 60000000 50000000", 1),
        ("k flow 1099 60000000 50000000", 2),
        ("k flow 1600 180000001 0", 3),
        ("k flow 1600 5000 0", 4),
        ("k flow 1600 60000000 59990001", 4),
        ("k flow 1600 60000000", 4),
        ("k flow 1600 10000 0 0", 5),
        ("bench", 1),
        ("bench water", 1),
        ("bench calc 200", 2),
        ("bench calc 500 flow 1600 0", 5),
        ("bench pair 500 1 0 0 1 1", 5),
        ("bench pair 500 1 5 5 1 1", 5),
        ("bench flow 4 1500", 2),
        ("bench flow 2 1 1 1 0 0", 7),
        ("gen 18446744073709551616 1", 1),
        ("gen 1 0", 2),
        ("gen 1 1000001", 2),
        ("gen 1 1 1", 3),
        ("cert", 1),
        ("cert 1099", 1),
        ("cert 4001", 1),
        ("cert 1600 1", 2),
        ("read", 1),
        ("read bus", 1),
        ("read mbus now", 2),
        ("read optical now", 2),
    ] {
        ends(
            &rt,
            &Trial::new(words, &EMPTY, b""),
            Status::Usage { word },
            b"",
        )?;
    }
    Ok(())
}
