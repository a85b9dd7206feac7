//! Cuts of the power on the board over a file.
use crate::steps::Step::{Arm, Load, Power, Store, Sync};
use crate::steps::{MEMORY, arm, takes};
use crate::watched::Watched;
use meter_board::{Failed, FileBoard, Refusal};
use std::test::Fail;
use std::{fs, io};

// Makes a memory of zero bytes.
fn make_memory(rt: &HostRuntime, path: &str) -> io::Result<()> {
    fs::File::create(rt, path)?.set_len(MEMORY as u64)
}

#[test]
fn a_cut_store_is_torn_in_the_file_and_settled(rt: HostRuntime) -> Result<(), Fail> {
    let path = "file_cuts_store.bin";
    for (keep, fill, want) in [
        (0, 0xFF, [0, 255, 255, 255, 255, 0]),
        (1, 0x00, [0, 1, 0, 0, 0, 0]),
        (2, 0xA5, [0, 1, 2, 165, 165, 0]),
        (4, 0xFF, [0, 1, 2, 3, 4, 0]),
        (65_535, 0xA5, [0, 1, 2, 3, 4, 0]),
    ] {
        make_memory(&rt, path)?;
        let mut board = FileBoard::at(&rt, path);
        takes(
            &rt,
            &mut board,
            &[
                arm(1, keep, fill),
                Store(10, &[1, 2, 3, 4], Err(Refusal::Cut)),
                Load(9, &want),
            ],
        );
        let mut again = FileBoard::at(&rt, path);
        takes(&rt, &mut again, &[Load(9, &want)]);
        takes(&rt, &mut board, &[Store(10, &[5], Ok(()))]);
    }
    fs::remove_file(&rt, path)?;
    Ok(())
}

#[test]
fn the_calls_of_a_cut_store_and_what_they_make_of_a_failure(rt: HostRuntime) -> Result<(), Fail> {
    let path = "file_cuts_calls.bin";
    make_memory(&rt, path)?;
    let watched = Watched::new(rt)?;
    let mut board = FileBoard::at(&watched, path);
    takes(
        &rt,
        &mut board,
        &[arm(1, 2, 0), Store(7, b"abcd", Err(Refusal::Cut))],
    );
    assert_eq!(&rt;
        watched.calls().as_str(),
        "open first; look at first; clone first; seek 7 in memory; write 2 to memory; seek 9 in memory; write 1 to memory; seek 10 in memory; write 1 to memory; sync memory; "
    );
    for spared in 0..7 {
        takes(&rt, &mut board, &[arm(1, 2, 0)]);
        watched.fail_after(spared);
        takes(
            &rt,
            &mut board,
            &[
                Store(7, b"abcd", Err(Refusal::Failed)),
                Store(7, b"abcd", Ok(())),
            ],
        );
    }
    fs::remove_file(&rt, path)?;
    Ok(())
}

#[test]
fn a_cut_sync_tears_the_last_store_in_the_file(rt: HostRuntime) -> Result<(), Fail> {
    let path = "file_cuts_sync.bin";
    make_memory(&rt, path)?;
    let watched = Watched::new(rt)?;
    let mut board = FileBoard::at(&watched, path);
    takes(
        &rt,
        &mut board,
        &[
            Store(0, &[1, 2], Ok(())),
            Store(2, &[3, 4, 5], Ok(())),
            arm(1, 1, 0xA5),
        ],
    );
    let _opened = watched.calls();
    takes(&rt, &mut board, &[Sync(Err(Refusal::Cut))]);
    assert_eq!(&rt;
        watched.calls().as_str(),
        "seek 3 in memory; seek 3 in memory; write 1 to memory; seek 4 in memory; write 1 to memory; sync memory; "
    );
    takes(
        &rt,
        &mut board,
        &[
            Load(0, &[1, 2, 3, 165, 165, 0]),
            arm(1, 0, 0xFF),
            Sync(Err(Refusal::Cut)),
            Store(0, &[7, 8], Ok(())),
            Sync(Ok(())),
            arm(1, 0, 0xFF),
            Sync(Err(Refusal::Cut)),
            Load(0, &[7, 8, 3, 165, 165, 0]),
        ],
    );
    fs::remove_file(&rt, path)?;
    Ok(())
}

#[test]
fn a_power_cut_leaves_the_file_and_the_cut_that_waits(rt: HostRuntime) -> Result<(), Fail> {
    let path = "file_cuts_power.bin";
    make_memory(&rt, path)?;
    let watched = Watched::new(rt)?;
    let mut board = FileBoard::at(&watched, path);
    takes(
        &rt,
        &mut board,
        &[Store(0, &[1, 2], Ok(())), arm(2, 0, 0xFF)],
    );
    let _opened = watched.calls();
    takes(&rt, &mut board, &[Power(Ok(()))]);
    assert_eq!(&rt; watched.calls().as_str(), "");
    watched.fail_after(0);
    takes(
        &rt,
        &mut board,
        &[
            Store(0, &[3], Err(Refusal::Failed)),
            Sync(Err(Refusal::Cut)),
            Load(0, &[1, 2, 0]),
            arm(1, 0, 0xFF),
            arm(2, 0, 0xA5),
            Store(0, &[3], Ok(())),
            Store(1, &[3], Err(Refusal::Cut)),
            Load(0, &[3, 165, 0]),
        ],
    );
    fs::remove_file(&rt, path)?;
    Ok(())
}

#[test]
fn an_arm_and_a_power_open_the_file(rt: HostRuntime) -> Result<(), Fail> {
    let path = "file_cuts_opened.bin";
    let _absent = fs::remove_file(&rt, path);
    let mut armed = FileBoard::at(&rt, path);
    takes(&rt, &mut armed, &[arm(1, 0, 0)]);
    assert_eq!(&rt; fs::metadata(&rt, path)?.len(), MEMORY as u64);
    fs::remove_file(&rt, path)?;
    let mut powered = FileBoard::at(&rt, path);
    takes(&rt, &mut powered, &[Power(Ok(()))]);
    assert_eq!(&rt; fs::metadata(&rt, path)?.len(), MEMORY as u64);
    fs::write(&rt, path, [9, 9].as_slice())?;
    let mut other = FileBoard::at(&rt, path);
    let failed = Arm {
        n: 1,
        keep: 0,
        fill: 0,
        want: Err(Failed),
    };
    takes(&rt, &mut other, &[failed, Power(Err(Failed))]);
    assert_eq!(&rt; fs::metadata(&rt, path)?.len(), 2);
    fs::remove_file(&rt, path)?;
    Ok(())
}
