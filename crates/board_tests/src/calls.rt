//! The calls of boards and sources.
use crate::steps::Step::{FailedLoad, Load, Put, Store, Sync};
use crate::steps::{MEMORY, fails, takes};
use meter_board::{CallKind, Failed, FileBoard, Refusal, SimBoard, SliceSource, Source};
use std::fs;
use std::test::Fail;

#[test]
fn a_file_is_the_memory(rt: HostRuntime) -> Result<(), Fail> {
    let path = "board_tests_memory.bin";
    let _absent = fs::remove_file(&rt, path);
    let mut board = FileBoard::at(&rt, path);
    takes(
        &rt,
        &mut board,
        &[
            Load(16_381, &[0, 0, 0]),
            Store(16_382, &[5, 6], Ok(())),
            Sync(Ok(())),
            Put(b"ok 1 30 0 0\n", Ok(())),
        ],
    );
    let mut again = FileBoard::at(&rt, path);
    takes(&rt, &mut again, &[Load(16_381, &[0, 5, 6])]);
    fs::write(&rt, path, [9, 9].as_slice())?;
    let mut short = FileBoard::at(&rt, path);
    takes(&rt, &mut short, &[Store(0, &[1], Err(Refusal::Failed))]);
    assert_eq!(&rt; fs::metadata(&rt, path)?.len(), 2);
    fs::remove_file(&rt, path)?;
    let mut folder = FileBoard::at(&rt, ".");
    takes(
        &rt,
        &mut folder,
        &[FailedLoad(0), Sync(Err(Refusal::Failed))],
    );
    Ok(())
}

#[test]
fn reads_come_in_pieces_and_fail_by_number(rt: HostRuntime) {
    let mut source = SliceSource::new(b"pulse 3\n", 3);
    assert!(rt; source.fail_on(2));
    let mut into = [0; 8];
    assert_eq!(rt; source.read(&mut into), Ok(3));
    assert!(rt; into.starts_with(b"pul"));
    assert_eq!(rt; source.read(&mut into), Err(Failed));
    assert_eq!(rt; source.read(&mut into), Ok(3));
    assert!(rt; into.starts_with(b"se "));
    assert_eq!(rt; source.read(&mut into), Ok(2));
    assert_eq!(rt; source.read(&mut into), Ok(0));
    for _ in 0..15 {
        assert!(rt; source.fail_on(1));
    }
    assert!(rt; !source.fail_on(1));
}

#[test]
fn puts_are_told_and_fail_by_number_and_room(rt: HostRuntime) -> Result<(), Fail> {
    let mut board = SimBoard::new(rt.alloc(), &[0; MEMORY], 3, 20)?;
    fails(&rt, &mut board, &[(CallKind::Put, 2), (CallKind::Store, 1)]);
    takes(
        &rt,
        &mut board,
        &[
            Put(b"abcdef\n", Ok(())),
            Put(b"ghijk\n", Err(Failed)),
            Put(b"lmnopqrstuvw", Err(Failed)),
            Put(b"xyz\n", Ok(())),
            Put(b"a", Err(Failed)),
        ],
    );
    assert!(rt; board.output().eq(b"abcdef\nghixyz\n".iter().copied()));
    Ok(())
}

#[test]
fn the_memory_is_read_and_fails_by_number_and_room(rt: HostRuntime) -> Result<(), Fail> {
    let mut board = SimBoard::new(rt.alloc(), &[7; MEMORY], 4, 4)?;
    fails(
        &rt,
        &mut board,
        &[
            (CallKind::Load, 2),
            (CallKind::Store, 2),
            (CallKind::Sync, 1),
        ],
    );
    takes(
        &rt,
        &mut board,
        &[
            Load(16_381, &[7, 7, 7]),
            Store(1, &[1, 2], Ok(())),
            FailedLoad(0),
            Load(0, &[7, 1, 2]),
            Store(1, &[3], Err(Refusal::Failed)),
            Sync(Err(Refusal::Failed)),
            Sync(Ok(())),
            Store(0, &[4, 5, 6], Err(Refusal::Failed)),
            Store(0, &[4, 5], Ok(())),
            Sync(Err(Refusal::Failed)),
            Store(0, &[], Err(Refusal::Failed)),
        ],
    );
    assert!(rt; board.image().starts_with(&[4, 5, 2, 7]));
    Ok(())
}
