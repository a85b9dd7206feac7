//! Cuts of the power on the board in memory.
use crate::steps::Step::{self, Arm, Load, Power, Put, Store, Sync};
use crate::steps::{MEMORY, arm, fails, takes};
use meter_board::{Board, CallKind, Failed, Refusal, SimBoard};
use std::alloc::{AllocError, Global};
use std::process::Abort;
use std::test::Fail;

// A board whose memory reads 7 in each place.
fn board_of_sevens(alloc: Global, entries: usize, bytes: usize) -> Result<SimBoard, AllocError> {
    SimBoard::new(alloc, &[7; MEMORY], entries, bytes)
}

// The memory reads this at its begin, and 7 in each place behind.
fn reads(rt: &impl Abort, board: &SimBoard, want: &[u8]) {
    assert_eq!(rt; board.image().len(), MEMORY);
    let mut wanted = want.iter();
    for byte in board.image() {
        assert_eq!(rt; byte, wanted.next().unwrap_or(&7));
    }
    assert!(rt; wanted.next().is_none());
}

// The memory begins so.
fn begins(rt: &impl Abort, board: &SimBoard, want: &[u8]) {
    assert!(rt; board.image().starts_with(want));
}

// What a store of four bytes leaves that is cut so.
fn a_cut_store_leaves(
    rt: &(impl Abort + AllocGlobal),
    keep: u16,
    fill: u8,
    want: &[u8],
) -> Result<(), Fail> {
    let mut board = board_of_sevens(rt.alloc(), 10, 40_000)?;
    takes(
        rt,
        &mut board,
        &[
            arm(1, keep, fill),
            Store(2, &[1, 2, 3, 4], Err(Refusal::Cut)),
        ],
    );
    reads(rt, &board, want);
    takes(rt, &mut board, &[Store(3, &[9], Ok(())), Load(3, &[9])]);
    Ok(())
}

#[test]
fn a_cut_store_writes_its_first_bytes_and_fills_the_others(rt: HostRuntime) -> Result<(), Fail> {
    for (keep, fill, want) in [
        (0, 0x00, [7, 7, 0, 0, 0, 0, 7]),
        (1, 0xFF, [7, 7, 1, 255, 255, 255, 7]),
        (2, 0xA5, [7, 7, 1, 2, 165, 165, 7]),
        (3, 0x00, [7, 7, 1, 2, 3, 0, 7]),
        (4, 0xFF, [7, 7, 1, 2, 3, 4, 7]),
        (65_535, 0xA5, [7, 7, 1, 2, 3, 4, 7]),
    ] {
        a_cut_store_leaves(&rt, keep, fill, &want)?;
    }
    Ok(())
}

// What a sync behind two stores leaves that is cut so.
fn a_cut_sync_leaves(
    rt: &(impl Abort + AllocGlobal),
    keep: u16,
    fill: u8,
    want: &[u8],
) -> Result<(), Fail> {
    let mut board = board_of_sevens(rt.alloc(), 10, 40_000)?;
    takes(
        rt,
        &mut board,
        &[
            Store(0, &[1, 2, 9], Ok(())),
            Store(2, &[3, 4, 5, 6], Ok(())),
        ],
    );
    board.cut_on(1, keep, fill);
    takes(rt, &mut board, &[Sync(Err(Refusal::Cut))]);
    reads(rt, &board, want);
    takes(rt, &mut board, &[Sync(Ok(()))]);
    Ok(())
}

#[test]
fn a_cut_sync_tears_the_last_store_alone(rt: HostRuntime) -> Result<(), Fail> {
    for (keep, fill, want) in [
        (0, 0x00, [1, 2, 0, 0, 0, 0, 7]),
        (1, 0xFF, [1, 2, 3, 255, 255, 255, 7]),
        (2, 0xA5, [1, 2, 3, 4, 165, 165, 7]),
        (4, 0xFF, [1, 2, 3, 4, 5, 6, 7]),
        (65_535, 0x00, [1, 2, 3, 4, 5, 6, 7]),
    ] {
        a_cut_sync_leaves(&rt, keep, fill, &want)?;
    }
    Ok(())
}

#[test]
fn a_cut_sync_leaves_what_stood_before_the_last_sync_cut_or_power(
    rt: HostRuntime,
) -> Result<(), Fail> {
    let mut board = board_of_sevens(rt.alloc(), 40, 200_000)?;
    board.cut_on(1, 0, 0);
    takes(&rt, &mut board, &[Sync(Err(Refusal::Cut))]);
    begins(&rt, &board, &[7, 7, 7, 7]);
    takes(&rt, &mut board, &[Store(0, &[1, 2], Ok(())), Sync(Ok(()))]);
    board.cut_on(1, 0, 0);
    takes(&rt, &mut board, &[Sync(Err(Refusal::Cut))]);
    begins(&rt, &board, &[1, 2, 7, 7]);
    takes(&rt, &mut board, &[Store(0, &[3, 4], Ok(())), Power(Ok(()))]);
    board.cut_on(1, 0, 0);
    takes(&rt, &mut board, &[Sync(Err(Refusal::Cut))]);
    begins(&rt, &board, &[3, 4, 7, 7]);
    board.cut_on(2, 1, 255);
    takes(
        &rt,
        &mut board,
        &[
            Store(0, &[5, 6], Ok(())),
            Store(2, &[5, 6], Err(Refusal::Cut)),
        ],
    );
    board.cut_on(1, 0, 0);
    takes(&rt, &mut board, &[Sync(Err(Refusal::Cut))]);
    begins(&rt, &board, &[5, 6, 5, 255]);
    Ok(())
}

#[test]
fn calls_that_fail_leave_the_last_store(rt: HostRuntime) -> Result<(), Fail> {
    let mut board = board_of_sevens(rt.alloc(), 10, 40_000)?;
    fails(
        &rt,
        &mut board,
        &[
            (CallKind::Store, 2),
            (CallKind::Sync, 1),
            (CallKind::Power, 1),
        ],
    );
    takes(
        &rt,
        &mut board,
        &[
            Store(1, &[1, 2], Ok(())),
            Store(5, &[3, 4], Err(Refusal::Failed)),
            Sync(Err(Refusal::Failed)),
            Power(Err(Failed)),
            arm(1, 1, 0),
            Sync(Err(Refusal::Cut)),
        ],
    );
    begins(&rt, &board, &[7, 1, 0, 7, 7, 7, 7]);
    Ok(())
}

#[test]
fn stores_and_syncs_count_for_a_cut_that_waits(rt: HostRuntime) -> Result<(), Fail> {
    let mut board = board_of_sevens(rt.alloc(), 20, 80_000)?;
    takes(
        &rt,
        &mut board,
        &[
            arm(3, 1, 0),
            Store(0, &[1, 2], Ok(())),
            Load(0, &[1, 2]),
            Put(b"ok\n", Ok(())),
            Sync(Ok(())),
            Power(Ok(())),
            Store(0, &[3, 4], Err(Refusal::Cut)),
            Load(0, &[3, 0, 7]),
            Store(0, &[5, 6], Ok(())),
            Sync(Ok(())),
        ],
    );
    Ok(())
}

#[test]
fn a_call_that_fails_counts_and_is_not_cut(rt: HostRuntime) -> Result<(), Fail> {
    let mut board = board_of_sevens(rt.alloc(), 20, 80_000)?;
    fails(
        &rt,
        &mut board,
        &[
            (CallKind::Store, 1),
            (CallKind::Store, 3),
            (CallKind::Sync, 1),
        ],
    );
    takes(
        &rt,
        &mut board,
        &[
            arm(1, 0, 0),
            Store(0, &[1], Err(Refusal::Failed)),
            Store(0, &[2], Ok(())),
            arm(2, 0, 0),
            Store(0, &[3], Err(Refusal::Failed)),
            Store(0, &[4], Err(Refusal::Cut)),
            Load(0, &[0]),
            arm(1, 0, 0),
            Sync(Err(Refusal::Failed)),
            Sync(Ok(())),
        ],
    );
    Ok(())
}

#[test]
fn a_new_arm_replaces_one_that_waits(rt: HostRuntime) -> Result<(), Fail> {
    let mut board = board_of_sevens(rt.alloc(), 20, 80_000)?;
    takes(
        &rt,
        &mut board,
        &[
            arm(1, 0, 0),
            arm(2, 1, 0xA5),
            Store(0, &[1, 2], Ok(())),
            Store(2, &[3, 4], Err(Refusal::Cut)),
            Load(0, &[1, 2, 3, 0xA5, 7]),
        ],
    );
    board.cut_on(9, 0, 0);
    board.cut_on(1, 0, 0xFF);
    takes(
        &rt,
        &mut board,
        &[Store(0, &[5], Err(Refusal::Cut)), Load(0, &[0xFF, 2])],
    );
    Ok(())
}

#[test]
fn a_power_that_fails_is_no_cut(rt: HostRuntime) -> Result<(), Fail> {
    let mut board = board_of_sevens(rt.alloc(), 20, 80_000)?;
    fails(&rt, &mut board, &[(CallKind::Power, 2)]);
    board.cut_on(2, 0, 0);
    takes(
        &rt,
        &mut board,
        &[
            Power(Ok(())),
            Store(0, &[1], Ok(())),
            Power(Err(Failed)),
            Power(Ok(())),
            Load(0, &[1]),
            Sync(Err(Refusal::Cut)),
            Load(0, &[1]),
        ],
    );
    Ok(())
}

#[test]
fn a_cut_store_needs_room_for_both_entries(rt: HostRuntime) -> Result<(), Fail> {
    for (entries, bytes, first, want, next) in [
        (2, 16_388, 0, Refusal::Cut, Err(Refusal::Failed)),
        (1, 16_388, 7, Refusal::Failed, Ok(())),
        (2, 16_387, 7, Refusal::Failed, Ok(())),
        (2, 16_384, 7, Refusal::Failed, Ok(())),
        (2, 4, 7, Refusal::Failed, Ok(())),
    ] {
        let mut board = board_of_sevens(rt.alloc(), entries, bytes)?;
        board.cut_on(1, 0, 0);
        takes(
            &rt,
            &mut board,
            &[
                Store(0, &[1, 2, 3, 4], Err(want)),
                Load(0, &[first]),
                Store(0, &[1, 2, 3, 4], next),
            ],
        );
    }
    Ok(())
}

#[test]
fn a_cut_sync_needs_room(rt: HostRuntime) -> Result<(), Fail> {
    for (entries, bytes, want) in [
        (1, 16_384, Refusal::Cut),
        (0, 16_384, Refusal::Failed),
        (1, 16_383, Refusal::Failed),
    ] {
        let mut board = board_of_sevens(rt.alloc(), entries, bytes)?;
        board.cut_on(1, 0, 0);
        takes(&rt, &mut board, &[Sync(Err(want))]);
    }
    Ok(())
}

#[test]
fn a_power_needs_room(rt: HostRuntime) -> Result<(), Fail> {
    for (entries, bytes, want) in [
        (1, 16_384, Ok(())),
        (0, 16_384, Err(Failed)),
        (1, 16_383, Err(Failed)),
    ] {
        let mut board = board_of_sevens(rt.alloc(), entries, bytes)?;
        takes(&rt, &mut board, &[Power(want)]);
    }
    Ok(())
}

// Orders a cut for which there is no room.
fn arm_without_room(n: u16) -> Step<'static> {
    Arm {
        n,
        keep: 0,
        fill: 0,
        want: Err(Failed),
    }
}

#[test]
fn an_arm_needs_room(rt: HostRuntime) -> Result<(), Fail> {
    let mut board = board_of_sevens(rt.alloc(), 2, 16_384)?;
    takes(
        &rt,
        &mut board,
        &[arm(1, 0, 0), arm(2, 0, 0), arm_without_room(1)],
    );
    let mut spent = board_of_sevens(rt.alloc(), 2, 16_385)?;
    takes(
        &rt,
        &mut spent,
        &[
            arm(2, 0, 0),
            Sync(Ok(())),
            arm_without_room(9),
            Store(0, &[1], Err(Refusal::Failed)),
        ],
    );
    Ok(())
}
