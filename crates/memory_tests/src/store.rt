//! What is stored and recovered.
use billing_memory::{Day, MeterRecord};
use meter_board::{Board, CallKind, Refusal, SimBoard};
use meter_config::Config;
use register_store::{
    FormatFault, Side, Unreadable, commit, fill_slot, format, recover, turn_gate,
};
use std::alloc::Global;
use std::test::Fail;

// The header of the standard configuration up to its last byte that isn't 0.
const HEADER: [u8; 24] = [
    0xa5, 0x01, 0x4e, 0x61, 0xbc, 0x00, 0x41, 0x42, 0x43, 0x01, 0x01, 0x01, 0x40, 0x06, 0xf4, 0x01,
    0x0a, 0x00, 0x00, 0x02, 0x01, 0x00, 0x4c, 0x22,
];

fn opening() -> MeterRecord {
    MeterRecord::opening(Day { number: 8_780 })
}

#[test]
fn memory_of_zeros_is_formatted(rt: HostRuntime) -> Result<(), Fail> {
    let c = Config::standard();
    let m = opening();
    let mut board = SimBoard::new(rt.alloc(), &[0; 16384], 4, 1_792)?;
    assert_eq!(rt;
        recover(&mut board),
        Err(Unreadable::Unformatted { byte: 0 })
    );
    format(&mut board, &c, &m)?;
    assert_eq!(rt; format(&mut board, &c, &m), Err(FormatFault::Formatted));
    assert_eq!(rt; recover(&mut board), Ok((c, m, Side::A)));
    let image = board.image();
    assert_eq!(rt; image[..24], HEADER[..]);
    assert!(rt; image[24..520].iter().all(|byte| *byte == 0));
    assert_eq!(rt; (image[520], image[521]), (0x4c, 0x22));
    Ok(())
}

#[test]
fn memory_with_foreign_fields(rt: HostRuntime) -> Result<(), Fail> {
    let mut board = SimBoard::new(rt.alloc(), &[0; 16384], 5, 40)?;
    assert_eq!(rt; board.store(0, &HEADER), Ok(()));
    assert_eq!(rt; board.store(520, &[0xff, 0xff]), Ok(()));
    assert_eq!(rt; recover(&mut board), Err(Unreadable::Foreign { at: 520 }));
    assert_eq!(rt; board.store(256, &[0xff]), Ok(()));
    assert_eq!(rt; board.store(2_056, &[0x4c, 0x22]), Ok(()));
    assert_eq!(rt;
        recover(&mut board),
        Ok((Config::standard(), opening(), Side::B))
    );
    assert_eq!(rt; board.store(11, &[2]), Ok(()));
    assert_eq!(rt; recover(&mut board), Err(Unreadable::Foreign { at: 11 }));
    Ok(())
}

fn counted(events: u32) -> MeterRecord {
    let mut m = opening();
    m.seq = u64::from(events);
    m
}

#[test]
fn slots_take_turns(rt: HostRuntime) -> Result<(), Fail> {
    let c = Config::standard();
    let mut board = SimBoard::new(rt.alloc(), &[0; 16384], 12, 6_000)?;
    format(&mut board, &c, &opening())?;
    let first = commit(&mut board, Side::A, &counted(1))?;
    assert_eq!(rt; recover(&mut board), Ok((c, counted(1), first)));
    assert_eq!(rt; first, Side::B);
    assert_eq!(rt; (board.image()[256], board.image()[2_048]), (1, 1));
    let second = commit(&mut board, first, &counted(2))?;
    assert_eq!(rt; recover(&mut board), Ok((c, counted(2), second)));
    assert_eq!(rt; second, Side::A);
    assert_eq!(rt; (board.image()[256], board.image()[512]), (0, 2));
    Ok(())
}

#[test]
fn gate_turns_to_a_slot_that_was_filled(rt: HostRuntime) -> Result<(), Fail> {
    let c = Config::standard();
    let mut board = SimBoard::new(rt.alloc(), &[0; 16384], 12, 6_000)?;
    format(&mut board, &c, &opening())?;
    fill_slot(&mut board, Side::A, &counted(1))?;
    assert_eq!(rt; recover(&mut board), Ok((c, opening(), Side::A)));
    assert_eq!(rt; turn_gate(&mut board, Side::A), Ok(Side::B));
    assert_eq!(rt; recover(&mut board), Ok((c, counted(1), Side::B)));
    Ok(())
}

// What a commit answers during which this call of the memory fails, and what is recovered then.
fn failing(
    alloc: Global,
    kind: CallKind,
    number: u32,
) -> Result<(Result<Side, Refusal>, MeterRecord, Side), Fail> {
    let mut board = SimBoard::new(alloc, &[0; 16384], 12, 6_000)?;
    board.fail_on(kind, number);
    format(&mut board, &Config::standard(), &opening())?;
    let answer = commit(&mut board, Side::A, &counted(1));
    let (_, held, side) = recover(&mut board)?;
    Ok((answer, held, side))
}

#[test]
fn commit_fails_with_the_memory(rt: HostRuntime) -> Result<(), Fail> {
    let refused = Err(Refusal::Failed);
    assert_eq!(rt;
        failing(rt.alloc(), CallKind::Sync, 3)?,
        (refused, opening(), Side::A)
    );
    assert_eq!(rt;
        failing(rt.alloc(), CallKind::Store, 4)?,
        (refused, opening(), Side::A)
    );
    assert_eq!(rt;
        failing(rt.alloc(), CallKind::Sync, 4)?,
        (refused, counted(1), Side::B)
    );
    Ok(())
}
