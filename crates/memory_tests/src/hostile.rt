//! Every byte of a formatted memory takes every value. What is recovered is told by a reader of the layout that
//! stands here, and shares nothing with the crate's own.

ghost use Rattle.std.specs.Prelude.{◌≤◌, ◌<◌};
ghost use Rattle.energy_register.specs.Register.{FitsPulses};

use billing_memory::{Day, Entry, MeterRecord};
use energy_register::{PulsesFull, Step};
use meter_board::{Board, SimBoard};
use meter_config::Config;
use meter_parts::{Place, Sensor};
use register_store::{Side, Unreadable, format, recover};
use state_codec::encode_record;
use std::alloc::Global;
use std::process::Abort;
use std::test::Fail;

/// What a field keeps to. The numbers of bytes are offsets beside the field.
#[derive(Clone, Copy)]
enum Rule {
    Any,
    Odd,
    Zero,
    From(u128, u128),
    Among(u128, u128, u128, u128),
    /// Zero, unless the byte is 1.
    ZeroWithout(u16),
    /// From the first to the second where byte 24 is 1, else zero.
    Constant(u128, u128),
    /// At most 10^15, and at least the 8 bytes.
    NotBelow(u16),
    /// In two's complement, at most 2 * 10^12 either way for each of the 8 bytes.
    EnergyOf(u16),
    /// At most 2 * 10^6 for each of the 8 bytes.
    BoundOf(u16),
    MonthStart,
}

/// The offset of a field, its bytes and its rule.
type Field = (u16, u16, Rule);

const LETTER: Rule = Rule::From(0x41, 0x5a);

const HEADER: [Field; 16] = [
    (1, 1, Rule::Odd),
    (2, 4, Rule::From(0, 99_999_999)),
    (6, 1, LETTER),
    (7, 1, LETTER),
    (8, 1, LETTER),
    (9, 1, Rule::Any),
    (10, 1, Rule::From(0, 250)),
    (11, 1, Rule::From(0, 1)),
    (12, 2, Rule::From(1_100, 4_000)),
    (14, 2, Rule::Among(100, 500, 1_000, 1_000)),
    (16, 2, Rule::Among(1, 10, 100, 1_000)),
    (18, 1, Rule::From(0, 3)),
    (19, 1, Rule::From(0, 3)),
    (20, 1, Rule::From(1, 12)),
    (21, 1, Rule::Zero),
    (22, 2, Rule::From(0, 36_524)),
];

/// The constants of sensors of 500 ohms.
const CALIBRATION: [Field; 14] = [
    (24, 1, Rule::From(0, 1)),
    (25, 1, Rule::Zero),
    (26, 1, Rule::Zero),
    (27, 1, Rule::Zero),
    (28, 4, Rule::Constant(497_500_000, 502_500_000)),
    (32, 4, Rule::Constant(38_800_000, 39_400_000)),
    (36, 2, Rule::Constant(5_500, 6_000)),
    (38, 1, Rule::Zero),
    (39, 1, Rule::Zero),
    (40, 4, Rule::Constant(497_500_000, 502_500_000)),
    (44, 4, Rule::Constant(38_800_000, 39_400_000)),
    (48, 2, Rule::Constant(5_500, 6_000)),
    (50, 1, Rule::Zero),
    (51, 1, Rule::Zero),
];

const RECORD: [Field; 12] = [
    (0, 8, Rule::From(0, 1_000_000_000_000_000_000)),
    (8, 2, Rule::From(0, 36_524)),
    (10, 1, Rule::From(0, 1)),
    (11, 1, Rule::From(0, 24)),
    (12, 1, Rule::From(0, 1)),
    (13, 3, Rule::Zero),
    (16, 4, Rule::ZeroWithout(10)),
    (20, 4, Rule::ZeroWithout(10)),
    (24, 8, Rule::From(0, 1_000_000_000_000_000)),
    (32, 8, Rule::NotBelow(24)),
    (40, 16, Rule::EnergyOf(32)),
    (56, 16, Rule::BoundOf(32)),
];

const ENTRY: [Field; 5] = [
    (0, 2, Rule::MonthStart),
    (2, 6, Rule::Zero),
    (8, 8, Rule::Any),
    (16, 16, Rule::EnergyOf(8)),
    (32, 16, Rule::BoundOf(8)),
];

/// The first days of months in the four years from 2000 on, of which the first is a leap year.
const MONTH_STARTS: [u128; 48] = [
    0, 31, 60, 91, 121, 152, 182, 213, 244, 274, 305, 335, 366, 397, 425, 456, 486, 517, 547, 578,
    609, 639, 670, 700, 731, 762, 790, 821, 851, 882, 912, 943, 974, 1004, 1035, 1065, 1096, 1127,
    1155, 1186, 1216, 1247, 1277, 1308, 1339, 1369, 1400, 1430,
];

const FOUR_YEARS: u128 = 1_461;

/// The entries of a trace with each value of each byte that is looked at, and their bytes.
const ROOM: usize = 400_000;

/// What a memory is found to be.
#[derive(Clone, Copy, Debug, PartialEq, Eq)]
enum Found {
    Unformatted(u128),
    Foreign(u128),
    Holds(Held),
    Failed,
}

/// The numbers of all fields, in the order of the tables.
#[derive(Clone, Copy, Debug, PartialEq, Eq)]
struct Held {
    in_b: bool,
    header: [u128; 16],
    record: [u128; 12],
    set_day: [u128; 5],
    months: [[u128; 5]; 24],
}

fn part(bytes: &[u8], at: u16, size: u16) -> &[u8] {
    let from = usize::from(at);
    bytes.get(from..from + usize::from(size)).unwrap_or(&[])
}

// The lowest byte comes first.
fn number(bytes: &[u8], at: u16, size: u16) -> u128 {
    part(bytes, at, size)
        .iter()
        .rev()
        .fold(0, |n, byte| (n << 8) | u128::from(*byte))
}

fn is_blank(bytes: &[u8]) -> bool {
    bytes.iter().all(|byte| *byte == 0)
}

fn magnitude(energy: u128) -> u128 {
    if energy >> 127 == 1 {
        energy.wrapping_neg()
    } else {
        energy
    }
}

fn is_month_start(day: u128) -> bool {
    day <= 36_524 && MONTH_STARTS.contains(&(day % FOUR_YEARS))
}

// How many months have begun by a day.
fn month_of(day: u128) -> u128 {
    let within = day % FOUR_YEARS;
    let begun = MONTH_STARTS.iter().filter(|start| **start <= within);
    day / FOUR_YEARS * 48 + begun.count() as u128
}

fn keeps(field: &Field, bytes: &[u8]) -> bool {
    let (at, size, rule) = *field;
    let n = number(bytes, at, size);
    match rule {
        Rule::Any => true,
        Rule::Odd => n % 2 == 1,
        Rule::Zero => n == 0,
        Rule::From(low, high) => low <= n && n <= high,
        Rule::Among(a, b, c, d) => n == a || n == b || n == c || n == d,
        Rule::ZeroWithout(flag) => n == 0 || number(bytes, flag, 1) == 1,
        Rule::Constant(least, most) if number(bytes, 24, 1) == 1 => least <= n && n <= most,
        Rule::Constant(_, _) => n == 0,
        Rule::NotBelow(least) => n <= 1_000_000_000_000_000 && n >= number(bytes, least, 8),
        Rule::EnergyOf(pulses) => {
            magnitude(n) <= number(bytes, pulses, 8).saturating_mul(2_000_000_000_000)
        }
        Rule::BoundOf(pulses) => n <= number(bytes, pulses, 8).saturating_mul(2_000_000),
        Rule::MonthStart => is_month_start(n),
    }
}

fn first_broken(fields: &[Field], bytes: &[u8]) -> Option<u16> {
    for field in fields {
        if !keeps(field, bytes) {
            return Some(field.0);
        }
    }
    None
}

fn first_in_header(memory: &[u8]) -> Option<u16> {
    let broken = first_broken(&HEADER, memory).or(first_broken(&CALIBRATION, memory));
    if broken.is_some() {
        return broken;
    }
    (52..256).find(|at| number(memory, *at, 1) != 0)
}

fn is_entry(entry: &[u8], slot: &[u8]) -> bool {
    first_broken(&ENTRY, entry).is_none() && number(entry, 8, 8) <= number(slot, 32, 8)
}

fn keeps_set_day(slot: &[u8]) -> bool {
    let entry = part(slot, 72, 48);
    if number(slot, 12, 1) == 0 {
        return is_blank(entry);
    }
    is_entry(entry, slot) && number(entry, 0, 2) <= number(slot, 8, 2)
}

fn month(slot: &[u8], k: u16) -> &[u8]
    requires { k < 24 }
{
    part(slot, 120 + 48 * k, 48)
}

fn keeps_month(slot: &[u8], k: u16) -> bool
    requires { k < 24 }
{
    let entry = month(slot, k);
    let count = number(slot, 11, 1);
    if u128::from(k) >= count {
        return is_blank(entry);
    }
    let begun = month_of(number(entry, 0, 2));
    if u128::from(k) + 1 == count && begun != month_of(number(slot, 8, 2)) {
        return false;
    }
    is_entry(entry, slot) && (k == 0 || goes_on(month(slot, k - 1), entry))
}

fn goes_on(earlier: &[u8], later: &[u8]) -> bool {
    month_of(number(later, 0, 2)) == month_of(number(earlier, 0, 2)).saturating_add(1)
        && number(later, 8, 8) >= number(earlier, 8, 8)
}

fn first_in_slot(slot: &[u8]) -> Option<u16> {
    let broken = first_broken(&RECORD, slot);
    if broken.is_some() {
        return broken;
    }
    if !keeps_set_day(slot) {
        return Some(72);
    }
    for k in 0..24 {
        if !keeps_month(slot, k) {
            return Some(120 + 48 * k);
        }
    }
    if is_blank(part(slot, 1_272, 8)) {
        None
    } else {
        Some(1_272)
    }
}

fn numbers<const N: usize>(fields: &[Field; N], bytes: &[u8]) -> [u128; N] {
    let mut out = [0; N];
    for k in 0..N {
        let (at, size, _) = fields[k];
        out[k] = number(bytes, at, size);
    }
    out
}

// Each odd format is format 1.
fn header_numbers(memory: &[u8]) -> [u128; 16] {
    let mut out = numbers(&HEADER, memory);
    out[0] = 1;
    out
}

fn month_numbers(slot: &[u8]) -> [[u128; 5]; 24] {
    let mut out = [[0; 5]; 24];
    for k in 0..24 {
        out[usize::from(k)] = numbers(&ENTRY, month(slot, k));
    }
    out
}

// What the layout says of a memory.
fn read(memory: &[u8]) -> Found {
    let first = number(memory, 0, 1);
    if first != 0xa5 {
        return Found::Unformatted(first);
    }
    if let Some(at) = first_in_header(memory) {
        return Found::Foreign(u128::from(at));
    }
    let in_b = number(memory, 256, 1) % 2 == 1;
    let at = if in_b { 2_048 } else { 512 };
    let slot = part(memory, at, 1_280);
    match first_in_slot(slot) {
        Some(offset) => Found::Foreign(u128::from(at) + u128::from(offset)),
        None => Found::Holds(Held {
            in_b,
            header: header_numbers(memory),
            record: numbers(&RECORD, slot),
            set_day: numbers(&ENTRY, part(slot, 72, 48)),
            months: month_numbers(slot),
        }),
    }
}

fn bits(energy: i128) -> u128 {
    u128::from_le_bytes(energy.to_le_bytes())
}

fn config_numbers(c: &Config) -> [u128; 16] {
    let place = match c.place {
        Place::Flow => 0,
        Place::Return => 1,
    };
    let sensor = match c.sensor {
        Sensor::Pt100 => 100,
        Sensor::Pt500 => 500,
        Sensor::Pt1000 => 1_000,
    };
    [
        1,
        u128::from(c.serial),
        u128::from(c.maker[0]),
        u128::from(c.maker[1]),
        u128::from(c.maker[2]),
        u128::from(c.version),
        u128::from(c.address),
        place,
        u128::from(c.pressure_kpa),
        sensor,
        u128::from(c.per_pulse),
        u128::from(c.energy_decimals),
        u128::from(c.volume_decimals),
        u128::from(c.set_month),
        0,
        u128::from(c.opening_day.number),
    ]
}

fn record_numbers(m: &MeterRecord) -> [u128; 12] {
    let (flow, ret) = m.samples.unwrap_or((0, 0));
    [
        u128::from(m.seq),
        u128::from(m.day.number),
        u128::from(m.samples.is_some()),
        m.months.len() as u128,
        u128::from(m.set_day.is_some()),
        0,
        u128::from(flow),
        u128::from(ret),
        u128::from(m.faulty),
        u128::from(m.register.pulses),
        bits(m.register.energy_mj),
        m.register.bound_mj,
    ]
}

fn entry_numbers(entry: Option<&Entry>) -> [u128; 5] {
    match entry {
        Some(e) => [
            u128::from(e.day.number),
            0,
            u128::from(e.register.pulses),
            bits(e.register.energy_mj),
            e.register.bound_mj,
        ],
        None => [0; 5],
    }
}

fn numbers_held(c: &Config, m: &MeterRecord, side: Side) -> Held {
    let mut months = [[0; 5]; 24];
    for k in 0..24 {
        months[k] = entry_numbers(m.months.get(k));
    }
    Held {
        in_b: side == Side::B,
        header: config_numbers(c),
        record: record_numbers(m),
        set_day: entry_numbers(m.set_day.as_ref()),
        months,
    }
}

// What the board's memory is recovered to.
fn recovered(board: &mut SimBoard) -> Found {
    match recover(board) {
        Ok((c, m, side)) => Found::Holds(numbers_held(&c, &m, side)),
        Err(Unreadable::Unformatted { byte }) => Found::Unformatted(u128::from(byte)),
        Err(Unreadable::Foreign { at }) => Found::Foreign(u128::from(at)),
        Err(Unreadable::Memory) => Found::Failed,
    }
}

fn byte_at(board: &SimBoard, at: u32) -> u8 {
    board.image().get(at as usize).copied().unwrap_or(0)
}

fn set(rt: &impl Abort, board: &mut SimBoard, at: u32, value: u8)
    requires { at < 16384 }
{
    assert_eq!(rt; board.store(at, &[value]), Ok(()));
}

// The byte takes each value, and then its own again.
fn each_value(rt: &impl Abort, board: &mut SimBoard, at: u32)
    requires { at < 16384 }
{
    let own = byte_at(board, at);
    for value in 0..=u8::MAX {
        set(rt, board, at, value);
        let want = read(board.image());
        assert_eq!(rt; recovered(board), want, "byte {at} is {value}");
    }
    set(rt, board, at, own);
}

fn each_byte(rt: &impl Abort, board: &mut SimBoard, from: u32, end: u32)
    requires { end ≤ 16384 }
{
    for at in from..end {
        each_value(rt, board, at);
    }
}

// The byte is not looked at.
fn unseen(rt: &impl Abort, board: &mut SimBoard, at: u32, want: Found)
    requires { at < 16384 }
{
    let own = byte_at(board, at);
    for value in [0x00, 0xff, own ^ 0x01] {
        set(rt, board, at, value);
        assert_eq!(rt; recovered(board), want, "byte {at} is {value}");
    }
    set(rt, board, at, own);
}

// Every 97th byte of a range is not looked at.
fn unseen_range(rt: &impl Abort, board: &mut SimBoard, from: u32, end: u32)
    requires { end ≤ 16384 }
{
    let want = recovered(board);
    for at in from..end {
        if at % 97 == 0 {
            unseen(rt, board, at, want);
        }
    }
}

fn count(m: &mut MeterRecord, step: Step, pulses: u64) -> Result<(), PulsesFull>
    requires { FitsPulses step pulses }
{
    let register = match m.register.after(step, pulses) {
        Ok(register) => register,
        Err(full) => return Err(full),
    };
    m.register = register;
    Ok(())
}

// A record with 24 months, a set day and samples. Each of its energies is as low as its pulses let it be, and
// each bound as high.
fn full_record() -> Result<MeterRecord, Fail> {
    let step = Step {
        e_mj: -2_000_000_000_000_000_000,
        b_mj: 2_000_000_000_000,
        faulty: 0,
    };
    let mut m = MeterRecord::opening(Day { number: 8_000 });
    for k in 0..30 {
        count(&mut m, step, 1_000_000)?;
        m.move_to(
            Day {
                number: 8_000 + 31 * k,
            },
            1,
        )?;
    }
    m.seq = 72_623_859_790_382_856;
    m.samples = Some((0x2345_6789, 0x1234_5678));
    m.faulty = m.register.pulses / 3;
    Ok(m)
}

// A record of 2024-05-11 with three months, no set day and no samples.
fn small_record() -> Result<MeterRecord, Fail> {
    let step = Step {
        e_mj: 123_456_789_012,
        b_mj: 1_000,
        faulty: 0,
    };
    let mut m = MeterRecord::opening(Day { number: 8_797 });
    count(&mut m, step, 300)?;
    m.move_to(Day { number: 8_897 }, 1)?;
    count(&mut m, step, 7)?;
    m.seq = 5;
    Ok(m)
}

// A board with the full record in slot A.
fn formatted(alloc: Global) -> Result<SimBoard, Fail> {
    let mut board = SimBoard::new(alloc, &[0; 16384], ROOM, ROOM)?;
    format(&mut board, &Config::standard(), &full_record()?)?;
    Ok(board)
}

#[test]
fn hostile_memory_with_slot_a(rt: HostRuntime) -> Result<(), Fail> {
    let mut board = formatted(rt.alloc())?;
    let c = Config::standard();
    let want = Found::Holds(numbers_held(&c, &full_record()?, Side::A));
    assert_eq!(&rt; recovered(&mut board), want);
    each_byte(&rt, &mut board, 0, 257);
    each_byte(&rt, &mut board, 512, 1_792);
    unseen_range(&rt, &mut board, 257, 512);
    unseen_range(&rt, &mut board, 1_792, 16_384);
    assert_eq!(&rt; recovered(&mut board), want);
    Ok(())
}

#[test]
fn hostile_memory_with_slot_b(rt: HostRuntime) -> Result<(), Fail> {
    let mut board = formatted(rt.alloc())?;
    let m = small_record()?;
    assert_eq!(&rt; board.store(2_048, &encode_record(&m)), Ok(()));
    set(&rt, &mut board, 256, 0xb7);
    let want = Found::Holds(numbers_held(&Config::standard(), &m, Side::B));
    assert_eq!(&rt; recovered(&mut board), want);
    each_byte(&rt, &mut board, 0, 257);
    each_byte(&rt, &mut board, 2_048, 3_328);
    unseen_range(&rt, &mut board, 257, 2_048);
    unseen_range(&rt, &mut board, 3_328, 16_384);
    assert_eq!(&rt; recovered(&mut board), want);
    Ok(())
}
