//! What the board over a file and standard input ask of their runtime, and what they make of its answers.
use crate::steps::Step::{self, FailedLoad, Load, Put, Store, Sync};
use crate::steps::{MEMORY, takes};
use crate::typed::Typed;
use crate::watched::Watched;
use arrayvec::ArrayString;
use meter_board::{Board, Failed, FileBoard, Refusal, Source, StdSource};
use std::process::Abort;
use std::test::Fail;
use std::{fs, io};

// Makes a file of this many zero bytes.
fn make_zeros(rt: &HostRuntime, path: &str, len: u64) -> io::Result<()> {
    fs::File::create(rt, path)?.set_len(len)
}

#[test]
fn a_new_memory_and_its_name_are_settled_before_its_first_byte(
    rt: HostRuntime,
) -> Result<(), Fail> {
    let path = "edge_new_memory.bin";
    let _absent = fs::remove_file(&rt, path);
    // A process that was ended has left this.
    let left = "edge_new_memory.bin.new";
    make_zeros(&rt, left, 7)?;
    let watched = Watched::new(rt)?;
    let mut board = FileBoard::at(&watched, path);
    takes(&rt, &mut board, &[Load(16_382, &[0, 0])]);
    called(
        &rt,
        &watched,
        "open first; remove new; open new; resize new to 16384; sync new; look for the name; rename new; open folder; sync folder; open first; look at first; clone first; seek 16382 in memory; read 2 of memory; ",
    );
    assert_eq!(&rt; fs::metadata(&rt, path)?.len(), MEMORY as u64);
    assert!(&rt; !fs::exists(&rt, left)?);
    fs::remove_file(&rt, path)?;
    Ok(())
}

// The runtime got these calls since the last look.
fn called(rt: &impl Abort, watched: &Watched, want: &str) {
    assert_eq!(rt; watched.calls().as_str(), want);
}

// The calls that a store makes on a runtime where the call after `spared` fails, and what the store answers.
fn store_byte(
    rt: HostRuntime,
    path: &str,
    spared: u32,
) -> io::Result<(ArrayString<1024>, Result<(), Refusal>)> {
    let watched = Watched::new(rt)?;
    watched.fail_after(spared);
    let mut board = FileBoard::at(&watched, path);
    let answer = board.store(0, &[1]);
    Ok((watched.calls(), answer))
}

#[test]
fn a_memory_that_can_not_be_made_whole_is_taken_away(rt: HostRuntime) -> Result<(), Fail> {
    let path = "edge_failed_memory.bin";
    let _absent = fs::remove_file(&rt, path);
    for (spared, want) in [
        (0, "open first; "),
        (1, "open first; remove new; "),
        (2, "open first; remove new; open new; remove new; "),
        (
            3,
            "open first; remove new; open new; resize new to 16384; remove new; ",
        ),
        (
            4,
            "open first; remove new; open new; resize new to 16384; sync new; remove new; ",
        ),
        (
            5,
            "open first; remove new; open new; resize new to 16384; sync new; look for the name; remove new; ",
        ),
        (
            6,
            "open first; remove new; open new; resize new to 16384; sync new; look for the name; rename new; remove new; ",
        ),
        (
            7,
            "open first; remove new; open new; resize new to 16384; sync new; look for the name; rename new; open folder; remove memory; ",
        ),
        (
            8,
            "open first; remove new; open new; resize new to 16384; sync new; look for the name; rename new; open folder; sync folder; remove memory; ",
        ),
    ] {
        let (calls, answer) = store_byte(rt, path, spared)?;
        assert_eq!(rt; calls.as_str(), want, "after {spared}");
        assert_eq!(rt; answer, Err(Refusal::Failed), "after {spared}");
        assert!(rt; !fs::exists(&rt, path)?, "after {spared}");
    }
    Ok(())
}

#[test]
fn a_file_that_is_no_memory_or_fails_is_left(rt: HostRuntime) -> Result<(), Fail> {
    let path = "edge_other_file.bin";
    for (len, spared, want) in [
        (0, 9, "open first; look at first; "),
        (16_383, 9, "open first; look at first; "),
        (16_385, 9, "open first; look at first; "),
        (32_768, 9, "open first; look at first; "),
        (16_384, 0, "open first; "),
        (16_384, 1, "open first; look at first; "),
        (16_384, 2, "open first; look at first; clone first; "),
    ] {
        make_zeros(&rt, path, len)?;
        let (calls, answer) = store_byte(rt, path, spared)?;
        assert_eq!(rt; calls.as_str(), want, "{len} bytes, after {spared}");
        assert_eq!(rt; answer, Err(Refusal::Failed), "{len} bytes, after {spared}");
        let bytes = fs::read(&rt, path)?;
        assert_eq!(rt; bytes.len() as u64, len);
        assert!(rt;
            bytes.iter().all(|byte| *byte == 0),
            "{len} bytes, after {spared}"
        );
    }
    fs::remove_file(&rt, path)?;
    Ok(())
}

#[test]
fn each_byte_is_stored_however_short_the_writes(rt: HostRuntime) -> Result<(), Fail> {
    let path = "edge_short_writes.bin";
    make_zeros(&rt, path, MEMORY as u64)?;
    let watched = Watched::new(rt)?;
    watched.move_at_most(3);
    let mut board = FileBoard::at(&watched, path);
    takes(&rt, &mut board, &[Store(16_376, b"abcdefgh", Ok(()))]);
    called(
        &rt,
        &watched,
        "open first; look at first; clone first; seek 16376 in memory; write 8 to memory; write 5 to memory; write 2 to memory; ",
    );
    assert!(&rt; fs::read(&rt, path)?.ends_with(b"\0abcdefgh"));
    let fails = Store(0, b"ijkl", Err(Refusal::Failed));
    fails_after_each(&rt, &watched, &mut board, fails);
    watched.move_at_most(0);
    takes(&rt, &mut board, &[fails]);
    fs::remove_file(&rt, path)?;
    Ok(())
}

// A call of three pieces fails whichever of its first three calls fails.
fn fails_after_each<B: Board>(rt: &impl Abort, watched: &Watched, board: &mut B, step: Step<'_>) {
    for spared in 0..3 {
        watched.fail_after(spared);
        takes(rt, board, &[step]);
    }
}

#[test]
fn what_was_stored_is_synced(rt: HostRuntime) -> Result<(), Fail> {
    let path = "edge_sync.bin";
    make_zeros(&rt, path, MEMORY as u64)?;
    let watched = Watched::new(rt)?;
    let mut board = FileBoard::at(&watched, path);
    takes(&rt, &mut board, &[Store(7, b"abc", Ok(())), Sync(Ok(()))]);
    called(
        &rt,
        &watched,
        "open first; look at first; clone first; seek 7 in memory; write 3 to memory; sync memory; ",
    );
    watched.fail_after(0);
    takes(&rt, &mut board, &[Sync(Err(Refusal::Failed)), Sync(Ok(()))]);
    called(&rt, &watched, "sync memory; sync memory; ");
    fs::remove_file(&rt, path)?;
    Ok(())
}

#[test]
fn each_byte_is_loaded_however_short_the_reads(rt: HostRuntime) -> Result<(), Fail> {
    let path = "edge_short_reads.bin";
    make_zeros(&rt, path, MEMORY as u64)?;
    let watched = Watched::new(rt)?;
    let mut board = FileBoard::at(&watched, path);
    takes(&rt, &mut board, &[Store(300, b"abcdefgh", Ok(()))]);
    let _opened = watched.calls();
    watched.move_at_most(3);
    takes(&rt, &mut board, &[Load(300, b"abcdefgh")]);
    called(
        &rt,
        &watched,
        "seek 300 in memory; read 8 of memory; read 5 of memory; read 2 of memory; ",
    );
    fails_after_each(&rt, &watched, &mut board, FailedLoad(300));
    watched.move_at_most(0);
    takes(&rt, &mut board, &[FailedLoad(300)]);
    fs::remove_file(&rt, path)?;
    Ok(())
}

#[test]
fn each_byte_is_put_however_short_the_writes(rt: HostRuntime) -> Result<(), Fail> {
    let watched = Watched::new(rt)?;
    let mut board = FileBoard::at(&watched, "edge_no_memory.bin");
    takes(&rt, &mut board, &[Put(b"ok 1 30\n", Ok(()))]);
    called(&rt, &watched, "put \"ok 1 30\\n\"; ");
    watched.move_at_most(3);
    takes(&rt, &mut board, &[Put(b"ok 2 40\n", Ok(()))]);
    called(
        &rt,
        &watched,
        "put \"ok 2 40\\n\"; put \"2 40\\n\"; put \"0\\n\"; ",
    );
    let fails = Put(b"ok 3 50\n", Err(Failed));
    fails_after_each(&rt, &watched, &mut board, fails);
    watched.move_at_most(0);
    takes(&rt, &mut board, &[fails]);
    Ok(())
}

#[test]
fn what_was_read_is_told_as_it_is(rt: HostRuntime) {
    let typed = Typed {
        text: b"pulse 3\n",
        piece: 5,
        spared: 1,
    };
    let mut source = StdSource::new(&typed);
    let mut into = [0; 16];
    assert_eq!(rt; source.read(&mut into), Ok(5));
    assert!(rt; into.starts_with(b"pulse"));
    assert_eq!(rt; source.read(&mut into), Err(Failed));
    assert_eq!(rt; source.read(&mut into), Ok(3));
    assert!(rt; into.starts_with(b" 3\n"));
    assert_eq!(rt; source.read(&mut into), Ok(0));
}
