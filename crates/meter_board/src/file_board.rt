//! A board over a file and standard output.
ghost use Rattle.std.specs.Prelude.{◌≡◌, ◌+◌, ◌≤◌, length};
ghost use Rattle.trace_model.specs.Images.{memory_size};
ghost use Rattle.meter_board.specs.Causes.{CausedBy, RefusalCause, one_more};

use crate::arm::{Armed, Span};
use crate::counts::raise;
use crate::{Board, Failed, FaultCounts, Refusal};
use arrayvec::ArrayString;
use std::fs::{File, OpenFile, OpenOptions};
use std::io::{ErrorKind, Read, Seek, SeekFrom, Write};
use std::rt::Files;
use std::{fs, io};

/// How many bytes the file has.
const MEMORY_LEN: u64 = 16_384;

/// What the name of the file ends with while the file is made.
const NEW: &str = ".new";

/// The most bytes of that name.
const NAME_ROOM: usize = 255;

/// A board whose memory is a file and whose output is standard output. It tells nothing of their bytes.
///
/// The first call on the memory opens the file, and makes one of zero bytes where there is none: whole under another
/// name, which ends with `.new`, and then renamed, with its bytes and its name in its folder settled at once. Where that
/// fails, the other name is taken away again. A file of another length, a folder, and a file that can't be opened are memory
/// faults, and are left as they are. The file never takes the place of a standard stream that was closed; where there is no
/// other descriptor, it is a memory fault.
#[derive(Drop)]
pub struct FileBoard<'a, R: Files + Print> {
    rt: &'a R,
    path: &'a str,
    file: Option<R::File>,
    memory_calls: u64,
    faults: FaultCounts,
    armed: Armed,
    // The range of the last store since the last sync or cut, an empty one where there is none.
    last: Span,
    ghost last_fits: { last.at + last.len ≤ memory_size },
}

impl<'a, R: Files + Print> FileBoard<'a, R> {
    /// The board with its memory in the file at `path`, and the standard output of this runtime.
    pub fn at(rt: &'a R, path: &'a str) -> FileBoard<'a, R>
        ensures path { result.path.now ≡ path.now }
        ensures memory_calls { result.memory_calls ≡ 0 }
        ensures faults { result.faults ≡ record { memory = 0; output = 0; cuts = 0 } }
    {
        FileBoard {
            rt,
            path,
            file: None,
            memory_calls: 0,
            faults: FaultCounts::default(),
            armed: Armed::default(),
            last: Span::default(),
        }
    }

    // The open file for a call on the memory, which is to be given back.
    fn take_file(&mut self) -> io::Result<R::File>
        ensures memory_calls { self.new.memory_calls ≡ one_more self.old.memory_calls }
        ensures faults { self.new.faults ≡ self.old.faults }
    {
        raise(&mut self.memory_calls);
        match self.file.take() {
            Some(file) => Ok(file),
            None => open_memory(self.rt, self.path),
        }
    }

    fn read_at(&mut self, at: u32, into: &mut [u8]) -> io::Result<()>
        ensures memory_calls { self.new.memory_calls ≡ one_more self.old.memory_calls }
        ensures faults { self.new.faults ≡ self.old.faults }
    {
        let mut file = self.take_file()?;
        let answer = read_whole(&mut file, at, into);
        self.file = Some(file);
        answer
    }

    fn write_at(&mut self, at: u32, bytes: &[u8]) -> io::Result<()>
        ensures memory_calls { self.new.memory_calls ≡ one_more self.old.memory_calls }
        ensures faults { self.new.faults ≡ self.old.faults }
    {
        let mut file = self.take_file()?;
        let answer = write_whole(&mut file, at, bytes);
        self.file = Some(file);
        answer
    }

    // Writes these bytes, and the fill of the cut in so many places behind them, and settles them.
    fn tear_at(&mut self, at: u32, kept: &[u8], others: usize) -> io::Result<()>
        requires { at + (length kept.now + others) ≤ memory_size }
        ensures memory_calls { self.new.memory_calls ≡ one_more self.old.memory_calls }
        ensures faults { self.new.faults ≡ self.old.faults }
    {
        let mut file = self.take_file()?;
        let answer = tear_whole(&mut file, at, kept, others, self.armed.fill);
        self.file = Some(file);
        answer
    }

    // What a call answers whose range was to be torn.
    fn cut(&mut self, torn: io::Result<()>) -> Result<(), Refusal>
        ensures memory_calls { self.new.memory_calls ≡ self.old.memory_calls }
        ensures cause { CausedBy RefusalCause self.old.faults self.new.faults result }
        ensures output { self.new.faults.output ≡ self.old.faults.output }
    {
        match torn {
            Ok(()) => {
                self.last = Span::default();
                raise(&mut self.faults.cuts);
                Err(Refusal::Cut)
            }
            Err(_) => {
                raise(&mut self.faults.memory);
                Err(Refusal::Failed)
            }
        }
    }

    // Opens the file where it is not open.
    fn reach(&mut self) -> io::Result<()>
        ensures memory_calls { self.new.memory_calls ≡ one_more self.old.memory_calls }
        ensures faults { self.new.faults ≡ self.old.faults }
    {
        self.file = Some(self.take_file()?);
        Ok(())
    }

    fn write_back(&mut self) -> io::Result<()>
        ensures memory_calls { self.new.memory_calls ≡ one_more self.old.memory_calls }
        ensures faults { self.new.faults ≡ self.old.faults }
    {
        let file = self.take_file()?;
        let answer = file.sync_all();
        self.file = Some(file);
        answer
    }
}

// Opens the file of a memory, and makes it where there is none.
fn open_memory<R: Files>(rt: &R, path: &str) -> io::Result<R::File> {
    match open_whole(rt, path) {
        Err(error) if error.kind() == ErrorKind::NotFound => {
            make_memory(rt, path)?;
            open_whole(rt, path)
        }
        answer => answer,
    }
}

// Opens the file of a memory, which has its length.
fn open_whole<R: Files>(rt: &R, path: &str) -> io::Result<R::File> {
    let file = OpenOptions::new().read(true).write(true).open(rt, path)?;
    if file.metadata()?.len() != MEMORY_LEN {
        return Err(io::Error::from(ErrorKind::InvalidData));
    }
    above_streams(file)
}

// Makes the file of a memory whole under another name, and renames it then: whenever the process is ended, the name is
// not there, or is that of a whole file. What a process that was ended left under the other name is taken away.
fn make_memory<R: Files>(rt: &R, path: &str) -> io::Result<()> {
    let new = name_of_new(path)?;
    let new = new.as_str();
    match fs::remove_file(rt, new) {
        Err(error) if error.kind() != ErrorKind::NotFound => return Err(error),
        _ => (),
    }
    or_removed(rt, new, rename_whole(rt, new, path))?;
    or_removed(rt, path, settle_name(rt, path))
}

// The name of the file while it is made: that of the memory, with this end.
fn name_of_new(path: &str) -> io::Result<ArrayString<NAME_ROOM>> {
    if path.len() + NEW.len() > NAME_ROOM {
        return Err(io::Error::from(ErrorKind::InvalidFilename));
    }
    let mut new = ArrayString::new();
    new.push_str(path);
    new.push_str(NEW);
    Ok(new)
}

// Makes a whole file, settles its bytes, and renames it where the name is free: also a link that leads nowhere stays.
fn rename_whole<R: Files>(rt: &R, new: &str, path: &str) -> io::Result<()> {
    let file = File::create_new(rt, new)?;
    file.set_len(MEMORY_LEN)?;
    file.sync_all()?;
    match fs::symlink_metadata(rt, path) {
        Err(error) if error.kind() == ErrorKind::NotFound => fs::rename(rt, new, path),
        Err(error) => Err(error),
        Ok(_) => Err(io::Error::from(ErrorKind::AlreadyExists)),
    }
}

// Settles the name of a file in its folder.
fn settle_name<R: Files>(rt: &R, path: &str) -> io::Result<()> {
    File::open(rt, folder_of(path))?.sync_all()
}

// What a step answered. Where it failed, the file of this name is taken away; the first error is the one that counts.
fn or_removed<R: Files>(rt: &R, name: &str, answer: io::Result<()>) -> io::Result<()> {
    if answer.is_err() {
        let _ = fs::remove_file(rt, name);
    }
    answer
}

// A file that is opened takes the descriptor of a stream that was closed, and each read or write of that stream would
// then be one of the file. A clone gets a descriptor above those of the streams; the file's first one is closed here.
fn above_streams<F: OpenFile + Drop>(file: F) -> io::Result<F> {
    file.try_clone()
}

fn folder_of(path: &str) -> &str {
    match path.rsplit_once('/') {
        Some(("", _)) => "/",
        Some((folder, _)) => folder,
        None => ".",
    }
}

fn read_whole<F: Read + Seek>(file: &mut F, at: u32, into: &mut [u8]) -> io::Result<()> {
    file.seek(SeekFrom::Start(u64::from(at)))?;
    let mut done = 0;
    while done < into.len() {
        let count = file.read(&mut into[done..])?;
        if count == 0 {
            return Err(io::Error::from(ErrorKind::UnexpectedEof));
        }
        done += count;
    }
    Ok(())
}

fn write_whole<F: Write + Seek>(file: &mut F, at: u32, bytes: &[u8]) -> io::Result<()> {
    file.seek(SeekFrom::Start(u64::from(at)))?;
    let mut rest = bytes;
    while !rest.is_empty() {
        let count = file.write(rest)?;
        if count == 0 {
            return Err(io::Error::from(ErrorKind::WriteZero));
        }
        rest = &rest[count..];
    }
    Ok(())
}

// Writes these bytes from a place on, and this byte in so many places behind them, and settles them.
fn tear_whole<F: OpenFile + Write + Seek>(
    file: &mut F,
    at: u32,
    kept: &[u8],
    others: usize,
    fill: u8,
) -> io::Result<()>
    requires { at + (length kept.now + others) ≤ memory_size }
{
    write_whole(file, at, kept)?;
    let from = at + kept.len() as u32;
    for place in 0..others {
        write_whole(file, from + place as u32, &[fill])?;
    }
    file.sync_all()
}

impl<R: Files + Print> Board for FileBoard<'_, R> {
    ghost use Rattle.std.specs.Prelude.{[]};
    ghost use Rattle.trace_model.specs.Trace.{Start};

    ghost tells = { ⊥ };

    ghost trace = { λ _. Start [] };

    ghost reads = { λ _. [] };

    ghost memory_calls = { λ b. b.memory_calls };

    ghost faults = { λ b. b.faults };

    fn load(&mut self, at: u32, into: &mut [u8]) -> Result<(), Failed> {
        match self.read_at(at, into) {
            Ok(()) => Ok(()),
            Err(_) => {
                raise(&mut self.faults.memory);
                Err(Failed)
            }
        }
    }

    fn store(&mut self, at: u32, bytes: &[u8]) -> Result<(), Refusal> {
        let len = bytes.len();
        if self.armed.count() {
            let kept = len.min(self.armed.keep as usize);
            let torn = self.tear_at(at, &bytes[..kept], len - kept);
            return self.cut(torn);
        }
        match self.write_at(at, bytes) {
            Ok(()) => {
                self.last = Span { at, len };
                Ok(())
            }
            Err(_) => {
                raise(&mut self.faults.memory);
                Err(Refusal::Failed)
            }
        }
    }

    fn sync(&mut self) -> Result<(), Refusal> {
        if self.armed.count() {
            let kept = self.last.len.min(self.armed.keep as usize);
            let torn = self.tear_at(self.last.at + kept as u32, &[], self.last.len - kept);
            return self.cut(torn);
        }
        match self.write_back() {
            Ok(()) => {
                self.last = Span::default();
                Ok(())
            }
            Err(_) => {
                raise(&mut self.faults.memory);
                Err(Refusal::Failed)
            }
        }
    }

    fn put(&mut self, bytes: &[u8]) -> Result<(), Failed> {
        let mut rest = bytes;
        while !rest.is_empty() {
            match self.rt.write_some(rest) {
                Ok(count) if count > 0 => rest = &rest[count..],
                _ => {
                    raise(&mut self.faults.output);
                    return Err(Failed);
                }
            }
        }
        Ok(())
    }

    fn arm(&mut self, n: u16, keep: u16, fill: u8) -> Result<(), Failed> {
        match self.reach() {
            Ok(()) => {
                self.armed = Armed {
                    calls: n,
                    keep,
                    fill,
                };
                Ok(())
            }
            Err(_) => {
                raise(&mut self.faults.memory);
                Err(Failed)
            }
        }
    }

    fn power(&mut self) -> Result<(), Failed> {
        match self.reach() {
            Ok(()) => {
                self.last = Span::default();
                Ok(())
            }
            Err(_) => {
                raise(&mut self.faults.memory);
                Err(Failed)
            }
        }
    }

    ghost whole = { λ _ tells. absurd tells };

    ghost possible = { λ _ tells. absurd tells };
}
