//! A runtime over the real one that tells which calls it got, and lets them fail or fall short.
use arrayvec::ArrayString;
use std::alloc::Allocator;
use std::cell::Cell;
use std::fmt::{Display, Write as _};
use std::fs::{File, Metadata, OpenFile, OpenOptions};
use std::io;
use std::io::{ErrorKind, Read, Seek, SeekFrom, Write};
use std::rc::Rc;
use std::rt::Files;

// The calls that were made, in their order, and what becomes of those to come.
#[derive(Drop)]
struct Watch {
    calls: Cell<ArrayString<1024>>,
    spared: Cell<u32>,
    piece: Cell<usize>,
}

impl Watch {
    fn note<D: Display + Drop>(&self, call: D) -> io::Result<()> {
        let mut calls = self.calls.take();
        // A call for which there is no room is missing where the calls are compared.
        let _ = write!(calls, "{call}; ");
        self.calls.set(calls);
        let spared = self.spared.get();
        if spared == 0 {
            self.spared.set(u32::MAX);
            return Err(io::Error::from(ErrorKind::Other));
        }
        self.spared.set(spared - 1);
        Ok(())
    }
}

/// The runtime. Its standard output goes nowhere.
#[derive(Drop)]
pub struct Watched {
    rt: HostRuntime,
    watch: Rc<Watch>,
}

impl Watched {
    /// Nothing was called yet, and all that comes goes well.
    pub fn new(rt: HostRuntime) -> io::Result<Watched> {
        let watch = Watch {
            calls: Cell::new(ArrayString::new()),
            spared: Cell::new(u32::MAX),
            piece: Cell::new(usize::MAX),
        };
        Ok(Watched {
            rt,
            watch: Rc::new(rt.alloc(), watch)?,
        })
    }

    /// Lets one call fail: the first after this many.
    pub fn fail_after(&self, spared: u32) {
        self.watch.spared.set(spared);
    }

    /// Lets each call move this many bytes at most.
    pub fn move_at_most(&self, piece: usize) {
        self.watch.piece.set(piece);
    }

    /// The calls since the last look, each with "; " behind it.
    pub fn calls(&self) -> ArrayString<1024> {
        self.watch.calls.take()
    }
}

/// An open file. The handle that opened it is the first; a clone of that is the memory's. A file that is being made is new.
#[derive(Drop)]
pub struct WatchedFile {
    file: File,
    handle: &'static str,
    watch: Rc<Watch>,
}

impl Files for Watched {
    type File = WatchedFile;

    type Dir = <HostRuntime as Files>::Dir;

    fn open_file(&self, how: &OpenOptions, path: &str) -> io::Result<WatchedFile> {
        let handle = if how.asks_create_new() {
            "new"
        } else if how.asks_write() {
            "first"
        } else {
            "folder"
        };
        self.watch.note(format_args!("open {handle}"))?;
        let file = self.rt.open_file(how, path)?;
        Ok(WatchedFile {
            file,
            handle,
            watch: self.watch.clone()?,
        })
    }

    fn remove_file(&self, path: &str) -> io::Result<()> {
        let name = if path.ends_with(".new") {
            "new"
        } else {
            "memory"
        };
        self.watch.note(format_args!("remove {name}"))?;
        self.rt.remove_file(path)
    }

    fn open_dir(&self, path: &str) -> io::Result<Self::Dir> {
        self.rt.open_dir(path)
    }

    fn metadata(&self, path: &str) -> io::Result<Metadata> {
        self.rt.metadata(path)
    }

    fn symlink_metadata(&self, path: &str) -> io::Result<Metadata> {
        self.watch.note("look for the name")?;
        self.rt.symlink_metadata(path)
    }

    fn copy(&self, from: &str, to: &str) -> io::Result<u64> {
        self.rt.copy(from, to)
    }

    fn rename(&self, from: &str, to: &str) -> io::Result<()> {
        self.watch.note("rename new")?;
        self.rt.rename(from, to)
    }

    fn create_dir(&self, path: &str) -> io::Result<()> {
        self.rt.create_dir(path)
    }

    fn remove_dir(&self, path: &str) -> io::Result<()> {
        self.rt.remove_dir(path)
    }

    fn remove_dir_all<B: Allocator>(&self, alloc: B, path: &str) -> io::Result<()> {
        self.rt.remove_dir_all(alloc, path)
    }
}

impl OpenFile for WatchedFile {
    fn metadata(&self) -> io::Result<Metadata> {
        self.watch.note(format_args!("look at {}", self.handle))?;
        self.file.metadata()
    }

    fn set_len(&self, size: u64) -> io::Result<()> {
        self.watch
            .note(format_args!("resize {} to {size}", self.handle))?;
        self.file.set_len(size)
    }

    fn sync_all(&self) -> io::Result<()> {
        self.watch.note(format_args!("sync {}", self.handle))?;
        self.file.sync_all()
    }

    fn sync_data(&self) -> io::Result<()> {
        self.watch
            .note(format_args!("sync the data of {}", self.handle))?;
        self.file.sync_data()
    }

    fn try_clone(&self) -> io::Result<Self> {
        self.watch.note(format_args!("clone {}", self.handle))?;
        Ok(WatchedFile {
            file: self.file.try_clone()?,
            handle: "memory",
            watch: self.watch.clone()?,
        })
    }
}

impl Read for WatchedFile {
    fn read(&mut self, into: &mut [u8]) -> io::Result<usize> {
        self.watch
            .note(format_args!("read {} of {}", into.len(), self.handle))?;
        let count = into.len().min(self.watch.piece.get());
        self.file.read(&mut into[..count])
    }
}

impl Write for WatchedFile {
    fn write(&mut self, bytes: &[u8]) -> io::Result<usize> {
        self.watch
            .note(format_args!("write {} to {}", bytes.len(), self.handle))?;
        let count = bytes.len().min(self.watch.piece.get());
        self.file.write(&bytes[..count])
    }

    fn flush(&mut self) -> io::Result<()> {
        self.file.flush()
    }
}

impl Seek for WatchedFile {
    fn seek(&mut self, to: SeekFrom) -> io::Result<u64> {
        if let SeekFrom::Start(at) = to {
            self.watch
                .note(format_args!("seek {at} in {}", self.handle))?;
        }
        self.file.seek(to)
    }
}

impl Print for Watched {
    fn print<D: Display + Drop>(&self, value: D) -> io::Result<()> {
        self.rt.print(value)
    }

    fn println<D: Display + Drop>(&self, value: D) -> io::Result<()> {
        self.rt.println(value)
    }

    fn write_all(&self, bytes: &[u8]) -> io::Result<()> {
        self.rt.write_all(bytes)
    }

    fn write_some(&self, bytes: &[u8]) -> io::Result<usize> {
        match std::str::from_utf8(bytes) {
            Ok(text) => self.watch.note(format_args!("put {text:?}"))?,
            Err(_) => self.watch.note("put no text")?,
        }
        Ok(bytes.len().min(self.watch.piece.get()))
    }
}
