//! A runtime whose standard input is a text, which comes in pieces and can fail.
use std::alloc::Allocator;
use std::io;
use std::io::{BufRead, ErrorKind, Lines, Read};

/// The runtime. A read gives `piece` bytes at most, and the one after `spared` reads fails.
#[derive(Clone, Copy)]
pub struct Typed {
    pub text: &'static [u8],
    pub piece: usize,
    pub spared: u32,
}

impl Read for Typed {
    fn read(&mut self, into: &mut [u8]) -> io::Result<usize> {
        if self.spared == 0 {
            self.spared = u32::MAX;
            return Err(io::Error::from(ErrorKind::Other));
        }
        self.spared -= 1;
        let count = into.len().min(self.piece);
        self.text.read(&mut into[..count])
    }
}

impl BufRead for Typed {
    fn fill_buf(&mut self) -> io::Result<&[u8]> {
        Err(io::Error::from(ErrorKind::Unsupported))
    }

    fn consume(&mut self, _amount: usize) {}
}

impl Input for Typed {
    type Reader = Typed;

    fn read_line<A: Allocator + Clone>(&self, buf: &mut String<A>) -> io::Result<usize> {
        BufRead::read_line(&mut self.reader(), buf)
    }

    fn lines<A: Allocator>(&self, alloc: A) -> Lines<Typed, A> {
        BufRead::lines(self.reader(), alloc)
    }

    fn reader(&self) -> Typed {
        *self
    }
}
