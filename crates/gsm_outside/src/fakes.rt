// A standard output for tests, whose writes are short and one of which fails.
use std::cell::{Cell, RefCell};
use std::fmt::Display;
use std::io::{self, Print};

/// Each write takes a few bytes. The writes are counted from 1.
#[derive(Drop)]
pub struct ShortOutput {
    pub written: RefCell<Vec<u8>>,
    pub writes: Cell<u64>,
    pub failing: u64,
    pub room: usize,
}

impl Print for ShortOutput {
    fn print<D: Display + Drop>(&self, _value: D) -> io::Result<()> {
        Err(unsupported())
    }

    fn println<D: Display + Drop>(&self, _value: D) -> io::Result<()> {
        Err(unsupported())
    }

    fn write_all(&self, _bytes: &[u8]) -> io::Result<()> {
        Err(unsupported())
    }

    fn write_some(&self, bytes: &[u8]) -> io::Result<usize> {
        let write = self.writes.get().saturating_add(1);
        self.writes.set(write);
        if write == self.failing {
            return Err(io::Error::from(io::ErrorKind::BrokenPipe));
        }
        let count = bytes.len().min(self.room);
        match self.written.try_borrow_mut() {
            Ok(mut written) => written.extend_from_slice(&bytes[..count])?,
            Err(_) => return Err(unsupported()),
        }
        Ok(count)
    }
}

fn unsupported() -> io::Error {
    io::Error::from(io::ErrorKind::Unsupported)
}
