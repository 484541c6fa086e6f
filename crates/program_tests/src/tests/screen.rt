//! A writer that takes all, little or nothing.

use std::alloc::Global;
use std::io;
use std::io::Write;
use std::test::Fail;

/// A terminal that has room for so many bytes, and then takes nothing.
#[derive(Drop)]
pub(super) struct Narrow {
    taken: Vec<u8>,
    room: usize,
}

impl Narrow {
    /// One that has taken nothing.
    pub(super) fn new(alloc: Global, room: usize) -> Narrow {
        Narrow {
            taken: Vec::new(alloc),
            room,
        }
    }

    /// What it took.
    pub(super) fn text(self) -> Result<String, Fail> {
        Ok(String::from_utf8(self.taken)?)
    }
}

impl Write for Narrow {
    fn write(&mut self, bytes: &[u8]) -> io::Result<usize> {
        if self.room == 0 {
            return Err(io::Error::from(io::ErrorKind::StorageFull));
        }
        let count = self.room.min(bytes.len());
        self.taken.extend_from_slice(&bytes[..count])?;
        self.room -= count;
        Ok(count)
    }

    fn flush(&mut self) -> io::Result<()> {
        Ok(())
    }
}
