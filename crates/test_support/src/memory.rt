//! A source and a writer in memory, which fail where they are to.

use std::alloc::Global;
use std::io;
use std::io::{ErrorKind, Read, Write};

/// Gives a text byte by byte, and fails behind its first bytes, this many.
#[derive(Drop)]
pub struct Torn<'a> {
    pub left: &'a [u8],
    pub room: usize,
}

impl<'a> Read for Torn<'a> {
    fn read(&mut self, buf: &mut [u8]) -> io::Result<usize> {
        if self.room == 0 {
            return Err(io::Error::from(ErrorKind::ConnectionReset));
        }
        let (Some((byte, behind)), Some(place)) = (self.left.split_first(), buf.first_mut()) else {
            return Ok(0);
        };
        *place = *byte;
        self.left = behind;
        self.room = self.room.saturating_sub(1);
        Ok(1)
    }
}

/// Takes a text byte by byte, and fails where it has no more room, or where it is flushed.
#[derive(Drop)]
pub struct Full {
    pub taken: Vec<u8>,
    pub room: usize,
    pub flushes: bool,
}

impl Full {
    /// A writer that took nothing yet, with room for so many bytes.
    pub fn new(alloc: Global, room: usize, flushes: bool) -> Full {
        Full {
            taken: Vec::new(alloc),
            room,
            flushes,
        }
    }
}

impl Write for Full {
    fn write(&mut self, buf: &[u8]) -> io::Result<usize> {
        let Some(byte) = buf.first() else {
            return Ok(0);
        };
        if self.taken.len() >= self.room {
            return Err(io::Error::from(ErrorKind::BrokenPipe));
        }
        self.taken.push(*byte)?;
        Ok(1)
    }

    fn flush(&mut self) -> io::Result<()> {
        if self.flushes {
            Ok(())
        } else {
            Err(io::Error::from(ErrorKind::BrokenPipe))
        }
    }
}
