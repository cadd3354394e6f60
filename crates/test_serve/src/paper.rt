//! What is sent to a peer or an admin.

use crate::fleet::sum_in;
use hub::Lens;
use std::alloc::{AllocError, Global};
use std::io;
use std::io::{ErrorKind, Write};

/// How a paper takes what is written.
#[derive(Clone, Copy)]
pub struct Pen {
    /// How many writes are taken before one fails.
    pub writes: u64,
    /// The most bytes that a write takes.
    pub most: usize,
    /// Whether each write that is taken was interrupted before.
    pub interrupted: bool,
}

/// A pen that never fails.
pub const EVEN: Pen = Pen {
    writes: 1000,
    most: 1000,
    interrupted: false,
};

/// The room of a page, in bytes.
const PAGE: usize = 4096;

/// Bytes that were sent; and what a lens showed of the row of 10.0.0.1 at each write, if it has
/// one.
#[derive(Drop)]
pub struct Paper {
    alloc: Global,
    taken: Vec<u8>,
    sums: Vec<u64>,
    lens: Option<Lens>,
    pen: Pen,
    was_interrupted: bool,
}

impl Paper {
    /// An empty paper.
    pub fn new(alloc: Global, pen: Pen, lens: Option<Lens>) -> Paper {
        Paper {
            alloc,
            taken: Vec::new(alloc),
            sums: Vec::new(alloc),
            lens,
            pen,
            was_interrupted: false,
        }
    }

    /// An empty paper that never fails, with room for a page.
    pub fn roomy(alloc: Global) -> Result<Paper, AllocError> {
        let mut paper = Paper::new(alloc, EVEN, None);
        paper.taken = Vec::with_capacity(alloc, PAGE)?;
        Ok(paper)
    }

    /// What was written on it.
    pub fn as_slice(&self) -> &[u8] {
        self.taken.as_slice()
    }

    /// What the row was at each write.
    pub fn sums(&self) -> &[u64] {
        self.sums.as_slice()
    }

    // Notes what a look shows.
    fn look(&mut self) -> io::Result<()> {
        if let Some(lens) = &mut self.lens {
            let Ok(sum) = sum_in(self.alloc, lens) else {
                return Err(io::Error::from(ErrorKind::OutOfMemory));
            };
            self.sums.push(sum.unwrap_or(0))?;
        }
        Ok(())
    }

    // Whether this write is interrupted.
    fn is_interrupted(&mut self) -> bool {
        self.was_interrupted = self.pen.interrupted && !self.was_interrupted;
        self.was_interrupted
    }
}

impl Write for Paper {
    fn write(&mut self, bytes: &[u8]) -> io::Result<usize> {
        if self.is_interrupted() {
            return Err(io::Error::from(ErrorKind::Interrupted));
        }
        let Some(left) = self.pen.writes.checked_sub(1) else {
            return Err(io::Error::from(ErrorKind::BrokenPipe));
        };
        self.pen.writes = left;
        self.look()?;
        let count = bytes.len().min(self.pen.most);
        self.taken.extend_from_slice(&bytes[..count])?;
        Ok(count)
    }

    fn flush(&mut self) -> io::Result<()> {
        Ok(())
    }
}
