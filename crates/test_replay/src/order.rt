//! When what a line prints is written.

use std::io;
use std::io::{BufReader, Read, Write};
use std::sync::atomic::{AtomicU64, Ordering};

/// A script of three lines, which each print a line of 18 bytes.
const SCRIPT: &[u8] = b"name agg\nstart 0\nx\ny\nz";

/// Takes all that is written, and counts it.
#[derive(Drop)]
struct Counted<'a> {
    written: &'a AtomicU64,
}

impl<'a> Write for Counted<'a> {
    fn write(&mut self, buf: &[u8]) -> io::Result<usize> {
        self.written.fetch_add(buf.len() as u64, Ordering::SeqCst);
        Ok(buf.len())
    }

    fn flush(&mut self) -> io::Result<()> {
        Ok(())
    }
}

/// Gives a text byte by byte, and notes how much was written before each of them.
#[derive(Drop)]
struct Watched<'a> {
    left: &'a [u8],
    written: &'a AtomicU64,
    before: &'a AtomicU64,
}

impl<'a> Read for Watched<'a> {
    fn read(&mut self, buf: &mut [u8]) -> io::Result<usize> {
        let (Some((byte, behind)), Some(place)) = (self.left.split_first(), buf.first_mut()) else {
            return Ok(0);
        };
        let written = self.written.load(Ordering::SeqCst);
        self.before.store(written, Ordering::SeqCst);
        *place = *byte;
        self.left = behind;
        Ok(1)
    }
}

/// Prints how much of the output was written before the last line was read.
pub fn show(rt: &(impl Print + AllocGlobal)) -> io::Result<()> {
    let written = AtomicU64::new(0);
    let before = AtomicU64::new(0);
    let source = Watched {
        left: SCRIPT,
        written: &written,
        before: &before,
    };
    let mut script = BufReader::new(rt.alloc(), source)?;
    let mut out = Counted { written: &written };
    let status = replay::replay_from(rt.alloc(), &mut script, &mut out).status();
    let (before, all) = (
        before.load(Ordering::SeqCst),
        written.load(Ordering::SeqCst),
    );
    println!(rt; "before the last line: status {status}, {before} of {all} written")
}
