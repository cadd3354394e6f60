//! A connection and a clock in memory.

ghost use Rattle.std.specs.Prelude.{◌≡◌, ◌≤◌, Ok};
ghost use Rattle.worker_frame.specs.Sources.{IsWithin};

use agg_types::NoMemory;
use book::Book;
use serve::{Came, Clock, Gate, Place, ReadFailed, Source, Status};
use std::sync::atomic::{AtomicU64, Ordering};

/// What a read of a script gives.
#[derive(Clone, Copy)]
pub enum Step {
    /// These bytes.
    Bytes(&'static [u8]),
    /// Nothing, and the watch then shows this moment.
    Silent(u64),
    /// These bytes, and what is made of them lasts until this moment.
    Lasting(&'static [u8], u64),
}

/// The moments of a test, in ms: what its script says.
#[derive(Drop)]
pub struct Watch {
    moment: AtomicU64,
    // What it shows once it was looked at, if that is another moment; else 0.
    next: AtomicU64,
}

impl Watch {
    /// A watch at 0.
    pub fn new() -> Watch {
        Watch {
            moment: AtomicU64::new(0),
            next: AtomicU64::new(0),
        }
    }
}

impl Clock for Watch {
    ghost gives = { λ clock moment. Unit {0} };

    fn now(&self) -> u64 {
        let now = self.moment.load(Ordering::SeqCst);
        let next = self.next.swap(0, Ordering::SeqCst);
        if next > 0 {
            self.moment.store(next, Ordering::SeqCst);
        }
        now
    }

    fn rest(&self) {}
}

/// What a peer or an admin sends: a step at each read, and then the end, until a read fails.
#[derive(Drop)]
pub struct Script<'a> {
    steps: &'a [Step],
    whole: u64,
    watch: &'a Watch,
    reads: u64,
    failed: u64,
    ghost fewer: { failed ≤ reads },
}

impl<'a> Script<'a> {
    /// A script of which nothing was read. So many reads work, and then one fails.
    pub fn new(steps: &'a [Step], whole: u64, watch: &'a Watch) -> Script<'a>
        ensures { result.reads ≡ 0 }
    {
        Script {
            steps,
            whole,
            watch,
            reads: 0,
            failed: 0,
        }
    }
}

impl Script<'_> {
    /// How often it was read.
    pub fn reads(&self) -> u64 {
        self.reads
    }
}

impl<'a> Source for Script<'a> {
    ghost use Rattle.std.specs.Prelude.{None};

    ghost reads = { λ s. s.reads };

    ghost failed = { λ s. s.failed };

    ghost given = { λ s. None };

    fn read(&mut self, buffer: &mut [u8]) -> Result<Came, ReadFailed> {
        self.reads += 1;
        if self.reads > self.whole {
            self.failed += 1;
            return Err(ReadFailed);
        }
        let Some((step, behind)) = self.steps.split_first() else {
            return Ok(Came::End);
        };
        self.steps = behind;
        match *step {
            Step::Bytes(bytes) => Ok(copied(bytes, buffer)),
            Step::Silent(moment) => {
                self.watch.moment.store(moment, Ordering::SeqCst);
                Ok(Came::Nothing)
            }
            Step::Lasting(bytes, moment) => {
                self.watch.next.store(moment, Ordering::SeqCst);
                Ok(copied(bytes, buffer))
            }
        }
    }
}

/// Puts bytes at the front of a buffer, as far as there is room.
pub fn copied(bytes: &[u8], buffer: &mut [u8]) -> Came
    ensures { IsWithin (Ok result) buffer.new }
{
    let count = bytes.len().min(buffer.len());
    if count == 0 {
        return Came::Nothing;
    }
    buffer[..count].copy_from_slice(&bytes[..count]);
    Came::Bytes(count)
}

/// A gate that is open for so many looks, and closed from then on. It counts the turns.
#[derive(Drop)]
pub struct Turnstile {
    open: u64,
    looks: AtomicU64,
    turns: AtomicU64,
}

impl Turnstile {
    /// A gate at which nobody looked yet.
    pub fn new(open: u64) -> Turnstile {
        Turnstile {
            open,
            looks: AtomicU64::new(0),
            turns: AtomicU64::new(0),
        }
    }

    /// How many turns workers made.
    pub fn turns(&self) -> u64 {
        self.turns.load(Ordering::SeqCst)
    }
}

impl Gate for Turnstile {
    fn turn(&self, _place: Place) {
        self.turns.fetch_add(1, Ordering::SeqCst);
    }

    fn stop(&self) -> bool {
        self.looks.fetch_add(1, Ordering::SeqCst) >= self.open
    }

    // What it was asked, and of which moment.
    fn status(&self, book: &Book, status: Status, out: &mut Vec<u8>) -> Result<(), NoMemory> {
        let asked: &[u8] = match status {
            Status::Help => b"help",
            Status::Info => b"info",
            Status::Peers => b"peers",
            Status::Tables(0) => b"tables of the first peer",
            Status::Tables(_) => b"tables of another peer",
        };
        out.extend_from_slice(asked)?;
        if book.moment() == 0 {
            out.extend_from_slice(b" at 0")?;
        }
        out.push(b'\n')?;
        Ok(())
    }
}
