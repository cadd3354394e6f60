//! What the program is run on.

ghost use Rattle.std.specs.Prelude.{None};

use collector_log::Usage;
use listening::Paths;
use std::alloc::{Allocator, Global};
use std::env::{Env, FillError};
use std::fmt::Display;
use std::io;
use std::io::{BufRead, ErrorKind, Input, Lines, Read, Write};
use std::os::unix::net::UnixListener;
use std::sync::Wait;
use std::sync::atomic::{AtomicU64, Ordering};
use std::time::{Clock, Duration};

/// Arguments and an input in memory, and the standard output of another.
#[derive(Drop)]
pub struct Scene<R> {
    pub rt: R,
    pub words: &'static [&'static [u8]],
    pub input: &'static [u8],
}

impl<R> Env for Scene<R> {
    fn arg(&self, i: usize, buf: &mut [u8]) -> Result<usize, FillError> {
        let word: &[u8] = match i.checked_sub(1) {
            None => b"aggregator",
            Some(at) => match self.words.get(at) {
                None => return Err(FillError::NotPresent),
                Some(word) => word,
            },
        };
        let Some(room) = buf.get_mut(..word.len()) else {
            return Err(FillError::TooLong);
        };
        room.copy_from_slice(word);
        Ok(word.len())
    }

    fn var(&self, _name: &str, _buf: &mut [u8]) -> Result<usize, FillError> {
        Err(FillError::NotPresent)
    }

    fn var_at(&self, _i: usize, _buf: &mut [u8]) -> Result<usize, FillError> {
        Err(FillError::NotPresent)
    }
}

impl<R> Input for Scene<R> {
    type Reader = &'static [u8];

    fn read_line<A: Allocator + Clone>(&self, buf: &mut String<A>) -> io::Result<usize> {
        let mut input = self.input;
        input.read_line(buf)
    }

    fn lines<A: Allocator>(&self, alloc: A) -> Lines<&'static [u8], A> {
        self.input.lines(alloc)
    }

    fn reader(&self) -> &'static [u8] {
        self.input
    }
}

impl<R: Print> Print for Scene<R> {
    fn print<D: Display + Drop>(&self, value: D) -> io::Result<()> {
        self.rt.print(value)
    }

    fn println<D: Display + Drop>(&self, value: D) -> io::Result<()> {
        self.rt.println(value)
    }

    fn write_all(&self, bytes: &[u8]) -> io::Result<()> {
        self.rt.write_all(bytes)
    }
}

/// A stream that can't be read, and takes nothing.
#[derive(Drop)]
pub struct Torn;

impl Read for Torn {
    fn read(&mut self, _buf: &mut [u8]) -> io::Result<usize> {
        Err(io::Error::from(ErrorKind::BrokenPipe))
    }
}

impl Write for Torn {
    fn write(&mut self, _bytes: &[u8]) -> io::Result<usize> {
        Err(io::Error::from(ErrorKind::BrokenPipe))
    }

    fn flush(&mut self) -> io::Result<()> {
        Ok(())
    }
}

/// A standard error that is another's standard output, a clock that stands still, and memory that
/// stays the same.
#[derive(Drop)]
pub struct Still<R> {
    pub rt: R,
    /// The seconds since 1970. None where the clock fails.
    pub seconds: Option<u64>,
}

impl<R: Print> Eprint for Still<R> {
    fn eprint<D: Display + Drop>(&self, value: D) -> io::Result<()> {
        self.rt.print(value)
    }

    fn eprintln<D: Display + Drop>(&self, value: D) -> io::Result<()> {
        self.rt.println(value)
    }
}

impl<R: Wait> Wait for Still<R> {}

impl<R> Clock for Still<R> {
    fn monotonic(&self) -> io::Result<Duration> {
        self.since_1970()
    }

    fn since_1970(&self) -> io::Result<Duration> {
        match self.seconds {
            None => Err(io::Error::from(ErrorKind::Unsupported)),
            Some(seconds) => Ok(Duration::from_secs(seconds)),
        }
    }
}

impl<R> Usage for Still<R> {
    fn resident(&self) -> Option<u64> {
        Some(13_381_632)
    }

    fn worked(&self) -> Option<u64> {
        Some(1240)
    }

    fn began(&self) -> Option<u64> {
        Some(1_796_123_456_780)
    }

    fn descriptors(&self) -> Option<u64> {
        Some(19)
    }
}

/// A standard error that writes a few lines, and counts those behind them.
#[derive(Drop)]
pub struct Few<R> {
    handles: Still<R>,
    most: u64,
    lines: AtomicU64,
}

impl<R> Few<R> {
    /// Writes so many lines.
    pub fn new(handles: Still<R>, most: u64) -> Few<R> {
        Few {
            handles,
            most,
            lines: AtomicU64::new(0),
        }
    }

    /// How many lines weren't written.
    pub fn refused(&self) -> u64 {
        self.lines.load(Ordering::SeqCst).saturating_sub(self.most)
    }
}

impl<R: Print> Eprint for Few<R> {
    fn eprint<D: Display + Drop>(&self, value: D) -> io::Result<()> {
        self.handles.eprint(value)
    }

    fn eprintln<D: Display + Drop>(&self, value: D) -> io::Result<()> {
        if self.lines.fetch_add(1, Ordering::SeqCst) < self.most {
            self.handles.eprintln(value)?;
        }
        Ok(())
    }
}

impl<R: Wait> Wait for Few<R> {}

impl<R> Clock for Few<R> {
    fn monotonic(&self) -> io::Result<Duration> {
        self.handles.monotonic()
    }

    fn since_1970(&self) -> io::Result<Duration> {
        self.handles.since_1970()
    }
}

/// Two files, of a sound and a faulty configuration.
#[derive(Drop)]
pub struct Shelf;

impl program::Files for Shelf {
    ghost holds = { λ shelf name. None };

    fn read(&self, alloc: Global, name: &str) -> io::Result<Vec<u8>> {
        let text: &[u8] = if name == "sound.conf" {
            b"name agg\npeer lb1\n"
        } else if name == "faulty.conf" {
            b"name agg\npeer\npeer\n"
        } else if name == "peers.cfg" {
            b"peers mesh\n peer lb1 10.1.0.1:10000\n peer lb2 10.1.0.2:10000"
        } else if name == "tables.cfg" {
            b"# one table\nbackend a\n \
                stick-table type ip size 1k expire 1m store gpc0,gpt0 peers mesh\n"
        } else if name == "again.cfg" {
            b"backend a\n stick-table type ip size 1k expire 1m store gpc0,gpt0 peers mesh\n \
                stick-table type ip size 2k expire 1m store gpc0,gpt0 peers mesh\n"
        } else {
            return Err(io::Error::from(ErrorKind::NotFound));
        };
        Ok(Vec::from_slice(alloc, text)?)
    }
}

// Somebody listens at each path.
impl Paths for Shelf {
    type Kept = ();

    fn take_standard(&self) {}

    fn logs_to_journald(&self) -> bool {
        false
    }

    fn commit(&self) -> Option<String> {
        None
    }

    fn listen(&self, _path: &str) -> io::Result<UnixListener> {
        Err(io::Error::from(ErrorKind::AddrInUse))
    }
}
