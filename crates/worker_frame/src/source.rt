//! What bytes come from.

ghost use Rattle.std.specs.Prelude.{◌≡◌, ℕ, ◌+◌, ◌<◌, ◌^◌, List, Option, length};
ghost use Rattle.std.specs.Io.KnownBytes.{Appends};
ghost use Rattle.worker_frame.specs.Sources.{failures_in, read_of, IsWithin};

use std::alloc::Global;
use std::net::SocketAddr;
use thiserror::Error;

/// What a read answers.
#[derive(Clone, Copy, Debug, PartialEq, Eq)]
pub enum Came {
    /// So many bytes, at the front of the buffer.
    Bytes(usize),
    /// Nothing, in the time that a read may take. More may come.
    Nothing,
    /// Nothing, and nothing will come.
    End,
}

/// A read that failed.
#[derive(Clone, Copy, Debug, PartialEq, Eq, Error)]
#[error("read failed")]
pub struct ReadFailed;

/// What a connection's bytes come from: a socket, or memory.
pub trait Source {
    // how often it was read
    ghost reads: { Self → ℕ };

    // how many of these reads failed
    ghost failed: { Self → ℕ };

    // the bytes that it gave so far, where it keeps them
    ghost given: { Self → Option (List ℕ) };

    /// Reads once, into the front of the buffer. It may wait, but not for long, so that silence is
    /// noticed.
    fn read(&mut self, buffer: &mut [u8]) -> Result<Came, ReadFailed>
        requires { reads self.old < 2 ^ 62 }
        ensures counted { reads self.new ≡ reads self.old + 1 }
        ensures failures { failed self.new ≡ failed self.old + failures_in result }
        ensures within { IsWithin result buffer.new }
        ensures gives { Appends (given self.old) (given self.new) (read_of result buffer.new) };

    /// Who sends its bytes, where that has an address.
    fn sender(&self) -> Option<SocketAddr> {
        None
    }
}

/// How many reads a worker makes at most.
pub const MOST_READS: u64 = 1 << 40;

/// The room for the bytes of one read.
const PIECE: usize = 1 << 14;

/// A buffer for what is read.
pub fn buffer(alloc: Global) -> Option<Vec<u8>> {
    let mut buffer = Vec::new(alloc);
    match buffer.resize(PIECE, 0) {
        Ok(()) => Some(buffer),
        Err(_) => None,
    }
}
