//! What peers and operators send.

ghost use Rattle.std.specs.Prelude.{◌≡◌, ◌≤◌, length};
ghost use Rattle.worker_frame.specs.Sources.{IsWithin};

use crate::greeting::Hello;
use crate::line_head::{Line, LineHead, ends_command};
use crate::pace::Pace;
use crate::streams::Stream;
use crate::ticks::Ticks;
use crate::waiter::Waiter;
use bytes::BytesMut;
use serve::{Came, ReadFailed, Source};
use std::alloc::Global;
use std::io::ErrorKind;
use std::net::SocketAddr;
use std::sync::{Arc, Wait};
use std::time::Clock;

/// How long a read has to take, in ms, to count as held up. It waits half a second at most.
const HELD_UP: u64 = 1000;

/// The room for what is read of an operator.
pub(crate) const ROOM: usize = 4096;

/// What a peer or an admin sends: first what was read before it was served.
#[derive(Drop)]
pub struct Incoming<'a, R: Wait> {
    // Its place among those that wait for their hello, of a peer's until that was read. It is given
    // up before the stream is.
    pub(crate) waiter: Option<Waiter<'a, R>>,
    pub(crate) stream: Arc<Stream, Global>,
    pub(crate) clock: &'a Ticks<R>,
    // Where it comes from, if from an address.
    pub(crate) sender: Option<SocketAddr>,
    // Its number among the connections of peers, 0 for an admin's.
    pub(crate) id: u64,
    // Whose hello was read, by its place in the configuration.
    pub(crate) peer: Option<usize>,
    // The time that it has, of an admin's.
    pub(crate) pace: Option<Pace<'a, R>>,
    // How its present command begins, of an admin's.
    pub(crate) head: LineHead,
    // What was read of it so far and not given. An admin's has the room for one read.
    pub(crate) held: BytesMut,
    // Whether nothing is read behind that.
    pub(crate) is_over: bool,
    pub(crate) reads: u64,
    pub(crate) failed: u64,
    // Whether a read ends by itself where nothing comes.
    pub(crate) is_limited: bool,
    // Whether bytes came in the last read.
    pub(crate) is_fed: bool,
    ghost fewer: { failed ≤ reads },
}

impl<'a, R: Wait> Incoming<'a, R> {
    // Has what was read for its hello be what it gives first.
    pub(crate) fn begin_with(&mut self, held: BytesMut, hello: Hello)
        ensures { self.new.reads ≡ self.old.reads }
    {
        self.peer = match hello {
            Hello::Of(peer) => Some(peer),
            _ => None,
        };
        self.held = held;
        self.is_over = hello == Hello::Late;
    }

    // Gives what is held, of an admin no more than to the end of a command: how many bytes.
    fn give(&mut self, buffer: &mut [u8]) -> usize
        ensures reads { self.new.reads ≡ self.old.reads }
        ensures failed { self.new.failed ≡ self.old.failed }
        ensures within { result ≤ length buffer.new }
    {
        let count = copy_piece(self.held.as_slice(), self.pace.is_some(), buffer);
        if count > 0 {
            self.held.advance(count);
            self.is_fed = true;
        }
        count
    }
}

// Copies bytes to the front of a buffer, at most to the end of a command where commands are wanted:
// how many.
fn copy_piece(bytes: &[u8], commands: bool, buffer: &mut [u8]) -> usize
    ensures within { result ≤ length buffer.new }
    ensures there { result ≤ length bytes.now }
{
    let piece = if commands {
        first_command(bytes)
    } else {
        bytes
    };
    let count = piece.len().min(buffer.len());
    buffer[..count].copy_from_slice(&piece[..count]);
    count
}

// The bytes to the first LF or `;`, with it.
fn first_command(bytes: &[u8]) -> &[u8]
    ensures { length result.now ≤ length bytes.now }
{
    match bytes.iter().position(|byte: &u8| ends_command(*byte)) {
        None => bytes,
        Some(at) => match bytes.get(..=at) {
            None => bytes,
            Some(command) => command,
        },
    }
}

// Reads once from a socket. None where the read failed.
fn read_once(stream: &Stream, buffer: &mut [u8]) -> Result<Came, ReadFailed>
    ensures { IsWithin result buffer.new }
{
    match stream.read(buffer) {
        Ok(0) => Ok(Came::End),
        Ok(count) => Ok(Came::Bytes(count)),
        Err(fault) => match fault.kind() {
            ErrorKind::WouldBlock | ErrorKind::TimedOut | ErrorKind::Interrupted => {
                Ok(Came::Nothing)
            }
            _ => Err(ReadFailed),
        },
    }
}

// Reads once from a socket. A read that gave nothing and was held up, as where the process was
// stopped and goes on, is done again: it gives what came meanwhile. So a peer isn't taken for
// silent whose bytes lie in the socket.
fn read_awake<R: Clock>(
    clock: &Ticks<R>,
    stream: &Stream,
    buffer: &mut [u8],
) -> Result<Came, ReadFailed>
    ensures { IsWithin result buffer.new }
{
    let began = clock.moment();
    let came = read_once(stream, buffer)?;
    if came != Came::Nothing || clock.moment().saturating_sub(began) < HELD_UP {
        return Ok(came);
    }
    read_once(stream, buffer)
}

impl<'a, R: Clock + Wait> Incoming<'a, R> {
    // Reads once from the socket: of an admin into the room for that, and gives the first command.
    fn fetch(&mut self, buffer: &mut [u8]) -> Result<Came, ReadFailed>
        ensures reads { self.new.reads ≡ self.old.reads }
        ensures failed { self.new.failed ≡ self.old.failed }
        ensures within { IsWithin result buffer.new }
    {
        if self.pace.is_none() {
            return read_awake(self.clock, &self.stream, buffer);
        }
        // There is room since the connection began, so this takes no memory.
        if self.held.resize(ROOM, 0).is_err() {
            return Err(ReadFailed);
        }
        let came = read_awake(self.clock, &self.stream, self.held.as_mut_slice());
        let Ok(Came::Bytes(count)) = came else {
            self.held.clear();
            return came;
        };
        self.held.truncate(count);
        match self.give(buffer) {
            0 => Ok(Came::Nothing),
            count => Ok(Came::Bytes(count)),
        }
    }

    // Gives what is held, or else reads.
    fn next(&mut self, buffer: &mut [u8]) -> Result<Came, ReadFailed>
        ensures reads { self.new.reads ≡ self.old.reads }
        ensures failed { self.new.failed ≡ self.old.failed }
        ensures within { IsWithin result buffer.new }
    {
        let count = self.give(buffer);
        if count > 0 {
            return Ok(Came::Bytes(count));
        }
        if self.is_over {
            return Ok(Came::End);
        }
        if !self.is_limited && self.is_fed {
            self.is_fed = false;
            return Ok(Came::Nothing);
        }
        let came = self.fetch(buffer)?;
        if let Came::Bytes(_) = came {
            self.is_fed = true;
        }
        Ok(came)
    }

    // Whether it may be read on, as far as its time goes.
    fn goes_on(&mut self) -> bool
        ensures reads { self.new.reads ≡ self.old.reads }
        ensures failed { self.new.failed ≡ self.old.failed }
    {
        match &mut self.pace {
            None => true,
            Some(pace) => pace.goes_on(),
        }
    }

    // Takes note of bytes that came, of an admin: whether they may be given. Where they end a line
    // of HTTP, nothing is given or read any more.
    fn admits(&mut self, piece: &[u8]) -> bool
        ensures reads { self.new.reads ≡ self.old.reads }
        ensures failed { self.new.failed ≡ self.old.failed }
    {
        let Some(pace) = &mut self.pace else {
            return true;
        };
        let line = self.head.ends(piece);
        if line != Some(Line::Http) {
            pace.note_piece(line);
            return true;
        }
        pace.note_http(self.sender);
        self.held.clear();
        self.is_over = true;
        false
    }

    // The same of what a read came to.
    fn admits_what(&mut self, came: Came, buffer: &[u8]) -> bool
        ensures reads { self.new.reads ≡ self.old.reads }
        ensures failed { self.new.failed ≡ self.old.failed }
    {
        let Came::Bytes(count) = came else {
            return true;
        };
        match buffer.get(..count) {
            Some(piece) if count > 0 => self.admits(piece),
            _ => true,
        }
    }
}

impl<'a, R: Clock + Wait> Source for Incoming<'a, R> {
    ghost use Rattle.std.specs.Prelude.{None};

    ghost reads = { λ s. s.reads };

    ghost failed = { λ s. s.failed };

    ghost given = { λ s. None };

    fn read(&mut self, buffer: &mut [u8]) -> Result<Came, ReadFailed> {
        self.reads += 1;
        if !self.goes_on() {
            return Ok(Came::End);
        }
        match self.next(buffer) {
            Ok(came) => {
                if !self.admits_what(came, buffer) {
                    return Ok(Came::End);
                }
                Ok(came)
            }
            Err(ReadFailed) => {
                self.failed += 1;
                Err(ReadFailed)
            }
        }
    }

    fn sender(&self) -> Option<SocketAddr> {
        self.sender
    }
}
