//! What is sent to peers and operators.

use crate::connections::Connections;
use crate::pace::Answers;
use crate::streams::Stream;
use crate::ticks::Ticks;
use std::alloc::Global;
use std::io;
use std::io::{ErrorKind, Write};
use std::sync::{Arc, Wait};
use std::time::Clock;

/// How long a write waits for a peer that takes nothing, in ms.
const WRITE_LIMIT: u64 = 5000;

/// What is sent to a peer or an admin.
#[derive(Drop)]
pub struct Outgoing<'a, R> {
    pub(crate) stream: Arc<Stream, Global>,
    pub(crate) clock: &'a Ticks<R>,
    pub(crate) connections: &'a Connections,
    // When the present answer was begun, of an admin's.
    pub(crate) answers: Option<Answers<'a>>,
}

impl<'a, R: Clock + Wait> Outgoing<'a, R> {
    // Whether a write that began at a moment may go on.
    fn may_write(&self, first: u64) -> bool {
        if self.connections.are_closed() {
            return false;
        }
        match &self.answers {
            None => self.clock.moment().saturating_sub(first) < WRITE_LIMIT,
            Some(answers) => answers.are_in_time(self.clock),
        }
    }
}

// Whether a write may go on: nothing was taken in the time that a call waits.
fn is_to_wait(written: &io::Result<usize>) -> bool {
    match written {
        Ok(_) => false,
        Err(fault) => matches!(
            fault.kind(),
            ErrorKind::WouldBlock | ErrorKind::TimedOut | ErrorKind::Interrupted
        ),
    }
}

impl<'a, R: Clock + Wait> Write for Outgoing<'a, R> {
    fn write(&mut self, bytes: &[u8]) -> io::Result<usize> {
        let first = self.clock.moment();
        for _ in 0..u64::MAX {
            if !self.may_write(first) {
                break;
            }
            let written = self.stream.write(bytes);
            if !is_to_wait(&written) {
                return written;
            }
        }
        Err(io::Error::from(ErrorKind::TimedOut))
    }

    fn flush(&mut self) -> io::Result<()> {
        Ok(())
    }
}
