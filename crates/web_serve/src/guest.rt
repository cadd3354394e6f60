//! One connection that came while all places were taken.

use crate::carrying::{ROOM, is_to_wait, limits, read, write};
use crate::patience::REQUEST_LIMIT;
use http_server::{Connection, Service};
use std::alloc::Global;
use std::hash::RandomState;
use std::io;
use std::io::Read;
use std::net::{Shutdown, TcpStream};

/// A connection that is answered beside others, without a wait for its bytes.
#[derive(Drop)]
pub(crate) struct Guest {
    stream: TcpStream,
    connection: Connection,
    // the moment at which it came, in ms
    since: u64,
    // whether it was answered and told that no more comes
    is_parting: bool,
}

impl Guest {
    /// It came at a moment, in ms.
    pub(crate) fn new(
        alloc: Global,
        keys: RandomState,
        stream: TcpStream,
        now: u64,
    ) -> io::Result<Guest> {
        stream.set_nonblocking(true)?;
        stream.set_nodelay(true)?;
        Ok(Guest {
            stream,
            connection: Connection::new(alloc, keys, limits()),
            since: now,
            is_parting: false,
        })
    }

    /// Goes on as far as it can at a moment, in ms. Answers whether there may be more to do.
    pub(crate) fn goes_on<S: Service>(&mut self, service: &mut S, now: u64) -> bool {
        now.saturating_sub(self.since) < REQUEST_LIMIT && self.step(service).unwrap_or(false)
    }

    fn step<S: Service>(&mut self, service: &mut S) -> io::Result<bool> {
        if self.is_parting {
            return self.drain();
        }
        if self.connection.wants_read() {
            read(&mut self.connection, &self.stream)?;
        }
        self.connection.advance(service);
        if self.connection.wants_write() {
            write(&mut self.connection, &self.stream)?;
        }
        if self.connection.is_done() {
            self.stream.shutdown(Shutdown::Write)?;
            self.is_parting = true;
        }
        Ok(true)
    }

    // Drops what is on its way, so that the answer isn't lost, until the other side closes.
    fn drain(&mut self) -> io::Result<bool> {
        let mut buffer = [0u8; ROOM];
        let mut reader = &self.stream;
        match reader.read(&mut buffer) {
            Ok(count) => Ok(count > 0),
            Err(fault) if is_to_wait(&fault) => Ok(true),
            Err(fault) => Err(fault),
        }
    }
}
