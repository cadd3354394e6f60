//! One connection of the HTTP door.

use crate::carrying::{ROOM, limits, read, write};
use crate::patience::Patience;
use http_server::{Connection, Service};
use std::alloc::Global;
use std::hash::RandomState;
use std::io;
use std::io::Read;
use std::net::{Shutdown, TcpStream};
use std::random::RandomSource;
use std::time::Duration;
use web_door::Facts;

/// How long a read or a write waits before it looks at the time, in ms.
const SOCKET_LIMIT: u64 = 250;

/// How many reads are made behind the last answer, so that the other side gets it.
const LAST_READS: u64 = 4;

/// How many reads and writes a connection has at most.
const MOST_TURNS: u64 = 1 << 40;

/// Serves a connection until it is over or its time is.
pub(crate) fn visit<R: RandomSource, F: Facts, S: Service>(
    rt: &R,
    alloc: Global,
    facts: &F,
    stream: &TcpStream,
    service: &mut S,
) -> io::Result<()> {
    let wait = Duration::from_millis(SOCKET_LIMIT);
    stream.set_nonblocking(false)?;
    stream.set_nodelay(true)?;
    stream.set_read_timeout(Some(wait))?;
    stream.set_write_timeout(Some(wait))?;
    let keys = RandomState::new(rt)?;
    let mut connection = Connection::new(alloc, keys, limits());
    let mut patience = Patience::new(facts);
    for _ in 0..MOST_TURNS {
        if !patience.is_left(facts) {
            break;
        }
        connection.advance(service);
        if connection.is_done() {
            return part(stream);
        }
        patience.turn(facts, connection.wants_write());
        if connection.wants_write() {
            write(&mut connection, stream)?;
            patience.turn(facts, connection.wants_write());
        } else {
            read(&mut connection, stream)?;
        }
    }
    Ok(())
}

// Says that no more comes, and drops what is on its way, so that the last answer isn't lost.
fn part(stream: &TcpStream) -> io::Result<()> {
    stream.shutdown(Shutdown::Write)?;
    let mut buffer = [0u8; ROOM];
    for _ in 0..LAST_READS {
        let mut reader = stream;
        if reader.read(&mut buffer)? == 0 {
            break;
        }
    }
    Ok(())
}
