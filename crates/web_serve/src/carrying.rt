//! Bytes between a connection and its socket.

use http_server::{Config, Connection};
use http1::Limits;
use std::io;
use std::io::ErrorKind;
use std::net::TcpStream;

/// The most bytes of a request's head, and of its body, which says nothing.
const MOST_HEAD: usize = 8192;

const MOST_BODY: usize = 8192;

const MOST_EXTENSIONS: usize = 1024;

/// The most bytes of answers that wait before a request is read.
const MOST_PENDING: usize = 65536;

/// The room for a read.
pub(crate) const ROOM: usize = 4096;

/// What a connection takes.
pub(crate) fn limits() -> Config {
    Config {
        limits: Limits {
            max_head_len: MOST_HEAD,
            max_extensions_len: MOST_EXTENSIONS,
            max_trailers_len: MOST_EXTENSIONS,
        },
        max_body_len: MOST_BODY,
        max_pending: MOST_PENDING,
        read_size: ROOM,
    }
}

/// Whether a socket may do later what it didn't.
pub(crate) fn is_to_wait(fault: &io::Error) -> bool {
    matches!(
        fault.kind(),
        ErrorKind::WouldBlock | ErrorKind::TimedOut | ErrorKind::Interrupted
    )
}

/// Reads once, if something came.
pub(crate) fn read(connection: &mut Connection, stream: &TcpStream) -> io::Result<()> {
    let mut reader = stream;
    match connection.read_from(&mut reader) {
        Ok(_) => Ok(()),
        Err(fault) if is_to_wait(&fault) => Ok(()),
        Err(fault) => Err(fault),
    }
}

/// Writes once, if something is taken.
pub(crate) fn write(connection: &mut Connection, stream: &TcpStream) -> io::Result<()> {
    let mut writer = stream;
    match connection.write_to(&mut writer) {
        Ok(0) => Err(io::Error::from(ErrorKind::WriteZero)),
        Ok(_) => Ok(()),
        Err(fault) if is_to_wait(&fault) => Ok(()),
        Err(fault) => Err(fault),
    }
}
