//! What a peer's connection says before it may sit down.

use crate::streams::Stream;
use agg_types::Config;
use bytes::BytesMut;
use session_core::{Session, SessionCause, Status};
use std::alloc::Global;
use std::io::ErrorKind;
use std::time::{Clock, Duration, Instant};

/// How long a connection has for its hello, from its accept on, in ms.
const HELLO_LIMIT: u64 = 5000;

/// The room for the bytes of one read. A hello has three short lines.
const PIECE: usize = 512;

/// What a hello comes to.
#[derive(Clone, Copy, Debug, PartialEq, Eq)]
pub enum Hello {
    /// It is the hello of a peer, by its place in the configuration.
    Of(usize),
    /// It names a peer that isn't configured.
    Unknown,
    /// It is refused, or the connection ended before it was whole.
    Refused,
    /// It wasn't whole in time, or memory was lacking.
    Late,
}

/// The bytes that were read for a hello, and what it comes to.
#[derive(Drop)]
pub struct Greeting {
    pub bytes: BytesMut,
    pub hello: Hello,
}

/// Reads until a hello is accepted or refused, or its time is over.
pub fn read_hello<R: Clock>(rt: &R, alloc: Global, config: &Config, stream: &Stream) -> Greeting {
    let mut bytes = BytesMut::new(alloc);
    let mut session = Session::accept(alloc, true, 0);
    let hello = match Instant::now(rt) {
        Err(_) => Hello::Late,
        Ok(start) => read_on(rt, start, config, stream, &mut session, &mut bytes),
    };
    Greeting { bytes, hello }
}

// Reads pieces until something is known.
fn read_on<R: Clock>(
    rt: &R,
    start: Instant,
    config: &Config,
    stream: &Stream,
    session: &mut Session,
    bytes: &mut BytesMut,
) -> Hello {
    let mut piece = [0; PIECE];
    for _ in 0..u64::MAX {
        let Some(left) = time_left(rt, start) else {
            return Hello::Late;
        };
        let _ = stream.set_read_timeout(left);
        match stream.read(&mut piece) {
            Ok(0) => return Hello::Refused,
            Ok(count) => {
                let known = take_piece(config, session, bytes, &piece[..count]);
                if let Some(hello) = known {
                    return hello;
                }
            }
            Err(fault) => match fault.kind() {
                ErrorKind::WouldBlock | ErrorKind::TimedOut | ErrorKind::Interrupted => {}
                _ => return Hello::Refused,
            },
        }
    }
    Hello::Late
}

// How long the hello may still take. None once its time is over.
fn time_left<R: Clock>(rt: &R, start: Instant) -> Option<Duration> {
    let passed = start.elapsed(rt).ok()?;
    let passed = u64::try_from(passed.as_millis()).ok()?;
    let left = HELLO_LIMIT.checked_sub(passed)?;
    if left == 0 {
        return None;
    }
    Some(Duration::from_millis(left))
}

// Keeps a piece, and asks a session of its own what it makes of it.
fn take_piece(
    config: &Config,
    session: &mut Session,
    bytes: &mut BytesMut,
    piece: &[u8],
) -> Option<Hello> {
    if bytes.extend_from_slice(piece).is_err() {
        return Some(Hello::Late);
    }
    let ended = session.feed(config, piece, 0).err();
    if let Some(peer) = session.peer() {
        return Some(Hello::Of(peer));
    }
    match ended?.cause {
        SessionCause::NoMemory => Some(Hello::Late),
        SessionCause::Refused(Status::RemoteName) => Some(Hello::Unknown),
        _ => Some(Hello::Refused),
    }
}
