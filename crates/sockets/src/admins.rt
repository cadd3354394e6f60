//! Where operators connect.

use crate::connections::Connections;
use crate::faults::{lacks, passes};
use crate::http_calls::{HttpCall, HttpCalls};
use crate::streams::Stream;
use crate::ticks::Ticks;
use crate::turns::Turns;
use std::alloc::Global;
use std::io;
use std::io::ErrorKind;
use std::net::{SocketAddr, TcpListener};
use std::os::unix::net::UnixListener;
use std::sync::{Mutex, Wait};
use std::time::{Clock, Duration};

/// How often is looked for a connection, in ms, once nobody came for some time.
const LOOK: u64 = 10;

/// How often before that, in ms: who has asked often asks again.
const FIRST_LOOK: u64 = 1;

/// How many such looks there are behind each connection.
const FIRST_LOOKS: u32 = 200;

/// How long is rested after an accept that failed, in ms: if it may pass, and if not.
const REST: u64 = 100;

const LONG_REST: u64 = 1000;

/// A connection with the address that it comes from, if from one.
pub type Call = (Stream, Option<SocketAddr>);

/// What an accept came to.
#[derive(Drop)]
enum Answer {
    Came(Call),
    Nobody,
    Failed(io::Error),
}

/// The listeners of operators, which don't wait in accept, so that their threads can end.
#[derive(Drop)]
pub struct Admins {
    listener: Option<TcpListener>,
    socket: Option<UnixListener>,
    // whose thread looks for a connection
    turn: Mutex<u64>,
    // one that was accepted to find out whether somebody waits
    ahead: Mutex<Option<Call>>,
    // those that were ended at a line of HTTP
    http: Mutex<HttpCalls>,
    // when they may look
    turns: Turns,
}

// How long is rested after an accept that failed. Where a connection waits whose end helps, that
// one is closed.
fn rest_after<R: Wait>(rt: &R, connections: &Connections, fault: &io::Error) -> u64 {
    if !passes(fault) {
        return LONG_REST;
    }
    if lacks(fault) && connections.make_room(rt) {
        LOOK
    } else {
        REST
    }
}

// How long is rested where nobody came at so many looks, in ms.
fn rest_behind(looks: u32) -> u64 {
    if looks < FIRST_LOOKS {
        FIRST_LOOK
    } else {
        LOOK
    }
}

// What an accept that failed came to.
fn failed(fault: io::Error) -> Answer {
    if fault.kind() == ErrorKind::WouldBlock {
        Answer::Nobody
    } else {
        Answer::Failed(fault)
    }
}

impl Admins {
    /// The operators that come to this listener, and by this socket.
    pub fn new(
        alloc: Global,
        listener: Option<TcpListener>,
        socket: Option<UnixListener>,
    ) -> Admins {
        if let Some(listener) = &listener {
            let _ = listener.set_nonblocking(true);
        }
        if let Some(socket) = &socket {
            let _ = socket.set_nonblocking(true);
        }
        Admins {
            listener,
            socket,
            turn: Mutex::new(0),
            ahead: Mutex::new(None),
            http: Mutex::new(HttpCalls::new(alloc)),
            turns: Turns::new(),
        }
    }

    // Who comes to the address.
    fn accept_tcp(&self) -> Answer {
        let Some(listener) = &self.listener else {
            return Answer::Nobody;
        };
        match listener.accept() {
            Ok((stream, sender)) => Answer::Came((Stream::tcp(stream), Some(sender))),
            Err(fault) => failed(fault),
        }
    }

    // Who comes by the socket.
    fn accept_unix(&self) -> Answer {
        let Some(socket) = &self.socket else {
            return Answer::Nobody;
        };
        match socket.accept() {
            Ok((stream, _)) => Answer::Came((Stream::unix(stream), None)),
            Err(fault) => failed(fault),
        }
    }

    // Who comes by the socket is first: however many come to the address, they shut out nobody of
    // this machine.
    fn accept(&self) -> Answer {
        match self.accept_unix() {
            Answer::Came(call) => Answer::Came(call),
            here => match self.accept_tcp() {
                Answer::Nobody => here,
                there => there,
            },
        }
    }

    fn take_ahead<R: Wait>(&self, rt: &R) -> Option<Call> {
        let mut guard = self.ahead.lock(rt);
        let ahead = &mut *guard;
        ahead.take()
    }

    /// The next connection. None once the peers' door is closed.
    pub fn next<R: Clock + Wait>(&self, rt: &R, connections: &Connections) -> Option<Call> {
        let _turn = self.turn.lock(rt);
        let mut looks = 0u32;
        for _ in rt.forever() {
            if connections.are_closed() {
                return None;
            }
            if let Some(call) = self.take_ahead(rt) {
                return Some(call);
            }
            let rest = match self.accept() {
                Answer::Came(call) => return Some(call),
                Answer::Nobody => rest_behind(looks),
                Answer::Failed(fault) => rest_after(rt, connections, &fault),
            };
            looks = looks.saturating_add(1);
            rt.sleep(Duration::from_millis(rest));
        }
        unreachable!()
    }

    /// An answer was made from one moment to another, in ms.
    pub(crate) fn looked<R: Wait>(&self, rt: &R, begun: u64, ended: u64) {
        self.turns.looked(rt, begun, ended);
    }

    /// Waits until operators may look, or the doors are closed.
    pub(crate) fn wait_for_turn<R: Clock + Wait>(
        &self,
        clock: &Ticks<R>,
        connections: &Connections,
    ) {
        self.turns.wait(clock, connections);
    }

    /// A connection from this address was ended at a line of HTTP, at a moment, in ms.
    pub fn note_http<R: Wait>(&self, rt: &R, now: u64, sender: Option<SocketAddr>) {
        let mut guard = self.http.lock(rt);
        let calls = &mut *guard;
        calls.note(now, sender);
    }

    /// What is to be told next of connections that were ended at a line of HTTP, at a moment, in
    /// ms. It is forgotten with that. At most 60 a minute are told each for itself.
    pub fn take_http<R: Wait>(&self, rt: &R, now: u64) -> Option<HttpCall> {
        let mut guard = self.http.lock(rt);
        let calls = &mut *guard;
        calls.take(now)
    }

    /// Whether a connection waits for a thread that serves it. One that does is accepted for that,
    /// and is the next.
    pub fn does_one_wait<R: Wait>(&self, rt: &R) -> bool {
        let Some(_turn) = self.turn.try_lock() else {
            return false;
        };
        let mut guard = self.ahead.lock(rt);
        let ahead = &mut *guard;
        if ahead.is_some() {
            return true;
        }
        match self.accept() {
            Answer::Came(call) => {
                *ahead = Some(call);
                true
            }
            _ => false,
        }
    }
}
