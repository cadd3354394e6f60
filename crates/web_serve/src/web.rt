//! A listener, and threads that serve who comes.

use crate::guest::Guest;
use crate::visit::visit;
use hub::{Hub, Naming};
use std::alloc::Global;
use std::collections::VecDeque;
use std::hash::RandomState;
use std::io;
use std::io::{ErrorKind, Write};
use std::net::{TcpListener, TcpStream};
use std::random::RandomSource;
use std::sync::atomic::{AtomicU64, Ordering};
use std::sync::{Mutex, Wait};
use std::time::{Clock, Duration};
use web_door::{Clerk, Facts, Looks, Porter};

/// How many connections are served at once. Each has a thread and a lens of its own.
pub const MOST_VISITS: u64 = 12;

/// How many connections beside them are answered whether the collector works, at most.
const MOST_GUESTS: usize = 128;

/// How often is looked for a connection, in ms.
const LOOK: u64 = 10;

/// How long is rested after an accept that failed, in ms.
const REST: u64 = 100;

/// What is answered to a connection where there is no lens for it.
const TURNED_AWAY: &[u8] = b"HTTP/1.1 503 Service Unavailable\r\nconnection: close\r\n\
retry-after: 1\r\ncontent-length: 0\r\n\r\n";

/// The HTTP door, if there is one.
pub struct Web<'a, J: Naming, R: Wait + Drop, F> {
    rt: R,
    alloc: Global,
    facts: &'a F,
    listener: Option<TcpListener>,
    // Who waits for the next connection.
    turn: Mutex<()>,
    hub: &'a Hub<J, R>,
    hosts: &'a [String],
    looks: Looks<J>,
    // how many connections are served
    open: AtomicU64,
    // how many threads came to serve
    came: AtomicU64,
}

impl<'a, J: Naming, R: Wait + Drop, F> Drop for Web<'a, J, R, F> {
    fn drop(self) {
        let Web {
            rt: _,
            alloc: _,
            facts: _,
            listener: _,
            turn: _,
            hub: _,
            hosts: _,
            looks: _,
            open: _,
            came: _,
        } = self;
    }
}

impl<'a, J: Naming, R: Wait + Drop, F> Web<'a, J, R, F> {
    /// The door at this listener, to which nobody came yet, of a collector with these names. None
    /// where nobody is to come.
    pub fn new(
        rt: R,
        alloc: Global,
        facts: &'a F,
        listener: Option<TcpListener>,
        hub: &'a Hub<J, R>,
        hosts: &'a [String],
    ) -> Web<'a, J, R, F> {
        if let Some(listener) = &listener {
            let _ = listener.set_nonblocking(true);
        }
        Web {
            rt,
            alloc,
            facts,
            listener,
            turn: Mutex::new(()),
            hub,
            hosts,
            looks: Looks::new(),
            open: AtomicU64::new(0),
            came: AtomicU64::new(0),
        }
    }

    // Whether all places are taken.
    fn is_full(&self) -> bool {
        self.open.load(Ordering::SeqCst) >= MOST_VISITS
    }
}

/// What takes connections and serves them, whatever it stands on.
pub trait Visits {
    /// How many threads are to serve.
    fn threads(&self) -> u64;

    /// Serves one connection after the other until the collector ends. Each of these threads does
    /// so.
    fn serve(&self);
}

impl<'a, J: Naming, R: Clock + RandomSource + Wait + Drop, F: Facts> Web<'a, J, R, F> {
    // A connection, if one came. None after a while.
    fn accept(&self, listener: &TcpListener) -> Option<TcpStream> {
        let rest = match listener.accept() {
            Ok((stream, _)) => return Some(stream),
            Err(fault) if fault.kind() == ErrorKind::WouldBlock => LOOK,
            Err(_) => REST,
        };
        self.rt.sleep(Duration::from_millis(rest));
        None
    }

    // The next connection, for one thread after the other. None once the collector ends.
    fn next(&self, listener: &TcpListener) -> Option<TcpStream> {
        let _turn = self.turn.lock(&self.rt);
        for _ in 0..u64::MAX {
            if self.facts.has_ended() {
                return None;
            }
            if let Some(stream) = self.accept(listener) {
                return Some(stream);
            }
        }
        None
    }

    // Serves a connection by a clerk, if there is a lens for it.
    fn visit(&self, stream: &TcpStream) -> io::Result<()> {
        self.hub.has_one_history();
        let Ok(lens) = self.hub.lens(&self.rt) else {
            return answer_busy(stream);
        };
        let mut clerk = Clerk {
            rt: &self.rt,
            alloc: self.alloc,
            clock: &self.rt,
            hosts: self.hosts,
            config: self.hub.config(),
            lens,
            looks: &self.looks,
            facts: self.facts,
        };
        visit(&self.rt, self.alloc, self.facts, stream, &mut clerk)
    }

    // Serves one connection after the other.
    fn serve_visits(&self, listener: &TcpListener) {
        for _ in 0..u64::MAX {
            let Some(stream) = self.next(listener) else {
                return;
            };
            self.open.fetch_add(1, Ordering::SeqCst);
            let _ = self.visit(&stream);
            self.open.fetch_sub(1, Ordering::SeqCst);
        }
    }

    // Takes who comes while all places are taken. Of too many, who has been there longest goes.
    fn take_guests(&self, listener: &TcpListener, guests: &mut VecDeque<Guest>) -> io::Result<()> {
        for _ in 0..MOST_GUESTS {
            if !self.is_full() {
                break;
            }
            let (stream, _) = listener.accept()?;
            let keys = RandomState::new(&self.rt)?;
            let guest = Guest::new(self.alloc, keys, stream, self.facts.now())?;
            if guests.len() >= MOST_GUESTS {
                let _ = guests.pop_front();
            }
            guests.push_back(guest)?;
        }
        Ok(())
    }

    // Goes on with each of them as far as that can be now.
    fn serve_guests(&self, guests: &mut VecDeque<Guest>) {
        let mut porter = Porter {
            alloc: self.alloc,
            hosts: self.hosts,
            facts: self.facts,
        };
        let now = self.facts.now();
        for _ in 0..guests.len() {
            let Some(mut guest) = guests.pop_front() else {
                return;
            };
            if guest.goes_on(&mut porter, now) {
                let _ = guests.push_back(guest);
            }
        }
    }

    // Serves who comes while all places are taken, all of them side by side.
    fn serve_beside(&self, listener: &TcpListener) {
        let mut guests = VecDeque::new(self.alloc);
        for _ in 0..u64::MAX {
            if self.facts.has_ended() {
                return;
            }
            let _ = self.take_guests(listener, &mut guests);
            self.serve_guests(&mut guests);
            self.rt.sleep(Duration::from_millis(LOOK));
        }
    }
}

// Answers that the door is too busy.
fn answer_busy(stream: &TcpStream) -> io::Result<()> {
    let mut writer = stream;
    writer.write_all(TURNED_AWAY)
}

impl<'a, J: Naming, R: Clock + RandomSource + Wait + Drop, F: Facts> Visits for Web<'a, J, R, F> {
    // One for each place, and one for who comes while all are taken.
    fn threads(&self) -> u64 {
        match &self.listener {
            None => 0,
            Some(_) => MOST_VISITS + 1,
        }
    }

    fn serve(&self) {
        let Some(listener) = self.listener.as_ref() else {
            return;
        };
        if self.came.fetch_add(1, Ordering::SeqCst) < MOST_VISITS {
            self.serve_visits(listener);
        } else {
            self.serve_beside(listener);
        }
    }
}
