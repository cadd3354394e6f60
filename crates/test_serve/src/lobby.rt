//! Doors in memory, through which two peers, one of no known name and an admin come.

use crate::bytes::{DEFINE_FIVE, DEFINE_SEVEN, HELLO, OTHER_HELLO, SIX};
use crate::memory::copied;
use crate::order::{Order, Who};
use crate::paper::{EVEN, Paper};
use crate::told::Ending;
use agg_types::Config;
use serve::{
    Caller, Came, Clock, Door, Doors, Faulted, Gate, News, Place, ReadFailed, Served, Source,
};
use std::alloc::Global;
use std::sync::Wait;
use std::sync::atomic::{AtomicUsize, Ordering};

/// What each caller sends, a piece at each of its turns; its last turn is the end.
const FIRST: [&[u8]; 3] = [HELLO, DEFINE_FIVE, SIX];

const SECOND: [&[u8]; 2] = [OTHER_HELLO, DEFINE_SEVEN];

const THIRD: [&[u8]; 1] = [b"HAProxyS 2.1\nagg\nlb9 1 1\n"];

const ADMIN: [&[u8]; 3] = [
    b"show table t\n",
    b"clear table t\nshow table t\n",
    b"show ta",
];

/// What a caller sends, at its turns.
#[derive(Drop)]
pub struct Said<'a, R> {
    rt: &'a R,
    order: &'a Order,
    who: Who,
    pieces: &'static [&'static [u8]],
    next: usize,
    has_turn: bool,
    reads: u64,
}

impl<'a, R: Wait> Source for Said<'a, R> {
    ghost use Rattle.std.specs.Prelude.{None};

    ghost reads = { λ s. s.reads };

    ghost failed = { λ s. 0 };

    ghost given = { λ s. None };

    fn read(&mut self, buffer: &mut [u8]) -> Result<Came, ReadFailed> {
        if self.reads == 0 {
            self.order.come();
        }
        self.reads += 1;
        if self.has_turn {
            self.order.pass();
        }
        self.order.wait(self.rt, self.who);
        self.has_turn = true;
        let Some(piece) = self.pieces.get(self.next) else {
            return Ok(Came::End);
        };
        self.next = self.next.saturating_add(1);
        Ok(copied(piece, buffer))
    }
}

/// The doors, the clock and the gate of the order.
#[derive(Drop)]
pub struct Lobby<'a, R> {
    rt: &'a R,
    alloc: Global,
    order: &'a Order,
    peers: AtomicUsize,
    admins: AtomicUsize,
    beats: AtomicUsize,
}

impl<'a, R> Lobby<'a, R> {
    /// Doors through which nobody came yet.
    pub fn new(rt: &'a R, alloc: Global, order: &'a Order) -> Lobby<'a, R> {
        Lobby {
            rt,
            alloc,
            order,
            peers: AtomicUsize::new(0),
            admins: AtomicUsize::new(0),
            beats: AtomicUsize::new(0),
        }
    }

    // A caller who sends these pieces.
    fn caller(&self, who: Who, pieces: &'static [&'static [u8]]) -> Caller<Said<'a, R>, Paper>
    where
        R: Wait,
    {
        Caller {
            source: Said {
                rt: self.rt,
                order: self.order,
                who,
                pieces,
                next: 0,
                has_turn: false,
                reads: 0,
            },
            writer: Paper::new(self.alloc, EVEN, None),
        }
    }
}

impl<'a, R: Wait + Print> Doors<Said<'a, R>, Paper> for Lobby<'a, R> {
    ghost use Rattle.std.specs.Prelude.{None};

    ghost unread = { None };

    ghost blank = { None };

    fn peer(&self) -> Option<Caller<Said<'a, R>, Paper>> {
        match self.peers.fetch_add(1, Ordering::SeqCst) {
            0 => Some(self.caller(Who::First, &FIRST)),
            1 => Some(self.caller(Who::Second, &SECOND)),
            2 => Some(self.caller(Who::Third, &THIRD)),
            _ => None,
        }
    }

    fn admin(&self) -> Option<Caller<Said<'a, R>, Paper>> {
        match self.admins.fetch_add(1, Ordering::SeqCst) {
            0 => Some(self.caller(Who::Admin, &ADMIN)),
            _ => None,
        }
    }

    fn part_peer(
        &self,
        _config: &Config,
        _source: Said<'a, R>,
        writer: Paper,
        ended: Result<Served, Faulted>,
    ) {
        self.part(&writer, Ending::of(&ended));
    }

    fn part_admin(
        &self,
        _config: &Config,
        _source: Said<'a, R>,
        writer: Paper,
        _door: Door,
        ended: Result<Served, Faulted>,
    ) {
        self.part(&writer, Ending::of(&ended));
    }
}

impl<'a, R: Print> Lobby<'a, R> {
    // Prints what was written, and ends the turn of who goes.
    fn part(&self, writer: &Paper, ending: Ending) {
        let written = writer.as_slice().escape_ascii();
        let _ = println!(self.rt; "turn {}: [{written}] {ending}", self.order.place());
        self.order.pass();
    }
}

impl<'a, R: Wait + Print> Clock for Lobby<'a, R> {
    ghost gives = { λ clock moment. Unit {0} };

    // Ten ms a turn; and what no timer posts once all are over.
    fn now(&self) -> u64 {
        if self.order.is_over() {
            u64::MAX
        } else {
            (self.order.place() as u64).saturating_mul(10)
        }
    }

    // Only the timer rests.
    fn rest(&self) {
        self.order.pass();
    }

    // It goes last.
    fn part_timer(&self, ended: Result<Served, Faulted>) {
        let _ = println!(self.rt; "the timer: {}", Ending::of(&ended));
    }
}

impl<'a, R: Wait + Print> Gate for Lobby<'a, R> {
    fn turn(&self, place: Place) {
        if place == Place::Timer {
            if self.beats.fetch_add(1, Ordering::SeqCst) == 0 {
                self.order.come();
            }
            self.order.wait(self.rt, Who::Timer);
        }
    }

    fn stop(&self) -> bool {
        self.order.is_closed()
    }

    // Prints what an admin changed.
    fn tell(&self, _place: Place, news: News<'_>) {
        if let News::Changed(address, line) = news {
            let (turn, line) = (self.order.place(), line.escape_ascii());
            let _ = println!(self.rt; "turn {turn}: {address:?} changed it by [{line}]");
        }
    }
}
