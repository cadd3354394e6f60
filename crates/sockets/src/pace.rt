//! The time that an operator's connection has.

use crate::admins::Admins;
use crate::connections::Connections;
use crate::line_head::Line;
use crate::ticks::Ticks;
use std::alloc::Global;
use std::net::SocketAddr;
use std::sync::atomic::{AtomicU64, Ordering};
use std::sync::{Arc, Wait};
use std::time::Clock;

/// How long a command may take from its first byte to its end, and how long nothing may come
/// between commands, in ms.
const LINE_LIMIT: u64 = 10_000;

/// How long an answer may take until the socket has it whole, in ms.
const ANSWER_LIMIT: u64 = 30_000;

/// After so long a connection ends behind its present answer where another one waits, in ms.
const TURN_LIMIT: u64 = 60_000;

/// When the present question of an operator was given to who answers it, and when the writing of
/// the answer began: moments in ms, and one more; 0 where there is none.
#[derive(Drop)]
pub struct Times {
    asked: AtomicU64,
    begun: AtomicU64,
}

impl Times {
    /// Nothing was asked.
    pub fn new() -> Times {
        Times {
            asked: AtomicU64::new(0),
            begun: AtomicU64::new(0),
        }
    }
}

/// The times of a connection, for who writes to it.
#[derive(Drop)]
pub struct Answers<'a> {
    pub admins: &'a Admins,
    pub times: Arc<Times, Global>,
}

impl<'a> Answers<'a> {
    /// Whether an answer still may be written. It begins with the first write; how long it took to
    /// make is noted then.
    pub fn are_in_time<R: Clock + Wait>(&self, clock: &Ticks<R>) -> bool {
        let now = clock.moment();
        let first = self.times.begun.load(Ordering::SeqCst);
        if first != 0 {
            return now.saturating_sub(first) < ANSWER_LIMIT;
        }
        self.times
            .begun
            .store(now.saturating_add(1), Ordering::SeqCst);
        let asked = self.times.asked.swap(0, Ordering::SeqCst);
        if asked != 0 {
            self.admins.looked(&clock.rt, asked.saturating_sub(1), now);
        }
        true
    }
}

/// How long an operator's connection is served, how long its present line takes, and how long its
/// present answer.
#[derive(Drop)]
pub struct Pace<'a, R> {
    clock: &'a Ticks<R>,
    admins: &'a Admins,
    connections: &'a Connections,
    times: Arc<Times, Global>,
    // when it was accepted
    came: u64,
    // from when on its present line counts, or the silence before one
    since: u64,
    // whether a byte of a line came
    is_in_line: bool,
    // whether a line ended, and was answered since
    has_ended: bool,
}

impl<'a, R: Clock + Wait> Pace<'a, R> {
    /// Of a connection that has just been accepted.
    pub fn new(
        clock: &'a Ticks<R>,
        admins: &'a Admins,
        connections: &'a Connections,
        times: Arc<Times, Global>,
    ) -> Pace<'a, R> {
        let now = clock.moment();
        Pace {
            clock,
            admins,
            connections,
            times,
            came: now,
            since: now,
            is_in_line: false,
            has_ended: false,
        }
    }

    /// The connection is about to be read: whether it still may. All its lines so far were
    /// answered.
    pub fn goes_on(&mut self) -> bool {
        self.times.begun.store(0, Ordering::SeqCst);
        let now = self.clock.moment();
        let was_answered = self.has_ended;
        if was_answered {
            self.since = now;
            self.is_in_line = false;
            self.has_ended = false;
        }
        if now.saturating_sub(self.since) >= LINE_LIMIT {
            return false;
        }
        let may_end = was_answered || !self.is_in_line;
        let is_long = now.saturating_sub(self.came) >= TURN_LIMIT;
        !(may_end && is_long && self.admins.does_one_wait(&self.clock.rt))
    }

    /// The connection, from this address, ends at a line of HTTP.
    pub fn note_http(&self, sender: Option<SocketAddr>) {
        let now = self.clock.moment();
        self.admins.note_http(&self.clock.rt, now, sender);
    }

    /// A piece of a command came, which ends the command, of this kind, or doesn't. A question
    /// waits until operators may look.
    pub fn note_piece(&mut self, line: Option<Line>) {
        match line {
            Some(Line::Question) => {
                self.has_ended = true;
                self.admins.wait_for_turn(self.clock, self.connections);
                let now = self.clock.moment();
                let asked = &self.times.asked;
                asked.store(now.saturating_add(1), Ordering::SeqCst);
            }
            Some(_) => {
                self.has_ended = true;
                self.times.asked.store(0, Ordering::SeqCst);
            }
            None if !self.is_in_line => {
                self.is_in_line = true;
                self.since = self.clock.moment();
            }
            None => {}
        }
    }
}
