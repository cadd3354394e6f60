//! A session at work.

ghost use Rattle.std.specs.Prelude.{◌≡◌, [], IfSome, false, is_some};
ghost use Rattle.std.specs.Option.{option_map};
ghost use Rattle.hub.specs.History.{Beginning};
ghost use Rattle.hub.specs.Posts.{Follows, SitsDown};

use crate::faults::TurnFault;
use crate::hello::Hello;
use crate::pushing::Pushing;
use crate::scout::Scout;
use crate::waiting::Pulse;
use agg_types::{Config, Whats};
use hub::Pass;
use session_core::{Idle, Session, SessionCause};
use std::alloc::Global;
use std::io::Write;
use std::net::SocketAddr;
use worker_frame::{Cause, Gate, Gone, News, Place, Poster};

/// A session at work.
#[derive(Drop)]
pub struct Worker {
    pub session: Session,
    pub poster: Option<Poster>,
    hello: Hello,
    scout: Scout,
    peer: Option<usize>,
    /// How many facts it posted.
    pub told: u64,
    // how much of that the gate was told
    reported: u64,
    pub pulse: Pulse,
    /// What it tells of the pushed tables, if there are any.
    pub pushing: Option<Pushing>,
}

// How many updates a session posted that posted so many facts: the first opens it.
fn updates_of(told: u64) -> u64 {
    told.saturating_sub(1)
}

impl Worker {
    ghost use Rattle.peer_worker.specs.Silent.{HearsAt};
    ghost use Rattle.peer_worker.specs.Tellings.{asked_pushing};
    ghost use Rattle.peer_worker.specs.Turns.{seat_at};
    ghost use Rattle.peer_worker.specs.Working.{IsAtWork, Takes};

    /// A connection that came in, with a poster if it has a seat.
    pub fn new(alloc: Global, pass: Option<Pass>, now: u64) -> Worker
        ensures work { (hub : Beginning) → IfSome pass (λ p. SitsDown p × Follows hub p.seen)
            → IsAtWork hub result.session.seated result [] }
        ensures seated { result.session.seated ≡ is_some (option_map (λ p. p.seat) pass) }
        ensures seat { seat_at result.poster ≡ option_map (λ p. p.seat) pass }
        ensures heard { result.session.last_input ≡ now }
        ensures in_time { result.session.late ≡ false }
    {
        let poster = match pass {
            None => None,
            Some(pass) => Some(Poster::new(pass)),
        };
        Worker {
            session: Session::accept(alloc, poster.is_some(), now),
            poster,
            hello: Hello::new(),
            scout: Scout::new(alloc),
            peer: None,
            told: 0,
            reported: 0,
            pulse: Pulse::new(),
            pushing: None,
        }
    }

    /// What is left of it once it has ended.
    pub fn into_poster(self) -> Option<Poster>
        ensures { result ≡ self.poster }
    {
        let Worker { poster, .. } = self;
        poster
    }

    /// Where it comes to a gate.
    pub fn place(&self) -> Place {
        Place::Session(match &self.poster {
            None => None,
            Some(poster) => Some(poster.seat()),
        })
    }

    /// Gives a batch that both copies of the book have taken back to the session, for its room.
    pub fn reuse(&mut self)
        ensures { self.new ≡ self.old }
    {
        let Some(poster) = &mut self.poster else {
            return;
        };
        if let Some(emptied) = poster.take_back() {
            self.session.give_back(emptied);
        }
    }

    /// Lets go of the batches that it keeps, which a connection that rests has no use for.
    pub fn let_go(&mut self, alloc: Global)
        ensures { self.new ≡ self.old }
    {
        self.session.give_back(Whats::new(alloc));
        if let Some(poster) = &mut self.poster {
            poster.forget();
        }
    }

    /// Keeps what it hears of a hello, finds the tables that are defined and what is taught of
    /// them, and hears what its resync requests are answered.
    pub fn listen(&mut self, config: &Config, piece: &[u8], now: u64)
        ensures session { self.new.session ≡ self.old.session }
        ensures poster { self.new.poster ≡ self.old.poster }
        ensures pushing { self.new.pushing ≡ self.old.pushing }
    {
        if self.peer.is_none() {
            self.hello.add(piece);
        }
        self.scout.read_piece(config, piece);
        if let Some(answer) = self.scout.take_answer() {
            self.pulse.hear(answer, now);
        }
    }

    /// Tells that a peer's hello was accepted, once, and what was posted, defined and taught since
    /// it told.
    pub fn greet<G: Gate>(&mut self, gate: &G)
        ensures session { self.new.session ≡ self.old.session }
        ensures poster { self.new.poster ≡ self.old.poster }
        ensures pushing { self.new.pushing ≡ self.old.pushing }
    {
        if self.peer.is_none() {
            self.peer = self.session.peer();
            if let Some(peer) = self.peer {
                gate.tell(self.place(), News::Came(peer));
            }
        }
        let place = self.place();
        if let Some(peer) = self.peer {
            self.report(gate, peer);
            self.reported = self.told;
            self.scout.tell(gate, place, peer);
        }
    }

    // Tells what was posted since it told.
    fn report<G: Gate>(&self, gate: &G, peer: usize) {
        if self.told > self.reported {
            let updates = updates_of(self.told).saturating_sub(updates_of(self.reported));
            gate.tell(self.place(), News::Posted(peer, updates));
        }
    }

    /// Tells how the connection of a sender ended, and before that who came and what was posted,
    /// as far as that wasn't told yet.
    pub fn bid_farewell<G: Gate>(
        &self,
        gate: &G,
        sender: Option<SocketAddr>,
        ended: &Result<(), Cause>,
    ) {
        let peer = self.session.peer();
        if let (None, Some(peer)) = (self.peer, peer) {
            gate.tell(self.place(), News::Came(peer));
        }
        if let Some(peer) = peer {
            self.report(gate, peer);
            self.scout.tell_taught(gate, self.place(), peer);
        }
        let (name, called) = if peer.is_none() {
            (self.hello.name(), self.hello.called())
        } else {
            (None, None)
        };
        let gone = Gone {
            sender,
            peer,
            name,
            called,
            updates: updates_of(self.told),
            cause: ended.as_ref().err(),
        };
        gate.tell(self.place(), News::Gone(gone));
    }

    /// A resync request was read, if this is so: all is told anew.
    pub fn ask(&mut self, asks: bool)
        ensures session { self.new.session ≡ self.old.session }
        ensures poster { self.new.poster ≡ self.old.poster }
        ensures pushing { self.new.pushing ≡ option_map (asked_pushing asks) self.old.pushing }
    {
        if let Some(pushing) = &mut self.pushing {
            pushing.ask(asks);
        }
    }

    /// Sends the signal that is due, and ends a session that was silent for too long.
    pub fn pause<W: Write>(&mut self, writer: &mut W, now: u64) -> Result<(), TurnFault>
        ensures seat { seat_at self.new.poster ≡ seat_at self.old.poster }
        ensures takes { (hub : Beginning) → Takes hub self.old self.new [] (W.contents writer.old)
            (W.contents writer.new) result }
        ensures heard { self.old.session.late ≡ false
            → HearsAt now self.old.session self.new.session result }
    {
        match self.session.idle(now) {
            Idle::Nothing | Idle::Beat => Ok(self.pulse.signal(writer, now)?),
            Idle::Ended => Err(TurnFault::Session(SessionCause::TimedOut)),
        }
    }
}
