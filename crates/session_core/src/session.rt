//! A session: one connection of a peer.

ghost use Rattle.std.specs.Prelude.{◌≡◌, ◌≢◌, Err, IfErr, ◌≤◌, ◌-◌, ◌++◌, ◌==◌, ◌&&◌, ◌||◌, nat_le};
ghost use Rattle.std.specs.Prelude.{ℕ, List, [], length, if◌then◌else◌, IfOk, MatchResult, Some};
ghost use Rattle.std.specs.Prelude.{None, true, false, Bool};
ghost use Rattle.session_core.specs.Silence.{end_by_silence, over_with, peer_of};

use crate::SessionCause;
use crate::batch::{Batch, SessionFault};
use crate::cause::End;
use crate::stage::{Outcome, Stage, take_piece};
use agg_types::{Config, NoMemory, Whats};
use bytes::Bytes;
use std::alloc::Global;
use std::marker::Model;
use std::mem;

/// How long a session may be silent, in ms, before it is ended.
pub const LONGEST_SILENCE: u64 = 5000;

/// How long nothing may be sent, in ms, before a heartbeat is.
pub const BEAT_AFTER: u64 = 3000;

/// What is to be done when nothing was read.
#[derive(Clone, Copy, Debug, PartialEq, Eq)]
pub enum Idle {
    /// Nothing.
    Nothing,
    /// A heartbeat is to be sent.
    Beat,
    /// The session is over: nothing came for `LONGEST_SILENCE` ms.
    Ended,
}

/// One connection of a peer, from its first byte on.
///
/// It stands for the bytes that it has taken. Moments are in ms.
#[derive(Debug)]
pub struct Session {
    seated: bool,
    stage: Stage,
    last_input: u64,
    last_output: u64,
    late: bool,
    /// Room for the next batch; nothing that contracts see.
    spare: Whats,
    alloc: Global,
}

// By hand, so that a crate that drops a session proves nothing of its parts.
impl Drop for Session {
    fn drop(self) {
        let Session {
            seated: _,
            stage: _,
            last_input: _,
            last_output: _,
            late: _,
            spare: _,
            alloc: _,
        } = self;
    }
}

impl Model for Session {
    ghost use Rattle.session_core.specs.State.{SessionState};

    ghost Value = { SessionState };

    ghost use Rattle.session_core.specs.Piece.{IsSettled};
    ghost use Rattle.std.specs.Prelude.{◌≡◌, []};

    ghost invariant = { λ session. IsSettled session.stage × (session.spare ≡ []) };

    ghost view = { λ session. record {
      seated = session.seated;
      stage = session.stage;
      last_input = session.last_input;
      last_output = session.last_output;
      late = session.late;
    } };
}

impl Session {
    ghost use Rattle.session_core.specs.Batched.{Batched};
    ghost use Rattle.session_core.specs.Piece.{Setup, nothing, setup_of, piece_of};
    ghost use Rattle.session_core.specs.Talk.{stage_of, talk};
    ghost use Rattle.session_core.specs.TalkAnswers.{FactsFit, OpensWith, AnswersTalk};
    ghost use Rattle.session_core.specs.State.{accepted, Answers, after_piece, idle_of, after_idle};

    /// A connection that has sent nothing yet. It has a seat, or will be refused once its hello is
    /// whole. Takes no memory.
    pub fn accept(alloc: Global, seated: bool, now: u64) -> Session
        ensures new { result ≡ accepted seated now }
        // It stands for no bytes.
        ensures stands { (setup : Setup) → result.stage ≡ stage_of setup seated [] }
    {
        Session {
            seated,
            stage: Stage::Greeting(Bytes::new()),
            last_input: now,
            last_output: now,
            late: false,
            spare: Whats::new(alloc),
            alloc,
        }
    }

    /// Takes the next piece of the stream, whatever it is cut from, with the configuration that
    /// each call of the session gets: the same name, peers and tables.
    ///
    /// A fault comes with what the piece gave before it, and is answered for good from then on,
    /// with an empty batch. `NoMemory` comes with an empty batch and leaves the session as it was.
    pub fn feed(&mut self, config: &Config, piece: &[u8], now: u64) -> Result<Batch, SessionFault>
        // What the piece gives, from what is kept; `NoMemory` leaves all as it was.
        ensures exact { Answers result self.old self.new piece.now now
            (piece_of (setup_of config.now) self.old.seated self.old.stage piece.now) }

        // For all the bytes that the session stands for: what it gives is what the talk of the
        // bytes with the piece has beyond the talk without it.
        ensures talk { (taken : List ℕ) → self.old.stage
            ≡ stage_of (setup_of config.now) self.old.seated taken
            → AnswersTalk result (setup_of config.now) self.old.seated taken piece.now
            self.new.stage }
        ensures fits { (taken : List ℕ) → self.old.stage
            ≡ stage_of (setup_of config.now) self.old.seated taken
            → FactsFit config.now result }

        // Once faulted, every later call answers the same cause and an empty batch; `NoMemory`
        // never stays.
        ensures ended { IfErr result (λ fault. fault.cause ≢ SessionCause.NoMemory
            → over_with self.new.stage ≡ Some fault.cause) }
        ensures for_good { (cause : SessionCause) → over_with self.old.stage ≡ Some cause
            → (cause ≢ SessionCause.NoMemory) × (self.new.stage ≡ self.old.stage)
            × (result ≡ Err (record { cause = cause; batch = nothing })) }
    {
        self.feed_piece(config, piece, now)
    }

    fn feed_piece(&mut self, config: &Config, piece: &[u8], now: u64) -> Result<Batch, SessionFault>
        ensures exact { Answers result self.old self.new piece.now now
            (piece_of (setup_of config.now) self.old.seated self.old.stage piece.now) }
        ensures over { (cause : SessionCause) → over_with self.old.stage ≡ Some cause
            → result ≡ Err (record { cause = cause; batch = nothing }) }
    {
        let alloc = self.alloc;
        let facts = mem::replace(&mut self.spare, Whats::new(alloc));
        let outcome = match take_piece(alloc, config, self.seated, &mut self.stage, facts, piece) {
            Ok(outcome) => outcome,
            Err(NoMemory) => {
                return Err(SessionFault {
                    cause: SessionCause::NoMemory,
                    batch: Batch::empty(alloc),
                });
            }
        };
        let Outcome { mut batch, end } = outcome;
        batch.leave_room(&mut self.spare);
        if !piece.is_empty() {
            self.last_input = now;
        }
        if !batch.is_silent() {
            self.last_output = now;
        }
        match end {
            None => Ok(batch),
            Some(end) => Err(SessionFault {
                cause: end.cause(),
                batch,
            }),
        }
    }

    /// Takes back a batch of facts that is done with: what is in it goes, and the next piece has
    /// its room. After `NoMemory` the room may be gone. Takes no memory.
    pub fn give_back(&mut self, whats: Whats)
        ensures { self.new ≡ self.old }
    {
        let mut spare = whats;
        spare.clear();
        self.spare = spare;
    }

    /// What is to be done at a moment at which nothing was read. Takes no memory.
    pub fn idle(&mut self, now: u64) -> Idle
        ensures answer { result ≡ idle_of self.old now }
        ensures after { self.new ≡ after_idle self.old now (idle_of self.old now) }
    {
        if self.late || now.saturating_sub(self.last_input) >= LONGEST_SILENCE {
            self.late = true;
            self.stage = Stage::Over(end_by_silence(&self.stage), peer_at(&self.stage));
            return Idle::Ended;
        }
        if peer_at(&self.stage).is_some() && now.saturating_sub(self.last_output) >= BEAT_AFTER {
            self.last_output = now;
            return Idle::Beat;
        }
        Idle::Nothing
    }

    /// The peer of an accepted hello. Takes no memory.
    pub fn peer(&self) -> Option<usize>
        ensures kept { result ≡ peer_of self.now.stage }
        ensures opened { (setup : Setup) (taken : List ℕ) → self.now.stage
            ≡ stage_of setup self.now.seated taken
            → OpensWith result (talk setup self.now.seated taken).facts }
    {
        peer_at(&self.stage)
    }
}

/// Why a session is over that was silent too long: that, unless it was over before.
fn end_by_silence(stage: &Stage) -> End
    ensures { result ≡ end_by_silence stage.now }
{
    match stage {
        Stage::Greeting(_) | Stage::Talking(_) => End::TimedOut,
        Stage::Over(end, _) => *end,
    }
}

/// The peer of an accepted hello.
fn peer_at(stage: &Stage) -> Option<usize>
    ensures { result ≡ peer_of stage.now }
{
    match stage {
        Stage::Greeting(_) => None,
        Stage::Talking(dialogue) => Some(dialogue.peer),
        Stage::Over(_, peer) => *peer,
    }
}
