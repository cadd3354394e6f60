//! One open connection.

ghost use Rattle.std.specs.Prelude.{◌≡◌, ◌+◌, ◌++◌, ◌<◌, ◌^◌, [], ℕ, List, length, IfSome, IfOk};
ghost use Rattle.std.specs.Prelude.{OnErr, map, option_map, if◌then◌else◌};
ghost use Rattle.std.specs.Bool.{then_some};
ghost use Rattle.agg_types.specs.declared.limits.TheConstants.{NUMBERS_END};
ghost use Rattle.session_core.specs.Piece.{Setup};
ghost use Rattle.session_core.specs.Talk.{stage_of};
ghost use Rattle.session_core.specs.Asking.{asks_all};
ghost use Rattle.telling.specs.Telling.{asked, untold};
ghost use Rattle.fleet_core.specs.Feeding.{Feeds, IsAfter, Tells};

use agg_types::{Config, Items, Key, NoMemory, Whats};
use pushed_keys::Pushed;
use session_core::{Batch, Session, SessionCause};
use std::alloc::Global;
use telling::Teller;

/// An open connection: its session, the number of its seat's next event, if it has a seat, and what
/// it was told of the pushed tables. The seat has the connection's number.
#[derive(Drop)]
pub struct Connection {
    pub session: Session,
    pub next_seq: Option<u64>,
    pub teller: Teller,
}

/// What a piece of a stream gives: facts, the bytes to be sent back, and why the stream ended, if
/// it ended by it.
#[derive(Drop)]
pub struct Outcome {
    pub facts: Whats,
    pub out: Items<u8>,
    pub end: Option<SessionCause>,
}

impl Connection {
    /// A connection that has sent nothing yet. It has a seat, at which it sat down, or none. Takes
    /// no memory.
    pub fn new(alloc: Global, seated: bool, now: u64) -> Connection
        ensures stands { (setup : Setup) → result.session.stage ≡ stage_of setup seated [] }
        ensures seated { result.session.seated ≡ seated }
        ensures next_seq { result.next_seq ≡ then_some seated 1 }
        ensures told { result.teller ≡ untold }
    {
        Connection {
            session: Session::accept(alloc, seated, now),
            next_seq: if seated { Some(1) } else { None },
            teller: Teller::new(alloc),
        }
    }

    /// Takes the next piece of the stream. After NoMemory the connection is as it was.
    pub fn feed(&mut self, config: &Config, piece: &[u8], now: u64) -> Result<Outcome, NoMemory>
        requires few { IfSome self.old.next_seq (λ seq. seq < NUMBERS_END) }
        ensures ok { (bytes : List ℕ) → IsAfter self.old config.now bytes
            → IfOk result (λ given. Feeds given self.old self.new config.now bytes piece.now) }
        ensures short { IfOk result (λ given. length given.facts < 2 ^ 63) }
        ensures err { OnErr result (self.new ≡ self.old) }
    {
        match self.session.feed(config, piece, now) {
            Ok(batch) => Ok(self.outcome(batch, None)),
            Err(fault) => match fault.cause {
                SessionCause::NoMemory => Err(NoMemory),
                cause => Ok(self.outcome(fault.batch, Some(cause))),
            },
        }
    }

    /// Makes a turn over the sets of the pushed tables at a moment, in ms, if the hello was
    /// accepted, and gives what it writes. After NoMemory the connection is as it was.
    pub fn tell(
        &mut self,
        alloc: Global,
        pushed: &[Pushed],
        sets: &[Vec<&Key>],
        now: u64,
    ) -> Result<Vec<u8>, NoMemory>
        ensures ok { IfOk result (λ out. Tells out.items self.old self.new pushed.now
            (map (λ set. map (λ key. key.now) set.items) sets.now) now) }
        ensures err { OnErr result (self.new ≡ self.old) }
    {
        if self.session.peer().is_none() {
            return Ok(Vec::new(alloc));
        }
        self.teller.turn(pushed, sets, now)
    }

    // Counts the facts at the connection's seat, and hears whether all is asked for.
    fn outcome(&mut self, batch: Batch, end: Option<SessionCause>) -> Outcome
        requires few { IfSome self.old.next_seq (λ seq. seq < NUMBERS_END) }
        ensures facts { result.facts ≡ batch.facts }
        ensures short { length result.facts < 2 ^ 63 }
        ensures out { result.out ≡ batch.replies ++ batch.acks }
        ensures end { result.end ≡ end }
        ensures session { self.new.session ≡ self.old.session }
        ensures told { self.new.teller
            ≡ (if asks_all batch.replies then asked self.old.teller else self.old.teller) }
        ensures counted { self.new.next_seq
            ≡ option_map (λ seq. seq + length batch.facts) self.old.next_seq }
    {
        if batch.asks_all() {
            self.teller.ask();
        }
        let (facts, out) = batch.into_parts();
        if let Some(seq) = self.next_seq {
            self.next_seq = Some(seq + facts.len() as u64);
        }
        Outcome {
            facts,
            out: Items::from_vec(out),
            end,
        }
    }
}
