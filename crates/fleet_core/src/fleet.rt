ghost use Rattle.std.specs.Prelude.{◌≡◌, ◌+◌, ◌↔◌, ◌≤◌, ◌<◌, ◌∷◌, [], true, false, length};
ghost use Rattle.std.specs.Prelude.{IfSome, IsSome, IsTrue, IfOk, OnOk, option_to_list};
ghost use Rattle.std.specs.Prelude.{MatchResult, if◌then◌else◌};
ghost use Rattle.std.specs.Bool.{then_some};
ghost use Rattle.std.specs.Option.{option_copied, option_map_or};
ghost use Rattle.agg_types.specs.Check.{config_faults};
ghost use Rattle.agg_types.specs.declared.event.What.TheVariants.{Sit};
ghost use Rattle.agg_types.specs.declared.limits.TheConstants.{LAST_MOMENT};
ghost use Rattle.fleet_core.specs.declared.step.Step.TheVariants.{Bytes, Connect, Lost, Told};
ghost use Rattle.fleet_core.specs.Answers.{Answers, EndsBy, IfDone, IfNoMemory, IfRefused, Sends};
ghost use Rattle.fleet_core.specs.Answers.{past_after};
ghost use Rattle.fleet_core.specs.Events.{added_by};
ghost use Rattle.fleet_core.specs.Adds.{Adds, IsFed, IsTurn, Keeps};
ghost use Rattle.fleet_core.specs.Links.{found, next_seq_at};
ghost use Rattle.fleet_core.specs.Possible.{can_be, does_fit, end_by, is_full, is_open_after};
ghost use Rattle.fleet_core.specs.Possible.{sent_by, spends_at};
ghost use Rattle.fleet_core.specs.Telling.{told_of};
ghost use Rattle.fleet_core.specs.Represents.{ForEachPast, Represents};
ghost use Rattle.fleet_core.specs.Steps.{connects, what_at};
ghost use Rattle.fleet_core.specs.Waiting.{AreHandedOver, IsEndOf};

use crate::connection::{Connection, Outcome};
use crate::connections::{Connections, close, close_if, feed, next_seq_at, open, tell, teller_at};
use crate::sets::sets_of;
use crate::waiting::Waiting;
use crate::{Book, FleetFault, Replies, Step};
use agg_types::{Config, Items, LAST_SEAT, NUMBERS_END, NoMemory, What, Whats};
use pushed_keys::pushed_of;
use session_core::SessionCause;
use std::alloc::Global;
use std::collections::BTreeMap;
use std::marker::Model;
use telling::Teller;

/// A collector in one thread: the connections of its peers, and the book of what they push.
///
/// Seat 0 sits for clears, filters that are added or dropped, and moments. A connection's seat has
/// its number. A fleet stands for the steps that were done, and its book answers what recomputing
/// from all their events gives, but for the last of them, which wait where an allocation failed.
#[derive(Drop)]
pub struct Fleet {
    alloc: Global,
    book: Book,
    connections: Connections,
    connected: u64,
    next_seq: u64,
    waiting: Waiting,
}

impl Model for Fleet {
    ghost use Rattle.fleet_core.specs.Represents.{Collected};

    ghost Value = { Collected };

    ghost view = { λ fleet. record {
      book = fleet.book;
      waiting = fleet.waiting;
      links = fleet.connections.entries;
      connected = fleet.connected;
      next_seq = fleet.next_seq;
    } };
}

impl Fleet {
    /// A fleet with no connections, at its opening moment, in ms, at most the last. The
    /// configuration is one that `Config::check` accepts.
    pub fn new(alloc: Global, config: Config, moment: u64) -> Result<Fleet, NoMemory>
        requires checked { config_faults config ≡ [] }
        requires in_range { moment ≤ LAST_MOMENT }
        ensures stands { IfOk result (λ fleet. Represents fleet config moment []) }
        ensures waiting { IfOk result (λ fleet. fleet.waiting ≡ []) }
    {
        let mut book = Book::new(alloc, config, moment)?;
        book.apply(0, 0, &What::Sit)?;
        Ok(Fleet {
            alloc,
            book,
            connections: BTreeMap::new(alloc),
            connected: 0,
            next_seq: 1,
            waiting: Waiting::none(alloc),
        })
    }

    /// The book. It has taken all events but the last that wait. Takes no memory.
    pub fn book(&self) -> &Book
        ensures { result.now ≡ self.now.book }
    {
        &self.book
    }

    /// How many events the book has yet to take. They are taken before any later step. Takes no
    /// memory.
    pub fn waiting(&self) -> usize
        ensures { result ≡ length self.now.waiting }
    {
        self.waiting.len()
    }

    /// What an open connection was told of the pushed tables; none where it isn't open. Takes no
    /// memory.
    pub fn told(&self, conn: u64) -> Option<&Teller>
        ensures { ForEachPast self.now (λ config opening past. option_copied result
            ≡ then_some (is_open_after config opening past conn)
            (told_of config opening past conn)) }
    {
        teller_at(&self.connections, conn)
    }

    /// Does a step. A clear, a filter that is added or dropped, or a moment fits the configuration
    /// that stands, which `Step::fits` tells. Faults, in this order: NoConn, Spent, NoMemory,
    /// Session. Where an allocation fails after the step is done, what the book has yet to take
    /// waits.
    ///
    /// A connection is open if it came, wasn't lost, and its stream hasn't ended.
    pub fn step(&mut self, step: &Step) -> Result<Replies, FleetFault>
        requires fits { IsTrue (does_fit self.old.book.config step.now) }

        // It stands for the steps before and, after Ok and Session, for this one.
        ensures stands { ForEachPast self.old (λ config opening past.
            Represents self.new config opening (past_after result past step.now)) }

        // NoConn exactly where it names a connection that isn't open, Spent exactly where an open
        // one, or seat 0, has no numbers left for it. Nothing has changed then.
        ensures no_conn { ForEachPast self.old (λ config opening past.
            (result ≡ Err FleetFault.NoConn) ↔ (can_be config opening past step.now ≡ false)) }
        ensures spent { ForEachPast self.old (λ config opening past.
            (result ≡ Err FleetFault.Spent) ↔ (spends_at config opening past step.now ≡ true)) }
        ensures refused { ForEachPast self.old (λ _ _ _.
            IfRefused result (self.new ≡ self.old)) }

        // What is sent; and Session exactly where the stream ends by it, with its cause.
        ensures sent { ForEachPast self.old (λ config opening past.
            Sends result (sent_by config opening past step.now)) }
        ensures ended { ForEachPast self.old (λ config opening past.
            EndsBy result (end_by config opening past step.now)) }

        // After Ok and Session only events of this step wait. After NoMemory what waited before is
        // taken, in order, or still waits, and nothing else does.
        ensures own { ForEachPast self.old (λ config opening past.
            IfDone result (IsEndOf self.new.waiting (added_by config opening past step.now))) }
        ensures handed { ForEachPast self.old (λ _ _ _. IfNoMemory result
            (AreHandedOver self.old.waiting self.old.book self.new.waiting self.new.book)) }
    {
        self.answer(step)
    }
}

impl Fleet {
    // Does a step, by its kind.
    fn answer(&mut self, step: &Step) -> Result<Replies, FleetFault>
        requires fits { IsTrue (does_fit self.old.book.config step.now) }
        ensures { ForEachPast self.old (λ config opening past.
            Answers result self.old self.new config opening past step.now) }
    {
        match step {
            Step::Connect => self.connect(),
            Step::Bytes(conn, piece) => self.bytes(*conn, piece.as_slice()),
            Step::Lost(conn) => self.lose(*conn),
            Step::Told(conn) => self.tell(*conn),
            Step::Clear { .. } | Step::AddFilter(_) | Step::DropFilter(_) | Step::Moment(_) =>
                self.happen(step),
        }
    }

    // A peer connects.
    fn connect(&mut self) -> Result<Replies, FleetFault>
        ensures { ForEachPast self.old (λ config opening past.
            Answers result self.old self.new config opening past Connect) }
    {
        if self.connected >= LAST_SEAT {
            return Err(FleetFault::Spent);
        }
        match self.open_next() {
            Ok(conn) => Ok(self.silent(conn)),
            Err(NoMemory) => Err(FleetFault::NoMemory),
        }
    }

    // Opens the next connection, with a seat if one is free.
    fn open_next(&mut self) -> Result<u64, NoMemory>
        requires few { self.old.connected < LAST_SEAT }
        ensures { ForEachPast self.old (λ config opening past. MatchResult result
            (λ conn. (conn ≡ connects past + 1) × Adds self.new config opening past Connect)
            (λ _. Keeps self.old self.new config opening past)) }
    {
        self.flush()?;
        let conn = self.connected + 1;
        let seated = self.book.has_free_seat();
        let facts = sit_if(self.alloc, seated)?;
        let connection = Connection::new(self.alloc, seated, self.book.moment());
        open(&mut self.connections, conn, connection)?;
        self.connected = conn;
        self.queue(Waiting::new(conn, 0, facts, false));
        Ok(conn)
    }

    // Bytes come.
    fn bytes(&mut self, conn: u64, piece: &[u8]) -> Result<Replies, FleetFault>
        ensures { ForEachPast self.old (λ config opening past.
            Answers result self.old self.new config opening past (Bytes conn piece.now)) }
    {
        let Some(next_seq) = next_seq_at(&self.connections, conn) else {
            return Err(FleetFault::NoConn);
        };
        if is_spent(next_seq, piece.len() as u64) {
            return Err(FleetFault::Spent);
        }
        match self.feed_open(conn, next_seq, piece) {
            Ok((out, end)) => match end {
                None => Ok(Replies { conn, out }),
                Some(cause) => Err(FleetFault::Session { cause, out }),
            },
            Err(NoMemory) => Err(FleetFault::NoMemory),
        }
    }

    // Feeds an open connection: what is sent, and why the stream ended, if it did.
    fn feed_open(
        &mut self,
        conn: u64,
        next_seq: Option<u64>,
        piece: &[u8],
    ) -> Result<(Items<u8>, Option<SessionCause>), NoMemory>
        requires open { next_seq_at self.old.links conn ≡ Some next_seq }
        requires few { IfSome next_seq (λ seq. seq < NUMBERS_END) }
        requires unspent { option_map_or (λ seq. is_full seq (length piece.now)) next_seq false
            ≡ false }
        ensures { ForEachPast self.old (λ config opening past. MatchResult result
            (λ sent. IsFed sent.0 sent.1 self.new config opening past conn piece.now)
            (λ _. Keeps self.old self.new config opening past)) }
    {
        let alloc = self.alloc;
        self.flush()?;
        let Outcome { facts, out, end } = feed(
            &mut self.connections,
            conn,
            self.book.config(),
            piece,
            self.book.moment(),
        )?;
        let ended = end.is_some();
        let events = Waiting::at_seat(alloc, conn, next_seq, facts, ended);
        close_if(&mut self.connections, conn, ended);
        self.queue(events);
        Ok((out, end))
    }

    // A connection is lost.
    fn lose(&mut self, conn: u64) -> Result<Replies, FleetFault>
        ensures { ForEachPast self.old (λ config opening past.
            Answers result self.old self.new config opening past (Lost conn)) }
    {
        let Some(next_seq) = next_seq_at(&self.connections, conn) else {
            return Err(FleetFault::NoConn);
        };
        match self.close_open(conn, next_seq) {
            Ok(()) => Ok(self.silent(conn)),
            Err(NoMemory) => Err(FleetFault::NoMemory),
        }
    }

    // Closes an open connection.
    fn close_open(&mut self, conn: u64, next_seq: Option<u64>) -> Result<(), NoMemory>
        requires open { next_seq_at self.old.links conn ≡ Some next_seq }
        ensures { ForEachPast self.old (λ config opening past. MatchResult result
            (λ _. Adds self.new config opening past (Lost conn))
            (λ _. Keeps self.old self.new config opening past)) }
    {
        self.flush()?;
        let none = Whats::new(self.alloc);
        let events = Waiting::at_seat(self.alloc, conn, next_seq, none, true);
        close(&mut self.connections, conn);
        self.queue(events);
        Ok(())
    }

    // A connection is told what has changed of the pushed tables.
    fn tell(&mut self, conn: u64) -> Result<Replies, FleetFault>
        ensures { ForEachPast self.old (λ config opening past.
            Answers result self.old self.new config opening past (Told conn)) }
    {
        let Some(_) = next_seq_at(&self.connections, conn) else {
            return Err(FleetFault::NoConn);
        };
        match self.tell_open(conn) {
            Ok(out) => Ok(Replies { conn, out }),
            Err(NoMemory) => Err(FleetFault::NoMemory),
        }
    }

    // An open connection makes a turn: what it writes.
    fn tell_open(&mut self, conn: u64) -> Result<Items<u8>, NoMemory>
        requires open { IsSome (found self.old.links conn) }
        ensures { ForEachPast self.old (λ config opening past. MatchResult result
            (λ out. IsTurn out self.new config opening past conn)
            (λ _. Keeps self.old self.new config opening past)) }
    {
        let alloc = self.alloc;
        self.flush()?;
        let pushed = pushed_of(alloc, self.book.config())?;
        let sets = sets_of(alloc, &self.book, pushed.as_slice())?;
        let now = self.book.moment();
        let out = tell(
            alloc,
            &mut self.connections,
            conn,
            pushed.as_slice(),
            sets.as_slice(),
            now,
        )?;
        Ok(Items::from_vec(out))
    }

    // A clear, a filter that is added or dropped, or a moment happens at seat 0.
    fn happen(&mut self, step: &Step) -> Result<Replies, FleetFault>
        requires own { IsSome (what_at step.now) }
        requires fits { IsTrue (does_fit self.old.book.config step.now) }
        ensures { ForEachPast self.old (λ config opening past.
            Answers result self.old self.new config opening past step.now) }
    {
        if is_spent(Some(self.next_seq), 1) {
            return Err(FleetFault::Spent);
        }
        match self.queue_own(step) {
            Ok(()) => Ok(self.silent(0)),
            Err(NoMemory) => Err(FleetFault::NoMemory),
        }
    }

    // Queues the event of such a step.
    fn queue_own(&mut self, step: &Step) -> Result<(), NoMemory>
        requires own { IsSome (what_at step.now) }
        requires fits { IsTrue (does_fit self.old.book.config step.now) }
        requires few { self.old.next_seq < NUMBERS_END }
        requires unspent { is_full self.old.next_seq 1 ≡ false }
        ensures { ForEachPast self.old (λ config opening past. MatchResult result
            (λ _. Adds self.new config opening past step.now)
            (λ _. Keeps self.old self.new config opening past)) }
    {
        self.flush()?;
        let facts = facts_of(self.alloc, step)?;
        let seq = self.next_seq;
        self.next_seq += 1;
        self.queue(Waiting::new(0, seq, facts, false));
        Ok(())
    }

    // Hands what waits to the book.
    fn flush(&mut self) -> Result<(), NoMemory>
        ensures ok { OnOk result (self.new.waiting ≡ []) }
        ensures handed { AreHandedOver self.old.waiting self.old.book self.new.waiting
            self.new.book }
        ensures links { self.new.links ≡ self.old.links }
        ensures connected { self.new.connected ≡ self.old.connected }
        ensures next_seq { self.new.next_seq ≡ self.old.next_seq }
    {
        self.waiting.flush(&mut self.book)
    }

    // Lets events wait, and hands over as many as there is memory for.
    fn queue(&mut self, events: Waiting)
        ensures handed { AreHandedOver events self.old.book self.new.waiting self.new.book }
        ensures links { self.new.links ≡ self.old.links }
        ensures connected { self.new.connected ≡ self.old.connected }
        ensures next_seq { self.new.next_seq ≡ self.old.next_seq }
    {
        self.waiting = events;
        let _ = self.flush();
    }

    fn silent(&self, conn: u64) -> Replies
        ensures { result ≡ record { conn = conn; out = [] } }
    {
        Replies {
            conn,
            out: Items::from_vec(Vec::new(self.alloc)),
        }
    }
}

// Whether a seat, if there is one, has no numbers left for so many events.
fn is_spent(next_seq: Option<u64>, more: u64) -> bool
    ensures { result ≡ option_map_or (λ seq. is_full seq more) next_seq false }
{
    match next_seq {
        None => false,
        Some(seq) => u128::from(seq) + u128::from(more) >= u128::from(NUMBERS_END),
    }
}

// What a connection with a seat begins with.
fn sit_if(alloc: Global, seated: bool) -> Result<Whats, NoMemory>
    ensures { IfOk result (λ facts. facts ≡ (if seated then Sit ∷ [] else [])) }
{
    let mut facts = Whats::new(alloc);
    if seated {
        facts.push(What::Sit)?;
    }
    Ok(facts)
}

// What a step makes happen at seat 0, if it does.
fn facts_of(alloc: Global, step: &Step) -> Result<Whats, NoMemory>
    ensures { IfOk result (λ facts. facts ≡ option_to_list (what_at step.now)) }
{
    let mut facts = Whats::new(alloc);
    if let Some(what) = step.what(alloc)? {
        facts.push(what)?;
    }
    Ok(facts)
}
