//! All workers of a collector, each in a thread.

ghost use Rattle.std.specs.Prelude.{◌≡◌, ℕ, List, Option, IfSome};
ghost use Rattle.hub.specs.Posts.{Follows, SitsDown};
ghost use Rattle.serve.specs.Parting.{WasCommanded, WasServed};
ghost use Rattle.worker_frame.specs.Traffic.{so_far};

use crate::counts::{ADMINS, Counts, Ended};
use crate::timing::Timing;
use admin_worker::serve_admin;
use agg_types::Config;
use hub::{Hub, Naming, Pass};
use peer_worker::serve_session;
use std::alloc::Global;
use std::io::Write;
use std::net::SocketAddr;
use std::sync::Wait;
use std::thread;
use std::thread::Threads;
use worker_frame::{Clock, Context, Door, Faulted, Gate, Link, News, Place, Served, Source};

/// How many connections a door takes at most.
const MOST_CALLERS: u64 = 1 << 40;

/// A connection that came in, of which nothing was read yet.
#[derive(Drop)]
pub struct Caller<S: Source, W> {
    pub source: S,
    pub writer: W,
    pub ghost fresh: { S.reads source ≡ 0 },
}

/// Where connections come in, and go when they are over.
pub trait Doors<S: Source + Drop, W: Write + Drop> {
    // what its sources tell that they gave, before they are read
    ghost unread: { Option (List ℕ) };

    // what its writers tell that they took, before they are written to
    ghost blank: { Option (List ℕ) };

    /// The next connection of a peer. None closes this door.
    fn peer(&self) -> Option<Caller<S, W>>
        ensures unread { IfSome result (λ caller. S.given caller.source ≡ unread) }
        ensures blank { IfSome result (λ caller. W.contents caller.writer ≡ blank) };

    /// The next admin connection. None closes this door.
    fn admin(&self) -> Option<Caller<S, W>>
        ensures unread { IfSome result (λ caller. S.given caller.source ≡ unread) }
        ensures blank { IfSome result (λ caller. W.contents caller.writer ≡ blank) };

    /// Who reads the answers of an admin connection.
    fn door(&self, _source: &S) -> Door {
        Door::Programs
    }

    /// Waits for the hello of a peer's connection, in the connection's own thread and before it has
    /// a seat: whether it would be accepted. Only then does the connection get a seat. What was
    /// read for that is what its source gives first.
    fn greet(&self, _config: &Config, _source: &mut S) -> bool
        requires fresh { S.reads _source.old ≡ 0 }
        requires unread { S.given _source.old ≡ unread }
        ensures fresh { S.reads _source.new ≡ 0 }
        ensures unread { S.given _source.new ≡ unread }
    {
        true
    }

    /// A connection of a peer has its seat.
    fn seated(&self, _source: &S) {}

    /// Whether the clock goes on where memory was lacking: behind a timer that ended for that
    /// reason another one is begun, after a rest and with a seat of its own, as long as a door is
    /// open. Where this isn't so, the first timer that ends is the last.
    fn keeps_clock(&self) -> bool {
        false
    }

    /// How many threads serve what else comes in.
    fn threads_beside(&self) -> u64 {
        0
    }

    /// Serves what else comes in, in one of these threads. It returns once both doors have closed.
    fn beside(&self) {}

    /// Takes back the connection of a peer that is over. What was read, told and written is what
    /// `serve_session` promises.
    fn part_peer(&self, _config: &Config, _source: S, _writer: W, _ended: Result<Served, Faulted>)
        requires { WasServed _config.now (so_far unread blank)
            (so_far (S.given _source) (W.contents _writer)) _ended }
    {}

    /// Takes back an admin connection that is over. What was read, changed and answered is what
    /// `serve_admin` promises of answers for these readers.
    fn part_admin(
        &self,
        _config: &Config,
        _source: S,
        _writer: W,
        _door: Door,
        _ended: Result<Served, Faulted>,
    )
        requires { WasCommanded _door _config.now (so_far unread blank)
            (so_far (S.given _source) (W.contents _writer)) _ended }
    {}
}

/// A connection that came through these doors.
#[derive(Drop)]
struct Connection<'a, S: Source + Drop, W: Write + Drop, D: Doors<S, W>> {
    caller: Caller<S, W>,
    doors: &'a D,
    ghost unread: { S.given caller.source ≡ D.unread },
    ghost blank: { W.contents caller.writer ≡ D.blank },
}

/// What serves connections, whatever it stands on and they are.
trait Workers<K> {
    /// The next connection of a peer. None closes this door.
    fn next_peer(&self) -> Option<K>;

    /// The next admin connection. None closes this door.
    fn next_admin(&self) -> Option<K>;

    /// Who calls, where that has an address.
    fn sender(&self, caller: &K) -> Option<SocketAddr>;

    /// Tells that a connection of a peer isn't served, for want of a thread.
    fn turn_away(&self, sender: Option<SocketAddr>);

    /// Serves one connection of a peer.
    fn peer<R: Wait + std::rt::Clock>(&self, rt: &R, caller: K);

    /// Serves one admin connection.
    fn admin<R: Wait>(&self, rt: &R, caller: K);

    /// Posts moments until both doors have closed.
    fn timer<R: Wait>(&self, rt: &R);

    /// How many threads serve what else comes in.
    fn threads_beside(&self) -> u64;

    /// Serves what else comes in until both doors have closed. Each of these threads does so.
    fn beside(&self);
}

/// What all workers of a collector share.
#[derive(Drop)]
struct Collector<'a, J: Naming, H: Wait + Drop, C, G, D> {
    alloc: Global,
    doors: &'a D,
    clock: &'a C,
    hub: &'a Hub<J, H>,
    gate: &'a G,
    counts: &'a Counts,
}

impl<'a, J: Naming, H: Wait + Drop, C, G: Gate, D> Collector<'a, J, H, C, G, D> {
    // What a worker stands on.
    fn context<'b, R>(&'b self, rt: &'b R) -> Context<'b, J, H, R, C, G>
        ensures hub { result.hub.now ≡ self.now.hub.now }
        ensures clock { result.clock.now ≡ self.now.clock.now }
    {
        Context {
            rt,
            alloc: self.alloc,
            hub: self.hub,
            clock: self.clock,
            gate: self.gate,
        }
    }

    // Tells that an admin connection isn't served.
    fn close_admin(&self, sender: Option<SocketAddr>) {
        self.counts.refuse();
        self.gate.tell(Place::Admin, News::TurnedAway(sender));
    }

    // Tells that a connection of a peer isn't served.
    fn close_peer(&self, sender: Option<SocketAddr>) {
        self.counts.refuse();
        self.gate
            .tell(Place::Session(None), News::TurnedAway(sender));
    }
}

impl<'a, J: Naming, H: Wait + Drop, C: Clock, G: Gate, D> Collector<'a, J, H, C, G, D> {
    // Serves a connection of a peer that came through these doors, with its seat if it has one.
    fn serve_peer<R: Wait + std::rt::Clock, S: Source + Drop, W: Write + Drop>(
        &self,
        rt: &R,
        doors: &D,
        caller: Caller<S, W>,
        pass: Option<Pass>,
    )
    where
        D: Doors<S, W>,
        requires pass { IfSome pass (λ p. SitsDown p × Follows self.now.hub.now p.seen) }
        requires unread { S.given caller.source ≡ D.unread }
        requires blank { W.contents caller.writer ≡ D.blank }
    {
        let Caller { source, writer } = caller;
        let mut link = Link { source, writer };
        let is_seated = pass.is_some();
        let ended = serve_session(&self.context(rt), &mut link, pass);
        self.counts.count(ended.is_ok());
        if is_seated {
            self.gate.tell(Place::Session(None), News::Left);
        }
        let Link { source, writer } = link;
        doors.part_peer(self.hub.config(), source, writer, ended);
    }
}

impl<
    'a,
    J: Naming,
    H: Wait + Drop,
    C: Clock,
    G: Gate,
    S: Source + Drop,
    W: Write + Drop,
    D: Doors<S, W>,
> Workers<Connection<'a, S, W, D>> for Collector<'a, J, H, C, G, D> {
    fn next_peer(&self) -> Option<Connection<'a, S, W, D>> {
        let caller = self.doors.peer()?;
        Some(Connection {
            caller,
            doors: self.doors,
        })
    }

    fn next_admin(&self) -> Option<Connection<'a, S, W, D>> {
        let caller = self.doors.admin()?;
        Some(Connection {
            caller,
            doors: self.doors,
        })
    }

    fn sender(&self, connection: &Connection<'a, S, W, D>) -> Option<SocketAddr> {
        connection.caller.source.sender()
    }

    fn turn_away(&self, sender: Option<SocketAddr>) {
        self.close_peer(sender);
    }

    // A seat is taken only behind a welcome hello: any other is answered without one. Where no seat
    // is free it is closed without an answer, so that the peer calls again.
    fn peer<R: Wait + std::rt::Clock>(&self, rt: &R, connection: Connection<'a, S, W, D>) {
        let Connection { caller, doors } = connection;
        let Caller { mut source, writer } = caller;
        if !doors.greet(self.hub.config(), &mut source) {
            self.serve_peer(rt, doors, Caller { source, writer }, None);
            return;
        }
        match self.hub.seat(rt) {
            Ok(pass) => {
                doors.seated(&source);
                self.gate.tell(Place::Session(None), News::Sat);
                self.serve_peer(rt, doors, Caller { source, writer }, Some(pass));
            }
            Err(_) => self.close_peer(source.sender()),
        }
    }

    // Without a seat or a lens it is closed.
    #[tactic(auto, using(worker_frame::proofs::Later::lens_follows))]
    fn admin<R: Wait>(&self, rt: &R, connection: Connection<'a, S, W, D>) {
        let Connection { caller, doors } = connection;
        let Caller { source, writer } = caller;
        let mut link = Link { source, writer };
        let Ok(lens) = self.hub.lens(rt) else {
            self.close_admin(link.source.sender());
            return;
        };
        let Ok(pass) = self.hub.seat(rt) else {
            self.close_admin(link.source.sender());
            return;
        };
        self.gate.tell(Place::Admin, News::Sat);
        let door = doors.door(&link.source);
        let ended = serve_admin(&self.context(rt), &mut link, lens, pass, door);
        self.counts.count(ended.is_ok());
        self.gate.tell(Place::Admin, News::Left);
        let Link { source, writer } = link;
        doors.part_admin(self.hub.config(), source, writer, door, ended);
    }

    // Its seat is taken first; then connections are served.
    fn timer<R: Wait>(&self, rt: &R) {
        let Ok(pass) = self.hub.seat(rt) else {
            self.counts.give_up();
            return;
        };
        self.gate.tell(Place::Timer, News::Sat);
        self.counts.begin_to_serve();
        let timing = Timing {
            alloc: self.alloc,
            hub: self.hub,
            clock: self.clock,
            gate: self.gate,
            counts: self.counts,
            goes_on: self.doors.keeps_clock(),
        };
        timing.run(rt, pass);
    }

    fn threads_beside(&self) -> u64 {
        self.doors.threads_beside()
    }

    fn beside(&self) {
        self.doors.beside();
    }
}

// Admin connections, one after the other, until their door closes. Several threads do this.
fn admins<R: Wait, K, U: Workers<K>>(rt: &R, workers: &U, counts: &Counts) {
    if !counts.are_served(rt) {
        return;
    }
    for _ in 0..MOST_CALLERS {
        let Some(caller) = workers.next_admin() else {
            break;
        };
        workers.admin(rt, caller);
    }
    counts.close();
}

// What else comes in.
fn beside<R: Wait, K, U: Workers<K>>(rt: &R, workers: &U, counts: &Counts) {
    if counts.are_served(rt) {
        workers.beside();
    }
}

// The thread of this number: of the admins, or of what else comes in.
fn assist<R: Wait, K, U: Workers<K>>(rt: &R, workers: &U, counts: &Counts, number: u64) {
    if number < ADMINS {
        admins(rt, workers, counts);
    } else {
        beside(rt, workers, counts);
    }
}

// One connection of a peer.
fn peer<R: Wait + std::rt::Clock, K, U: Workers<K>>(
    rt: &R,
    workers: &U,
    counts: &Counts,
    caller: K,
) {
    workers.peer(rt, caller);
    counts.end();
}

// Runs the timer in a thread of its own, as many admins as may be served at once, what else comes
// in, and each connection of a peer.
fn open<
    R: Threads + Wait + std::rt::Clock + Copy + Send + Sync,
    K: Send + Drop,
    U: Workers<K> + Sync,
>(rt: &R, workers: &U, counts: &Counts) {
    thread::scope(thread::scope_env(), rt, |scope| {
        if scope.spawn(move || workers.timer(rt)).is_err() {
            counts.give_up();
            return;
        }
        for number in 0..ADMINS.saturating_add(workers.threads_beside()) {
            if scope
                .spawn(move || assist(rt, workers, counts, number))
                .is_err()
            {
                counts.give_up();
                return;
            }
        }
        if !counts.are_served(rt) {
            return;
        }
        for _ in 0..MOST_CALLERS {
            let Some(caller) = workers.next_peer() else {
                break;
            };
            counts.begin();
            let sender = workers.sender(&caller);
            if scope
                .spawn(move || peer(rt, workers, counts, caller))
                .is_err()
            {
                counts.end();
                workers.turn_away(sender);
            }
        }
        counts.close();
    });
}

/// Serves until both doors have closed and their workers have ended. There is one worker for each
/// connection of a peer, four admin connections at once, what the doors serve beside them, and a
/// timer, whose seat is taken first. Where the doors ask for it (`Doors::keeps_clock`), another
/// timer is begun behind one that ended since memory was lacking.
///
/// Where that seat is refused, or the thread of the timer, of an admin or of what is served beside
/// them, nothing is served. Each connection that was served goes back to the doors, and each timer
/// to its clock, with what is promised of it. Which connections are served, that all go back, and
/// what is counted no clause says: what other threads did leaves nothing here that one could name.
pub fn serve_all<
    J: Naming + Send + Sync,
    H: Wait + Drop + Send,
    R: Threads + Wait + std::rt::Clock + Copy + Send + Sync,
    S: Source + Send + Drop,
    W: Write + Send + Drop,
    C: Clock + Sync,
    G: Gate + Sync,
    D: Doors<S, W> + Sync,
>(rt: &R, alloc: Global, doors: &D, clock: &C, hub: &Hub<J, H>, gate: &G) -> Ended {
    let counts = Counts::new();
    let collector = Collector {
        alloc,
        doors,
        clock,
        hub,
        gate,
        counts: &counts,
    };
    open(rt, &collector, &counts);
    counts.so_far()
}
