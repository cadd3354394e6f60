//! What stands of each peer, and what was counted, for operators who ask.

use agg_types::limits::MOST_FOLLOWED;
use agg_types::{Key, NoMemory};
use defined_tables::{DefinedTable, DefinedTables, Mention, Mentioned};
use learned_rows::{Sessions, Suspect};
use serve::Taught;
use std::alloc::Global;
use std::net::SocketAddr;
use std::sync::atomic::{AtomicU64, Ordering};
use std::sync::{Mutex, Wait};
use web_serve::Rates;
use web_text::{NotSent, PeerStanding};

/// What stands of a peer, beside its counts.
#[derive(Drop)]
struct Standing {
    // how many connections it has
    connections: u64,
    address: Option<SocketAddr>,
    // since when that is so, in ms; none where it never came
    since: Option<u64>,
    // what its present or last connection defined
    tables: DefinedTables,
    // what was told of its tables, whatever connection defined them
    mentioned: Mentioned,
}

/// What a peer's sessions posted, and what the peer was told.
#[derive(Drop)]
struct Tally {
    updates: AtomicU64,
    // the moment of the last of them, in ms, and one; 0 before the first
    last: AtomicU64,
    // how many of the updates were of rows that the peer learned from others
    learned: AtomicU64,
    // the seat of its newest session, and one; 0 where that is over, or none came
    seat: AtomicU64,
    // how many keys of each pushed table its newest session has told it
    told: Vec<AtomicU64>,
    // the moment at which that session had last told all, in ms, and one; when it began, before it
    // did; 0 where it is over, or none came
    told_at: AtomicU64,
}

impl Tally {
    // Nothing, with so many pushed tables.
    fn new(alloc: Global, pushed: usize) -> Result<Tally, NoMemory> {
        let mut told = Vec::new(alloc);
        for _ in 0..pushed {
            told.push(AtomicU64::new(0))?;
        }
        Ok(Tally {
            updates: AtomicU64::new(0),
            last: AtomicU64::new(0),
            learned: AtomicU64::new(0),
            seat: AtomicU64::new(0),
            told,
            told_at: AtomicU64::new(0),
        })
    }

    // A session with a seat is the newest one since a moment, in ms, or that is over where it was:
    // nothing is told.
    fn begin(&self, seat: u64, now: Option<u64>) {
        self.seat.store(seat, Ordering::SeqCst);
        for told in self.told.as_slice() {
            told.store(0, Ordering::SeqCst);
        }
        self.told_at.store(and_one(now), Ordering::SeqCst);
    }

    // When all was told, in ms; none where nothing is pushed, and while no session is there.
    fn told_at(&self) -> Option<u64> {
        if self.told.is_empty() {
            return None;
        }
        self.told_at.load(Ordering::SeqCst).checked_sub(1)
    }

    // How many keys of a pushed table are told, by the place of its line.
    fn told_of(&self, pushed: usize) -> u64 {
        match self.told.as_slice().get(pushed) {
            None => 0,
            Some(told) => told.load(Ordering::SeqCst),
        }
    }

    // How many keys of all pushed tables are told.
    fn told(&self) -> u64 {
        let mut keys = 0u64;
        for told in self.told.as_slice() {
            keys = keys.saturating_add(told.load(Ordering::SeqCst));
        }
        keys
    }
}

// A seat or a moment, and one; 0 where there is none.
fn and_one(number: Option<u64>) -> u64 {
    match number {
        None => 0,
        Some(number) => number.saturating_add(1),
    }
}

/// What was counted of all.
#[derive(Clone, Copy, Debug, PartialEq, Eq)]
pub struct Totals {
    pub connected: usize,
    pub updates: u64,
    pub posts: u64,
    pub seats: u64,
    /// How many connections were closed before they were served.
    pub refused: u64,
}

/// What stands of each peer, and what was counted.
///
/// What a session posts is counted without a lock. For a piece with updates of followed tables it
/// takes that of what sessions taught, to add two numbers. A lock is held for a few fields, never
/// while anything is waited for or written. That of what sessions taught is held longer, to copy
/// 1,000 keys once a second, and to compare as many with one another once a session and table.
#[derive(Drop)]
pub struct Board {
    alloc: Global,
    peers: Mutex<Vec<Standing>>,
    // what the present sessions taught, by table
    sessions: Mutex<Sessions>,
    tallies: Vec<Tally>,
    posts: AtomicU64,
    seats: AtomicU64,
    refused: AtomicU64,
    // the moment of the timer's first turn, or since when its last post is shown, in ms, and one;
    // 0 before
    turned: AtomicU64,
    rates: Rates,
}

impl Board {
    /// So many peers, of which none came yet, and so many pushed tables.
    pub fn new(alloc: Global, peers: usize, pushed: usize) -> Result<Board, NoMemory> {
        let mut standings = Vec::new(alloc);
        let mut tallies = Vec::new(alloc);
        for _ in 0..peers {
            standings.push(Standing {
                connections: 0,
                address: None,
                since: None,
                tables: DefinedTables::new(alloc),
                mentioned: Mentioned::new(alloc),
            })?;
            tallies.push(Tally::new(alloc, pushed)?)?;
        }
        Ok(Board {
            alloc,
            peers: Mutex::new(standings),
            sessions: Mutex::new(Sessions::new(alloc, peers)?),
            tallies,
            posts: AtomicU64::new(0),
            seats: AtomicU64::new(0),
            refused: AtomicU64::new(0),
            turned: AtomicU64::new(0),
            rates: Rates::new(alloc),
        })
    }

    /// A connection of a peer begins at a moment, in ms, whose session has this seat.
    pub fn come<R: Wait>(
        &self,
        rt: &R,
        peer: usize,
        seat: Option<u64>,
        address: Option<SocketAddr>,
        now: u64,
    ) {
        if let Some(tally) = self.tallies.as_slice().get(peer) {
            tally.begin(and_one(seat), Some(now));
        }
        {
            let mut guard = self.sessions.lock(rt);
            let sessions = &mut *guard;
            sessions.begin(peer, and_one(seat));
        }
        let mut guard = self.peers.lock(rt);
        let peers = &mut *guard;
        let Some(standing) = peers.get_mut(peer) else {
            return;
        };
        standing.connections = standing.connections.saturating_add(1);
        standing.address = address;
        standing.since = Some(now);
        standing.tables.clear();
    }

    /// A connection of a peer is over at a moment, in ms, whose session had this seat.
    pub fn go<R: Wait>(&self, rt: &R, peer: usize, seat: Option<u64>, now: u64) {
        if let Some(tally) = self.tallies.as_slice().get(peer)
            && tally.seat.load(Ordering::SeqCst) == and_one(seat)
        {
            tally.begin(0, None);
        }
        {
            let mut guard = self.sessions.lock(rt);
            let sessions = &mut *guard;
            sessions.end(peer, and_one(seat));
        }
        let mut guard = self.peers.lock(rt);
        let peers = &mut *guard;
        let Some(standing) = peers.get_mut(peer) else {
            return;
        };
        standing.connections = standing.connections.saturating_sub(1);
        if standing.connections == 0 {
            standing.since = Some(now);
        }
    }

    /// A peer's session posted a batch with so many updates at a moment, in ms.
    pub fn post(&self, peer: usize, updates: u64, now: u64) {
        self.posts.fetch_add(1, Ordering::SeqCst);
        if updates == 0 {
            return;
        }
        if let Some(tally) = self.tallies.as_slice().get(peer) {
            tally.updates.fetch_add(updates, Ordering::SeqCst);
            tally.last.store(now.saturating_add(1), Ordering::SeqCst);
        }
    }

    /// A peer's session with this seat taught so many updates of a table more.
    pub fn teach<R: Wait>(
        &self,
        rt: &R,
        peer: usize,
        seat: Option<u64>,
        table: usize,
        taught: Taught,
    ) {
        let Taught { own, learned } = taught;
        if let Some(tally) = self.tallies.as_slice().get(peer) {
            tally.learned.fetch_add(learned, Ordering::SeqCst);
        }
        let mut guard = self.sessions.lock(rt);
        let sessions = &mut *guard;
        sessions.count(peer, and_one(seat), table, own, learned);
    }

    /// A peer's session with this seat taught rows of these keys that the peer had learned.
    pub fn hear<R: Wait>(
        &self,
        rt: &R,
        peer: usize,
        seat: Option<u64>,
        table: usize,
        keys: &[Key],
    ) {
        let mut guard = self.sessions.lock(rt);
        let sessions = &mut *guard;
        sessions.hear(peer, and_one(seat), table, keys);
    }

    /// The next peer whose present session may teach what another one's teaches.
    pub fn suspect<R: Wait>(&self, rt: &R) -> Option<Suspect> {
        let mut guard = self.sessions.lock(rt);
        let sessions = &mut *guard;
        sessions.suspect()
    }

    /// Whether a suspect is to be told: its session goes on, and wasn't told of the table. It is
    /// taken for told then.
    pub fn is_untold<R: Wait>(&self, rt: &R, suspect: &Suspect) -> bool {
        let mut guard = self.sessions.lock(rt);
        let sessions = &mut *guard;
        sessions.tell(suspect)
    }

    /// A peer's session with this seat has told the peer so many keys of a pushed table. What an
    /// older session tells beside a newer one counts for nothing.
    pub fn tell(&self, peer: usize, seat: Option<u64>, pushed: usize, keys: u64) {
        if let Some(tally) = self.tallies.as_slice().get(peer)
            && tally.seat.load(Ordering::SeqCst) == and_one(seat)
            && let Some(told) = tally.told.as_slice().get(pushed)
        {
            told.store(keys, Ordering::SeqCst);
        }
    }

    /// A peer's session with this seat has told all at a moment, in ms.
    pub fn tell_all(&self, peer: usize, seat: Option<u64>, now: u64) {
        if let Some(tally) = self.tallies.as_slice().get(peer)
            && tally.seat.load(Ordering::SeqCst) == and_one(seat)
        {
            tally.told_at.store(now.saturating_add(1), Ordering::SeqCst);
        }
    }

    /// How many keys of a pushed table a peer is told, by the place of its line; 0 while the peer
    /// is away.
    pub fn told(&self, peer: usize, pushed: usize) -> u64 {
        match self.tallies.as_slice().get(peer) {
            None => 0,
            Some(tally) => tally.told_of(pushed),
        }
    }

    /// A worker took a seat.
    pub fn sit(&self) {
        self.seats.fetch_add(1, Ordering::SeqCst);
    }

    /// A worker gave its seat back.
    pub fn leave(&self) {
        self.seats.fetch_sub(1, Ordering::SeqCst);
    }

    /// So many connections were closed before they were served.
    pub fn refuse(&self, count: u64) {
        self.refused.fetch_add(count, Ordering::SeqCst);
    }

    /// The timer is about to post at a moment, in ms.
    pub fn tick<R: Wait>(&self, rt: &R, now: u64) {
        let _ = self.turned.compare_exchange(
            0,
            now.saturating_add(1),
            Ordering::SeqCst,
            Ordering::SeqCst,
        );
        self.rates.count(rt, now, self.updates());
    }

    /// A moment was posted, and is shown at this one, in ms.
    pub fn post_moment(&self, now: u64) {
        self.turned.store(now.saturating_add(1), Ordering::SeqCst);
    }

    /// When the last moment was posted, in ms; before the first when one was about to be.
    pub fn last_turn(&self) -> Option<u64> {
        self.turned.load(Ordering::SeqCst).checked_sub(1)
    }

    /// How many updates came in each of the last seconds, the oldest first.
    pub fn rates<R: Wait>(&self, rt: &R) -> Result<Vec<u64>, NoMemory> {
        self.rates.so_far(rt, self.alloc)
    }

    // How many updates all sessions posted.
    fn updates(&self) -> u64 {
        let mut updates = 0u64;
        for tally in self.tallies.as_slice() {
            updates = updates.saturating_add(tally.updates.load(Ordering::SeqCst));
        }
        updates
    }

    /// A peer's session defined a table: whether that is news, since it didn't define it before, or
    /// another came of it. At most 256 tables of a connection are kept.
    pub fn define<R: Wait>(&self, rt: &R, peer: usize, table: DefinedTable) -> bool {
        let mut guard = self.peers.lock(rt);
        let peers = &mut *guard;
        let Some(standing) = peers.get_mut(peer) else {
            return false;
        };
        standing.tables.define(table)
    }

    /// Whether this is to be told of a peer: it wasn't before. It is taken for told then.
    pub fn is_news<R: Wait>(&self, rt: &R, peer: usize, mention: Mention) -> bool {
        let mut guard = self.peers.lock(rt);
        let peers = &mut *guard;
        let Some(standing) = peers.get_mut(peer) else {
            return false;
        };
        standing.mentioned.is_news(mention)
    }

    /// What stands of a peer.
    pub fn peer<R: Wait>(&self, rt: &R, peer: usize) -> Option<PeerStanding> {
        let tally = self.tallies.as_slice().get(peer)?;
        let updates = tally.updates.load(Ordering::SeqCst);
        let last = tally.last.load(Ordering::SeqCst);
        let guard = self.peers.lock(rt);
        let standing = guard.get(peer)?;
        Some(PeerStanding {
            is_connected: standing.connections > 0,
            address: standing.address,
            since: standing.since,
            updates,
            last_update: last.checked_sub(1),
            unfollowed: standing.tables.count_unknown(),
            told: tally.told(),
            learned: tally.learned.load(Ordering::SeqCst),
            told_at: tally.told_at(),
        })
    }

    /// Which configured columns the followed tables of a peer's present or last connection don't
    /// bring.
    pub fn not_sent<R: Wait>(&self, rt: &R, peer: usize) -> Result<Vec<NotSent>, NoMemory> {
        let mut columns = Vec::new(self.alloc);
        for place in 0..MOST_FOLLOWED {
            let Some(table) = self.table(rt, peer, place)? else {
                break;
            };
            for lacking in table.lacks.as_slice() {
                columns.push(NotSent {
                    table: Vec::from_slice(self.alloc, table.name.as_slice())?,
                    reason: format!(in self.alloc; "{lacking}")?,
                })?;
            }
        }
        Ok(columns)
    }

    /// The table at a place of those that a peer's present or last connection defined.
    pub fn table<R: Wait>(
        &self,
        rt: &R,
        peer: usize,
        place: usize,
    ) -> Result<Option<DefinedTable>, NoMemory> {
        let guard = self.peers.lock(rt);
        let Some(standing) = guard.get(peer) else {
            return Ok(None);
        };
        match standing.tables.get(place) {
            None => Ok(None),
            Some(table) => Ok(Some(table.duplicate(self.alloc)?)),
        }
    }

    // How many peers are connected.
    fn connected<R: Wait>(&self, rt: &R) -> usize {
        let guard = self.peers.lock(rt);
        let mut connected = 0usize;
        for standing in guard.as_slice() {
            if standing.connections > 0 {
                connected = connected.saturating_add(1);
            }
        }
        connected
    }

    /// What was counted of all.
    pub fn totals<R: Wait>(&self, rt: &R) -> Totals {
        Totals {
            connected: self.connected(rt),
            updates: self.updates(),
            posts: self.posts.load(Ordering::SeqCst),
            seats: self.seats.load(Ordering::SeqCst),
            refused: self.refused.load(Ordering::SeqCst),
        }
    }
}
