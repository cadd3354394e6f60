//! What the present session of each peer taught, and which of them may be in a mesh.

ghost use Rattle.std.specs.Prelude.{◌≡◌, ◌≢◌, ◌≤◌, ◌<◌, length, IfSome};
ghost use Rattle.learned_rows.specs.declared.table.TheConstants.{SAMPLE};

use crate::judging::Suspect;
use crate::table::{TableTaught, sample_of};
use agg_types::{Key, NoMemory};
use std::alloc::Global;

/// What a peer's session taught, by the place of the table.
#[derive(Drop)]
struct SessionTaught {
    // its seat, and one; 0 where none is there
    seat: u64,
    tables: Vec<TableTaught>,
}

/// A peer's session, a table, and the next other peer to ask of.
#[derive(Clone, Copy)]
struct Turn {
    peer: usize,
    table: usize,
    other: usize,
}

/// The first one.
const FIRST: Turn = Turn {
    peer: 0,
    table: 0,
    other: 0,
};

/// What the present session of each peer taught of each table.
#[derive(Drop)]
pub struct Sessions {
    alloc: Global,
    peers: Vec<SessionTaught>,
    // whom to ask of next
    turn: Turn,
}

impl Sessions {
    /// Of so many peers, of which none has a session.
    pub fn new(alloc: Global, peers: usize) -> Result<Sessions, NoMemory> {
        let mut none = Vec::new(alloc);
        for _ in 0..peers {
            none.push(SessionTaught {
                seat: 0,
                tables: Vec::new(alloc),
            })?;
        }
        Ok(Sessions {
            alloc,
            peers: none,
            turn: FIRST,
        })
    }

    /// A session of a peer begins with this seat, and one: it has taught nothing. With 0 the last
    /// one is over.
    pub fn begin(&mut self, peer: usize, seat: u64) {
        let tables = Vec::new(self.alloc);
        if let Some(session) = self.peers.get_mut(peer) {
            session.seat = seat;
            session.tables = tables;
        }
    }

    /// A peer's session is over, which had this seat, and one. That of a newer one goes on.
    pub fn end(&mut self, peer: usize, seat: u64) {
        if let Some(session) = self.peers.get(peer)
            && session.seat == seat
        {
            self.begin(peer, 0);
        }
    }

    /// The session of a peer with this seat, and one, taught so many updates of a table more. What
    /// an older session teaches beside a newer one counts for nothing.
    pub fn count(&mut self, peer: usize, seat: u64, table: usize, own: u64, learned: u64) {
        let alloc = self.alloc;
        if let Some(session) = self.peers.get_mut(peer)
            && session.seat == seat
            && let Some(taught) = session.table(alloc, table)
        {
            taught.count(own, learned);
        }
    }

    /// The session of a peer with this seat, and one, taught rows of these keys that it had
    /// learned.
    pub fn hear(&mut self, peer: usize, seat: u64, table: usize, keys: &[Key]) {
        let alloc = self.alloc;
        if let Some(session) = self.peers.get_mut(peer)
            && session.seat == seat
            && let Some(taught) = session.table(alloc, table)
        {
            for key in keys {
                taught.hear(alloc, key);
            }
        }
    }

    /// The next suspect, behind the one before: each in turn, but none whose session was told. None
    /// where there is none, or memory is lacking.
    pub fn suspect(&mut self) -> Option<Suspect>
        ensures two { IfSome result (λ suspect. suspect.peer ≢ suspect.other) }
        ensures learned { IfSome result (λ suspect. suspect.own < suspect.learned) }
        ensures few { IfSome result (λ suspect. length suspect.keys.items ≤ SAMPLE) }
    {
        let turn = match self.turn_from(self.turn) {
            Some(turn) => turn,
            None => self.turn_from(FIRST)?,
        };
        self.turn = Turn {
            other: turn.other.saturating_add(1),
            ..turn
        };
        self.suspect_of(turn)
    }

    /// Whether a suspect is to be told: its session goes on, and wasn't told of the table. It is
    /// taken for told then.
    pub fn tell(&mut self, suspect: &Suspect) -> bool {
        if let Some(session) = self.peers.get_mut(suspect.peer)
            && session.seat == suspect.seat
            && let Some(taught) = session.tables.get_mut(suspect.table)
        {
            let is_news = !taught.is_told;
            taught.is_told = true;
            return is_news;
        }
        false
    }

    // What the session of a peer taught of a table, if it is more learned rows than own ones.
    fn mostly_learned(&self, peer: usize, table: usize) -> Option<&TableTaught>
        ensures { IfSome result (λ taught. taught.now.own < taught.now.learned) }
    {
        let taught = self.peers.get(peer)?.tables.get(table)?;
        if taught.is_mostly_learned() {
            Some(taught)
        } else {
            None
        }
    }

    // The suspect of a turn, if it is one.
    fn suspect_of(&self, turn: Turn) -> Option<Suspect>
        ensures two { IfSome result (λ suspect. suspect.peer ≢ suspect.other) }
        ensures learned { IfSome result (λ suspect. suspect.own < suspect.learned) }
        ensures few { IfSome result (λ suspect. length suspect.keys.items ≤ SAMPLE) }
    {
        let Turn { peer, table, other } = turn;
        if peer == other {
            return None;
        }
        let taught = self.mostly_learned(peer, table)?;
        let session = self.peers.get(peer)?;
        let Ok(keys) = sample_of(self.alloc, taught.keys.as_slice()) else {
            return None;
        };
        Some(Suspect {
            table,
            peer,
            other,
            seat: session.seat,
            own: taught.own,
            learned: taught.learned,
            heard: taught.heard,
            keys,
        })
    }

    // The first turn from one on that is to be taken.
    fn turn_from(&self, from: Turn) -> Option<Turn> {
        for peer in from.peer..self.peers.len() {
            let first = if peer == from.peer { from.table } else { 0 };
            for table in first..self.tables_of(peer) {
                let is_first = peer == from.peer && table == from.table;
                let first = if is_first { from.other } else { 0 };
                if self.is_open(peer, table)
                    && let Some(other) = self.other_from(peer, table, first)
                {
                    return Some(Turn { peer, table, other });
                }
            }
        }
        None
    }

    // Of how many tables a peer's session taught something.
    fn tables_of(&self, peer: usize) -> usize {
        match self.peers.get(peer) {
            None => 0,
            Some(session) => session.tables.len(),
        }
    }

    // Whether a peer's session taught more learned rows of a table than own ones and wasn't told.
    fn is_open(&self, peer: usize, table: usize) -> bool {
        match self.mostly_learned(peer, table) {
            None => false,
            Some(taught) => !taught.is_told,
        }
    }

    // The first other peer from one on whose session taught more learned rows of a table than own
    // ones.
    fn other_from(&self, peer: usize, table: usize, first: usize) -> Option<usize> {
        for other in first..self.peers.len() {
            if other != peer && self.mostly_learned(other, table).is_some() {
                return Some(other);
            }
        }
        None
    }
}

impl SessionTaught {
    // What is counted of a table. None where memory for it is lacking.
    fn table(&mut self, alloc: Global, table: usize) -> Option<&mut TableTaught> {
        for _ in self.tables.len()..=table {
            if self.tables.push(TableTaught::nothing(alloc)).is_err() {
                return None;
            }
        }
        self.tables.get_mut(table)
    }
}
