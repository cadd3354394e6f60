//! What a peer's stream teaches of the tables that are followed: rows of its own, and such as it
//! learned from others.
//!
//! A proxy gives its own rows update ids from 1 on, and those that it learned from another proxy,
//! or from its own worker before a reload, ids from 2^31 on. Of the latter the first keys are told
//! too, so that it can be asked who else holds them. No clause says what is counted.

use agg_types::limits::MOST_FOLLOWED;
use agg_types::{Config, Key, KeyLength, NoMemory};
use peers_msg::kinds::{
    INCREMENTAL_UPDATE, TABLE_SWITCH, TIMED_INCREMENTAL_UPDATE, TIMED_UPDATE, UPDATE,
};
use peers_msg::{Definition, get_int};
use std::alloc::Global;
use update_values::key_of_length;
use worker_frame::{Gate, News, Place, Taught};

/// The least update id of a row that its sender learned from others.
const FIRST_LEARNED: u32 = 1 << 31;

/// Of how many learned rows of a table the keys are told.
const MOST_KEYS: usize = 1000;

/// How many bytes these may have.
const MOST_BYTES: usize = 1 << 16;

/// A configured table that is followed.
#[derive(Clone, Copy)]
struct Followed {
    // its place in the configuration
    table: usize,
    // the length of its keys
    length: KeyLength,
}

/// A sender's table id that was once followed.
#[derive(Clone, Copy)]
struct Known {
    id: u64,
    // the id of its last update
    last: u32,
    // the configured table that it is by its last definition, if that is followed
    followed: Option<Followed>,
}

/// What came of a table, and how much of that was told.
#[derive(Drop)]
struct Counted {
    came: Taught,
    told: Taught,
    // the keys of learned rows that weren't told yet
    keys: Vec<Key>,
    // how many keys there were, and how many bytes they have
    heard: usize,
    bytes: usize,
}

/// What a stream taught so far.
#[derive(Drop)]
pub struct Lessons {
    alloc: Global,
    known: Vec<Known>,
    // which of them is in force, if it is followed
    current: Option<usize>,
    // by the place of the configured table
    counts: Vec<Counted>,
}

/// Of a table of which nothing came.
const NOTHING: Taught = Taught { own: 0, learned: 0 };

// Counts an update with this id.
fn count(taught: &mut Taught, id: u32) {
    if id < FIRST_LEARNED {
        taught.own = taught.own.saturating_add(1);
    } else {
        taught.learned = taught.learned.saturating_add(1);
    }
}

// The configured table that a definition is, if it is followed.
fn followed_table(config: &Config, definition: &Definition) -> Option<Followed> {
    let table = config.tables.position(definition.name.as_slice())?;
    let kind = config.tables.get(table)?.kind;
    let length = kind.length();
    let fits = match length {
        KeyLength::Exactly(exact) => definition.len == exact,
        KeyLength::AtMost(_) => true,
    };
    if fits && definition.kind == kind.number() {
        Some(Followed { table, length })
    } else {
        None
    }
}

// The number in front of a payload, an update id or a row's life, and the bytes behind it.
fn number_in(payload: &[u8]) -> Option<(u32, &[u8])> {
    let [a, b, c, d, rest @ ..] = payload else {
        return None;
    };
    Some((u32::from_be_bytes([*a, *b, *c, *d]), rest))
}

// What stands behind the life of a row; nothing where that is cut.
fn behind_life(bytes: &[u8]) -> &[u8] {
    match number_in(bytes) {
        None => b"",
        Some((_, rest)) => rest,
    }
}

impl Counted {
    // Nothing came. Takes no memory.
    fn nothing(alloc: Global) -> Counted {
        Counted {
            came: NOTHING,
            told: NOTHING,
            keys: Vec::new(alloc),
            heard: 0,
            bytes: 0,
        }
    }

    // Keeps the key of a learned row, which stands in front of these bytes, until it is told. None
    // is kept behind the first 1,000, nor where they are too long, or memory is lacking.
    fn hear(&mut self, alloc: Global, length: KeyLength, bytes: &[u8]) {
        let Some((key, _)) = key_of_length(length, bytes) else {
            return;
        };
        let all = self.bytes.saturating_add(key.len());
        if self.heard < MOST_KEYS && all <= MOST_BYTES && self.keep(alloc, key).is_ok() {
            self.heard = self.heard.saturating_add(1);
            self.bytes = all;
        }
    }

    fn keep(&mut self, alloc: Global, key: &[u8]) -> Result<(), NoMemory> {
        self.keys.push(Key::copy(alloc, key)?)?;
        Ok(())
    }
}

impl Lessons {
    /// Of a stream that has taught nothing yet. Takes no memory.
    pub fn new(alloc: Global) -> Lessons {
        Lessons {
            alloc,
            known: Vec::new(alloc),
            current: None,
            counts: Vec::new(alloc),
        }
    }

    /// A table was defined, and is in force.
    pub fn define(&mut self, config: &Config, definition: &Definition) {
        let followed = followed_table(config, definition);
        if let Some(Followed { table, .. }) = followed {
            self.make_room(table);
        }
        match self.place(definition.id) {
            Some(place) => self.redefine(place, followed),
            None => self.add(definition.id, followed),
        }
    }

    /// A message came of the class of tables, of this type and with this payload.
    pub fn hear(&mut self, kind: u8, payload: &[u8]) {
        match kind {
            UPDATE => {
                if let Some((id, bytes)) = number_in(payload) {
                    self.update(Some(id), bytes);
                }
            }
            TIMED_UPDATE => {
                if let Some((id, bytes)) = number_in(payload) {
                    self.update(Some(id), behind_life(bytes));
                }
            }
            INCREMENTAL_UPDATE => self.update(None, payload),
            TIMED_INCREMENTAL_UPDATE => self.update(None, behind_life(payload)),
            TABLE_SWITCH => self.switch(payload),
            _ => {}
        }
    }

    // Where a sender's table id is kept.
    fn place(&self, id: u64) -> Option<usize> {
        self.known
            .as_slice()
            .iter()
            .position(|known| known.id == id)
    }

    // Room for what is counted of a table. Without it nothing is.
    fn make_room(&mut self, table: usize) {
        for _ in self.counts.len()..=table {
            if self.counts.push(Counted::nothing(self.alloc)).is_err() {
                return;
            }
        }
    }

    // A table id that is kept is defined anew.
    fn redefine(&mut self, place: usize, followed: Option<Followed>) {
        if let Some(known) = self.known.get_mut(place) {
            known.followed = followed;
        }
        self.current = followed.map(|_| place);
    }

    // A table id is defined that isn't kept.
    fn add(&mut self, id: u64, followed: Option<Followed>) {
        self.current = None;
        if followed.is_none() || self.known.len() >= MOST_FOLLOWED {
            return;
        }
        let place = self.known.len();
        let known = Known {
            id,
            last: 0,
            followed,
        };
        if self.known.push(known).is_ok() {
            self.current = Some(place);
        }
    }

    // A table id is in force again.
    fn switch(&mut self, payload: &[u8]) {
        self.current = match get_int(payload) {
            Ok(Some((id, _))) => self.place(id),
            _ => None,
        };
    }

    // An update came, with its id, or with that after the last, and with these bytes from its key
    // on.
    fn update(&mut self, id: Option<u32>, bytes: &[u8]) {
        let Some(place) = self.current else {
            return;
        };
        let Some(known) = self.known.get_mut(place) else {
            return;
        };
        let Some(Followed { table, length }) = known.followed else {
            return;
        };
        known.last = id.unwrap_or(known.last.wrapping_add(1));
        if let Some(counted) = self.counts.get_mut(table) {
            count(&mut counted.came, known.last);
            if known.last >= FIRST_LEARNED {
                counted.hear(self.alloc, length, bytes);
            }
        }
    }

    /// Tells a gate what came of each table since it was told, and the keys of the first rows of it
    /// that the sender had learned.
    pub fn tell<G: Gate>(&self, gate: &G, place: Place, peer: usize) {
        for (table, counted) in self.counts.as_slice().iter().enumerate() {
            let taught = Taught {
                own: counted.came.own.saturating_sub(counted.told.own),
                learned: counted.came.learned.saturating_sub(counted.told.learned),
            };
            if taught != NOTHING {
                gate.tell(place, News::Taught(peer, table, taught));
            }
            let keys = counted.keys.as_slice();
            if !keys.is_empty() {
                gate.tell(place, News::Learned(peer, table, keys));
            }
        }
    }

    /// All that came was told.
    pub fn note_told(&mut self) {
        for table in 0..self.counts.len() {
            if let Some(counted) = self.counts.get_mut(table) {
                counted.told = counted.came;
                counted.keys = Vec::new(self.alloc);
            }
        }
    }
}
