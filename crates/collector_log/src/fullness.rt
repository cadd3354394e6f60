//! What the log says of full tables, and the watch that looks at the book for it, for the keys of
//! logged filters and for rows that several peers teach.

use crate::board::Board;
use agg_types::NoMemory;
use book::Book;
use hub::{Hub, Naming};
use journal::{Event, Journal};
use logged_keys::{KeyLine, KeyLines, LoggedKeys};
use sockets::{Connections, Ticks};
use std::alloc::Global;
use std::sync::Wait;
use std::time::{Clock, Duration};
use web_serve::Visits;

/// How long is rested between two looks at whether the collector ends, in ms.
const REST: u64 = 100;

/// How many rests lie between two looks at the book.
const RESTS: u64 = 10;

/// How long a table isn't told again, in ms.
const MINUTE: u64 = 60_000;

/// What was seen of a table.
#[derive(Drop)]
struct Seen {
    // how many updates were dropped, by peer
    dropped: Vec<u64>,
    // when it was told last, in ms
    told: Option<u64>,
}

impl Seen {
    // Sees what was dropped by now. The first peer of which that is more than before, if there is
    // one.
    fn see(&mut self, book: &Book, table: usize) -> Option<usize> {
        let mut first = None;
        for peer in 0..self.dropped.len() {
            let dropped = book.dropped(table, peer);
            let Some(seen) = self.dropped.get_mut(peer) else {
                break;
            };
            if dropped > *seen && first.is_none() {
                first = Some(peer);
            }
            *seen = dropped;
        }
        first
    }

    // Whether it may be told at a moment, in ms; then it is noted as told.
    fn may_tell(&mut self, now: u64) -> bool {
        let may = match self.told {
            None => true,
            Some(told) => now.saturating_sub(told) >= MINUTE,
        };
        if may {
            self.told = Some(now);
        }
        may
    }
}

/// What was seen of each table, so that its first drop in a minute is told.
#[derive(Drop)]
pub struct Fullness {
    tables: Vec<Seen>,
}

impl Fullness {
    /// Nothing was seen, of so many peers and tables.
    pub fn new(alloc: Global, peers: usize, tables: usize) -> Result<Fullness, NoMemory> {
        let mut seen = Vec::new(alloc);
        for _ in 0..tables {
            let mut dropped = Vec::new(alloc);
            for _ in 0..peers {
                dropped.push(0)?;
            }
            seen.push(Seen {
                dropped,
                told: None,
            })?;
        }
        Ok(Fullness { tables: seen })
    }

    /// Looks at a book at a moment, in ms. Of a table that didn't take an update since the last
    /// look it notes a line, at most once in a minute, with the first peer of which that is so.
    pub fn look<R: Clock + Wait>(&mut self, rt: &R, journal: &Journal, book: &Book, now: u64) {
        for table in 0..self.tables.len() {
            let Some(seen) = self.tables.get_mut(table) else {
                return;
            };
            let Some(peer) = seen.see(book, table) else {
                continue;
            };
            if seen.may_tell(now) {
                note(rt, journal, book, table, peer);
            }
        }
    }
}

// Notes that a table is full for a peer.
fn note<R: Clock + Wait>(rt: &R, journal: &Journal, book: &Book, table: usize, peer: usize) {
    let config = book.config();
    let (Some(shape), Some(name)) = (config.tables.get(table), config.peers.get(peer)) else {
        return;
    };
    let event = Event::TableFull {
        peer: name.as_slice(),
        table: shape.name.as_slice(),
        size: shape.size,
        dropped: book.dropped(table, peer),
    };
    journal.note(rt, event);
}

/// The lines of logged keys, on their way into the log.
#[derive(Drop)]
pub struct Noted<'r, 'j, R> {
    pub rt: &'r R,
    pub journal: &'j Journal,
}

impl<'r, 'j, R: Clock + Wait> KeyLines for Noted<'r, 'j, R> {
    fn note(&self, line: KeyLine<'_>) {
        self.journal.note(self.rt, Event::Key(line));
    }

    fn lose(&self) {
        self.journal.lose(self.rt, 1);
    }
}

/// Asks a book of one peer whose session taught more learned rows than own ones, beside another one
/// of which that holds. Where both hold the same rows it notes a line, once a session and table. At
/// most 1,000 keys are looked up for it, each at most twice, and no lock is held meanwhile.
pub fn note_learned<R: Clock + Wait>(rt: &R, journal: &Journal, board: &Board, book: &Book) {
    let Some(suspect) = board.suspect(rt) else {
        return;
    };
    let config = book.config();
    let (Some(shape), Some(peer), Some(other)) = (
        config.tables.get(suspect.table),
        config.peers.get(suspect.peer),
        config.peers.get(suspect.other),
    ) else {
        return;
    };
    if suspect.is_proved(book) && board.is_untold(rt, &suspect) {
        let event = Event::RowsLearned {
            peer: peer.as_slice(),
            table: shape.name.as_slice(),
            learned: suspect.learned,
            own: suspect.own,
            other: other.as_slice(),
        };
        journal.note(rt, event);
    }
}

/// What looks at the book once a second for what full tables didn't take, for the keys of logged
/// filters and for rows that several peers teach, in a thread of its own beside the visits.
#[derive(Drop)]
pub struct Watch<'h, 'j, 't, 'c, 'b, J: Naming, R: Wait + Drop> {
    pub rt: R,
    pub alloc: Global,
    pub hub: &'h Hub<J, R>,
    pub journal: &'j Journal,
    pub clock: &'t Ticks<R>,
    pub connections: &'c Connections,
    pub board: &'b Board,
}

impl<'h, 'j, 't, 'c, 'b, J: Naming, R: Clock + Wait + Drop> Visits
    for Watch<'h, 'j, 't, 'c, 'b, J, R> {
    fn threads(&self) -> u64 {
        1
    }

    // Looks until the collector ends. Where an allocation failed before the first look it begins
    // again behind a rest.
    fn serve(&self) {
        for _ in 0..u64::MAX {
            let _begun = self.watch();
            if self.connections.are_closed() {
                return;
            }
            self.rt.sleep(Duration::from_millis(REST));
        }
    }
}

impl<'h, 'j, 't, 'c, 'b, J: Naming, R: Clock + Wait + Drop> Watch<'h, 'j, 't, 'c, 'b, J, R> {
    // Looks until the collector ends. None where an allocation failed before the first look.
    fn watch(&self) -> Option<()> {
        let config = self.hub.config();
        let (peers, tables) = (config.peers.len(), config.tables.len());
        let mut fullness = Fullness::new(self.alloc, peers, tables).ok()?;
        let mut keys = LoggedKeys::new(self.alloc, config).ok()?;
        let mut lens = self.hub.lens(&self.rt).ok()?;
        let noted = Noted {
            rt: &self.rt,
            journal: self.journal,
        };
        for turn in 0..u64::MAX {
            if self.connections.are_closed() {
                break;
            }
            self.rt.sleep(Duration::from_millis(REST));
            if turn % RESTS != 0 {
                continue;
            }
            if let Some(look) = lens.look() {
                let now = self.clock.moment();
                fullness.look(&self.rt, self.journal, look.book(), now);
                note_learned(&self.rt, self.journal, self.board, look.book());
                if let Ok(round) = keys.round(&look) {
                    round.note(self.alloc, look.book(), &noted);
                }
            }
        }
        Some(())
    }
}
