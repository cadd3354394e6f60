//! The tables that a peer's stream defines, whether they are followed or not, and what the peer
//! answers resync requests.
//!
//! The session keeps of a stream what it follows. This goes over the heads of the same messages
//! beside it, and reads definitions, and the ids of updates, so that an operator can be told why a
//! table isn't followed, and whose rows its sender teaches. By the answers it is known when to ask
//! again. No clause says what it finds.

use crate::asking::Answer;
use crate::taught::Lessons;
use agg_types::Config;
use agg_types::limits::LONGEST_PAYLOAD;
use bytes::BytesMut;
use peers_msg::kinds::{
    ACKNOWLEDGEMENT, CONTROL_CLASS, FIRST_WITH_PAYLOAD, RESYNC_FINISHED, RESYNC_PARTIAL,
    TABLE_CLASS, TABLE_DEFINITION,
};
use peers_msg::{Definition, Feed, Message, get_int};
use std::alloc::Global;
use std::collections::VecDeque;
use worker_frame::{Gate, News, Place, split_line};

/// How many lines a hello has.
const HELLO_LINES: u8 = 3;

/// The class and the type of a table definition.
const DEFINITION: (u8, u8) = (TABLE_CLASS, TABLE_DEFINITION);

/// How many definitions wait at most until they are told.
const MOST_FOUND: usize = 256;

/// Where a stream is.
#[derive(Clone, Copy, Debug, PartialEq, Eq)]
enum At {
    /// In its hello, of which so many lines haven't ended.
    Hello(u8),
    /// In the head of a message, of which some bytes may be kept.
    Head,
    /// In a payload that isn't read, before so many bytes of it.
    Skipped(u64),
    /// In the payload of a message of a table, before so many bytes of it. What came of it is kept.
    Kept(u64),
    /// Behind a fault: nothing is read any more.
    Over,
}

/// A stream, what wasn't taken yet of the answers to resync requests, the definitions that weren't
/// told yet, and what it taught.
#[derive(Drop)]
pub struct Scout {
    at: At,
    kept: BytesMut,
    answer: Option<Answer>,
    found: VecDeque<Definition>,
    lessons: Lessons,
    alloc: Global,
}

/// A message that stands whole in front of others.
#[derive(Clone, Copy)]
struct Whole<'a> {
    class: u8,
    kind: u8,
    payload: &'a [u8],
    rest: &'a [u8],
}

// What stands behind so many bytes, or behind all.
fn behind(bytes: &[u8], count: u64) -> &[u8] {
    match usize::try_from(count) {
        Err(_) => b"",
        Ok(count) => match bytes.get(count..) {
            None => b"",
            Some(rest) => rest,
        },
    }
}

// What the head of a message answers a resync request, if it does.
fn answer_in(class: u8, kind: u8) -> Option<Answer> {
    match (class, kind) {
        (CONTROL_CLASS, RESYNC_FINISHED) => Some(Answer::Finished),
        (CONTROL_CLASS, RESYNC_PARTIAL) => Some(Answer::Partial),
        _ => None,
    }
}

// The first message, where it is whole, no definition and no answer.
fn whole_in(bytes: &[u8]) -> Option<Whole<'_>> {
    let [class, kind, behind @ ..] = bytes else {
        return None;
    };
    let (class, kind) = (*class, *kind);
    if answer_in(class, kind).is_some() || (class, kind) == DEFINITION {
        return None;
    }
    if kind < FIRST_WITH_PAYLOAD {
        return Some(Whole {
            class,
            kind,
            payload: b"",
            rest: behind,
        });
    }
    let (len, taken) = get_int(behind).ok()??;
    if len > LONGEST_PAYLOAD {
        return None;
    }
    let end = taken.saturating_add(usize::try_from(len).ok()?);
    Some(Whole {
        class,
        kind,
        payload: behind.get(taken..end)?,
        rest: behind.get(end..)?,
    })
}

// Whether a message is read: it says which table is in force, or is an update.
fn is_read(class: u8, kind: u8) -> bool {
    class == TABLE_CLASS && kind >= FIRST_WITH_PAYLOAD && kind != ACKNOWLEDGEMENT
}

impl Scout {
    /// At the beginning of a stream. Takes no memory.
    pub fn new(alloc: Global) -> Scout {
        Scout {
            at: At::Hello(HELLO_LINES),
            kept: BytesMut::new(alloc),
            answer: None,
            found: VecDeque::new(alloc),
            lessons: Lessons::new(alloc),
            alloc,
        }
    }

    /// Reads the next piece of a peer of this configuration.
    pub fn read_piece(&mut self, config: &Config, piece: &[u8]) {
        let mut rest = piece;
        for _ in 0..u64::MAX {
            if rest.is_empty() {
                return;
            }
            rest = self.step(config, rest);
        }
    }

    // Takes what stands in front, and gives what is left.
    fn step<'a>(&mut self, config: &Config, bytes: &'a [u8]) -> &'a [u8] {
        match self.at {
            At::Hello(lines) => self.end_line(lines, bytes),
            At::Head => self.read_head(bytes),
            At::Skipped(left) => {
                self.at = match left.saturating_sub(bytes.len() as u64) {
                    0 => At::Head,
                    more => At::Skipped(more),
                };
                behind(bytes, left)
            }
            At::Kept(left) => self.keep(config, left, bytes),
            At::Over => b"",
        }
    }

    // A line of the hello, if it ends.
    fn end_line<'a>(&mut self, lines: u8, bytes: &'a [u8]) -> &'a [u8] {
        let Some((_, rest)) = split_line(bytes) else {
            return b"";
        };
        self.at = match lines.saturating_sub(1) {
            0 => At::Head,
            more => At::Hello(more),
        };
        rest
    }

    // A whole message, or the next byte of a head.
    fn read_head<'a>(&mut self, bytes: &'a [u8]) -> &'a [u8] {
        if self.kept.is_empty()
            && let Some(whole) = whole_in(bytes)
        {
            if whole.class == TABLE_CLASS {
                self.lessons.hear(whole.kind, whole.payload);
            }
            return whole.rest;
        }
        let Some((first, rest)) = bytes.split_first() else {
            return b"";
        };
        self.at = match self.kept.extend_from_slice(&[*first]) {
            Ok(()) => self.after_head(),
            Err(_) => At::Over,
        };
        rest
    }

    // Where the stream is behind the bytes of a head that are kept.
    fn after_head(&mut self) -> At {
        let [class, kind, number @ ..] = self.kept.as_slice() else {
            return At::Head;
        };
        let is_read = is_read(*class, *kind);
        let answer = answer_in(*class, *kind);
        let len = if *kind < FIRST_WITH_PAYLOAD {
            0
        } else {
            match get_int(number) {
                Ok(None) => return At::Head,
                Ok(Some((len, _))) if len <= LONGEST_PAYLOAD => len,
                _ => return At::Over,
            }
        };
        if is_read && len > 0 {
            return At::Kept(len);
        }
        self.kept.clear();
        self.hear(answer);
        if len > 0 { At::Skipped(len) } else { At::Head }
    }

    // Hears what a message answers a resync request, if it does. Of several answers that weren't
    // taken yet the last counts, and finished before all.
    fn hear(&mut self, answer: Option<Answer>) {
        if answer.is_some() && self.answer != Some(Answer::Finished) {
            self.answer = answer;
        }
    }

    /// Takes what was heard of the answers to resync requests since it was taken last.
    pub fn take_answer(&mut self) -> Option<Answer> {
        self.answer.take()
    }

    // Keeps what came of a message of a table, and reads it once it is whole.
    fn keep<'a>(&mut self, config: &Config, left: u64, bytes: &'a [u8]) -> &'a [u8] {
        let rest = behind(bytes, left);
        let count = bytes.len() - rest.len().min(bytes.len());
        if self.kept.extend_from_slice(&bytes[..count]).is_err() {
            self.at = At::Over;
            return b"";
        }
        match left.saturating_sub(count as u64) {
            0 => {
                self.read(config);
                self.at = At::Head;
            }
            more => self.at = At::Kept(more),
        }
        rest
    }

    // Reads the message that is kept.
    fn read(&mut self, config: &Config) {
        if let [class, kind, number @ ..] = self.kept.as_slice()
            && (*class, *kind) != DEFINITION
        {
            if let Ok(Some((_, taken))) = get_int(number) {
                self.lessons.hear(*kind, behind(number, taken as u64));
            }
        } else {
            self.read_definition(config);
        }
        self.kept.clear();
    }

    // Reads the definition that is kept. It is passed over where memory is lacking.
    fn read_definition(&mut self, config: &Config) {
        let mut feed = Feed::new(self.alloc);
        let Ok(messages) = feed.feed(self.kept.as_slice()) else {
            return;
        };
        let Some(Message::Define(definition)) = messages.into_vec().pop() else {
            return;
        };
        self.lessons.define(config, &definition);
        if self.found.len() < MOST_FOUND {
            let _ = self.found.push_back(definition);
        }
    }

    /// Tells a gate of the definitions that were found, and of what was taught.
    pub fn tell<G: Gate>(&mut self, gate: &G, place: Place, peer: usize) {
        for _ in 0..u64::MAX {
            let Some(definition) = self.found.pop_front() else {
                break;
            };
            gate.tell(place, News::Defined(peer, &definition));
        }
        self.lessons.tell(gate, place, peer);
        self.lessons.note_told();
    }

    /// Tells a gate of what was taught and wasn't told yet.
    pub fn tell_taught<G: Gate>(&self, gate: &G, place: Place, peer: usize) {
        self.lessons.tell(gate, place, peer);
    }
}
