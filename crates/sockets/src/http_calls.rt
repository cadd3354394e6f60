//! Operators' connections that were ended at a line of HTTP.

use std::alloc::Global;
use std::collections::VecDeque;
use std::net::SocketAddr;

/// How many are told in a minute: as many as the log takes of one kind from all addresses together.
const MOST_TOLD: u64 = 600;

/// A minute, in ms.
const MINUTE: u64 = 60_000;

/// What is to be told of connections that were ended at a line of HTTP.
#[derive(Clone, Copy, Debug)]
pub enum HttpCall {
    /// One was, from this address, if from one.
    From(Option<SocketAddr>),
    /// So many more were, within a minute.
    More(u64),
}

/// The connections that were ended at a line of HTTP, until that is told. In a minute, which begins
/// with the first of them, each of some is told for itself, and the others are counted.
#[derive(Drop)]
pub struct HttpCalls {
    // those that are told next, the first first
    waiting: VecDeque<Option<SocketAddr>>,
    // when the present minute began, in ms
    began: Option<u64>,
    // how many of it are told, and how many are counted
    told: u64,
    counted: u64,
    // how many were counted in minutes that are over
    more: u64,
}

impl HttpCalls {
    /// None came. Takes no memory.
    pub fn new(alloc: Global) -> HttpCalls {
        HttpCalls {
            waiting: VecDeque::new(alloc),
            began: None,
            told: 0,
            counted: 0,
            more: 0,
        }
    }

    // Ends the minute that is under way, where it is over at a moment, in ms.
    fn end_minute(&mut self, now: u64) {
        let Some(began) = self.began else {
            return;
        };
        if now.saturating_sub(began) >= MINUTE {
            self.began = None;
            self.told = 0;
            self.more = self.more.saturating_add(self.counted);
            self.counted = 0;
        }
    }

    /// One was ended at a moment, in ms.
    pub fn note(&mut self, now: u64, sender: Option<SocketAddr>) {
        self.end_minute(now);
        if self.began.is_none() {
            self.began = Some(now);
        }
        if self.told < MOST_TOLD && self.waiting.push_back(sender).is_ok() {
            self.told = self.told.saturating_add(1);
        } else {
            self.counted = self.counted.saturating_add(1);
        }
    }

    /// What is to be told next at a moment, in ms. It is forgotten with that.
    pub fn take(&mut self, now: u64) -> Option<HttpCall> {
        self.end_minute(now);
        if let Some(sender) = self.waiting.pop_front() {
            return Some(HttpCall::From(sender));
        }
        if self.more == 0 {
            return None;
        }
        let more = self.more;
        self.more = 0;
        Some(HttpCall::More(more))
    }
}
