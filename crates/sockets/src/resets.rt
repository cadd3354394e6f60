//! Connections that peers reset, until it is known whether these come back.

use std::alloc::Global;
use std::net::SocketAddr;
use std::sync::{Mutex, Wait};

/// Within which time a peer that comes back was only reloaded, in ms.
const BACK_WITHIN: u64 = 10_000;

/// What found that a peer had reset its connection.
#[derive(Clone, Copy, Debug, PartialEq, Eq)]
pub enum FoundBy {
    Read,
    Write,
}

/// A connection that its peer reset.
#[derive(Clone, Copy)]
pub struct Reset {
    /// Its peer, by its place in the configuration.
    pub peer: usize,
    pub address: SocketAddr,
    pub updates: u64,
    pub found_by: FoundBy,
    /// When it ended, in ms.
    pub at: u64,
}

/// The connections that peers reset and of which nothing was told.
#[derive(Drop)]
pub struct Resets {
    waiting: Mutex<Vec<Reset>>,
}

impl Resets {
    /// None. Takes no memory.
    pub(crate) fn new(alloc: Global) -> Resets {
        Resets {
            waiting: Mutex::new(Vec::new(alloc)),
        }
    }

    /// A connection was reset: whether there is memory to keep that.
    pub fn hold<R: Wait>(&self, rt: &R, reset: Reset) -> bool {
        let mut guard = self.waiting.lock(rt);
        let waiting = &mut *guard;
        waiting.push(reset).is_ok()
    }

    /// Takes a connection that this peer reset: it is back.
    pub fn take_of<R: Wait>(&self, rt: &R, peer: usize) -> Option<Reset> {
        let mut guard = self.waiting.lock(rt);
        let waiting = &mut *guard;
        let at = waiting.iter().position(|reset: &Reset| reset.peer == peer)?;
        Some(waiting.remove(at))
    }

    /// Takes a connection whose peer isn't back in time by a moment, in ms.
    pub fn take_overdue<R: Wait>(&self, rt: &R, now: u64) -> Option<Reset> {
        let mut guard = self.waiting.lock(rt);
        let waiting = &mut *guard;
        let is_overdue = |reset: &Reset| now.saturating_sub(reset.at) >= BACK_WITHIN;
        let at = waiting.iter().position(is_overdue)?;
        Some(waiting.remove(at))
    }
}
