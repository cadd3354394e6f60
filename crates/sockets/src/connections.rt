//! Who waits at the peers' door, and who sits.

use crate::resets::Resets;
use crate::streams::Stream;
use crate::ticks::is_due;
use crate::unknown::{Call, Unknown};
use std::alloc::Global;
use std::collections::BTreeMap;
use std::io;
use std::net::SocketAddr;
use std::sync::atomic::{AtomicU64, Ordering};
use std::sync::{Arc, Mutex, Wait};
use std::time::{Clock, Instant};

/// How many connections may wait for their hello at once.
const MOST_WAITING: usize = 1024;

/// A connection that a newer one may have to end.
#[derive(Drop)]
struct Seated {
    id: u64,
    address: SocketAddr,
    stream: Arc<Stream, Global>,
}

/// A connection that a newer one of its peer ended.
#[derive(Clone, Copy)]
struct Replaced {
    id: u64,
    address: SocketAddr,
}

/// The connections of peers, each under a number of its own.
#[derive(Drop)]
struct Lists {
    // how many came
    came: u64,
    // those whose hello is awaited: the least number has waited longest
    waiting: BTreeMap<u64, Arc<Stream, Global>, Global>,
    // the one that sits for each peer
    seated: BTreeMap<usize, Seated, Global>,
    // those that a newer one ended, until that is told or they are over
    replaced: Vec<Replaced>,
    // how many came from an address that isn't asked for, and the last of these, until that is told
    unasked: u64,
    last_unasked: Option<SocketAddr>,
    told_at: Option<Instant>,
}

/// Connections that were closed since they came from an address that isn't asked for.
#[derive(Clone, Copy)]
pub struct Unasked {
    /// How many.
    pub count: u64,
    /// The address of the last one.
    pub last: Option<SocketAddr>,
}

/// The connections of peers that wait for their hello, and those that sit.
///
/// So many may wait at once, so strangers that say nothing shut out nobody: of one more, the one
/// that has waited longest is closed. Of a peer the newest connection sits, and the older one is
/// closed.
#[derive(Drop)]
pub struct Connections {
    lists: Mutex<Lists>,
    unknown: Unknown,
    /// Those that peers reset, until that is told.
    pub resets: Resets,
    // 1 once the peers' door is closed for good, and why
    closed: AtomicU64,
    fault: Mutex<Option<io::Error>>,
}

impl Connections {
    /// None came yet. Takes no memory.
    pub fn new(alloc: Global) -> Connections {
        Connections {
            lists: Mutex::new(Lists {
                came: 0,
                waiting: BTreeMap::new(alloc),
                seated: BTreeMap::new(alloc),
                replaced: Vec::new(alloc),
                unasked: 0,
                last_unasked: None,
                told_at: None,
            }),
            unknown: Unknown::new(alloc),
            resets: Resets::new(alloc),
            closed: AtomicU64::new(0),
            fault: Mutex::new(None),
        }
    }

    /// A connection waits for its hello from now on: its number. None where memory is lacking.
    pub fn come<R: Wait>(&self, rt: &R, stream: &Arc<Stream, Global>) -> Option<u64> {
        let stream = Arc::try_clone(stream).ok()?;
        let mut guard = self.lists.lock(rt);
        let lists = &mut *guard;
        let id = lists.came.checked_add(1)?;
        lists.waiting.insert(id, stream).ok()?;
        lists.came = id;
        if lists.waiting.len() > MOST_WAITING {
            close_oldest(lists);
        }
        Some(id)
    }

    /// A connection waits no more.
    pub fn stop_waiting<R: Wait>(&self, rt: &R, id: u64) {
        let mut guard = self.lists.lock(rt);
        let lists = &mut *guard;
        lists.waiting.remove(&id);
    }

    /// How many connections wait for their hello.
    pub fn count_waiting<R: Wait>(&self, rt: &R) -> usize {
        let guard = self.lists.lock(rt);
        guard.waiting.len()
    }

    /// Where the connection that sits for a peer comes from.
    pub fn address_of<R: Wait>(&self, rt: &R, peer: usize) -> Option<SocketAddr> {
        let guard = self.lists.lock(rt);
        let seated = guard.seated.get(&peer)?;
        Some(seated.address)
    }

    /// Whether the connection from this address, which sits for a peer, was reset by that one.
    pub fn was_reset<R: Wait>(&self, rt: &R, peer: usize, address: SocketAddr) -> bool {
        let guard = self.lists.lock(rt);
        match guard.seated.get(&peer) {
            None => false,
            Some(seated) => seated.address == address && seated.stream.was_reset(),
        }
    }

    /// Closes the connection that has waited longest, if one waits.
    pub fn make_room<R: Wait>(&self, rt: &R) -> bool {
        let mut guard = self.lists.lock(rt);
        close_oldest(&mut guard)
    }

    /// The peers' door is closed for good by this fault. No connection waits any more.
    pub fn close<R: Wait>(&self, rt: &R, fault: io::Error) {
        self.closed.store(1, Ordering::SeqCst);
        let mut guard = self.fault.lock(rt);
        *guard = Some(fault);
        for _ in 0..=MOST_WAITING {
            if !self.make_room(rt) {
                return;
            }
        }
    }

    /// No connection is served any more, of peers or operators: who serves one ends soon. It waits
    /// for nothing and nobody.
    pub fn stop(&self) {
        self.closed.store(1, Ordering::SeqCst);
    }

    /// Whether the peers' door is closed for good.
    pub fn are_closed(&self) -> bool {
        self.closed.load(Ordering::SeqCst) != 0
    }

    /// Why the peers' door is closed, once.
    pub fn take_fault<R: Wait>(&self, rt: &R) -> Option<io::Error> {
        let mut guard = self.fault.lock(rt);
        let fault = &mut *guard;
        fault.take()
    }

    /// A connection sits for a peer. One that sat for it before is closed.
    pub fn sit<R: Wait>(
        &self,
        rt: &R,
        peer: usize,
        id: u64,
        address: SocketAddr,
        stream: &Arc<Stream, Global>,
    ) {
        let Ok(stream) = Arc::try_clone(stream) else {
            return;
        };
        let seated = Seated {
            id,
            address,
            stream,
        };
        let mut guard = self.lists.lock(rt);
        let lists = &mut *guard;
        if let Ok(Some(older)) = lists.seated.insert(peer, seated) {
            older.stream.end();
            let _ = lists.replaced.push(Replaced {
                id: older.id,
                address: older.address,
            });
        }
    }

    /// A connection of a peer is over.
    pub fn rise<R: Wait>(&self, rt: &R, peer: usize, id: u64) {
        let mut guard = self.lists.lock(rt);
        let lists = &mut *guard;
        let sits = match lists.seated.get(&peer) {
            None => false,
            Some(seated) => seated.id == id,
        };
        if sits {
            lists.seated.remove(&peer);
        }
        // Where a newer one took its place after its end was told, that is told of nobody else.
        if let Some(at) = lists.replaced.iter().position(|other| other.id == id) {
            lists.replaced.swap_remove(at);
        }
    }

    /// Whether a newer connection of its peer ended the one from this address. It is forgotten with
    /// that.
    pub fn was_replaced<R: Wait>(&self, rt: &R, address: SocketAddr) -> bool {
        let mut guard = self.lists.lock(rt);
        let lists = &mut *guard;
        let at = lists
            .replaced
            .iter()
            .position(|other| other.address == address);
        let Some(at) = at else {
            return false;
        };
        lists.replaced.swap_remove(at);
        true
    }

    /// A connection came from an address that isn't asked for.
    pub fn turn_away<R: Wait>(&self, rt: &R, address: SocketAddr) {
        let mut guard = self.lists.lock(rt);
        let lists = &mut *guard;
        lists.unasked = lists.unasked.saturating_add(1);
        lists.last_unasked = Some(address);
    }

    /// The connection from this address is closed, since the peer of its hello isn't configured.
    pub fn turn_away_unknown<R: Clock + Wait>(&self, rt: &R, hello: &[u8], address: SocketAddr) {
        self.unknown.call(rt, hello, address);
    }

    /// The connection from this address, if it was closed so. It is forgotten with that.
    pub fn take_unknown<R: Wait>(&self, rt: &R, address: SocketAddr) -> Option<Call> {
        self.unknown.take(rt, address)
    }

    /// What is to be told now of connections from addresses that aren't asked for: at most once a
    /// second, how many came since it was told.
    pub fn unasked<R: Clock + Wait>(&self, rt: &R) -> Option<Unasked> {
        let mut guard = self.lists.lock(rt);
        let lists = &mut *guard;
        if lists.unasked == 0 || !is_due(rt, lists.told_at) {
            return None;
        }
        let unasked = Unasked {
            count: lists.unasked,
            last: lists.last_unasked,
        };
        lists.unasked = 0;
        lists.told_at = Instant::now(rt).ok();
        Some(unasked)
    }
}

// Closes the connection that has waited longest, if one waits. Its thread then ends by itself.
fn close_oldest(lists: &mut Lists) -> bool {
    match lists.waiting.pop_first() {
        None => false,
        Some((_, stream)) => {
            stream.end();
            true
        }
    }
}
