//! Peers that call, and aren't configured.

use crate::ticks::has_passed;
use line_words::{next_line, next_part};
use std::alloc::Global;
use std::net::SocketAddr;
use std::sync::{Mutex, Wait};
use std::time::{Clock, Instant};

/// How long a name isn't told again, in s.
const TELLING: u64 = 60;

/// How many names are told in that time.
const MOST_NAMES: usize = 64;

/// A name that was told.
#[derive(Drop)]
struct Told {
    name: Vec<u8>,
    at: Instant,
}

/// A connection that was closed since its peer isn't configured.
#[derive(Drop)]
pub struct Call {
    address: SocketAddr,
    /// The name of its peer, if that is to be told.
    pub name: Option<Vec<u8>>,
}

#[derive(Drop)]
struct Lists {
    told: Vec<Told>,
    // those that are over soon
    calls: Vec<Call>,
}

/// The connections that were closed since their peers aren't configured.
#[derive(Drop)]
pub(crate) struct Unknown {
    alloc: Global,
    lists: Mutex<Lists>,
}

impl Unknown {
    /// None came yet. Takes no memory.
    pub fn new(alloc: Global) -> Unknown {
        Unknown {
            alloc,
            lists: Mutex::new(Lists {
                told: Vec::new(alloc),
                calls: Vec::new(alloc),
            }),
        }
    }

    /// The connection from this address is closed, since the peer of its hello isn't configured.
    pub fn call<R: Clock + Wait>(&self, rt: &R, hello: &[u8], address: SocketAddr) {
        let mut guard = self.lists.lock(rt);
        let lists = &mut *guard;
        let name = to_tell(rt, self.alloc, &mut lists.told, sender_of(hello));
        let _ = lists.calls.push(Call { address, name });
    }

    /// The connection from this address, if it was closed so. It is forgotten with that.
    pub fn take<R: Wait>(&self, rt: &R, address: SocketAddr) -> Option<Call> {
        let mut guard = self.lists.lock(rt);
        let lists = &mut *guard;
        let at = lists.calls.iter().position(|call| call.address == address)?;
        Some(lists.calls.swap_remove(at))
    }
}

// The name in the third line of a hello.
fn sender_of(hello: &[u8]) -> &[u8] {
    let Some((_, behind)) = next_line(hello) else {
        return b"";
    };
    let Some((_, behind)) = next_line(behind) else {
        return b"";
    };
    match next_line(behind) {
        None => b"",
        Some((line, _)) => next_part(line, b' ').0,
    }
}

// A name that is to be told now: it wasn't told for long, nor were too many others.
fn to_tell<R: Clock>(rt: &R, alloc: Global, told: &mut Vec<Told>, name: &[u8]) -> Option<Vec<u8>> {
    forget_old(rt, told);
    if told.len() >= MOST_NAMES || was_told(told.as_slice(), name) {
        return None;
    }
    let at = Instant::now(rt).ok()?;
    let kept = name.to_vec(alloc).ok()?;
    told.push(Told { name: kept, at }).ok()?;
    name.to_vec(alloc).ok()
}

fn was_told(told: &[Told], name: &[u8]) -> bool {
    for one in told {
        if one.name.as_slice() == name {
            return true;
        }
    }
    false
}

// Forgets the names that were told long ago.
fn forget_old<R: Clock>(rt: &R, told: &mut Vec<Told>) {
    for _ in 0..MOST_NAMES {
        let Some(at) = old_one(rt, told.as_slice()) else {
            return;
        };
        if at < told.len() {
            told.swap_remove(at);
        }
    }
}

fn old_one<R: Clock>(rt: &R, told: &[Told]) -> Option<usize> {
    for (at, one) in told.iter().enumerate() {
        if has_passed(rt, one.at, TELLING) {
            return Some(at);
        }
    }
    None
}
