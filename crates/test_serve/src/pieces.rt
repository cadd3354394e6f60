//! A session whose proxy is told more keys at once than a piece has room for.

use crate::cases::TOLD_AT_ONCE;
use crate::paper::{Paper, Pen};
use crate::peers::talk;
use crate::scene::whole;
use agg_types::{What, Whats};
use anyhow::Result;
use hub::{Hub, Naming};
use peers_msg::{Feed, Message};
use std::alloc::Global;
use std::sync::Wait;
use std::time::Clock;
use test_hub_calls::{post, sit};
use test_support::{alone, put};

/// A fleet of two proxies that are told the keys of a large set.
pub const LARGE: &[u8] = b"name agg\npeer lb1\npeer lb2\ntable t type ip size 9000 store gpc0\n\
    filter f t data.gpc0 ge 6\npush f\n";

/// How many keys the set has. Each is told in 16 bytes, so all of them take more than 65,536.
const KEYS: u32 = 5000;

/// A pen that takes each piece at once.
const BROAD: Pen = Pen {
    writes: 1000,
    most: 1_000_000,
    interrupted: false,
};

/// The other peer speaks, and puts the keys of the set.
fn keys(alloc: Global) -> Result<Whats> {
    let mut whats = alone(alloc, What::Open(1))?;
    for key in 0..KEYS {
        whats.push(put(alloc, 1, key, 6)?)?;
    }
    Ok(whats)
}

/// Fills the set.
fn fill<J: Naming, H: Wait + Drop, R: Wait>(rt: &R, alloc: Global, hub: &Hub<J, H>) -> Result<()> {
    let mut pass = sit(rt, hub)?;
    post(rt, alloc, hub, &mut pass, keys(alloc)?)?;
    Ok(())
}

/// How many of these messages, in their order, tell the next key: 0.0.0.0, 0.0.0.1 and so on.
fn keys_in_order(messages: &[Message]) -> u32 {
    let mut next = 0u32;
    for message in messages {
        if let Message::Update { rest, .. } = message
            && rest.as_slice().starts_with(&next.to_be_bytes())
        {
            next = next.saturating_add(1);
        }
    }
    next
}

/// Prints how many writes, bytes and messages came, and how many of these tell the keys.
fn say_told(rt: &impl Print, writes: usize, bytes: usize, messages: &[Message]) -> Result<()> {
    let (count, keys) = (messages.len(), keys_in_order(messages));
    println!(rt;
        "{KEYS} keys: {writes} writes, {bytes} bytes, {count} messages, {keys} keys in turn"
    )?;
    Ok(())
}

/// Reads what was written behind the answer to the hello.
fn say_read(rt: &impl Print, alloc: Global, paper: &Paper) -> Result<()> {
    let bytes = paper.as_slice();
    let mut feed = Feed::new(alloc);
    let messages = feed.feed(bytes.get(4..).unwrap_or(b""))?;
    say_told(rt, paper.sums().len(), bytes.len(), messages.as_slice())
}

/// Serves a session of a fleet whose set is filled, and prints what its proxy was told.
pub fn row<J: Naming, H: Wait + Drop, R: Wait + Clock + Print>(
    rt: &R,
    alloc: Global,
    hub: &Hub<J, H>,
) -> Result<()> {
    fill(rt, alloc, hub)?;
    let paper = Paper::new(alloc, BROAD, hub.lens(rt).ok());
    let (paper, _) = talk(rt, alloc, hub, whole("", &TOLD_AT_ONCE), paper);
    say_read(rt, alloc, &paper)
}
