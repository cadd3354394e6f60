//! Seats, posts, receipts and looks.

ghost use Rattle.std.specs.Prelude.{◌≡◌};

use crate::replaced::replace;
use crate::seats::{fill, has_place};
use agg_types::{What, Whats};
use anyhow::Result;
use hub::{Hub, Lens, Naming, Opening};
use std::alloc::Global;
use std::sync::Wait;
use test_hub_calls::{lens, post, seen, session, sit};
use test_support::{alone, put};

/// Two sessions, one after the other, each with a peer of its own; what they posted is learned.
fn learn_both<J: Naming, H: Wait + Drop, W: Wait>(
    rt: &W,
    alloc: Global,
    hub: &Hub<J, H>,
    lens: &mut Lens,
) -> Result<()>
    requires { lens.old.seen.of ≡ hub.now.of }
{
    let receipt = session(rt, alloc, hub, 0, 5)?;
    lens.learn(&receipt);
    let receipt = session(rt, alloc, hub, 1, 7)?;
    lens.learn(&receipt);
    Ok(())
}

/// What a lens shows once it learned of two sessions.
fn look_on<J: Naming, H: Wait + Drop, W: Wait + Print>(
    rt: &W,
    alloc: Global,
    hub: &Hub<J, H>,
) -> Result<()> {
    let mut lens = lens(rt, hub)?;
    println!(rt; "a second lens: {}", has_place(rt, hub))?;
    learn_both(rt, alloc, hub, &mut lens)?;
    println!(rt; "both learned: {}", seen(alloc, &mut lens)?)?;
    Ok(())
}

/// A peer speaks, and puts the first 1,000 addresses in turn, so often in all.
fn long_batch(alloc: Global, peer: usize, puts: u32) -> Result<Whats> {
    let mut whats = alone(alloc, What::Open(peer))?;
    for turn in 0..puts {
        whats.push(put(alloc, peer, turn % 1000, 1)?)?;
    }
    Ok(whats)
}

/// Batches of no event, of one and of 100,001.
fn sizes<J: Naming, H: Wait + Drop, W: Wait + Print>(
    rt: &W,
    alloc: Global,
    hub: &Hub<J, H>,
) -> Result<()> {
    let mut pass = sit(rt, hub)?;
    for puts in [0, 100_000] {
        let receipt = post(rt, alloc, hub, &mut pass, long_batch(alloc, 0, puts)?)?;
        println!(rt; "a batch of {}: {} events in all", puts + 1, receipt.len())?;
    }
    let receipt = post(rt, alloc, hub, &mut pass, Whats::new(alloc))?;
    println!(rt; "a batch of 0: {} events in all", receipt.len())?;
    Ok(())
}

/// Whether a list comes back to a pass behind each of three posts. The first copy of the book takes
/// a batch when it is posted, and the second one with the next batch.
fn come_back<J: Naming, H: Wait + Drop, W: Wait + Print>(
    rt: &W,
    alloc: Global,
    hub: &Hub<J, H>,
) -> Result<()> {
    let mut pass = sit(rt, hub)?;
    for number in 1..4 {
        post(rt, alloc, hub, &mut pass, long_batch(alloc, 0, number)?)?;
        let list = pass.take_back();
        println!(rt;
            "behind post {number} a list comes back: {}",
            list.is_some()
        )?;
    }
    pass.forget();
    println!(rt; "none is kept: {}", pass.take_back().is_none())?;
    Ok(())
}

/// Steps over a hub with one place for a lens.
pub fn run_alone<J: Naming, R: Print + Wait>(rt: &R, alloc: Global, opening: Opening) -> Result<()>
    requires { opening.of ≡ J.book }
{
    let hub = Hub::<J, &R>::new(alloc, rt, opening, 1)?;
    look_on(rt, alloc, &hub)?;
    sizes(rt, alloc, &hub)?;
    come_back(rt, alloc, &hub)?;
    println!(rt; "seats: {}", fill(rt, &hub)?)?;
    println!(rt; "then: {}", fill(rt, &hub)?)?;
    Ok(())
}

/// Two seats that open one peer.
pub fn late<J: Naming, R: Print + Wait>(rt: &R, alloc: Global, opening: Opening) -> Result<()>
    requires { opening.of ≡ J.book }
{
    let hub = Hub::<J, &R>::new(alloc, rt, opening, 1)?;
    let mut lens = lens(rt, &hub)?;
    replace(rt, alloc, &hub, &mut lens)
}
