//! Posts, seats, lenses and leaves, each made once more where an allocation failed.

ghost use Rattle.std.specs.Prelude.{◌≡◌, IfOk};

use crate::again::{leave, post};
use crate::fleet::{Batch, opening};
use crate::shown::seen;
use agg_types::Whats;
use anyhow::{Context, Result};
use hub::{Hub, Lens, Naming, Opening, Pass, Receipt};
use std::alloc::Global;
use std::sync::Wait;
use test_hub_calls::{TRIES, sit};

/// Keys that are as long as a key may be that takes no memory of its own, and longer ones.
const KEYS: [&[u8]; 3] = [
    b"a",
    b"a key of sixteen",
    b"a key of more bytes than sixteen",
];

/// What the first seat posts.
const FIRST: [Batch; 4] = [
    Batch::Rows(0, &KEYS),
    Batch::Filter(b"f"),
    Batch::Filter(b"another-filter-with-a-long-name"),
    Batch::Nothing,
];

/// What the second seat posts behind it: the rows of the first end, and its own are cleared.
const SECOND: [Batch; 4] = [
    Batch::Moment(500),
    Batch::Rows(1, &KEYS),
    Batch::Moment(1200),
    Batch::Clear,
];

/// Prints what a lens shows that learned of a receipt.
fn show<W: Print>(rt: &W, lens: &mut Lens, receipt: &Receipt, seat: u64) -> Result<()>
    requires { receipt.now.of ≡ lens.old.seen.of }
    ensures { lens.new.seen.of ≡ lens.old.seen.of }
{
    lens.learn(receipt);
    let shown = seen(lens, seat)?;
    println!(rt; "{} events: {shown}", receipt.len())?;
    Ok(())
}

/// Posts a batch, and prints what a lens shows that learned of it.
fn step<J: Naming, H: Wait + Drop, W: Wait + Print>(
    rt: &W,
    alloc: Global,
    hub: &Hub<J, H>,
    pass: &mut Pass,
    lens: &mut Lens,
    batch: Batch,
) -> Result<()>
    requires pass { pass.old.seen.of ≡ hub.now.of }
    requires lens { lens.old.seen.of ≡ hub.now.of }
    ensures pass { IfOk result (λ r. pass.new.seen.of ≡ hub.now.of) }
    ensures lens { IfOk result (λ r. lens.new.seen.of ≡ hub.now.of) }
{
    let whats = batch.made(alloc)?;
    let receipt = post(rt, alloc, hub, pass, lens, whats)?;
    show(rt, lens, &receipt, pass.seat())
}

/// Posts batches one after the other.
fn steps<J: Naming, H: Wait + Drop, W: Wait + Print>(
    rt: &W,
    alloc: Global,
    hub: &Hub<J, H>,
    pass: &mut Pass,
    lens: &mut Lens,
    batches: &[Batch],
) -> Result<()>
    requires pass { pass.old.seen.of ≡ hub.now.of }
    requires lens { lens.old.seen.of ≡ hub.now.of }
    ensures pass { IfOk result (λ r. pass.new.seen.of ≡ hub.now.of) }
    ensures lens { IfOk result (λ r. lens.new.seen.of ≡ hub.now.of) }
{
    for batch in batches {
        step(rt, alloc, hub, pass, lens, *batch)?;
    }
    Ok(())
}

/// The first seat leaves, which the second shows where it is pending.
fn go<J: Naming, H: Wait + Drop, W: Wait + Print>(
    rt: &W,
    alloc: Global,
    hub: &Hub<J, H>,
    first: Pass,
    second: &mut Pass,
    lens: &mut Lens,
) -> Result<()>
    requires first { first.seen.of ≡ hub.now.of }
    requires second { second.old.seen.of ≡ hub.now.of }
    requires lens { lens.old.seen.of ≡ hub.now.of }
{
    let seat = first.seat();
    let receipt = match leave(rt, hub, first, lens)? {
        Some(receipt) => receipt,
        None => post(rt, alloc, hub, second, lens, Whats::new(alloc))?,
    };
    show(rt, lens, &receipt, seat)
}

/// Two seats post one after the other, and the first leaves.
fn run<J: Naming, H: Wait + Drop, W: Wait + Print>(
    rt: &W,
    alloc: Global,
    hub: &Hub<J, H>,
) -> Result<()> {
    let mut lens = hub.lens(rt).ok().context("no lens")?;
    let mut first = sit(rt, hub)?;
    steps(rt, alloc, hub, &mut first, &mut lens, &FIRST)?;
    let mut second = sit(rt, hub)?;
    steps(rt, alloc, hub, &mut second, &mut lens, &SECOND)?;
    go(rt, alloc, hub, first, &mut second, &mut lens)
}

/// Runs over a hub of this fleet, and says whether there was memory for one.
pub fn opened<J: Naming, R: Print + Wait>(rt: &R, alloc: Global, opening: Opening) -> Result<bool>
    requires { opening.of ≡ J.book }
{
    match Hub::<J, &R>::new(alloc, rt, opening, 2) {
        Err(_) => Ok(false),
        Ok(hub) => {
            run(rt, alloc, &hub)?;
            Ok(true)
        }
    }
}

/// The fleet, opened by a further call where an allocation failed.
pub fn fleet_opened(alloc: Global) -> Result<Opening> {
    for _ in 0..TRIES {
        if let Ok(opening) = opening(alloc) {
            return Ok(opening);
        }
    }
    opening(alloc)
}
