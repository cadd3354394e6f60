//! A seat that leaves while all seats are taken, behind a batch that isn't shown yet.

ghost use Rattle.std.specs.Prelude.{◌≡◌, IfOk};

use crate::beside::append;
use crate::fleet::Batch;
use anyhow::{Result, anyhow};
use hub::{Hub, Naming, Opening, Pass, SeatFault};
use std::alloc::Global;
use std::sync::Wait;
use test_hub_calls::{TRIES, flush, leave, sit};

/// How many seats are tried for.
const SEATS: u32 = 600;

/// Keys that are longer than one that takes no memory of its own.
const KEYS: [&[u8]; 2] = [b"a key of more bytes", b"another key of more bytes"];

/// Takes all seats that are left.
fn fill<J: Naming, H: Wait + Drop, W: Wait>(rt: &W, hub: &Hub<J, H>) -> u32 {
    let mut count = 0u32;
    for _ in 0..SEATS {
        match hub.seat(rt) {
            Ok(_) => count = count.saturating_add(1),
            Err(SeatFault::NoMemory) => continue,
            Err(SeatFault::NoSeat) => break,
        }
    }
    count
}

/// Appends rows, which aren't shown yet; by a further call where an allocation failed.
fn append_rows<J: Naming, H: Wait + Drop, W: Wait>(
    rt: &W,
    alloc: Global,
    hub: &Hub<J, H>,
    pass: &mut Pass,
) -> Result<()>
    requires { pass.old.seen.of ≡ hub.now.of }
    ensures { IfOk result (λ _. pass.new.seen.of ≡ hub.now.of) }
{
    for turn in 0..TRIES {
        let whats = Batch::Rows(0, &KEYS).made(alloc)?;
        if append(rt, hub, pass, whats) {
            return Ok(());
        }
        flush(rt, alloc, hub, pass)?;
    }
    Err(anyhow!("nothing is appended"))
}

/// Lets a seat of all leave, and takes the one that is free then.
fn run<J: Naming, H: Wait + Drop, W: Wait + Print>(
    rt: &W,
    alloc: Global,
    hub: &Hub<J, H>,
) -> Result<()> {
    let mut first = sit(rt, hub)?;
    let second = sit(rt, hub)?;
    let others = fill(rt, hub);
    flush(rt, alloc, hub, &mut first)?;
    append_rows(rt, alloc, hub, &mut first)?;
    let word = match leave(rt, hub, second)? {
        Some(_) => "shown",
        None => "Pending",
    };
    let next = sit(rt, hub)?.seat();
    let is_full = hub.seat(rt).is_err();
    println!(rt; "again: a seat leaves: {word}")?;
    println!(rt; "{others} seats and two more, one leaves, {next} sits, no other: {is_full}")?;
    Ok(())
}

/// Runs over a hub of this fleet.
pub fn leave_full<J: Naming, R: Print + Wait>(rt: &R, alloc: Global, opening: Opening) -> Result<()>
    requires { opening.of ≡ J.book }
{
    let hub = Hub::<J, &R>::new(alloc, rt, opening, 1)?;
    run(rt, alloc, &hub)
}
