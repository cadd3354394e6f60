//! What a look tells of a filter's set: which keys came into it and which left it behind an
//! earlier look.

ghost use Rattle.std.specs.Prelude.{◌≡◌, IfOk};

use crate::fleet::Batch;
use anyhow::{Result, anyhow};
use book::keys_named;
use hub::{Change, Hub, Lens, Naming, Opening, Pass};
use std::alloc::Global;
use std::sync::Wait;
use test_hub_calls::{lens, post, sit};
use test_support::config;

/// The keys of two rows, of which one comes 500 ms before the other.
const EARLY: [&[u8]; 1] = [b"early"];

const LATE: [&[u8]; 1] = [b"late"];

/// The fleet of two proxies, with a filter. Nothing is pushed: changes are kept of every filter.
const FILTERING: &[u8] = b"name agg
peer lb1
peer lb2
table t type string len 64 size 1000 store gpc0
filter p t data.gpc0 gt 9
";

/// That fleet, just opened.
pub fn filtering(alloc: Global) -> Result<Opening> {
    let config = config(alloc, FILTERING)?;
    Ok(Opening::new(alloc, config, 0)?)
}

/// Prints changes, a line each.
fn print_each<W: Print>(rt: &W, changes: &[&Change]) -> Result<()> {
    for change in changes {
        let key = std::str::from_utf8(change.key.as_slice()).unwrap_or("?");
        let way = if change.is_in { "came" } else { "left" };
        println!(rt; "  {key} {way}")?;
    }
    Ok(())
}

/// Prints what a look tells of the second filter behind so many first events.
fn tell<W: Print>(rt: &W, alloc: Global, lens: &mut Lens, since: u64) -> Result<()>
    ensures { lens.new.seen.of ≡ lens.old.seen.of }
{
    let Some(look) = lens.look() else {
        return Err(anyhow!("no look"));
    };
    let count = look.receipt().len();
    let keys = keys_named(alloc, look.book(), b"f")?.len();
    println!(rt; "behind {since} of {count} events, with {keys} keys in the set:")?;
    match look.changes(1, since)? {
        None => println!(rt; "  not known")?,
        Some(changes) => print_each(rt, changes.as_slice())?,
    }
    Ok(())
}

/// Posts a batch, prints what came and went behind so many events, and gives how many there are.
fn step<J: Naming, H: Wait + Drop, W: Wait + Print>(
    rt: &W,
    alloc: Global,
    hub: &Hub<J, H>,
    pass: &mut Pass,
    lens: &mut Lens,
    batch: Batch,
    since: u64,
) -> Result<u64>
    requires pass { pass.old.seen.of ≡ hub.now.of }
    requires lens { lens.old.seen.of ≡ hub.now.of }
    ensures pass { IfOk result (λ count. pass.new.seen.of ≡ hub.now.of) }
    ensures lens { IfOk result (λ count. lens.new.seen.of ≡ hub.now.of) }
{
    let receipt = post(rt, alloc, hub, pass, batch.made(alloc)?)?;
    lens.learn(&receipt);
    tell(rt, alloc, lens, since)?;
    Ok(receipt.len())
}

/// A filter comes, then two keys come into its set, and the clock takes one of them out. Each step
/// is told behind the one before, and the last one behind the first, too.
fn run<J: Naming, H: Wait + Drop, W: Wait + Print>(
    rt: &W,
    alloc: Global,
    hub: &Hub<J, H>,
) -> Result<()> {
    let mut lens = lens(rt, hub)?;
    let mut pass = sit(rt, hub)?;
    let filter = Batch::Filter(b"f");
    let first = step(rt, alloc, hub, &mut pass, &mut lens, filter, 0)?;
    let early = Batch::Rows(0, &EARLY);
    let count = step(rt, alloc, hub, &mut pass, &mut lens, early, first)?;
    let count = step(
        rt,
        alloc,
        hub,
        &mut pass,
        &mut lens,
        Batch::Moment(500),
        count,
    )?;
    let late = Batch::Rows(0, &LATE);
    let count = step(rt, alloc, hub, &mut pass, &mut lens, late, count)?;
    step(
        rt,
        alloc,
        hub,
        &mut pass,
        &mut lens,
        Batch::Moment(1200),
        count,
    )?;
    tell(rt, alloc, &mut lens, first)
}

/// Runs over a hub of this fleet.
pub fn follow<J: Naming, R: Print + Wait>(rt: &R, alloc: Global, opening: Opening) -> Result<()>
    requires { opening.of ≡ J.book }
{
    let hub = Hub::<J, &R>::new(alloc, rt, opening, 1)?;
    run(rt, alloc, &hub)
}
