//! What test programs over a hub share: the fleet that they open, and calls of a hub that are made
//! once more where an allocation failed.
#![tactic(auto)]

ghost use Rattle.std.specs.Prelude.{◌≡◌, IfOk, IfSome};

use agg_types::{What, Whats};
use anyhow::{Result, anyhow, ensure};
use book::Summed;
use hub::{Hub, Lens, Naming, Opening, Pass, PostFault, Receipt, SeatFault};
use std::alloc::Global;
use std::sync::Wait;
use test_support::{TWO_PROXIES, address, alone, config, put};

/// The fleet of two proxies, just opened.
pub fn opening(alloc: Global) -> Result<Opening> {
    let config = config(alloc, TWO_PROXIES)?;
    Ok(Opening::new(alloc, config, 0)?)
}

/// A peer speaks, and puts a count of the address 0.0.0.0.
pub fn batch(alloc: Global, peer: usize, count: u64) -> Result<Whats> {
    let mut whats = alone(alloc, What::Open(peer))?;
    whats.push(put(alloc, peer, 0, count)?)?;
    Ok(whats)
}

/// How often a call is made at most, where an allocation failed.
pub const TRIES: u32 = 4;

/// Takes a seat, by a further call where one had no memory.
pub fn sit<J: Naming, H: Wait + Drop, W: Wait>(rt: &W, hub: &Hub<J, H>) -> Result<Pass>
    ensures { IfOk result (λ p. p.seen.of ≡ hub.now.of) }
{
    for _ in 0..TRIES {
        match hub.seat(rt) {
            Ok(pass) => return Ok(pass),
            Err(SeatFault::NoMemory) => continue,
            Err(SeatFault::NoSeat) => return Err(anyhow!("no seat")),
        }
    }
    Err(anyhow!("no seat again"))
}

/// Makes a lens.
pub fn lens<J: Naming, H: Wait + Drop, W: Wait>(rt: &W, hub: &Hub<J, H>) -> Result<Lens>
    ensures { IfOk result (λ l. l.seen.of ≡ hub.now.of) }
{
    match hub.lens(rt) {
        Ok(lens) => Ok(lens),
        Err(_) => Err(anyhow!("no lens")),
    }
}

/// Posts a batch. What had no memory is posted again, and what is pending is shown by an empty
/// batch.
pub fn post<J: Naming, H: Wait + Drop, W: Wait>(
    rt: &W,
    alloc: Global,
    hub: &Hub<J, H>,
    pass: &mut Pass,
    whats: Whats,
) -> Result<Receipt>
    requires { pass.old.seen.of ≡ hub.now.of }
    ensures { IfOk result (λ r. (r.of ≡ hub.now.of) × (pass.new.seen.of ≡ hub.now.of)) }
{
    ensure!(hub.allows(&whats), "it does not fit");
    match hub.post(rt, pass, whats) {
        Ok(receipt) => Ok(receipt),
        Err(PostFault::NoMemory(back)) => post_again(rt, alloc, hub, pass, back),
        Err(PostFault::Pending) => flush(rt, alloc, hub, pass),
        Err(_) => Err(anyhow!("refused")),
    }
}

/// Posts a batch that came back without memory, behind an empty one: that one has the hub take up
/// what it gave up where an allocation failed.
pub fn post_again<J: Naming, H: Wait + Drop, W: Wait>(
    rt: &W,
    alloc: Global,
    hub: &Hub<J, H>,
    pass: &mut Pass,
    whats: Whats,
) -> Result<Receipt>
    requires { pass.old.seen.of ≡ hub.now.of }
    ensures { IfOk result (λ r. (r.of ≡ hub.now.of) × (pass.new.seen.of ≡ hub.now.of)) }
{
    flush(rt, alloc, hub, pass)?;
    ensure!(hub.allows(&whats), "it does not fit");
    match hub.post(rt, pass, whats) {
        Ok(receipt) => Ok(receipt),
        Err(PostFault::NoMemory(back)) => {
            flush(rt, alloc, hub, pass)?;
            post_once(rt, hub, pass, back)
        }
        Err(PostFault::Pending) => flush(rt, alloc, hub, pass),
        Err(_) => Err(anyhow!("refused again")),
    }
}

/// Posts a batch, which isn't refused.
fn post_once<J: Naming, H: Wait + Drop, W: Wait>(
    rt: &W,
    hub: &Hub<J, H>,
    pass: &mut Pass,
    whats: Whats,
) -> Result<Receipt>
    requires { pass.old.seen.of ≡ hub.now.of }
    ensures { IfOk result (λ r. (r.of ≡ hub.now.of) × (pass.new.seen.of ≡ hub.now.of)) }
{
    ensure!(hub.allows(&whats), "it does not fit");
    match hub.post(rt, pass, whats) {
        Ok(receipt) => Ok(receipt),
        Err(_) => Err(anyhow!("refused once more")),
    }
}

/// Shows all that was posted, by an empty batch.
pub fn flush<J: Naming, H: Wait + Drop, W: Wait>(
    rt: &W,
    alloc: Global,
    hub: &Hub<J, H>,
    pass: &mut Pass,
) -> Result<Receipt>
    requires { pass.old.seen.of ≡ hub.now.of }
    ensures { IfOk result (λ r. (r.of ≡ hub.now.of) × (pass.new.seen.of ≡ hub.now.of)) }
{
    for turn in 0..TRIES {
        let whats = Whats::new(alloc);
        ensure!(hub.allows(&whats), "it does not fit");
        match hub.post(rt, pass, whats) {
            Ok(receipt) => return Ok(receipt),
            Err(PostFault::NoMemory(_)) => continue,
            Err(PostFault::Pending) => continue,
            Err(_) => return Err(anyhow!("an empty batch is refused")),
        }
    }
    Err(anyhow!("nothing is shown"))
}

/// A seat leaves, at the second call where the first one had no memory. None where that is pending.
pub fn leave<J: Naming, H: Wait + Drop, W: Wait>(
    rt: &W,
    hub: &Hub<J, H>,
    pass: Pass,
) -> Result<Option<Receipt>>
    requires { pass.seen.of ≡ hub.now.of }
    ensures { IfOk result (λ left. IfSome left (λ r. r.of ≡ hub.now.of)) }
{
    match hub.leave(rt, pass) {
        Ok(left) => Ok(left),
        Err((pass, PostFault::NoMemory(_))) => leave_once(rt, hub, pass),
        Err(_) => Err(anyhow!("it stays")),
    }
}

/// A seat leaves, which isn't refused. None where that is pending.
pub fn leave_once<J: Naming, H: Wait + Drop, W: Wait>(
    rt: &W,
    hub: &Hub<J, H>,
    pass: Pass,
) -> Result<Option<Receipt>>
    requires { pass.seen.of ≡ hub.now.of }
    ensures { IfOk result (λ left. IfSome left (λ r. r.of ≡ hub.now.of)) }
{
    match hub.leave(rt, pass) {
        Ok(left) => Ok(left),
        Err(_) => Err(anyhow!("it stays once more")),
    }
}

/// A session of its own, which speaks for a peer, puts a count and stays.
pub fn session<J: Naming, H: Wait + Drop, W: Wait>(
    rt: &W,
    alloc: Global,
    hub: &Hub<J, H>,
    peer: usize,
    count: u64,
) -> Result<Receipt>
    ensures { IfOk result (λ r. r.of ≡ hub.now.of) }
{
    let mut pass = sit(rt, hub)?;
    post(rt, alloc, hub, &mut pass, batch(alloc, peer, count)?)
}

/// The sum of the address 0.0.0.0, as a look shows it; 0 where no peer holds it.
pub fn seen(alloc: Global, lens: &mut Lens) -> Result<u64>
    ensures { lens.new.seen.of ≡ lens.old.seen.of }
{
    let key = address(alloc, 0)?;
    let Some(look) = lens.look() else {
        return Err(anyhow!("no look"));
    };
    Ok(first_sum(look.book().summed(0, &key)))
}

/// The first sum of a row, or 0.
pub fn first_sum(summed: Option<Summed>) -> u64 {
    match summed {
        None => 0,
        Some(summed) => summed
            .values
            .as_slice()
            .first()
            .map_or(0, |sum| u64::try_from(*sum).unwrap_or(u64::MAX)),
    }
}
