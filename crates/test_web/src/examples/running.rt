//! Collectors: a fleet in one thread, and a hub that many share.

ghost use Rattle.std.specs.Prelude.{◌≡◌};

use agg_types::{Items, What};
use anyhow::{Context, Result, anyhow, ensure};
use fleet_core::{Fleet, Step};
use hub::{Hub, Naming, Opening};
use std::alloc::Global;
use std::sync::Wait;
use test_support::{HELLO, TWO_PROXIES, alone, config};

/// `Fleet::step` lets something happen, and answers what is sent to whom.
fn step(rt: &impl Print, alloc: Global, fleet: &mut Fleet, step: &Step) -> Result<()> {
    ensure!(step.fits(alloc, fleet.book().config())?, "it does not fit");
    let replies = fleet.step(step)?;
    println!(rt;
        "to {}: [{}]",
        replies.conn,
        replies.out.as_slice().escape_ascii()
    )?;
    Ok(())
}

/// A peer connects, says its hello and is lost; the clock goes on.
pub fn show(rt: &impl Print, alloc: Global) -> Result<()> {
    let mut fleet = Fleet::new(alloc, config(alloc, TWO_PROXIES)?, 0)?;
    for next in [
        Step::Connect,
        Step::Bytes(1, Items::copy(alloc, HELLO)?),
        Step::Lost(1),
        Step::Moment(10),
    ] {
        step(rt, alloc, &mut fleet, &next)?;
    }
    println!(rt; "fleet: {} ms", fleet.book().moment())?;
    Ok(())
}

/// A fleet, just opened, of which two books are kept.
pub fn opening(alloc: Global) -> Result<Opening> {
    Ok(Opening::new(alloc, config(alloc, TWO_PROXIES)?, 0)?)
}

/// `Hub::seat` gives a seat, `Hub::post` puts a batch of its events into the history, and a lens
/// that learned of the receipt shows them.
fn post<J: Naming, H: Wait + Drop, W: Wait + Print>(
    rt: &W,
    alloc: Global,
    hub: &Hub<J, H>,
) -> Result<()> {
    let mut pass = hub.seat(rt).ok().context("no seat")?;
    let whats = alone(alloc, What::Open(0))?;
    ensure!(hub.allows(&whats), "it does not fit");
    let Ok(receipt) = hub.post(rt, &mut pass, whats) else {
        return Err(anyhow!("refused"));
    };
    let mut lens = hub.lens(rt).ok().context("no lens")?;
    lens.learn(&receipt);
    let look = lens.look().context("no look")?;
    println!(rt;
        "hub: {} events, session {:?}",
        receipt.len(),
        look.book().session_of(0)
    )?;
    Ok(())
}

/// Posts to a new hub, with room for one lens.
pub fn share<J: Naming, R: Print + Wait>(rt: &R, alloc: Global, opening: Opening) -> Result<()>
    requires { opening.of ≡ J.book }
{
    let hub = Hub::<J, &R>::new(alloc, rt, opening, 1)?;
    post(rt, alloc, &hub)
}
