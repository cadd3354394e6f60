//! Lets two proxies call a fleet, break off and call again, beside a clock, a clear and an added
//! filter, and prints what each step sends and what the fleet then holds.
//!
//! A step for which an allocation failed is made once more, so that what is printed stays the same.

ghost use Rattle.std.specs.Prelude.{◌≡◌, IfOk};
ghost use Rattle.fleet_core.specs.Possible.{does_fit};

mod deeds;
mod whole;

use crate::steps::deeds::{Deed, step};
use agg_types::NoMemory;
use anyhow::{Result, anyhow, ensure};
use book::Book;
use fleet_core::{Fleet, FleetFault, Replies, Step};
use std::alloc::Global;
use test_support::{HELLO, TWO_PROXIES, config};
pub use whole::show_whole;

/// The hello of the second proxy, with its first definition and update.
const SECOND: &[u8] = b"HAProxyS 2.1\nagg\nlb2 200 1\n\
    \x0a\x82\x08\x01\x01t\x04\x04\x04\xf8\x2f\x0a\x80\x09\x00\x00\x00\x01\x0a\x00\x00\x01\x02";

/// A definition of the table of addresses with gpc0 and an expiry of 1,000 ms, and updates of
/// 10.0.0.1 and 10.0.0.2.
const OPENING: &[u8] = b"\x0a\x82\x08\x01\x01t\x04\x04\x04\xf8\x2f\
    \x0a\x80\x09\x00\x00\x00\x01\x0a\x00\x00\x01\x02\
    \x0a\x80\x09\x00\x00\x00\x02\x0a\x00\x00\x02\x07";

/// An update of 10.0.0.3 in two pieces.
const HEAD: &[u8] = b"\x0a\x80\x09\x00\x00\x00\x03\x0a\x00";

const TAIL: &[u8] = b"\x00\x03\x01";

/// The first proxy calls again: its hello, its definition and 10.0.0.1 with another count.
const AGAIN: &[u8] = b"HAProxyS 2.1\nagg\nlb1 101 1\n\
    \x0a\x82\x08\x01\x01t\x04\x04\x04\xf8\x2f\x0a\x80\x09\x00\x00\x00\x01\x0a\x00\x00\x01\x09";

/// An update that is longer than any message may be.
const TOO_LONG: &[u8] = b"\x0a\x80\xf1\xf0\x80\x80\x80\x01";

/// What happens, in order.
pub(crate) const DEEDS: [Deed; 17] = [
    Deed::Connect,
    Deed::Send(1, HELLO),
    Deed::Send(1, OPENING),
    Deed::Connect,
    Deed::Send(2, SECOND),
    Deed::Add,
    Deed::Moment(400),
    Deed::Send(1, HEAD),
    Deed::Send(1, TAIL),
    Deed::Clear(&[10, 0, 0, 2]),
    Deed::Lose(2),
    Deed::Send(2, HEAD),
    Deed::Send(1, TOO_LONG),
    Deed::Connect,
    Deed::Send(3, AGAIN),
    Deed::Moment(999),
    Deed::Moment(1000),
];

/// Does a step, once more where an allocation failed.
fn step_again(
    alloc: Global,
    fleet: &mut Fleet,
    step: &Step,
) -> Result<Result<Replies, FleetFault>> {
    match step_once(alloc, fleet, step)? {
        Err(FleetFault::NoMemory) => step_once(alloc, fleet, step),
        done => Ok(done),
    }
}

fn step_once(alloc: Global, fleet: &mut Fleet, step: &Step) -> Result<Result<Replies, FleetFault>> {
    ensure!(fits(alloc, fleet.book(), step)?, "it does not fit");
    Ok(fleet.step(step))
}

/// Whether a step may come, asked once more where an allocation failed.
fn fits(alloc: Global, book: &Book, step: &Step) -> Result<bool, NoMemory>
    ensures { IfOk result (λ fits. fits ≡ does_fit book.now.config step.now) }
{
    match step.fits(alloc, book.config()) {
        Err(NoMemory) => step.fits(alloc, book.config()),
        told => told,
    }
}

/// What a step sent, or why it wasn't done.
fn print_done(
    rt: &impl Print,
    alloc: Global,
    number: usize,
    done: &Result<Replies, FleetFault>,
) -> Result<()> {
    match done {
        Ok(replies) => {
            let out = hex::encode(alloc, replies.out.as_slice())?;
            println!(rt; "{number}: to {}: {}", replies.conn, out.as_str())?;
        }
        Err(FleetFault::Session { cause, out }) => {
            let out = hex::encode(alloc, out.as_slice())?;
            println!(rt; "{number}: ended: {cause}: {}", out.as_str())?;
        }
        Err(fault) => println!(rt; "{number}: {fault}")?,
    }
    Ok(())
}

/// The rows that a fleet holds, and the keys of its filter.
pub(crate) fn print_held(rt: &impl Print, alloc: Global, book: &Book) -> Result<()> {
    for (key, sums) in book.rows(alloc, 0)? {
        let digits = hex::encode(alloc, key.as_slice())?;
        let [gpc0, ..] = sums.values;
        println!(rt;
            "  {} peers={} left={:?} gpc0={gpc0}",
            digits.as_str(),
            sums.peers,
            sums.left
        )?;
    }
    if book.config().filters.is_empty() {
        return Ok(());
    }
    for key in book.filter_keys(0) {
        let digits = hex::encode(alloc, key.as_slice())?;
        println!(rt; "  held: {}", digits.as_str())?;
    }
    Ok(())
}

/// A fleet to which nothing has happened, made once more where an allocation failed.
fn opened(alloc: Global) -> Result<Fleet> {
    let config = match config(alloc, TWO_PROXIES) {
        Err(_) => config(alloc, TWO_PROXIES)?,
        Ok(config) => config,
    };
    Ok(Fleet::new(alloc, config, 0)?)
}

/// The step of a deed, made once more where an allocation failed.
pub(crate) fn made(alloc: Global, deed: Deed) -> Result<Step, NoMemory> {
    match step(alloc, deed) {
        Err(NoMemory) => step(alloc, deed),
        made => made,
    }
}

/// Lets a deed happen, and prints what it sent and what the fleet then holds.
fn play(
    rt: &impl Print,
    alloc: Global,
    fleet: &mut Fleet,
    number: usize,
    deed: Deed,
) -> Result<()> {
    let step = made(alloc, deed)?;
    let done = step_again(alloc, fleet, &step)?;
    ensure!(fleet.waiting() == 0, "events wait");
    print_done(rt, alloc, number, &done)?;
    print_held(rt, alloc, fleet.book())
}

/// Lets the deeds happen to a fleet of two proxies.
pub fn show(rt: &HostRuntime) -> Result<()> {
    let alloc = rt.alloc();
    let mut fleet = opened(alloc)?;
    for (place, deed) in DEEDS.into_iter().enumerate() {
        play(rt, alloc, &mut fleet, place.saturating_add(1), deed)?;
    }
    Ok(())
}
