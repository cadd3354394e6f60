//! Runs a hub, in one thread, in two and in three, and prints what its posts and looks show.
//!
//! Seats, posts, receipts and looks in one thread come first; then what came into a filter's set
//! and left it between two looks. Two passes add the same filter. A thread appends inside a look,
//! which shows the same a thousand times, beside one that posts. Two passes and a lens have a
//! thread each.
//!
//! A seat leaves while all are taken: `test_hub leave` runs that alone. Then posts, seats, lenses
//! and leaves, each made anew where an allocation failed. So what is printed of these is the same
//! whichever allocation fails: `test_hub again` runs them alone. `tools/check/refused_growths.py`
//! lets the allocations of both fail in turn.
#![tactic(auto)]

mod again;
mod beside;
mod changes;
mod fleet;
mod leaving;
mod no_memory;
mod posting;
mod replaced;
mod seats;
mod shown;
mod trio;
mod twice;

use crate::changes::{filtering, follow};
use crate::leaving::leave_full;
use crate::no_memory::{fleet_opened, opened};
use crate::posting::{late, run_alone};
use crate::twice::add_twice;
use anyhow::Result;
use std::alloc::Global;
use std::env::Env;
use std::marker::Brand;
use std::sync::Wait;
use std::thread::Threads;
use std::time::Clock;
use test_hub_calls::{TRIES, opening};

/// Posts, seats, lenses and leaves, each made once more where an allocation failed.
fn run_again<R: Print + Wait>(rt: &R, alloc: Global) -> Result<()> {
    for _ in 0..TRIES {
        if opened::<Brand, R>(rt, alloc, fleet_opened(alloc)?)? {
            break;
        }
    }
    Ok(())
}

/// A seat that leaves while all are taken.
fn run_leave<R: Print + Wait>(rt: &R, alloc: Global) -> Result<()> {
    leave_full::<Brand, R>(rt, alloc, fleet_opened(alloc)?)
}

/// Runs each.
fn run<R: Print + Threads + Wait + Clock + Copy + Send + Sync>(
    rt: &R,
    alloc: Global,
) -> Result<()> {
    run_alone::<Brand, R>(rt, alloc, opening(alloc)?)?;
    late::<Brand, R>(rt, alloc, opening(alloc)?)?;
    follow::<Brand, R>(rt, alloc, filtering(alloc)?)?;
    add_twice::<Brand, R>(rt, alloc, fleet::opening(alloc)?)?;
    beside::stage::<Brand, R>(rt, alloc, opening(alloc)?)?;
    trio::stage::<Brand, R>(rt, alloc, opening(alloc)?)?;
    run_leave(rt, alloc)?;
    run_again(rt, alloc)
}

/// What is run.
enum Part {
    All,
    Again,
    Leave,
}

/// What a word asks for.
fn asked_part(rt: &HostRuntime) -> Result<Part> {
    for word in std::env::args(rt)? {
        match word.as_str() {
            "again" => return Ok(Part::Again),
            "leave" => return Ok(Part::Leave),
            _ => continue,
        }
    }
    Ok(Part::All)
}

fn main(rt: HostRuntime) -> Result<()> {
    match asked_part(&rt)? {
        Part::All => run(&rt, rt.alloc()),
        Part::Again => run_again(&rt, rt.alloc()),
        Part::Leave => run_leave(&rt, rt.alloc()),
    }
}
