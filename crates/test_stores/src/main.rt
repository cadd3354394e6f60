//! Runs what holds rows, from below, and prints what it answers.
//!
//! Places: finds, inserts and removes keys, also keys whose hashes choose one window and far more
//! than one window holds; exchanges values, and lays keys into room that was made for them. Rows:
//! puts, replaces, takes and clears the rows of two peers and of a hundred, lays rows of packed
//! cells where they lie, and ends rows in portions. Rates, at the moments at which they change, and
//! both kinds of due index on the same entries. Last a standing filter on a value that falls.
//!
//! It shows what no contract says: that these calls succeed while there is memory. Where places or
//! rows are refused memory once, nothing may have changed, and the same call is made again.
#![tactic(auto)]

mod crowded;
mod due;
mod falling;
mod growth;
mod laying;
mod packing;
mod pages;
mod places;
mod portions;
mod rates;
mod rooms;
mod rows;

use anyhow::Result;

/// Runs each.
fn run(rt: &HostRuntime) -> Result<()> {
    places::run(rt)?;
    crowded::run(rt)?;
    growth::run(rt)?;
    rooms::run(rt)?;
    rows::run(rt)?;
    packing::run(rt)?;
    pages::run(rt)?;
    portions::run(rt, rt.alloc())?;
    rates::run(rt)?;
    due::run(rt, rt.alloc())?;
    falling::run(rt, rt.alloc())
}

fn main(rt: HostRuntime) -> Result<()> {
    run(&rt)
}
