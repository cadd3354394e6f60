//! A short worked example of each important call: what it is given, and what it answers.
//!
//! It is to be read beside the front pages of the crates. What it prints was reckoned by hand.

mod queries;
mod running;
mod texts;
mod wire;

use crate::examples::running::opening;
use anyhow::Result;
use std::alloc::Global;
use std::marker::Brand;
use std::sync::Wait;

/// Shows each.
pub fn run<R: Print + Wait>(rt: &R, alloc: Global) -> Result<()> {
    texts::show(rt, alloc)?;
    wire::show(rt, alloc)?;
    queries::show(rt, alloc)?;
    running::show(rt, alloc)?;
    running::share::<Brand, R>(rt, alloc, opening(alloc)?)
}
