//! The same things as one run, and runs that can't be made.

use crate::steps::{DEEDS, made, print_held};
use agg_types::{LAST_MOMENT, NoMemory};
use anyhow::Result;
use fleet_core::{Ran, RunFault, Step, run};
use std::alloc::Global;
use test_support::{TWO_PROXIES, config};

/// All steps, in order.
fn all_steps(alloc: Global) -> Result<Vec<Step>, NoMemory> {
    let mut steps = Vec::new(alloc);
    for deed in DEEDS {
        steps.push(made(alloc, deed)?)?;
    }
    Ok(steps)
}

/// What each step of a run sent, and what the fleet then holds.
fn print_ran(rt: &impl Print, alloc: Global, ran: &Ran) -> Result<()> {
    for replies in ran.sent.as_slice() {
        let out = hex::encode(alloc, replies.out.as_slice())?;
        println!(rt; "to {}: {}", replies.conn, out.as_str())?;
    }
    print_held(rt, alloc, ran.fleet.book())
}

/// How a run of some steps from a moment on ends.
fn print_end(rt: &impl Print, alloc: Global, moment: u64, steps: &[Step]) -> Result<()> {
    match run(alloc, config(alloc, TWO_PROXIES)?, moment, steps) {
        Ok(ran) => {
            let done = ran.sent.len();
            println!(rt; "a run of {} steps: {done} done", steps.len())?;
            print_ran(rt, alloc, &ran)
        }
        Err(fault) => print_fault(rt, fault),
    }
}

fn print_fault(rt: &impl Print, fault: RunFault) -> Result<()> {
    println!(rt; "a run ends: {fault}")?;
    Ok(())
}

/// Lets all of it happen in one run. Then come a run that opens above the last moment, and one
/// with a moment above it.
pub fn show_whole(rt: &HostRuntime) -> Result<()> {
    let alloc = rt.alloc();
    let mut steps = all_steps(alloc)?;
    print_end(rt, alloc, 0, steps.as_slice())?;
    print_end(rt, alloc, LAST_MOMENT + 1, steps.as_slice())?;
    steps.push(Step::Moment(LAST_MOMENT + 1))?;
    print_end(rt, alloc, 0, steps.as_slice())
}
