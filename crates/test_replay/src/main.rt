//! Runs rows of the peers protocol on the codec and on a session, from below a replay.
//!
//! Then replays each script that is named on standard input, a name a line, and prints how it ended
//! and what it printed. The scripts lie in `data/`. Then come scripts whose reading or writing
//! fails, one whose output is watched as it is read, and scripts with lines of 10 MB, with how each
//! ends.
//!
//! Last come the steps of a fleet itself, one by one and then as one run. `test_replay again` makes
//! them one by one alone, and `tools/check/refused_growths.py` lets allocations of that fail in
//! turn.
#![tactic(auto)]

mod failing;
mod lines;
mod order;
mod protocol;
mod scripts;
mod steps;

use anyhow::Result;
use std::env::Env;
use std::io;

/// Replays all scripts.
fn replay_all(rt: &HostRuntime) -> io::Result<()> {
    scripts::show(rt)?;
    failing::show_reads(rt)?;
    failing::show_writes(rt)?;
    order::show(rt)?;
    lines::show(rt)
}

/// Whether the steps of the fleet are asked for alone.
fn is_again(rt: &HostRuntime) -> Result<bool> {
    Ok(std::env::args(rt)?.any(|word| word.as_str() == "again"))
}

fn main(rt: HostRuntime) -> Result<()> {
    if is_again(&rt)? {
        return steps::show(&rt);
    }
    protocol::run(&rt)?;
    replay_all(&rt)?;
    steps::show(&rt)?;
    steps::show_whole(&rt)
}
