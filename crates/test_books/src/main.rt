//! Runs a book, and the sums of a fleet's rows, and prints what they answer.
//!
//! First the sums. Then a book over histories that are worked out by hand, and lists of events that
//! two books take, one event by event and one in runs.
//!
//! `test_books again` makes some of these lists alone: an event for which an allocation failed
//! happens once more there, and `tools/check/refused_growths.py` lets them fail in turn.
#![tactic(auto)]

mod both;
mod histories;
mod sums;

use anyhow::Result;
use std::env::Env;

fn main(rt: HostRuntime) -> Result<()> {
    if std::env::args(&rt)?.any(|word| word.as_str() == "again") {
        return both::run_again(&rt, rt.alloc());
    }
    sums::run(&rt)?;
    histories::run(&rt, rt.alloc())?;
    both::run(&rt, rt.alloc())
}
