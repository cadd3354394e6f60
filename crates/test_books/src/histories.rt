//! A book over histories that are worked out by hand, each of a few rows and then some moments.
//!
//! What it answers at each moment is printed: how many keys have a row, how many the filter holds
//! and when that changes next, each summed row, and the ranked list. Then what is taken and what is
//! dropped where all rows have a bound. Then ranked lists of values that are alike, fallen, steep
//! or level, and how many keys each looked at.
mod bound;
mod fleet;
mod lists;
mod runs;

use crate::histories::fleet::{fleet, happen, put};
use crate::histories::runs::{RUNS, Run};
use agg_types::What;
use anyhow::Result;
use book::Book;
use fleet_model::Summed;
use std::alloc::Global;

/// A summed row: its peers, the ms that it has left, and each value that isn't 0 with its column's
/// place.
fn show_row(rt: &impl Print, key: &[u8], sums: Summed) -> Result<()> {
    print!(rt; "  row {key:?}: peers {}, left {:?}", sums.peers, sums.left)?;
    for (place, value) in sums.values.iter().enumerate() {
        if *value > 0 {
            print!(rt; ", value {place} is {value}")?;
        }
    }
    println!(rt;)?;
    Ok(())
}

fn show_filter(rt: &impl Print, alloc: Global, book: &Book) -> Result<()> {
    if book.config().filters.len() > 0 {
        let held = book.filter_keys(0).into_vec(alloc)?.len();
        let next = book.next_change(0);
        println!(rt; "  filter: keys {held}, next {next:?}")?;
    }
    Ok(())
}

fn show_rows(rt: &impl Print, alloc: Global, book: &Book) -> Result<()> {
    for (key, sums) in book.rows(alloc, 0)? {
        show_row(rt, key.as_slice(), sums)?;
    }
    Ok(())
}

fn show_rank(rt: &impl Print, alloc: Global, book: &Book) -> Result<()> {
    if book.config().ranks.len() > 0 {
        for (key, value) in book.top(alloc, 0)? {
            println!(rt; "  rank {:?}: {value}", key.as_slice())?;
        }
    }
    Ok(())
}

/// What the book answers of its only table.
fn show(rt: &impl Print, alloc: Global, book: &Book) -> Result<()> {
    println!(rt; " moment {}: used {}", book.moment(), book.used(0))?;
    show_filter(rt, alloc, book)?;
    show_rows(rt, alloc, book)?;
    show_rank(rt, alloc, book)
}

fn play(rt: &impl Print, alloc: Global, run: &Run) -> Result<()> {
    println!(rt; "{}", run.name)?;
    let mut book = fleet(alloc, run)?;
    for row in run.rows {
        put(alloc, &mut book, row)?;
    }
    for moment in run.moments {
        happen(&mut book, 0, &What::Moment(*moment))?;
        show(rt, alloc, &book)?;
    }
    Ok(())
}

/// Plays each.
pub fn run(rt: &impl Print, alloc: Global) -> Result<()> {
    for run in RUNS {
        play(rt, alloc, &run)?;
    }
    bound::run(rt, alloc)?;
    lists::run(rt, alloc)
}
