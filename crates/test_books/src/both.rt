//! Runs lists of events through two books side by side: one takes them one by one, the other what
//! follows one another at a seat as one run, as a hub hands it over.
//!
//! Compares the books behind each run: rows, updates that weren't taken, sets and next
//! changes. Prints how many events and runs there were, how many answers differ and how many were
//! compared. Then what no contract says: how many values were read for filters, how many updates
//! weren't taken for want of room, of how many runs the flips were known, and how many these were.
//!
//! An event for which an allocation failed has to leave each answer as it was, and then happens
//! once more. A run for which one failed goes on from where it came to. `test_books again` compares
//! at the end of a list and where an allocation failed: `tools/check/refused_growths.py` lets its
//! allocations fail in turn.
mod answers;
mod deeds;
mod drawn;
mod fleet;
mod many_peers;
mod worked;

use crate::both::deeds::Deed;
use crate::both::drawn::Draw;
use crate::both::fleet::{FEW, MANY, OF_SECONDS, Pair};
use crate::both::worked::Worked;
use anyhow::Result;
use std::alloc::Global;

/// How many events are drawn for a list.
const DRAWN: u32 = 300;

/// How many rows end in one ms.
const CROWD: u16 = 1_000;

/// Two books to which nothing has happened, made once more where an allocation failed.
fn opened(alloc: Global, fleet: &str, often: bool) -> Result<Pair> {
    match Pair::of(alloc, fleet, often) {
        Err(_) => Pair::of(alloc, fleet, often),
        opened => opened,
    }
}

/// What is printed whichever allocation fails.
fn tell(rt: &impl Print, name: &str, pair: &Pair) -> Result<()> {
    let (events, differ) = (pair.counts.events, pair.differ);
    println!(rt; "{name}: {events} events, {differ} answers differ")?;
    Ok(())
}

fn tell_compared(rt: &impl Print, pair: &Pair) -> Result<()> {
    let (runs, seen) = (pair.counts.runs, pair.seen);
    println!(rt;
        "  {runs} runs; {} rows, {} keys of filters and {} changes compared",
        seen.rows, seen.keys, seen.changes
    )?;
    Ok(())
}

fn tell_counts(rt: &impl Print, pair: &Pair) -> Result<()> {
    let counts = pair.counts;
    println!(rt;
        "  values read {}, updates dropped {}; {} flips, known of {} runs",
        counts.read, counts.dropped, counts.flips, counts.told
    )?;
    Ok(())
}

/// Ends a list, and tells how it went.
fn end(rt: &impl Print, alloc: Global, name: &str, pair: &mut Pair, often: bool) -> Result<()> {
    pair.end(alloc)?;
    tell(rt, name, pair)?;
    if often {
        tell_compared(rt, pair)?;
        tell_counts(rt, pair)?;
    }
    Ok(())
}

/// Events, one after the other.
fn take(alloc: Global, pair: &mut Pair, deeds: &[Deed]) -> Result<()> {
    for deed in deeds {
        pair.happen(alloc, *deed)?;
    }
    Ok(())
}

/// Worked events, which are compared behind each run or only at their end.
fn play(rt: &impl Print, alloc: Global, list: &Worked, often: bool) -> Result<()> {
    let mut pair = opened(alloc, list.fleet, often)?;
    take(alloc, &mut pair, list.start)?;
    take(alloc, &mut pair, list.deeds)?;
    end(rt, alloc, list.name, &mut pair, often)
}

/// Events that are drawn, with lives and moments that are near, or far from one another.
fn draw(rt: &impl Print, alloc: Global, near: bool, often: bool) -> Result<()> {
    let (name, fleet) = if near {
        ("drawn, near", FEW)
    } else {
        ("drawn, far", MANY)
    };
    let mut pair = opened(alloc, fleet, often)?;
    let mut draw = Draw::new(near);
    for _event in 0..DRAWN {
        let deed = draw.deed(&pair);
        pair.happen(alloc, deed)?;
    }
    end(rt, alloc, name, &mut pair, often)
}

/// Many rows that end in one ms, as the clock comes close and then goes over it.
fn crowd(rt: &impl Print, alloc: Global) -> Result<()> {
    let mut pair = opened(alloc, MANY, true)?;
    take(alloc, &mut pair, worked::ONE_PEER)?;
    for n in 0..CROWD {
        pair.happen(alloc, worked::of_crowd(n))?;
    }
    take(alloc, &mut pair, &[Deed::Moment(49), Deed::Moment(50)])?;
    end(rt, alloc, "crowd", &mut pair, true)
}

/// A filter on rates that fall below its bound at 167: what is read as the clock comes to 1, 166
/// and 167.
fn falling(rt: &impl Print, alloc: Global) -> Result<()> {
    let mut pair = opened(alloc, OF_SECONDS, true)?;
    take(alloc, &mut pair, worked::TWO_PEERS)?;
    for deed in worked::FALLING {
        pair.happen(alloc, *deed)?;
        if let Deed::Moment(moment) = deed {
            println!(rt; "  at {moment}: values read {}", pair.counts.last_read)?;
        }
    }
    end(rt, alloc, "falling", &mut pair, true)
}

/// Eighty peers with the same few keys.
fn of_eighty(rt: &impl Print, alloc: Global, often: bool) -> Result<()> {
    let fleet = many_peers::fleet(alloc)?;
    let mut pair = opened(alloc, fleet.as_str(), often)?;
    pair.happen(alloc, Deed::Sit(0))?;
    for peer in 0..many_peers::PEERS {
        pair.happen(alloc, Deed::Sit(peer + 1))?;
        pair.happen(alloc, Deed::Open(peer + 1, peer as usize))?;
    }
    for number in 0..many_peers::DEEDS {
        let deed = many_peers::deed(number, pair.moment());
        pair.happen(alloc, deed)?;
    }
    end(rt, alloc, "many peers", &mut pair, often)
}

/// Takes the lists of which each allocation fails in turn.
pub fn run_again(rt: &impl Print, alloc: Global) -> Result<()> {
    for list in [
        worked::RECONNECT,
        worked::SIZE_LIMIT,
        worked::ROW_BOUND,
        worked::DROPS,
    ] {
        play(rt, alloc, &list, false)?;
    }
    draw(rt, alloc, true, false)?;
    of_eighty(rt, alloc, false)
}

/// Takes all lists.
pub fn run(rt: &impl Print, alloc: Global) -> Result<()> {
    for list in worked::ALL {
        play(rt, alloc, &list, true)?;
    }
    draw(rt, alloc, true, true)?;
    draw(rt, alloc, false, true)?;
    falling(rt, alloc)?;
    of_eighty(rt, alloc, true)?;
    crowd(rt, alloc)
}
