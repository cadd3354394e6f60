//! Room that is made beforehand, values that are exchanged, and how many places are filled.

use crate::laying::{has_value, key, lay_key};
use agg_types::Key;
use anyhow::Result;
use place_index::PlaceIndex;
use std::alloc::Global;

/// How many keys there are.
const NUMBER: u32 = 3000;

/// Makes room for so many keys, once more where memory was refused.
fn reserve(index: &mut PlaceIndex<Key, u32>, keys: usize) -> Result<()> {
    if index.reserve(keys).is_err() {
        index.reserve(keys)?;
    }
    Ok(())
}

/// Lays keys down, and answers how many found room.
fn lay_all(alloc: Global, index: &mut PlaceIndex<Key, u32>, from: u32, to: u32) -> Result<u32> {
    let mut laid = 0u32;
    for number in from..to {
        let before = index.count();
        lay_key(index, key(alloc, number)?, number);
        if index.count() > before {
            laid = laid.saturating_add(1);
        }
    }
    Ok(laid)
}

/// Adds one to the value in every other place, and answers how many were exchanged.
fn exchange(index: &mut PlaceIndex<Key, u32>) -> u32 {
    let mut exchanged = 0u32;
    for at in 0..index.places() {
        let Some(value) = index.value(at).copied() else {
            continue;
        };
        if at % 2 == 0 && index.replace(at, value.saturating_add(1)) == Some(value) {
            exchanged = exchanged.saturating_add(1);
        }
    }
    exchanged
}

/// How many keys have the value that is one above their number.
fn raised(alloc: Global, index: &PlaceIndex<Key, u32>) -> Result<u32> {
    let mut count = 0u32;
    for number in 0..NUMBER {
        if has_value(alloc, index, number, number.saturating_add(1))? {
            count = count.saturating_add(1);
        }
    }
    Ok(count)
}

/// Lays keys into room that was made for them.
fn fill(rt: &HostRuntime, index: &mut PlaceIndex<Key, u32>) -> Result<()> {
    reserve(index, 3000)?;
    let laid = lay_all(rt.alloc(), index, 0, NUMBER)?;
    let count = index.count();
    println!(rt; "{laid} of {NUMBER} keys laid into room made for them, {count} counted")?;
    Ok(())
}

/// Exchanges values.
fn exchange_some(rt: &HostRuntime, index: &mut PlaceIndex<Key, u32>) -> Result<()> {
    let exchanged = exchange(index);
    let raised = raised(rt.alloc(), index)?;
    println!(rt; "{exchanged} values exchanged, {raised} found")?;
    Ok(())
}

/// Empties a place, twice.
fn empty(rt: &HostRuntime, index: &mut PlaceIndex<Key, u32>) -> Result<()> {
    index.remove(0);
    index.remove(0);
    let nothing = index.replace(0, 5).is_none();
    println!(rt; "nothing exchanged in an empty place: {nothing}")?;
    println!(rt; "{} of {} places filled", index.count(), index.places())?;
    Ok(())
}

/// Lays one more key down.
fn lay_more(rt: &HostRuntime, index: &mut PlaceIndex<Key, u32>) -> Result<()> {
    reserve(index, 1)?;
    let laid = lay_all(rt.alloc(), index, NUMBER, NUMBER + 1)?;
    println!(rt; "{laid} further key, {} places", index.places())?;
    Ok(())
}

/// Prints whether room for any number of keys is refused.
fn refuse(rt: &HostRuntime, index: &mut PlaceIndex<Key, u32>) -> Result<()> {
    let refused = index.reserve(usize::MAX).is_err();
    println!(rt; "room for any number of keys refused: {refused}")?;
    Ok(())
}

fn run_all(rt: &HostRuntime, index: &mut PlaceIndex<Key, u32>) -> Result<()> {
    refuse(rt, index)?;
    fill(rt, index)?;
    exchange_some(rt, index)?;
    empty(rt, index)?;
    lay_more(rt, index)
}

/// Lays keys into room that was made for them, exchanges values, and empties places.
pub fn run(rt: &HostRuntime) -> Result<()> {
    let mut index = PlaceIndex::<Key, u32>::new(rt.alloc());
    run_all(rt, &mut index)
}
