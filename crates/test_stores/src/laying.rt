//! Inserts that are made once more where memory was refused.

use agg_types::{Key, NoMemory};
use anyhow::{Result, anyhow};
use place_index::PlaceIndex;
use std::alloc::Global;

/// The key of a number: its four bytes.
pub fn key(alloc: Global, number: u32) -> Result<Key, NoMemory> {
    Key::copy(alloc, &number.to_be_bytes())
}

/// Where the key of a number lies.
pub fn place(alloc: Global, index: &PlaceIndex<Key, u32>, number: u32) -> Result<Option<usize>> {
    Ok(index.find(&key(alloc, number)?))
}

/// Where a key lies, or comes to lie, with a number as its value. None where memory was refused.
pub fn lay_key(index: &mut PlaceIndex<Key, u32>, wanted: Key, number: u32) -> Option<usize> {
    match index.find(&wanted) {
        Some(at) => Some(at),
        None => index.insert(wanted, number).ok(),
    }
}

/// Inserts the key of a number, with it as its value, and answers where, or where it lies already.
pub fn lay(alloc: Global, index: &mut PlaceIndex<Key, u32>, number: u32) -> Result<usize> {
    let before = index.places();
    match lay_key(index, key(alloc, number)?, number) {
        Some(at) => Ok(at),
        None => lay_again(alloc, index, number, before),
    }
}

/// Inserts it once more, where the first time nothing may have changed.
fn lay_again(
    alloc: Global,
    index: &mut PlaceIndex<Key, u32>,
    number: u32,
    before: usize,
) -> Result<usize> {
    let wanted = key(alloc, number)?;
    if index.places() != before || index.find(&wanted).is_some() {
        return Err(anyhow!("a refused insert changed something"));
    }
    lay_key(index, wanted, number).ok_or(anyhow!("refused again"))
}

/// Inserts the keys from a number up to another.
pub fn lay_from(alloc: Global, index: &mut PlaceIndex<Key, u32>, from: u32, to: u32) -> Result<()> {
    for number in from..to {
        lay(alloc, index, number)?;
    }
    Ok(())
}

/// Empties every place whose number so many divide.
pub fn thin(index: &mut PlaceIndex<Key, u32>, each: usize) {
    for at in 0..index.places() {
        if at.checked_rem(each) == Some(0) {
            index.remove(at);
        }
    }
}

/// Whether the key of a number lies in a place that has this value.
pub fn has_value(
    alloc: Global,
    index: &PlaceIndex<Key, u32>,
    number: u32,
    value: u32,
) -> Result<bool> {
    match place(alloc, index, number)? {
        Some(at) => Ok(index.value(at).copied() == Some(value)),
        None => Ok(false),
    }
}

/// How many of the keys from a number up to another are there, each where its value says so.
pub fn held(alloc: Global, index: &PlaceIndex<Key, u32>, from: u32, to: u32) -> Result<u32> {
    let mut count = 0u32;
    for number in from..to {
        if has_value(alloc, index, number, number)? {
            count = count.saturating_add(1);
        }
    }
    Ok(count)
}
