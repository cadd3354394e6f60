//! Comments on sizes: for how many new keys a table has room. No clause says what they tell.

use crate::columns::Described;
use crate::page::Page;
use agg_types::limits::LARGEST_SIZE;
use agg_types::{Col, NoMemory, Shape};
use haproxy_cfg::{ms_of, value_of};

/// The rule, before the tables.
pub(crate) const RULE: &[u8] = b"\
# A table has twice the size that it has in a proxy. A row stays here for its whole expire, at\n\
# most for keep, also where a full proxy has dropped it. So a size has to be at least a proxy's\n\
# new keys a second times that in seconds. Where a table is full for a proxy, that proxy's new\n\
# keys are dropped: raise the size here, or shorten expire there.\n";

/// Tells for how many new keys of a proxy a table has room, and why its rows go before they end.
pub(crate) fn tell_room(
    page: &mut Page<'_>,
    table: Described<'_>,
    shape: &Shape,
) -> Result<(), NoMemory> {
    if shape.size == LARGEST_SIZE {
        let size = value_of(table.rest, b"size");
        page.begin(table.line)?;
        page.put(&[b"size ", size, b" there, at most "])?;
        page.number(LARGEST_SIZE)?;
        page.put(&[b" rows of each proxy here\n"])?;
    }
    match shape.keep {
        None => tell_expire(page, table, shape.size),
        Some(keep) => tell_keep(page, table, shape.size, keep),
    }
}

fn tell_expire(page: &mut Page<'_>, table: Described<'_>, size: u64) -> Result<(), NoMemory> {
    let expire = value_of(table.rest, b"expire");
    if expire.is_empty() {
        let why = b"without expire there rows stay here, and a full table takes no new keys";
        return page.comment(table.line, &[why]);
    }
    match ms_of(expire) {
        None => page.comment(table.line, &[b"expire ", expire, b" isn't read here"]),
        Some(life) => {
            put_room(page, table, size)?;
            page.put(&[b"expire ", expire])?;
            put_pace(page, size, u64::from(life))
        }
    }
}

fn tell_keep(
    page: &mut Page<'_>,
    table: Described<'_>,
    size: u64,
    keep: u64,
) -> Result<(), NoMemory> {
    page.begin(table.line)?;
    page.put(&[b"keep "])?;
    page.number(keep)?;
    page.put(&[b": its rates are 0 after two periods, so no row has to stay for "])?;
    let expire = value_of(table.rest, b"expire");
    if expire.is_empty() {
        page.put(&[b"ever\n"])?;
    } else {
        page.put(&[b"expire ", expire, b"\n"])?;
    }
    put_room(page, table, size)?;
    page.put(&[b"keep "])?;
    page.number(keep)?;
    put_pace(page, size, keep)
}

fn put_room(page: &mut Page<'_>, table: Described<'_>, size: u64) -> Result<(), NoMemory> {
    page.begin(table.line)?;
    page.put(&[b"room for "])?;
    page.number(size)?;
    page.put(&[b" new keys of each proxy within "])
}

// How many keys of this life, in ms, may come each second.
fn put_pace(page: &mut Page<'_>, size: u64, life: u64) -> Result<(), NoMemory> {
    page.put(&[b", "])?;
    page.number(size.min(LARGEST_SIZE) * 1000 / life.max(1))?;
    page.put(&[b" a second\n"])
}

/// The first rate that a table stores.
pub(crate) fn first_rate(shape: &Shape) -> Option<Col> {
    for (col, _) in shape.cols.as_slice() {
        if col.is_rate() {
            return Some(*col);
        }
    }
    None
}
