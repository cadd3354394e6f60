//! Comments on columns. No clause says what they tell.

use crate::arrays::{array_of, tell_array};
use crate::page::Page;
use agg_types::{Col, NoMemory};
use haproxy_cfg::{item_of, period_behind, value_of, word_of};
use line_words::{next_part, next_word, place_of};

/// A table's name, its line in the file, and what follows its name there.
#[derive(Clone, Copy)]
pub(crate) struct Described<'a> {
    pub(crate) line: u64,
    pub(crate) name: &'a [u8],
    pub(crate) rest: &'a [u8],
}

/// Tells the columns of a table that aren't kept here, or under other names; whether all are kept
/// as they stand.
pub(crate) fn tell_columns(page: &mut Page<'_>, table: Described<'_>) -> Result<bool, NoMemory> {
    let before = page.len();
    columns(page, table)?;
    Ok(page.len() == before)
}

fn columns(page: &mut Page<'_>, table: Described<'_>) -> Result<(), NoMemory> {
    let mut left = table.rest;
    'words: while let Some((word, others)) = next_word(left) {
        if word == b"store".as_slice() {
            list(page, table, word_of(others).0)?;
        }
        left = others;
    }
    Ok(())
}

// A comma within parentheses leaves a period, which is no column of its own.
fn list(page: &mut Page<'_>, table: Described<'_>, list: &[u8]) -> Result<(), NoMemory> {
    let mut left = list;
    let mut is_open = false;
    'items: loop {
        let (item, rest) = next_part(left, b',');
        let opens = place_of(item, b'(').is_some();
        let closes = item.last() == Some(&b')');
        if opens || !closes || !is_open {
            entry(page, table, item, rest)?;
        }
        is_open = !closes && (opens || is_open);
        match rest {
            None => return Ok(()),
            Some(rest) => left = rest,
        }
    }
}

// An item, with what is left of its list.
fn entry(
    page: &mut Page<'_>,
    table: Described<'_>,
    item: &[u8],
    rest: Option<&[u8]>,
) -> Result<(), NoMemory> {
    match array_of(item, rest) {
        None => column(page, table, item),
        Some(array) => tell_array(page, table, array),
    }
}

fn column(page: &mut Page<'_>, table: Described<'_>, item: &[u8]) -> Result<(), NoMemory> {
    let name = match place_of(item, b'(') {
        None => item,
        Some(end) => &item[..end],
    };
    match Col::from_name(name) {
        None => not_kept(page, table, name, b""),
        Some(col) => period(page, table, col, item),
    }
}

// An item of a column that is known here. A table stores it with the first period that is read.
fn period(
    page: &mut Page<'_>,
    table: Described<'_>,
    col: Col,
    item: &[u8],
) -> Result<(), NoMemory> {
    match item_of(col, item) {
        None => not_kept(page, table, item, b", its period isn't read here"),
        Some(period) if period_behind(col, table.rest) != Some(period) => {
            not_kept(page, table, item, b", another period stands before it")
        }
        Some(_) => Ok(()),
    }
}

fn not_kept(
    page: &mut Page<'_>,
    table: Described<'_>,
    item: &[u8],
    why: &[u8],
) -> Result<(), NoMemory> {
    page.comment(
        table.line,
        &[b"table ", table.name, b": ", item, b" isn't kept", why],
    )
}

/// Tells where bytes are counted in blocks, of a size that no proxy tells.
pub(crate) fn tell_blocks(page: &mut Page<'_>, table: Described<'_>) -> Result<(), NoMemory> {
    let factor = value_of(table.rest, b"brates-factor");
    if factor.is_empty() {
        return Ok(());
    }
    page.comment(
        table.line,
        &[
            b"table ",
            table.name,
            b": brates-factor ",
            factor,
            b" isn't on the wire: rates of bytes count blocks of ",
            factor,
            b" here",
        ],
    )
}
