//! Comments on tables that are left out. No clause says what they tell.

use crate::columns::Described;
use crate::page::Page;
use crate::same::same_table;
use agg_config::type_of;
use agg_types::limits::{LONGEST_KEY, MOST_TABLES};
use agg_types::{NoMemory, Shape};
use haproxy_cfg::{kind_of, plain_name, value_of};

/// A table whose type, length or size isn't read.
pub(crate) fn tell_unread(page: &mut Page<'_>, table: Described<'_>) -> Result<(), NoMemory> {
    let kind = value_of(table.rest, b"type");
    let size = value_of(table.rest, b"size");
    if kind.is_empty() {
        left_out(page, table, &[b"it has no type"])
    } else if type_of(kind).is_none() {
        let known = b" isn't ip, ipv4, ipv6, integer, string or binary";
        left_out(page, table, &[b"type ", kind, known])
    } else if kind_of(table.rest).is_none() {
        let len = value_of(table.rest, b"len");
        left_out(page, table, &[b"len ", len, b" is no number"])
    } else if size.is_empty() {
        left_out(page, table, &[b"it has no size"])
    } else {
        let known = b" is no number, nor one with k, m or g behind it";
        left_out(page, table, &[b"size ", size, known])
    }
}

/// A table whose name or whose length of keys may not be.
pub(crate) fn tell_unfit(
    page: &mut Page<'_>,
    table: Described<'_>,
    shape: &Shape,
) -> Result<(), NoMemory> {
    if !plain_name(table.name) {
        let known = b"a name is 1 to 128 letters, digits, or - . / : _";
        return left_out(page, table, &[known]);
    }
    begin(page, table)?;
    page.put(&[b"its keys have "])?;
    page.number(shape.kind.given_length().unwrap_or(0))?;
    page.put(&[b" bytes, and 1 to "])?;
    page.number(LONGEST_KEY)?;
    page.put(&[b" may be\n"])
}

/// A table whose name another one has, which stands in this line. Nothing is told where both are
/// the same.
pub(crate) fn tell_again(
    page: &mut Page<'_>,
    table: Described<'_>,
    shape: &Shape,
    kept: &Shape,
    line: u64,
) -> Result<(), NoMemory> {
    if same_table(kept, shape) {
        return Ok(());
    }
    begin(page, table)?;
    page.place(line)?;
    page.put(&[b" has one of this name, and it differs\n"])
}

/// A table behind as many as may be.
pub(crate) fn tell_full(page: &mut Page<'_>, table: Described<'_>) -> Result<(), NoMemory> {
    begin(page, table)?;
    page.number(MOST_TABLES as u64)?;
    page.put(&[b" stand before it, the most here\n"])
}

fn begin(page: &mut Page<'_>, table: Described<'_>) -> Result<(), NoMemory> {
    page.begin(table.line)?;
    page.put(&[b"table ", table.name, b" is left out: "])
}

fn left_out(page: &mut Page<'_>, table: Described<'_>, why: &[&[u8]]) -> Result<(), NoMemory> {
    begin(page, table)?;
    page.put(why)?;
    page.put(&[b"\n"])
}
