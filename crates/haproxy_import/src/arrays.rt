//! Comments on arrays, whose first two elements are kept as columns. No clause says what they tell.

use crate::columns::Described;
use crate::page::Page;
use agg_types::{Col, NoMemory};
use haproxy_cfg::{MOST_ELEMENTS, array_len, array_period, stored_period};
use line_words::next_part;

/// What an item of a `store` list says of an array.
#[derive(Clone, Copy)]
pub(crate) struct Array<'a> {
    is_rate: bool,
    item: &'a [u8],
    // Behind the comma, where the array has a period.
    period: Option<&'a [u8]>,
}

/// The array that an item of a list names, and what is left of the list; none where it names none.
pub(crate) fn array_of<'a>(item: &'a [u8], rest: Option<&'a [u8]>) -> Option<Array<'a>> {
    if item.starts_with(b"gpc(") {
        Some(Array {
            is_rate: false,
            item,
            period: None,
        })
    } else if item.starts_with(b"gpc_rate(") {
        Some(Array {
            is_rate: true,
            item,
            period: behind_comma(item, rest),
        })
    } else {
        None
    }
}

// What stands behind an item's comma, where no parenthesis closes it before.
fn behind_comma<'a>(item: &[u8], rest: Option<&'a [u8]>) -> Option<&'a [u8]> {
    match rest {
        Some(rest) if !item.ends_with(b")") => Some(next_part(rest, b',').0),
        _ => None,
    }
}

/// Tells which columns an array is kept as, or why it isn't kept.
pub(crate) fn tell_array(
    page: &mut Page<'_>,
    table: Described<'_>,
    array: Array<'_>,
) -> Result<(), NoMemory> {
    let Some(period) = array_period(array.is_rate, array.period.unwrap_or(b"")) else {
        put_array(page, table, array, b"")?;
        return page.put(&[b" isn't kept, its period isn't read here\n"]);
    };
    let Some(count) = array_len(array.is_rate, array.item) else {
        put_array(page, table, array, b"")?;
        page.put(&[b" isn't kept, an array has 1 to "])?;
        page.number(MOST_ELEMENTS)?;
        return page.put(&[b" elements\n"]);
    };
    if is_kept(table, array, count, period) {
        tell_kept(page, table, array, count)
    } else {
        put_array(page, table, array, b"")?;
        page.put(&[b" isn't kept whole, another period stands beside it\n"])
    }
}

// The columns that an array's first two elements are.
fn first(is_rate: bool) -> Col {
    if is_rate { Col::Gpc0Rate } else { Col::Gpc0 }
}

fn second(is_rate: bool) -> Col {
    if is_rate { Col::Gpc1Rate } else { Col::Gpc1 }
}

// Whether those of them that the array has are stored with its period.
fn is_kept(table: Described<'_>, array: Array<'_>, count: u64, period: u32) -> bool {
    stored_period(first(array.is_rate), table.rest) == Some(period)
        && (count < 2 || stored_period(second(array.is_rate), table.rest) == Some(period))
}

fn tell_kept(
    page: &mut Page<'_>,
    table: Described<'_>,
    array: Array<'_>,
    count: u64,
) -> Result<(), NoMemory> {
    let first = first(array.is_rate).name().as_bytes();
    let second = second(array.is_rate).name().as_bytes();
    if count > 2 {
        put_array(page, table, array, b"of ")?;
        return page.put(&[
            b" the first two are kept, as ",
            first,
            b" and ",
            second,
            b"\n",
        ]);
    }
    put_array(page, table, array, b"")?;
    page.put(&[b" is kept as ", first])?;
    if count == 2 {
        page.put(&[b" and ", second])?;
    }
    page.put(&[b"\n"])
}

fn put_array(
    page: &mut Page<'_>,
    table: Described<'_>,
    array: Array<'_>,
    before: &[u8],
) -> Result<(), NoMemory> {
    page.begin(table.line)?;
    page.put(&[b"table ", table.name, b": ", before, array.item])?;
    match array.period {
        None => Ok(()),
        Some(period) => page.put(&[b",", period]),
    }
}
