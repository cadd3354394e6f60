//! Comments on what the collector may tell the proxies. No clause says what they tell.

use crate::columns::Described;
use crate::page::Page;
use crate::sizes::first_rate;
use agg_types::limits::LONGEST_NAME;
use agg_types::{Col, KeyKind, NoMemory, Shape};
use haproxy_cfg::value_of;

/// Before the suggestions.
pub(crate) const HEAD: &[u8] =
    b"# To refuse on every proxy whom the fleet as a whole saw too often: take the # off a filter\n\
# and its push line, give the filter your own bound, and add what stands below them to each\n\
# proxy's haproxy.cfg. src is the client's address: write what the table tracks. expire has\n\
# to be the life of a key exactly: 10s, or the hold of the push line. With a shorter one\n\
# HAProxy from 3.0 on lets a key go before it is told again. With a longer one older versions\n\
# still refuse it when the collector is gone.\n";

/// What ends the name of a filter that is suggested.
const ENDING: &[u8] = b"_over";

/// Suggests a filter on a table with a rate, and the stick table and rule for it; `fleet` is the
/// `peers` section that the table names.
pub(crate) fn suggest(
    page: &mut Page<'_>,
    table: Described<'_>,
    shape: &Shape,
    fleet: &[u8],
) -> Result<(), NoMemory> {
    let name = match table.name {
        [b'/', bare @ ..] => bare,
        name => name,
    };
    match first_rate(shape) {
        Some(col) if name.len() <= LONGEST_NAME - ENDING.len() => {
            put_filter(page, table, name, col)?;
            put_proxy(page, table, shape, name, fleet)
        }
        _ => Ok(()),
    }
}

fn put_filter(
    page: &mut Page<'_>,
    table: Described<'_>,
    name: &[u8],
    col: Col,
) -> Result<(), NoMemory> {
    page.put(&[b"#filter ", name, ENDING, b" ", table.name])?;
    page.put(&[b" data.", col.name().as_bytes(), b" gt 100\n"])?;
    page.put(&[b"#push ", name, ENDING, b"\n"])
}

fn put_proxy(
    page: &mut Page<'_>,
    table: Described<'_>,
    shape: &Shape,
    name: &[u8],
    fleet: &[u8],
) -> Result<(), NoMemory> {
    page.put(&[b"#     backend ", name, ENDING, b"\n"])?;
    page.put(&[b"#         stick-table type ", shape.kind.name().as_bytes()])?;
    let len = value_of(table.rest, b"len");
    if !len.is_empty() {
        page.put(&[b" len ", len])?;
    }
    page.put(&[b" size 100k expire 10s store gpc0 peers ", fleet, b"\n"])?;
    let key: &[u8] = match shape.kind {
        KeyKind::Ip | KeyKind::Ipv6 => b"src",
        KeyKind::Integer | KeyKind::Str(_) | KeyKind::Binary(_) => b"<key>",
    };
    page.put(&[b"#     frontend <yours>\n"])?;
    page.put(&[b"#         http-request deny deny_status 429 if { ", key])?;
    page.put(&[b",table_gpc0(", name, ENDING, b") gt 0 }\n"])
}

/// Tells of a table that stores gpc0 alone how it may be one that the collector pushes.
pub(crate) fn tell_target(
    page: &mut Page<'_>,
    table: Described<'_>,
    shape: &Shape,
) -> Result<(), NoMemory> {
    match shape.cols.as_slice() {
        [(Col::Gpc0, _)] => page.comment(
            table.line,
            &[
                b"if ",
                table.name,
                b" is to have a pushed filter's keys, take its line out: no table has its name",
            ],
        ),
        _ => Ok(()),
    }
}
