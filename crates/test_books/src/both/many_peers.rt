//! A fleet of eighty peers with the same few keys: more peers than rows of a key lie side by side.

use crate::both::deeds::{Deed, Row};
use anyhow::Result;
use std::alloc::Global;

/// How many peers there are.
pub const PEERS: u64 = 80;

/// How many things happen once they sit.
pub const DEEDS: u64 = 600;

/// Its tables, filters and ranked lists.
const TABLES: &str = "table addresses type ip size 100 store gpc0,http_req_rate(10)
table strings type string len 64 size 100 store gpc0,http_req_rate(10)
filter standing addresses data.gpc0 gt 900
filter busy addresses data.http_req_rate gt 60
rank counts addresses gpc0 3
rank rates strings http_req_rate 3
";

/// Its configuration, made once more where an allocation failed.
pub fn fleet(alloc: Global) -> Result<String> {
    match text_of(alloc) {
        Err(_) => text_of(alloc),
        text => text,
    }
}

fn text_of(alloc: Global) -> Result<String> {
    let mut text = String::new(alloc);
    text.push_str("name agg\n")?;
    for peer in 0..PEERS {
        let line = format!(in alloc; "peer lb{peer}\n")?;
        text.push_str(line.as_str())?;
    }
    text.push_str(TABLES)?;
    Ok(text)
}

/// What happens at a number: mostly a row comes, five of a peer in turn, and the peers in a
/// scattered order; at times the clock goes on, or a key is cleared.
pub fn deed(number: u64, moment: u64) -> Deed {
    if number % 250 == 249 {
        return Deed::ClearKey(0, (number / 250 % 2) as u16);
    }
    if number % 24 == 23 {
        return Deed::Moment(moment.saturating_add(number % 3));
    }
    put(number)
}

// A row of one of two keys, which mostly stays.
fn put(number: u64) -> Deed {
    let peer = number / 5 % PEERS * 37 % PEERS;
    let life = match number % 7 {
        4 => Some(60),
        5 => Some(9),
        6 => Some(3),
        _ => None,
    };
    let row = Row {
        peer: peer as usize,
        table: usize::from(number % 10 == 9),
        key: (number % 2) as u16,
        life,
        count: (number % 60 * 7 % 60) as u32,
    };
    Deed::Put(peer + 1, row)
}
