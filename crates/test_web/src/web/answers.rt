//! Lists and figures of a book.

use agg_types::{Cell, Cells, Key, What};
use anyhow::{Result, anyhow};
use book::Book;
use std::alloc::Global;
use std::net::{Ipv4Addr, SocketAddr, SocketAddrV4};
use std::str;
use test_support::{address, config};
use web_lists::{filter_list, one_key, rank_list, row_list, summed_up, table_list};
use web_text::{AskFault, Entries, NotSent, PeerStanding, Standing, figures, overview, peer_list};

/// What the peers put: two rows of one address, one of others, and a text.
fn puts(alloc: Global) -> Result<Vec<What>> {
    let mut whats = Vec::new(alloc);
    for (peer, number, count) in [(0, 7, 3), (1, 7, 4), (0, 9, 2), (1, 1, 8), (0, 300, 5)] {
        whats.push(What::Open(peer))?;
        whats.push(What::Put {
            peer,
            table: 0,
            key: address(alloc, number)?,
            life: Some(60_000),
            cells: Cells::copy(alloc, &[Cell::Count(count), Cell::Count(0)])?,
        })?;
    }
    whats.push(What::Put {
        peer: 0,
        table: 1,
        key: Key::copy(alloc, b"a \"b\" \\ %\n")?,
        life: None,
        cells: Cells::copy(alloc, &[Cell::Count(1)])?,
    })?;
    whats.push(What::Moment(1500))?;
    Ok(whats)
}

/// A book of these.
fn book(alloc: Global) -> Result<Book> {
    let mut book = Book::new(alloc, config(alloc, crate::web::CONFIG)?, 0)?;
    book.apply(0, 0, &What::Sit)?;
    let mut number = 1;
    for what in puts(alloc)? {
        book.apply(0, number, &what)?;
        number = number.saturating_add(1);
    }
    Ok(book)
}

/// A column that the first of two peers doesn't send.
fn not_sent(alloc: Global) -> Result<Vec<Vec<NotSent>>> {
    let mut columns = Vec::new(alloc);
    columns.push(NotSent {
        table: Vec::from_slice(alloc, b"/t")?,
        reason: format!(in alloc; "gpc1 isn't sent")?,
    })?;
    let mut peers = Vec::new(alloc);
    peers.push(columns)?;
    peers.push(Vec::new(alloc))?;
    Ok(peers)
}

/// What stands of two peers: one is connected, the other one never came.
fn peers(alloc: Global, now: u64) -> Result<Vec<PeerStanding>> {
    let mut peers = Vec::new(alloc);
    let address = SocketAddr::V4(SocketAddrV4::new(Ipv4Addr::new(10, 1, 0, 7), 40312));
    peers.push(PeerStanding {
        is_connected: true,
        address: Some(address),
        since: Some(200),
        updates: 12,
        last_update: Some(1400),
        unfollowed: 1,
        told: 2,
        learned: 5,
        told_at: Some(now.saturating_sub(120)),
    })?;
    peers.push(PeerStanding {
        is_connected: false,
        address: None,
        since: None,
        updates: 0,
        last_update: None,
        unfollowed: 0,
        told: 0,
        learned: 0,
        told_at: None,
    })?;
    Ok(peers)
}

/// What stands beside it.
pub fn standing(alloc: Global, now: u64) -> Result<Standing> {
    let mut rates = Vec::new(alloc);
    rates.push(7)?;
    rates.push(5)?;
    Ok(Standing {
        version: "1.2.3",
        commit: format!(in alloc; "0123456789abcdef")?,
        now,
        connected: 1,
        updates: 12,
        posts: 4,
        seats: 2,
        waiting: 3,
        refused: 5,
        memory: Some(13_381_632),
        processor: Some(1240),
        began: Some(1_796_123_456_780),
        descriptors: Some(19),
        lost_lines: 0,
        peers: peers(alloc, now)?,
        told: Vec::new(alloc),
        not_sent: not_sent(alloc)?,
        rates,
    })
}

/// Two pushed filters, in another order than they are declared.
const PUSHED: &[u8] = b"name agg\npeer lb1\npeer lb2\ntable t type ip size 10 store gpc0\n\
    filter low t data.gpc0 ge 1\nfilter high t data.gpc0 ge 2\npush high\npush low\n";

/// How many keys of each of them two peers are told.
const TOLD: [[u64; 2]; 2] = [[3, 2], [0, 0]];

/// Shows the figures of what peers are told.
fn show_told(rt: &impl Print, alloc: Global) -> Result<()> {
    let book = Book::new(alloc, config(alloc, PUSHED)?, 0)?;
    let summary = summed_up(alloc, &book, 7, 2550)?;
    let mut standing = standing(alloc, 2600)?;
    for keys in TOLD {
        standing.told.push(Vec::from_slice(alloc, &keys)?)?;
    }
    let text = figures(alloc, book.config(), &summary, &standing)?;
    let Ok(text) = str::from_utf8(text.as_slice()) else {
        return Err(anyhow!("not UTF-8"));
    };
    for line in text.lines() {
        if line.starts_with("sesamejoist_peer_told_keys") {
            println!(rt; "{line}")?;
        }
    }
    Ok(())
}

fn show_text(rt: &impl Print, text: &[u8]) -> Result<()> {
    match str::from_utf8(text) {
        Ok(text) => println!(rt; "{text}")?,
        Err(_) => println!(rt; "not UTF-8")?,
    }
    Ok(())
}

fn show_list(rt: &impl Print, list: Result<Vec<u8>, AskFault>) -> Result<()> {
    match list {
        Ok(text) => show_text(rt, text.as_slice()),
        Err(AskFault::BadKey) => Ok(println!(rt; "no such key")?),
        Err(AskFault::NoMemory) => Err(anyhow!("out of memory")),
    }
}

fn entries(limit: usize, after: Option<&[u8]>) -> Entries<'_> {
    Entries { limit, after }
}

fn show_lists(rt: &impl Print, alloc: Global, book: &Book) -> Result<()> {
    let config = book.config();
    if config.filters.len() < 2 || config.ranks.is_empty() || config.tables.len() < 2 {
        return Err(anyhow!("another configuration"));
    }
    for part in [
        entries(10, None),
        entries(2, None),
        entries(2, Some(b"0.0.0.7")),
        entries(9, Some(b"0.0.1.44")),
        entries(9, Some(b"seven")),
    ] {
        show_list(rt, table_list(alloc, book, 1, 0, &[], part))?;
        show_list(rt, filter_list(alloc, book, 2, 0, part))?;
        show_list(rt, rank_list(alloc, book, 3, 0, part))?;
    }
    show_list(rt, table_list(alloc, book, 4, 1, &[], entries(10, None)))?;
    show_list(rt, filter_list(alloc, book, 5, 1, entries(10, None)))?;
    for number in [7, 8] {
        show_list(rt, row_list(alloc, book, 6, 0, &address(alloc, number)?))?;
    }
    for number in [7, 8] {
        let text = one_key(alloc, book, 6, 0, &address(alloc, number)?)?;
        show_text(rt, text.as_slice())?;
    }
    Ok(())
}

/// Shows lists of a book, its figures and its overview.
pub fn show(rt: &impl Print, alloc: Global) -> Result<()> {
    let book = book(alloc)?;
    show_lists(rt, alloc, &book)?;
    let summary = summed_up(alloc, &book, 7, 2550)?;
    let standing = standing(alloc, 2600)?;
    let config = book.config();
    for part in [
        entries(5, None),
        entries(1, None),
        entries(5, Some(b"l<b>&\"1\\")),
    ] {
        show_list(rt, peer_list(alloc, config, &summary, &standing, part))?;
    }
    show_list(
        rt,
        peer_list(alloc, config, &summary, &standing, entries(5, Some(b"lb3"))),
    )?;
    show_text(rt, overview(alloc, config, &summary, &standing)?.as_slice())?;
    show_text(rt, figures(alloc, config, &summary, &standing)?.as_slice())?;
    show_told(rt, alloc)
}
