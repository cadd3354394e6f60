//! What the figures and the page need of a book.

ghost use Rattle.std.specs.Prelude.{◌<◌, length};

use agg_types::{Filter, Key, NoMemory, Rank};
use book::Book;
use std::alloc::Global;
use web_text::{FilterSum, PeerRows, RankSum, Summary};

/// How many keys of a filter, and of a ranked list, a summary keeps at most.
const MOST_KEYS: usize = 20;

/// Sums a book up that answers for so many events and is looked at so many ms after the start.
pub fn summed_up(
    alloc: Global,
    book: &Book,
    events: u64,
    looked: u64,
) -> Result<Summary, NoMemory> {
    let tables = used_of(alloc, book)?;
    let peers = held_of_peers(alloc, book)?;
    let filters = filter_sums(alloc, book)?;
    let ranks = rank_sums(alloc, book)?;
    Ok(Summary {
        events,
        moment: book.moment(),
        looked,
        tables,
        peers,
        filters,
        ranks,
    })
}

// How many keys each table has.
fn used_of(alloc: Global, book: &Book) -> Result<Vec<u64>, NoMemory> {
    let mut tables = Vec::new(alloc);
    for table in 0..book.config().tables.len() {
        tables.push(book.used(table))?;
    }
    Ok(tables)
}

// What each peer holds of each table.
fn held_of_peers(alloc: Global, book: &Book) -> Result<Vec<Vec<PeerRows>>, NoMemory> {
    let mut peers = Vec::new(alloc);
    for peer in 0..book.config().peers.len() {
        peers.push(held_by_table(alloc, book, peer)?)?;
    }
    Ok(peers)
}

fn filter_sums(alloc: Global, book: &Book) -> Result<Vec<FilterSum>, NoMemory> {
    let mut filters = Vec::new(alloc);
    for (place, filter) in book.config().filters.as_slice().iter().enumerate() {
        filters.push(filter_sum(alloc, book, place, filter)?)?;
    }
    Ok(filters)
}

fn rank_sums(alloc: Global, book: &Book) -> Result<Vec<RankSum>, NoMemory> {
    let mut ranks = Vec::new(alloc);
    for (place, rank) in book.config().ranks.as_slice().iter().enumerate() {
        ranks.push(rank_sum(alloc, book, place, rank)?)?;
    }
    Ok(ranks)
}

// What a peer holds of a table.
fn held_of(book: &Book, peer: usize, table: usize) -> PeerRows
    requires peer_in { peer < length book.now.config.peers }
    requires table_in { table < length book.now.config.tables }
{
    PeerRows {
        rows: book.rows_held(table, peer),
        dropped: book.dropped(table, peer),
    }
}

/// What a peer of the configuration holds of all tables. Takes no memory.
pub fn held_by(book: &Book, peer: usize) -> PeerRows
    requires { peer < length book.now.config.peers }
{
    let mut held = PeerRows::none();
    for table in 0..book.config().tables.len() {
        held.add(held_of(book, peer, table));
    }
    held
}

// What a peer holds of each table.
fn held_by_table(alloc: Global, book: &Book, peer: usize) -> Result<Vec<PeerRows>, NoMemory>
    requires { peer < length book.now.config.peers }
{
    let mut held = Vec::new(alloc);
    for table in 0..book.config().tables.len() {
        held.push(held_of(book, peer, table))?;
    }
    Ok(held)
}

fn filter_sum(
    alloc: Global,
    book: &Book,
    place: usize,
    filter: &Filter,
) -> Result<FilterSum, NoMemory>
    requires { place < length book.now.config.filters }
{
    let next = book.next_change(place);
    let name = filter.name.duplicate(alloc)?;
    let (keys, first) = first_held(alloc, book, place)?;
    Ok(FilterSum {
        name,
        table: filter.table,
        conds: filter.conds.duplicate(alloc)?,
        keys,
        next,
        first,
    })
}

// How many keys a filter holds, and the first of them.
fn first_held(alloc: Global, book: &Book, place: usize) -> Result<(usize, Vec<Key>), NoMemory>
    requires { place < length book.now.config.filters }
{
    let mut count = 0usize;
    let mut first = Vec::new(alloc);
    for key in book.filter_keys(place) {
        if count < MOST_KEYS {
            first.push(key.duplicate(alloc)?)?;
        }
        count = count.saturating_add(1);
    }
    Ok((count, first))
}

fn rank_sum(alloc: Global, book: &Book, place: usize, rank: &Rank) -> Result<RankSum, NoMemory>
    requires { place < length book.now.config.ranks }
{
    let name = rank.name.duplicate(alloc)?;
    let first = first_ranked(alloc, book, place)?;
    Ok(RankSum {
        name,
        table: rank.table,
        column: rank.col.name(),
        first,
    })
}

// The first keys of a ranked list, with their values.
fn first_ranked(alloc: Global, book: &Book, place: usize) -> Result<Vec<(Key, u128)>, NoMemory>
    requires { place < length book.now.config.ranks }
{
    let mut first = Vec::new(alloc);
    for (key, value) in book.top_of(alloc, place, MOST_KEYS)? {
        first.push((key.duplicate(alloc)?, value))?;
    }
    Ok(first)
}
