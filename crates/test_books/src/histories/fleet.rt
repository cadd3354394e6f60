//! A fleet as a history asks for it, and what happens to it.

use crate::histories::runs::{Row, Run};
use agg_types::{Cells, Key, NoMemory, What};
use anyhow::Result;
use book::Book;
use std::alloc::Global;
use test_support::config;

/// The book of a run at its start.
pub fn fleet(alloc: Global, run: &Run) -> Result<Book> {
    let mut text = Vec::new(alloc);
    text.extend_from_slice(run.fleet)?;
    text.extend_from_slice(run.filter)?;
    opened(alloc, text.as_slice(), run.start)
}

/// A book at a moment, in which seat 0 tells moments and seats 1 and 2 speak for the two peers.
pub fn opened(alloc: Global, text: &[u8], start: u64) -> Result<Book> {
    let mut book = Book::new(alloc, config(alloc, text)?, 0)?;
    sit(&mut book, start)?;
    Ok(book)
}

fn sit(book: &mut Book, start: u64) -> Result<(), NoMemory> {
    for seat in 0..3u64 {
        happen(book, seat, &What::Sit)?;
    }
    happen(book, 1, &What::Open(0))?;
    happen(book, 2, &What::Open(1))?;
    happen(book, 0, &What::Moment(start))
}

/// The key 10.0.high.low of a number.
pub fn key(alloc: Global, number: u16) -> Result<Key, NoMemory> {
    let [high, low] = number.to_be_bytes();
    Key::copy(alloc, &[10, 0, high, low])
}

/// What happens at a seat, under the seat's next number.
pub fn happen(book: &mut Book, seat: u64, what: &What) -> Result<(), NoMemory> {
    let seq = book.next_seq(seat).unwrap_or(0);
    book.apply(seat, seq, what)
}

/// A peer's row, put by the seat that speaks for it.
pub fn put(alloc: Global, book: &mut Book, row: &Row) -> Result<(), NoMemory> {
    let what = What::Put {
        peer: row.peer,
        table: 0,
        key: key(alloc, row.n)?,
        life: row.life,
        cells: Cells::copy(alloc, &[row.cell])?,
    };
    let seat = if row.peer == 0 { 1 } else { 2 };
    happen(book, seat, &what)
}
