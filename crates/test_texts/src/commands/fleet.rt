//! The fleet that is asked: two proxies, and tables of each kind of keys.

use agg_types::{Cell, Cells, Key, NoMemory, What};
use anyhow::Result;
use book::Book;
use std::alloc::Global;
use test_support::config;

/// The seat that speaks for both proxies.
pub const SEAT: u64 = 0;

/// A row of a proxy: its peer, table and key, the ms that it lives, and its count.
type Row = (usize, usize, &'static [u8], Option<u64>, u64);

/// Keys of each table.
const ROWS: [Row; 21] = [
    (0, 0, b"\x0a\x00\x00\x01", None, 6),
    (1, 0, b"\x0a\x00\x00\x01", None, 5),
    (0, 0, b"\x0a\x00\x00\x02", Some(60_000), 9),
    (0, 0, b"\xff\x00\x0a\x64", None, 4_294_967_295),
    (0, 1, b"\x00\x00\x00\x00", None, 1),
    (0, 1, b"\x7f\xff\xff\xff", None, 2),
    (0, 1, b"\x80\x00\x00\x00", None, 3),
    (0, 1, b"\xff\xff\xff\xff", None, 4),
    (0, 2, b"\x20\x01\x0d\xb8\0\0\0\0\0\0\0\0\0\0\0\x01", None, 1),
    (0, 2, b"\0\0\0\0\0\0\0\0\0\0\0\0\0\0\0\0", None, 2),
    (0, 2, b"\0\0\0\0\0\0\0\0\0\0\0\0\0\0\0\x01", None, 3),
    (0, 2, b"\0\x01\0\0\0\0\0\0\0\0\0\0\0\0\0\0", None, 4),
    (0, 2, b"\xfe\x80\0\0\0\0\0\0\0\0\0\0\0\x01\0\x02", None, 5),
    (
        0,
        2,
        b"\0\0\0\0\0\0\0\0\0\0\xff\xff\x01\x02\x03\x04",
        None,
        6,
    ),
    (
        0,
        2,
        b"\0\x64\xff\x9b\0\0\0\0\0\0\0\0\xc0\0\x02\x21",
        None,
        7,
    ),
    (
        0,
        2,
        b"\0\x01\0\x02\0\x03\0\x04\0\0\0\x06\0\x07\0\x08",
        None,
        8,
    ),
    (0, 3, b"", None, 1),
    (0, 3, b"a b%\x00\xff", None, 2),
    (0, 3, b"abc", None, 3),
    (0, 4, b"\x00\xff", None, 1),
    (0, 5, b"\x01\x02\x03\x04", None, 1),
];

// What a proxy says of a row. Keys of the first table have had 3 requests in the period before.
fn put(alloc: Global, row: Row) -> Result<What, NoMemory> {
    let (peer, table, key, life, count) = row;
    let mut cells = Cells::new(alloc);
    cells.push(Cell::Count(count))?;
    if table == 0 {
        cells.push(Cell::Rate {
            elapsed: 0,
            cur: 0,
            prev: 3,
        })?;
    }
    Ok(What::Put {
        peer,
        table,
        key: Key::copy(alloc, key)?,
        life,
        cells,
    })
}

// Puts each row, and tells the number of the seat's next event.
fn put_rows(alloc: Global, book: &mut Book, rows: &[Row], first: u64) -> Result<u64> {
    let mut seq = first;
    for row in rows {
        book.apply(SEAT, seq, &put(alloc, *row)?)?;
        seq = seq.saturating_add(1);
    }
    Ok(seq)
}

// A fleet as its text declares it, with both proxies open.
fn connected(alloc: Global, text: &[u8]) -> Result<Book> {
    let config = config(alloc, text)?;
    let mut book = Book::new(alloc, config, 0)?;
    book.apply(SEAT, 0, &What::Sit)?;
    book.apply(SEAT, 1, &What::Open(0))?;
    book.apply(SEAT, 2, &What::Open(1))?;
    Ok(book)
}

/// The fleet of a text with its rows, and the number of its seat's next event.
pub fn opened(alloc: Global, text: &[u8]) -> Result<(Book, u64)> {
    let mut book = connected(alloc, text)?;
    let seq = put_rows(alloc, &mut book, &ROWS, 3)?;
    Ok((book, seq))
}
