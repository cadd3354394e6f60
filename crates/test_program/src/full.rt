//! What the log says of full tables.

ghost use Rattle.std.specs.Prelude.{◌≡◌, []};
ghost use Rattle.agg_types.specs.Check.{config_faults};

use crate::scene::Still;
use agg_types::{Cell, Cells, Config, Key, NoMemory, What};
use book::Book;
use collector_log::{Fullness, Notes, append_peers};
use journal::{Heading, Journal};
use std::alloc::Global;
use std::io;
use std::io::Write;
use std::sync::Wait;

/// Two peers, of which each may hold one row of a table and two of another.
const CONFIGURATION: &[u8] = b"name agg\npeer lb1\npeer lb2\n\
table clients type integer size 1 store gpc0\n\
table names type integer size 2 store gpc0\n";

/// A key that a peer puts into a table.
#[derive(Clone, Copy)]
struct Put {
    peer: usize,
    table: usize,
    number: u8,
}

/// A key that a peer puts: the peer, the table and the key's number.
macro_rules! put {
    ($peer:expr, $table:expr, $number:expr) => {
        Put {
            peer: $peer,
            table: $table,
            number: $number,
        }
    };
}

/// What is put, and when the book is looked at then, in ms. Nothing is dropped; both peers have no
/// room; a peer has none within the same minute, twice. A held key comes again; the minute is over;
/// the other table is full.
const SCENES: [(u64, [Put; 3]); 7] = [
    (0, [put!(0, 0, 1), put!(1, 0, 1), put!(0, 1, 1)]),
    (1000, [put!(0, 0, 2), put!(1, 0, 2), put!(0, 0, 1)]),
    (2000, [put!(1, 0, 3), put!(1, 0, 1), put!(0, 0, 1)]),
    (60_999, [put!(1, 0, 4), put!(1, 0, 1), put!(0, 0, 1)]),
    (61_000, [put!(0, 0, 1), put!(1, 0, 1), put!(0, 1, 1)]),
    (61_001, [put!(1, 0, 5), put!(1, 0, 1), put!(0, 0, 1)]),
    (61_500, [put!(0, 1, 2), put!(0, 1, 3), put!(0, 1, 4)]),
];

// A book whose only seat is the session of both peers.
fn opened(alloc: Global, config: Config) -> Result<Book, NoMemory>
    requires { config_faults config ≡ [] }
{
    let mut book = Book::new(alloc, config, 0)?;
    for (number, what) in [What::Sit, What::Open(0), What::Open(1)].iter().enumerate() {
        book.apply(0, number as u64, what)?;
    }
    Ok(book)
}

// One key is put.
fn take(alloc: Global, book: &mut Book, put: Put) -> Result<(), NoMemory> {
    let what = What::Put {
        peer: put.peer,
        table: put.table,
        key: Key::copy(alloc, &[0, 0, 0, put.number])?,
        life: None,
        cells: Cells::copy(alloc, &[Cell::Count(1)])?,
    };
    let number = book.next_seq(0).unwrap_or(0);
    book.apply(0, number, &what)
}

fn play<R: Print + Wait + AllocGlobal>(
    journal: &Journal,
    notes: &Notes<'_, Still<R>>,
    book: &mut Book,
) -> Result<(), NoMemory> {
    let mut fullness = Fullness::new(notes.alloc, 2, 2)?;
    for (moment, puts) in SCENES {
        for put in puts {
            take(notes.alloc, book, put)?;
        }
        fullness.look(&notes.rt, journal, book, moment);
    }
    Ok(())
}

/// Prints what is told of full tables, and then what each peer holds.
pub fn show<R: Print + Wait + Copy + AllocGlobal>(
    rt: &R,
    notes: &Notes<'_, Still<R>>,
) -> io::Result<()> {
    println!(rt; "== full tables")?;
    let alloc = rt.alloc();
    let Ok(config) = agg_config::read(alloc, CONFIGURATION) else {
        return println!(rt; "no configuration");
    };
    let Ok(mut book) = opened(alloc, config) else {
        return println!(rt; "no book");
    };
    let journal = Journal::new(alloc, Heading::Time);
    if play(&journal, notes, &mut book).is_err() {
        return println!(rt; "out of memory");
    }
    journal.write_out(&notes.rt);
    let mut lines = Vec::new(alloc);
    if append_peers(&notes.rt, alloc, notes.board, 0, &book, &mut lines).is_err() {
        return println!(rt; "out of memory");
    }
    io::writer(rt).write_all(lines.as_slice())
}
