//! Ranked lists of a book, and how many keys each looked at.
//!
//! Of each key a bound of its value is known, with binary digits that are all 1. A list looks at
//! the keys from the greatest bound on, until what it has found is above the next one's.

use crate::histories::fleet::{happen, key, opened, put};
use crate::histories::runs::Row;
use agg_types::{Cell, Select, What};
use anyhow::Result;
use book::Book;
use std::alloc::Global;

/// Two peers, a table of a count, and a list of its first ten keys.
const FLEET: &[u8] = b"name agg
peer lb1
peer lb2
table t type ip size 10000 store gpc0
rank top t gpc0 10
";

/// What happens to a book, or is asked of it.
#[derive(Clone, Copy)]
enum Move {
    /// A peer puts a row.
    Put(Row),
    /// The clock goes on to this moment, in ms.
    Moment(u64),
    /// The key of a number is cleared.
    Clear(u16),
    /// A line is printed.
    Say(&'static str),
    /// So many first keys are printed.
    Show(usize),
}

/// A peer puts a count of the key of a number.
macro_rules! put {
    ($peer:expr, $n:expr, $life:expr, $count:expr) => {
        Move::Put(Row {
            peer: $peer,
            n: $n,
            life: $life,
            cell: Cell::Count($count),
        })
    };
}

/// Of equal values the smaller key comes first. A key that is cleared isn't listed.
const ALIKE: &[Move] = &[
    Move::Say("alike"),
    put!(0, 3, None, 5),
    put!(0, 1, None, 5),
    put!(0, 2, None, 5),
    Move::Show(2),
    Move::Say("without 1"),
    Move::Clear(1),
    Move::Show(3),
];

/// A row of 100 ends, and what is left of its key is far below its bound. So the key is looked at
/// first. Its row of 1 is put anew: no more than 2 is expected meanwhile, so its bound is 3.
const FALLEN: &[Move] = &[
    Move::Say("fallen"),
    put!(0, 3, Some(10), 100),
    put!(1, 3, None, 1),
    put!(0, 1, None, 5),
    put!(0, 2, None, 3),
    Move::Moment(10),
    Move::Show(2),
    Move::Say("put anew"),
    put!(1, 3, None, 1),
    Move::Show(3),
];

fn print_entry(rt: &impl Print, key: &[u8], value: u128, walked: usize) -> Result<()> {
    println!(rt; "  {key:?} {value}, looked at {walked}")?;
    Ok(())
}

// Prints so many first keys.
fn show(rt: &impl Print, alloc: Global, book: &Book, most: usize) -> Result<()> {
    if book.config().ranks.is_empty() {
        return Ok(());
    }
    let mut top = book.top_of(alloc, 0, most)?;
    for _ in 0..most {
        let Some((key, value)) = top.next() else {
            break;
        };
        print_entry(rt, key.as_slice(), value, top.walked())?;
    }
    Ok(())
}

fn say(rt: &impl Print, line: &str) -> Result<()> {
    println!(rt; "{line}")?;
    Ok(())
}

fn clear(alloc: Global, book: &mut Book, number: u16) -> Result<()> {
    let sel = Select::One(key(alloc, number)?);
    happen(book, 0, &What::Clear { table: 0, sel })?;
    Ok(())
}

fn make(rt: &impl Print, alloc: Global, book: &mut Book, made: Move) -> Result<()> {
    match made {
        Move::Put(row) => put(alloc, book, &row)?,
        Move::Moment(moment) => happen(book, 0, &What::Moment(moment))?,
        Move::Clear(number) => clear(alloc, book, number)?,
        Move::Say(line) => say(rt, line)?,
        Move::Show(most) => show(rt, alloc, book, most)?,
    }
    Ok(())
}

// Makes these moves on a book of no row.
fn play(rt: &impl Print, alloc: Global, moves: &[Move]) -> Result<()> {
    let mut book = opened(alloc, FLEET, 0)?;
    for made in moves {
        make(rt, alloc, &mut book, *made)?;
    }
    Ok(())
}

// A count of the first peer's, which stays.
fn row(n: u16, count: u64) -> Row {
    Row {
        peer: 0,
        n,
        life: None,
        cell: Cell::Count(count),
    }
}

// Each key has a part of the first one's value, as its number says. The tenth is 100,000, and 15
// keys have more than 65,535.
fn steep(rt: &impl Print, alloc: Global) -> Result<()> {
    say(rt, "steep")?;
    let mut book = opened(alloc, FLEET, 0)?;
    for number in 1..=2_000u16 {
        put(
            alloc,
            &mut book,
            &row(number, 1_000_000 / u64::from(number)),
        )?;
    }
    show(rt, alloc, &book, 10)
}

// Values between 1,000 and 1,006, and so bounds of 1,023: all keys are looked at.
fn level(rt: &impl Print, alloc: Global) -> Result<()> {
    say(rt, "level")?;
    let mut book = opened(alloc, FLEET, 0)?;
    for number in 0..1_000u16 {
        put(
            alloc,
            &mut book,
            &row(number, 1_000 + u64::from(number % 7)),
        )?;
    }
    show(rt, alloc, &book, 3)
}

/// Prints ranked lists of values that are alike, fallen, steep and level.
pub fn run(rt: &impl Print, alloc: Global) -> Result<()> {
    play(rt, alloc, ALIKE)?;
    play(rt, alloc, FALLEN)?;
    steep(rt, alloc)?;
    level(rt, alloc)
}
