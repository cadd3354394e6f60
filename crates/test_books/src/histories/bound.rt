//! Two peers that may hold three rows together: what is taken, and what is dropped.

use crate::histories::fleet::{happen, opened, put};
use crate::histories::runs::Row;
use crate::histories::show_rows;
use agg_types::{Cell, What};
use anyhow::Result;
use book::Book;
use std::alloc::Global;

/// The table has room for many more.
const FLEET: &[u8] = b"name agg
peer lb1
peer lb2
table t type ip size 100 store gpc0
rows 3
";

/// What happens to the book, and what of it is told.
#[derive(Clone, Copy)]
enum Move {
    /// A peer puts a row.
    Put(&'static str, Row),
    /// The clock goes on to this moment, in ms.
    Moment(u64),
}

/// A peer puts a count of the key of a number, with this life, which is told so.
macro_rules! put {
    ($told:expr, $peer:expr, $n:expr, $life:expr, $count:expr) => {
        Move::Put(
            $told,
            Row {
                peer: $peer,
                n: $n,
                life: $life,
                cell: Cell::Count($count),
            },
        )
    };
}

/// Three rows stand. What is new to its peer is dropped, what it holds is taken, and so is a row
/// whose life is over at once. Then a row is taken away and another ends, each of which makes room
/// for one.
const MOVES: &[Move] = &[
    put!("lb1 puts 1, for 100 ms", 0, 1, Some(100), 1),
    put!("lb1 puts 2", 0, 2, None, 2),
    put!("lb2 puts 2", 1, 2, None, 3),
    put!("lb2 puts 1, which lb1 holds", 1, 1, None, 9),
    put!("lb2 puts 2 again", 1, 2, None, 7),
    put!("lb1 puts 3, which is over at once", 0, 3, Some(0), 9),
    put!("lb1 puts 4", 0, 4, None, 9),
    put!("lb2 takes 2 away", 1, 2, Some(0), 0),
    put!("lb2 puts 3", 1, 3, None, 5),
    put!("lb2 puts 4", 1, 4, None, 9),
    Move::Moment(99),
    put!("lb2 puts 1", 1, 1, None, 9),
    Move::Moment(100),
    put!("lb2 puts 1", 1, 1, None, 6),
    put!("lb1 puts 5", 0, 5, None, 9),
];

fn do_move(rt: &impl Print, alloc: Global, book: &mut Book, next: Move) -> Result<()> {
    match next {
        Move::Put(told, row) => {
            println!(rt; " {told}")?;
            put(alloc, book, &row)?;
        }
        Move::Moment(moment) => {
            println!(rt; " moment {moment}")?;
            happen(book, 0, &What::Moment(moment))?;
        }
    }
    Ok(())
}

fn show_dropped(rt: &impl Print, book: &Book) -> Result<()> {
    let (first, second) = (book.dropped(0, 0), book.dropped(0, 1));
    println!(rt; "  dropped: lb1 {first}, lb2 {second}")?;
    Ok(())
}

/// Plays it, and prints after each move the rows and how many updates were dropped.
pub fn run(rt: &impl Print, alloc: Global) -> Result<()> {
    println!(rt; "three rows together")?;
    let mut book = opened(alloc, FLEET, 0)?;
    for next in MOVES {
        do_move(rt, alloc, &mut book, *next)?;
        show_rows(rt, alloc, &book)?;
        show_dropped(rt, &book)?;
    }
    Ok(())
}
