//! A program that follows a filter's set: what moved since each number that it was told.

ghost use Rattle.std.specs.Prelude.{◌≡◌};

use crate::web::clerks::{answer, paper_of};
use agg_types::{NoMemory, What, Whats};
use anyhow::{Result, anyhow};
use book::Book;
use hub::{Change, Hub, Naming, Opening};
use set_moves::what_moved;
use std::alloc::Global;
use std::hash::RandomState;
use std::str;
use std::sync::Wait;
use test_hub_calls::{post, sit};
use test_support::{address, config, put};
use web_door::Looks;
use web_lists::{Span, change_list};

/// A collector that pushes nothing: changes are kept of every filter.
pub const CONFIG: &[u8] = b"name agg
peer lb1
table t type ip size 1000 store gpc0
filter hot t data.gpc0 ge 5
";

/// What is asked on one connection: of no number, of those behind each post, of one that is above
/// all, of none that is a number, of no filter, with a word too many, and of a head alone.
const ASKED: &[u8] = b"GET /api/v1/filters/hot/changes HTTP/1.1\r\nHost: localhost\r\n\r\n\
GET /api/v1/filters/hot/changes?since=0 HTTP/1.1\r\nHost: localhost\r\n\r\n\
GET /api/v1/filters/hot/changes?since=5 HTTP/1.1\r\nHost: localhost\r\n\r\n\
GET /api/v1/filters/hot/changes?since=9 HTTP/1.1\r\nHost: localhost\r\n\r\n\
GET /api/v1/filters/hot/changes?since=11 HTTP/1.1\r\nHost: localhost\r\n\r\n\
GET /api/v1/filters/hot/changes?since=12 HTTP/1.1\r\nHost: localhost\r\n\r\n\
GET /api/v1/filters/hot/changes?since=five HTTP/1.1\r\nHost: localhost\r\n\r\n\
GET /api/v1/filters/cold/changes?since=5 HTTP/1.1\r\nHost: localhost\r\n\r\n\
GET /api/v1/filters/hot/changes?since=5&limit=1 HTTP/1.1\r\nHost: localhost\r\n\r\n\
HEAD /api/v1/filters/hot/changes?since=5 HTTP/1.1\r\nHost: localhost\r\n\
Connection: close\r\n\r\n";

/// The peer puts counts of addresses, one after the other.
fn puts(alloc: Global, whats: &mut Whats, counts: &[(u32, u64)]) -> Result<()> {
    for (number, count) in counts {
        whats.push(put(alloc, 0, *number, *count)?)?;
    }
    Ok(())
}

fn show_list(rt: &impl Print, text: Result<Vec<u8>, NoMemory>) -> Result<()> {
    match str::from_utf8(text?.as_slice()) {
        Ok(text) => println!(rt; "{text}")?,
        Err(_) => return Err(anyhow!("not UTF-8")),
    }
    Ok(())
}

// Changes as they came: two keys came in, one left, one came in and left again, and one the other
// way round.
fn changes(alloc: Global) -> Result<Vec<Change>> {
    let mut changes = Vec::new(alloc);
    for (number, is_in) in [
        (9, true),
        (3, false),
        (5, true),
        (300, false),
        (7, true),
        (5, false),
        (3, true),
    ] {
        changes.push(Change {
            number: 4,
            key: address(alloc, number)?,
            is_in,
        })?;
    }
    Ok(changes)
}

/// Shows what is told of a set of two keys, where what moved is known and where it isn't, and so
/// many keys are told at most.
pub fn show_few(rt: &impl Print, alloc: Global) -> Result<()> {
    let mut book = Book::new(alloc, config(alloc, CONFIG)?, 0)?;
    book.apply(0, 0, &What::Sit)?;
    book.apply(0, 1, &What::Open(0))?;
    book.apply(0, 2, &put(alloc, 0, 9, 5)?)?;
    book.apply(0, 3, &put(alloc, 0, 7, 6)?)?;
    if book.config().filters.is_empty() {
        return Err(anyhow!("another configuration"));
    }
    let span = Span {
        since: Some(3),
        to: 4,
    };
    let changes = changes(alloc)?;
    let mut all = Vec::new(alloc);
    for change in &changes {
        all.push(change)?;
    }
    let moved = what_moved(alloc, all.as_slice())?;
    for most in [0, 1, 2] {
        show_list(rt, change_list(alloc, &book, 0, span, None, most))?;
    }
    for most in [1, 2, 3] {
        show_list(rt, change_list(alloc, &book, 0, span, Some(&moved), most))?;
    }
    Ok(())
}

/// Shows what a connection is told, behind three posts.
pub fn follow<J: Naming, R: Print + Wait>(
    rt: &R,
    alloc: Global,
    opening: Opening,
    keys: RandomState,
) -> Result<()>
    requires { opening.of ≡ J.book }
{
    let hub = Hub::<J, &R>::new(alloc, rt, opening, 1)?;
    let looks = Looks::new();
    let paper = paper_of(alloc, 1_000)?;
    let mut pass = sit(rt, &hub)?;
    let mut first = Whats::alone(alloc, What::Open(0))?;
    puts(alloc, &mut first, &[(7, 5), (9, 6), (1, 5)])?;
    post(rt, alloc, &hub, &mut pass, first)?;
    let mut second = Whats::new(alloc);
    puts(alloc, &mut second, &[(7, 1), (300, 8), (9, 2), (9, 7)])?;
    post(rt, alloc, &hub, &mut pass, second)?;
    let mut third = Whats::new(alloc);
    puts(alloc, &mut third, &[(2, 9), (2, 0)])?;
    post(rt, alloc, &hub, &mut pass, third)?;
    answer(rt, &hub, &looks, &paper, keys, ASKED)
}
