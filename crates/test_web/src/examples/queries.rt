//! What a book answers, and commands over it.

use agg_types::{Cell, Cells, NoMemory, What};
use anyhow::Result;
use book::Book;
use expiry_wheel::{DueIndex, Wheel};
use show_clear::{answer, parse, refusal};
use std::alloc::Global;
use test_support::{address, config, put};

/// Two proxies, a table of addresses, a filter and a ranked list.
const FLEET: &[u8] = b"name agg
peer lb1
peer lb2
table t type ip size 1000 store gpc0
filter many t data.gpc0 ge 7
rank top t gpc0 2
";

/// A peer's row of 0.0.0.1 that lives for 1,000 ms.
fn put_for_a_second(alloc: Global, peer: usize, count: u64) -> Result<What, NoMemory> {
    Ok(What::Put {
        peer,
        table: 0,
        key: address(alloc, 1)?,
        life: Some(1000),
        cells: Cells::copy(alloc, &[Cell::Count(count)])?,
    })
}

/// What happens: both peers speak, 0.0.0.1 has 5 and, for a second, 7, and 0.0.0.2 has 3.
fn events(alloc: Global) -> Result<Vec<What>, NoMemory> {
    let mut whats = Vec::new(alloc);
    whats.push(What::Sit)?;
    for peer in 0..2 {
        whats.push(What::Open(peer))?;
    }
    whats.push(put(alloc, 0, 1, 5)?)?;
    whats.push(put_for_a_second(alloc, 1, 7)?)?;
    whats.push(put(alloc, 0, 2, 3)?)?;
    Ok(whats)
}

/// `Book::apply` applies the next event of a seat.
fn happen(alloc: Global, book: &mut Book) -> Result<(), NoMemory> {
    for what in events(alloc)? {
        let seq = book.next_seq(0).unwrap_or(0);
        book.apply(0, seq, &what)?;
    }
    Ok(())
}

/// `Book::keys` lists the keys of a table, and `Book::summed` answers the sum over the fleet of a
/// key's rows.
fn sums(rt: &impl Print, alloc: Global, book: &Book) -> Result<()> {
    for key in book.keys(alloc, 0)? {
        if let Some(sum) = book.summed(0, key) {
            let [gpc0, ..] = sum.values;
            println!(rt;
                "summed: {:?} has {gpc0} of {} peers",
                key.as_slice(),
                sum.peers
            )?;
        }
    }
    Ok(())
}

/// `Book::filter_keys` lists the keys that a standing filter holds, and `Book::next_change` answers
/// when they change though nothing is told.
fn held(rt: &impl Print, book: &Book) -> Result<()> {
    if book.config().filters.is_empty() {
        return Ok(());
    }
    let mut keys = 0usize;
    for _key in book.filter_keys(0) {
        keys = keys.saturating_add(1);
    }
    println!(rt; "filter: {keys} keys at {} ms", book.moment())?;
    println!(rt; "next change: {:?}", book.next_change(0))?;
    Ok(())
}

/// `Book::top` lists the first keys by a column.
fn top(rt: &impl Print, alloc: Global, book: &Book) -> Result<()> {
    if book.config().ranks.is_empty() {
        return Ok(());
    }
    for (key, value) in book.top(alloc, 0)? {
        println!(rt; "top: {:?} has {value}", key.as_slice())?;
    }
    Ok(())
}

/// `show_clear::parse` reads a command, which `answer` answers; `refusal` tells its fault.
fn ask(rt: &impl Print, alloc: Global, book: &Book, line: &[u8]) -> Result<()> {
    let mut out = Vec::new(alloc);
    match parse(alloc, book, line) {
        Ok(command) => answer(alloc, book, &command, &mut out)?,
        Err(fault) => refusal(&fault, &mut out)?,
    }
    println!(rt;
        "{}: {}",
        line.escape_ascii(),
        out.as_slice().escape_ascii()
    )?;
    Ok(())
}

/// `Wheel::plan` keeps planned moments, `next_at` answers the least one, and `take_due` takes it if
/// it has come.
fn plans(rt: &impl Print, alloc: Global) -> Result<()> {
    let mut wheel = Wheel::new(alloc, 0)?;
    for at in [300, 100, 200] {
        wheel.plan(at, at)?;
    }
    wheel.cancel(100, &100);
    println!(rt; "next plan: {:?}", wheel.next_at())?;
    println!(rt; "due by 199: {:?}", wheel.take_due(199))?;
    println!(rt; "due by 200: {:?}", wheel.take_due(200))?;
    Ok(())
}

/// Shows each.
pub fn show(rt: &impl Print, alloc: Global) -> Result<()> {
    let mut book = Book::new(alloc, config(alloc, FLEET)?, 0)?;
    happen(alloc, &mut book)?;
    sums(rt, alloc, &book)?;
    held(rt, &book)?;
    top(rt, alloc, &book)?;
    ask(rt, alloc, &book, b"show table t data.gpc0 gt 3")?;
    ask(rt, alloc, &book, b"show table u")?;
    let seq = book.next_seq(0).unwrap_or(0);
    book.apply(0, seq, &What::Moment(1000))?;
    held(rt, &book)?;
    plans(rt, alloc)
}
