//! Runs each line of data/protocol.rows on the codec or on a session, and prints what it gives:
//! worked rows of the formats and of the session's rules, with what HAProxy's documents say they
//! give.
//!
//! `read HEX` and `write NUMBER`: an encoded integer. `messages SIZE HEX`: what a feed makes of the
//! bytes in pieces of this size. `again HEX`: its messages, written. `accept seated` or `accept
//! unseated`: a new session at 0. `feed NOW HEX` and `idle NOW`: what it gives then, in ms.

ghost use Rattle.std.specs.Prelude.{◌<◌};

use agg_types::{Config, Items, LentCells, LentWhat, NoMemory, What, Whats};
use anyhow::Result;
use peers_msg::{Feed, Message, WireCause, WireFault, get_int, put_int, write_message};
use session_core::{Batch, Session, SessionCause, SessionFault};
use std::alloc::Global;
use std::fs;
use std::io::BufRead;
use test_support::config;

/// The longest text behind an update's id and life that is written again.
const SMALL: usize = 1_000;

/// The collector `agg` of the peer `lb1`, with the tables `t` of a count by address, `r` of a rate
/// by integer, and `s` of a narrow and a wide count by text.
const FLEET: &[u8] = b"name agg
peer lb1
table t type ip size 100 store gpc0
table r type integer size 100 store http_req_rate(10000)
table s type string len 8 size 100 store conn_cnt,bytes_in_cnt
";

fn print_read(rt: &impl Print, bytes: &[u8]) -> Result<()> {
    match get_int(bytes) {
        Ok(Some((value, len))) => println!(rt; "{value} in {len}")?,
        Ok(None) => println!(rt; "cut")?,
        Err(fault) => println!(rt; "{fault}")?,
    }
    Ok(())
}

/// Prints bytes as hexadecimal digits.
fn print_bytes(rt: &impl Print, alloc: Global, bytes: &[u8]) -> Result<()> {
    let digits = hex::encode(alloc, bytes)?;
    println!(rt; "{digits}")?;
    Ok(())
}

fn print_written(rt: &impl Print, alloc: Global, number: u64) -> Result<()> {
    let mut bytes = Vec::new(alloc);
    if put_int(number, &mut bytes).is_err() {
        put_int(number, &mut bytes)?;
    }
    print_bytes(rt, alloc, bytes.as_slice())
}

/// Feeds a piece, again after `NoMemory`.
fn feed_again(feed: &mut Feed, piece: &[u8]) -> Result<Items<Message>, WireFault> {
    match feed.feed(piece) {
        Err(
            WireFault {
                cause: WireCause::NoMemory,
                before: _,
            },
        ) => feed.feed(piece),
        answer => answer,
    }
}

fn print_each(rt: &impl Print, messages: &[Message]) -> Result<()> {
    for message in messages {
        println!(rt; "{message:?}")?;
    }
    Ok(())
}

/// Feeds a piece, and prints its messages, or its fault and those before it.
fn print_fed(rt: &impl Print, feed: &mut Feed, piece: &[u8]) -> Result<()> {
    match feed_again(feed, piece) {
        Ok(messages) => print_each(rt, messages.as_slice()),
        Err(WireFault { cause, before }) => {
            println!(rt; "{cause}, behind {}", before.len())?;
            print_each(rt, before.as_slice())
        }
    }
}

fn print_messages(rt: &impl Print, alloc: Global, size: usize, bytes: &[u8]) -> Result<()>
    requires { 0 < size }
{
    let mut feed = Feed::new(alloc);
    for piece in bytes.chunks(size) {
        print_fed(rt, &mut feed, piece)?;
    }
    Ok(())
}

/// Appends a message of a kind that is known to be within the limit, again after `NoMemory`.
fn write_small(message: &Message, out: &mut Vec<u8>) -> Result<(), NoMemory> {
    match message {
        Message::Other { class: _, kind: _ } | Message::Define(_) => return Ok(()),
        Message::Update {
            id: _,
            life: _,
            rest,
        } => {
            if rest.len() > SMALL {
                return Ok(());
            }
        }
        _ => {}
    }
    if write_message(message, out).is_err() {
        write_message(message, out)?;
    }
    Ok(())
}

/// The messages, written one behind the other.
fn written(alloc: Global, messages: &[Message]) -> Result<Vec<u8>, NoMemory> {
    let mut out = Vec::new(alloc);
    for message in messages {
        write_small(message, &mut out)?;
    }
    Ok(out)
}

fn print_again(rt: &impl Print, alloc: Global, bytes: &[u8]) -> Result<()> {
    let mut feed = Feed::new(alloc);
    let messages = feed_again(&mut feed, bytes)?;
    let out = written(alloc, messages.as_slice())?;
    print_bytes(rt, alloc, out.as_slice())
}

/// Feeds a session a piece, again after `NoMemory`.
fn take_again(
    session: &mut Session,
    config: &Config,
    piece: &[u8],
    now: u64,
) -> Result<Batch, SessionFault> {
    match session.feed(config, piece, now) {
        Err(
            SessionFault {
                cause: SessionCause::NoMemory,
                batch: _,
            },
        ) => session.feed(config, piece, now),
        answer => answer,
    }
}

/// Prints a fact. A row may lie in a batch in two ways, and is printed as one.
fn print_fact(rt: &impl Print, alloc: Global, fact: LentWhat<'_>) -> Result<()> {
    let fact = match fact {
        LentWhat::Other(what) => LentWhat::of(what),
        put => put,
    };
    match fact {
        LentWhat::Other(What::Open(peer)) => println!(rt; "open {peer}")?,
        LentWhat::Put {
            peer,
            table,
            key,
            life,
            cells,
        } => {
            let key = hex::encode(alloc, key.as_slice())?;
            let row = format!(in alloc; "put {peer} {table} {key} {life:?}")?;
            print_cells(rt, alloc, &row, cells)?;
        }
        LentWhat::Other(_) => println!(rt; "no fact of a session")?,
    }
    Ok(())
}

// Prints a row with its cells, which may lie in two ways, too.
fn print_cells(rt: &impl Print, alloc: Global, row: &str, cells: LentCells<'_>) -> Result<()> {
    match cells {
        LentCells::Slice(cells) => println!(rt; "{row} {cells:?}")?,
        LentCells::Packed(cells) => {
            let cells = cells.unpack(alloc)?;
            println!(rt; "{row} {:?}", cells.as_slice())?;
        }
    }
    Ok(())
}

fn print_facts(rt: &impl Print, alloc: Global, facts: &Whats) -> Result<()> {
    for place in 0..facts.len() {
        print_fact(rt, alloc, facts.at(place))?;
    }
    Ok(())
}

fn print_batch(rt: &impl Print, alloc: Global, batch: &Batch) -> Result<()> {
    print_facts(rt, alloc, batch.facts())?;
    let replies = hex::encode(alloc, batch.replies())?;
    let acks = hex::encode(alloc, batch.acks())?;
    println!(rt; "replies [{replies}] acks [{acks}]")?;
    Ok(())
}

fn print_taken(
    rt: &impl Print,
    alloc: Global,
    session: &mut Session,
    config: &Config,
    piece: &[u8],
    now: u64,
) -> Result<()> {
    match take_again(session, config, piece, now) {
        Ok(batch) => print_batch(rt, alloc, &batch),
        Err(fault) => {
            print_batch(rt, alloc, &fault.batch)?;
            println!(rt; "ended: {}", fault.cause)?;
            Ok(())
        }
    }
}

fn print_idle(rt: &impl Print, session: &mut Session, now: u64) -> Result<()> {
    let idle = session.idle(now);
    println!(rt; "{idle:?}")?;
    Ok(())
}

/// Runs a command with the number and the bytes behind it.
fn run_command(
    rt: &impl Print,
    alloc: Global,
    config: &Config,
    session: &mut Session,
    command: &str,
    number: u64,
    bytes: &[u8],
) -> Result<()> {
    match command {
        "read" => print_read(rt, bytes),
        "write" => print_written(rt, alloc, number),
        "messages" => {
            let size = usize::try_from(number).unwrap_or(1).max(1);
            print_messages(rt, alloc, size, bytes)
        }
        "again" => print_again(rt, alloc, bytes),
        "feed" => print_taken(rt, alloc, session, config, bytes, number),
        "idle" => print_idle(rt, session, number),
        _ => Ok(()),
    }
}

/// Runs a line: a command, and a number, bytes, or both behind it. What isn't there is 0, and no
/// bytes.
fn run_words(
    rt: &impl Print,
    alloc: Global,
    config: &Config,
    session: &mut Session,
    line: &str,
) -> Result<()> {
    let mut words = line.split_whitespace();
    let command = words.next().unwrap_or("");
    let first = words.next().unwrap_or("");
    if command == "accept" {
        *session = Session::accept(alloc, first == "seated", 0);
        return Ok(());
    }
    let digits = match command {
        "read" | "again" => first,
        _ => words.next().unwrap_or(""),
    };
    let bytes = hex::decode(alloc, digits.as_bytes())?;
    let number = first.parse::<u64>().unwrap_or(0);
    run_command(
        rt,
        alloc,
        config,
        session,
        command,
        number,
        bytes.as_slice(),
    )
}

fn run_line(
    rt: &impl Print,
    alloc: Global,
    config: &Config,
    session: &mut Session,
    line: &str,
) -> Result<()> {
    if line.starts_with('#') {
        println!(rt; "{line}")?;
        return Ok(());
    }
    run_words(rt, alloc, config, session, line)
}

/// Runs each line.
pub fn run(rt: &HostRuntime) -> Result<()> {
    let rows = fs::read(rt, "protocol.rows")?;
    let config = config(rt.alloc(), FLEET)?;
    let mut session = Session::accept(rt.alloc(), true, 0);
    for line in rows.as_slice().lines(rt.alloc()) {
        run_line(rt, rt.alloc(), &config, &mut session, line?.as_str())?;
    }
    Ok(())
}
