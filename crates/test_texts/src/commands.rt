//! Asks the fleet of data/fleet each line of data/commands, and prints what is answered; behind it
//! what people are answered, where that is something else.
//!
//! A clear or an added filter is then done, as the steps of a fleet are.

mod again;
mod fleet;

use anyhow::Result;
use book::Book;
use line_words::next_line;
use std::alloc::Global;
use std::io::Write;
use std::{fs, io};

/// How much of a line is printed before its answer.
const SHOWN: usize = 72;

/// Asks each line.
pub fn run(rt: &HostRuntime) -> Result<()> {
    let fleet = fs::read(rt, "fleet")?;
    let commands = fs::read(rt, "commands")?;
    let (mut book, seq) = opened(rt.alloc(), fleet.as_slice())?;
    let mut writer = io::writer(rt);
    ask_all(rt.alloc(), &mut book, seq, commands.as_slice(), &mut writer)
}

// The fleet, opened once more where an allocation failed.
fn opened(alloc: Global, text: &[u8]) -> Result<(Book, u64)> {
    match fleet::opened(alloc, text) {
        Err(_) => fleet::opened(alloc, text),
        opened => opened,
    }
}

// Asks each line of a text, and writes what is answered. The first event has this number.
fn ask_all(
    alloc: Global,
    book: &mut Book,
    first: u64,
    text: &[u8],
    writer: &mut impl Write,
) -> Result<()> {
    let mut seq = first;
    let mut rest = text;
    while let Some((line, behind)) = next_line(rest) {
        if ask_line(alloc, book, seq, line, writer)? {
            seq = seq.saturating_add(1);
        }
        rest = behind;
    }
    Ok(())
}

// Asks a line, and writes what is answered; whether it asks for a change.
fn ask_line(
    alloc: Global,
    book: &mut Book,
    seq: u64,
    line: &[u8],
    writer: &mut impl Write,
) -> Result<bool> {
    let shown = shown_line(alloc, line)?;
    let mut out = Vec::new(alloc);
    out.extend_from_slice(shown.as_slice())?;
    let changes = ask(alloc, book, seq, line, shown.as_slice(), &mut out)?;
    writer.write_all(out.as_slice())?;
    Ok(changes)
}

// The beginning of a line, with `?` for what is no ASCII text.
fn shown_line(alloc: Global, line: &[u8]) -> Result<Vec<u8>> {
    let mut out = Vec::new(alloc);
    out.extend_from_slice(b"> ")?;
    for byte in line.iter().take(SHOWN) {
        let shown = if 32 <= *byte && *byte <= 126 {
            *byte
        } else {
            b'?'
        };
        out.push(shown)?;
    }
    out.push(b'\n')?;
    Ok(out)
}

// Answers a line behind these bytes, and does what it asks for; whether it asks for a change.
fn ask(
    alloc: Global,
    book: &mut Book,
    seq: u64,
    line: &[u8],
    before: &[u8],
    out: &mut Vec<u8>,
) -> Result<bool> {
    match again::parsed(alloc, book, line) {
        Err(refused) => {
            again::refused(&refused.fault, before, out)?;
            again::explained(alloc, book, line, &refused, out)?;
            Ok(false)
        }
        Ok(command) => {
            again::answered(alloc, book, &command, before, out)?;
            again::answered_to_people(alloc, book, &command, before, out)?;
            let Some(what) = command.into_event() else {
                return Ok(false);
            };
            again::taken(book, fleet::SEAT, seq, &what)?;
            Ok(true)
        }
    }
}
