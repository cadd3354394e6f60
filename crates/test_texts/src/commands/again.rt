//! Calls that are made once more where an allocation failed.
//!
//! So what is printed is the same whichever allocation fails: `tools/check/refused_growths.py` lets
//! them fail in turn.

ghost use Rattle.std.specs.Prelude.{IfOk};
ghost use Rattle.show_clear.specs.Answer.{NamesExist};

use agg_types::What;
use anyhow::{Result, ensure};
use book::Book;
use show_clear::{
    Command, CommandFault, Refused, answer, answer_people, explain, read_command, refusal,
};
use std::alloc::Global;

/// What a line asks for, or why it is refused: not for memory, unless two allocations failed.
pub fn parsed(alloc: Global, book: &Book, line: &[u8]) -> Result<Command, Refused>
    ensures { IfOk result (NamesExist book.now) }
{
    match read_command(alloc, book, line) {
        Err(refused) if refused.fault == CommandFault::NoMemory => read_command(alloc, book, line),
        read => read,
    }
}

/// Appends an answer behind these bytes, which a failed allocation has to leave as they are.
pub fn answered(
    alloc: Global,
    book: &Book,
    command: &Command,
    before: &[u8],
    out: &mut Vec<u8>,
) -> Result<()>
    requires { NamesExist book.now command.now }
{
    if answer(alloc, book, command, out).is_err() {
        ensure!(out.as_slice() == before, "a refused answer left something");
        answer(alloc, book, command, out)?;
    }
    Ok(())
}

/// Appends a refusal behind these bytes, which a failed allocation has to leave as they are.
pub fn refused(fault: &CommandFault, before: &[u8], out: &mut Vec<u8>) -> Result<()> {
    if refusal(fault, out).is_err() {
        ensure!(out.as_slice() == before, "a refused refusal left something");
        refusal(fault, out)?;
    }
    Ok(())
}

/// Appends what people are told of a refused line. What was there stays where an allocation failed.
pub fn explained(
    alloc: Global,
    book: &Book,
    line: &[u8],
    refused: &Refused,
    out: &mut Vec<u8>,
) -> Result<()> {
    let before = out.len();
    if explain(alloc, book, line, refused, out).is_err() {
        ensure!(out.len() == before, "a refused explanation left something");
        explain(alloc, book, line, refused, out)?;
    }
    Ok(())
}

/// Appends what people are answered, if that isn't what stands behind these bytes.
pub fn answered_to_people(
    alloc: Global,
    book: &Book,
    command: &Command,
    before: &[u8],
    out: &mut Vec<u8>,
) -> Result<()>
    requires { NamesExist book.now command.now }
{
    let mut told = Vec::new(alloc);
    if answer_people(alloc, book, command, &mut told).is_err() {
        ensure!(told.is_empty(), "a refused answer left something");
        answer_people(alloc, book, command, &mut told)?;
    }
    if out.get(before.len()..) != Some(told.as_slice()) {
        out.extend_from_slice(told.as_slice())?;
    }
    Ok(())
}

/// Does what a command asks for, as the next event of a seat.
pub fn taken(book: &mut Book, seat: u64, seq: u64, what: &What) -> Result<()> {
    if book.apply(seat, seq, what).is_err() {
        book.apply(seat, seq, what)?;
    }
    Ok(())
}
