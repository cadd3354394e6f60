//! What an admin's line is answered over a book.

ghost use Rattle.std.specs.Prelude.{◌≡◌, ◌++◌, None, IfOk, IfSome, OnOk};
ghost use Rattle.agg_types.specs.declared.config.Config.{Config};
ghost use Rattle.hub.specs.Roll.{MayPost};
ghost use Rattle.admin_worker.specs.Commands.{AnswersAt, AnswersWith, IsTold, Replies, RepliesTo};
ghost use Rattle.admin_worker.specs.Manners.{closing, readers};
ghost use Rattle.admin_worker.specs.Status.{IsStatus, no_peer, refusal_at};
ghost use Rattle.show_clear.specs.Answer.{NamesExist};
ghost use Rattle.show_clear.specs.Change.{asked_event};

use crate::asked::{Asked, asked_in};
use crate::manner::Manner;
use agg_types::{NoMemory, What};
use book::Book;
use config_text::{append_config, append_filters, append_ranks};
use line_words::{Expected, Misread};
use show_clear::{
    Command, CommandFault, Refused, answer, answer_people, explain, read_command, refusal,
};
use std::alloc::Global;
use worker_frame::{Door, Gate};

/// What a line is answered, with what stands behind that, and the change that it asks for.
#[derive(Drop)]
pub struct Answered {
    pub change: Option<What>,
    pub text: Vec<u8>,
}

/// Appends the answer to a command.
fn append_answer(
    alloc: Global,
    book: &Book,
    command: &Command,
    door: Door,
    out: &mut Vec<u8>,
) -> Result<(), NoMemory>
    requires { NamesExist book.now command.now }
    ensures { OnOk result (AnswersAt door book.now command.now out.old.items out.new.items) }
{
    match door {
        Door::Programs => answer(alloc, book, command, out),
        Door::People => answer_people(alloc, book, command, out),
    }
}

/// Appends the refusal of a line.
fn append_refusal(
    alloc: Global,
    book: &Book,
    line: &[u8],
    refused: Refused,
    door: Door,
    out: &mut Vec<u8>,
) -> Result<(), NoMemory>
    ensures { OnOk result
        (out.new.items ≡ out.old.items ++ refusal_at door book.now line.now refused) }
{
    match door {
        Door::Programs => refusal(&refused.fault, out),
        Door::People => explain(alloc, book, line, &refused, out),
    }
}

/// The answer to a line's command.
fn obeyed(
    alloc: Global,
    book: &Book,
    line: &[u8],
    command: Command,
    manner: Manner,
) -> Result<Answered, NoMemory>
    requires { NamesExist book.now command }
    ensures change { IfOk result (λ a. a.change ≡ asked_event command) }
    ensures text { IfOk result (λ a. AnswersWith manner book.now line.now command a.text.items) }
{
    let mut text = Vec::new(alloc);
    append_answer(alloc, book, &command, manner.readers(), &mut text)?;
    text.extend_from_slice(manner.closing(line))?;
    Ok(Answered {
        change: command.into_event(),
        text,
    })
}

/// The refusal of a line.
fn refused_line(
    alloc: Global,
    book: &Book,
    line: &[u8],
    refused: Refused,
    manner: Manner,
) -> Result<Answered, NoMemory>
    ensures change { IfOk result (λ a. a.change ≡ None) }
    ensures text { IfOk result (λ a. a.text.items
        ≡ refusal_at (readers manner) book.now line.now refused ++ closing manner line.now) }
{
    let mut text = Vec::new(alloc);
    append_refusal(alloc, book, line, refused, manner.readers(), &mut text)?;
    text.extend_from_slice(manner.closing(line))?;
    Ok(Answered { change: None, text })
}

/// What a command's line is answered over a book.
fn answer_to_command(
    alloc: Global,
    book: &Book,
    line: &[u8],
    manner: Manner,
) -> Result<Answered, NoMemory>
    ensures replies { IfOk result
        (λ a. RepliesTo manner None book.now line.now a.change a.text.items) }
    ensures fits { (config : Config) → config.tables ≡ book.now.config.tables
        → IfOk result (λ a. IfSome a.change (MayPost config)) }
{
    match read_command(alloc, book, line) {
        Ok(command) => obeyed(alloc, book, line, command, manner),
        Err(refused) => refused_line(alloc, book, line, refused, manner),
    }
}

// The third word names no peer.
fn no_peer() -> Refused
    ensures { result ≡ no_peer }
{
    Refused::at(CommandFault::NoTable, Misread::wrong(3, Expected::Name))
}

/// The answer to what is asked for beside commands.
fn status_text<G: Gate>(
    alloc: Global,
    gate: &G,
    book: &Book,
    line: &[u8],
    asked: Asked,
    door: Door,
) -> Result<Vec<u8>, NoMemory>
    ensures { IfOk result (λ text. IsStatus door book.now line.now asked text.items) }
{
    let mut text = Vec::new(alloc);
    match asked {
        Asked::Status(status) => gate.status(book, status, &mut text)?,
        Asked::Config => append_config(book.config(), &mut text)?,
        Asked::Filters => append_filters(book.config(), &mut text)?,
        Asked::Ranks => append_ranks(book.config(), &mut text)?,
        Asked::Prompt => {}
        Asked::NoPeer => { append_refusal(alloc, book, line, no_peer(), door, &mut text)? }
    }
    Ok(text)
}

/// What is answered to what is asked for beside commands.
fn told<G: Gate>(
    alloc: Global,
    gate: &G,
    book: &Book,
    line: &[u8],
    asked: Asked,
    manner: Manner,
) -> Result<Answered, NoMemory>
    ensures change { IfOk result (λ a. a.change ≡ None) }
    ensures told { IfOk result
        (λ a. IsTold manner book.now line.now asked a.change a.text.items) }
{
    let mut text = status_text(alloc, gate, book, line, asked, manner.readers())?;
    text.extend_from_slice(manner.closing(line))?;
    Ok(Answered { change: None, text })
}

/// What a line is answered over a book.
pub fn answer_to<G: Gate>(
    alloc: Global,
    gate: &G,
    book: &Book,
    line: &[u8],
    manner: Manner,
) -> Result<Answered, NoMemory>
    ensures replies { IfOk result (λ a. Replies manner book.now line.now a.change a.text.items) }
    ensures fits { (config : Config) → config.tables ≡ book.now.config.tables
        → IfOk result (λ a. IfSome a.change (MayPost config)) }
{
    match asked_in(book.config(), line) {
        None => answer_to_command(alloc, book, line, manner),
        Some(asked) => told(alloc, gate, book, line, asked, manner),
    }
}
