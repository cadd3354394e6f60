//! What people are told of a refused line beside its fault.

ghost use Rattle.std.specs.Prelude.{◌≡◌, ◌++◌, OnOk, OnErr};
ghost use Rattle.line_words.specs.Words.{words};
ghost use Rattle.show_clear.specs.Explained.{explained_refusal, explanation, long_text};
ghost use Rattle.show_clear.specs.Explained.{word_refused, words_text};

use crate::fleet::Book;
use crate::forms::append_form;
use crate::parsing::without_returns;
use crate::unfit::{
    append_bad_column, append_bad_key, append_bad_name, append_bad_operator, append_bad_value,
    append_exists, append_full, append_too_many,
};
use crate::unnamed::append_no_name;
use crate::{CommandFault, Refused};
use agg_types::NoMemory;
use agg_types::limits::LONGEST_COMMAND_LINE;
use answer_text::{append_counted, append_labelled};
use key_text::append_text;
use line_words::{Misread, word_at};
use std::alloc::Global;

/// Appends the refusal of a line over a book, for people: a line with the fault's number and name,
/// and behind them the word that it is refused for, and what was expected. Of a word at most 40
/// bytes are told, those that don't print as `?`. After `NoMemory` the bytes of `out` are as they
/// were.
pub fn explain(
    alloc: Global,
    book: &Book,
    line: &[u8],
    refused: &Refused,
    out: &mut Vec<u8>,
) -> Result<(), NoMemory>
    ensures ok { OnOk result (out.new.items
        ≡ out.old.items ++ explained_refusal book.now line.now refused.now) }
    ensures err { OnErr result (out.new.items ≡ out.old.items) }
{
    let mut text = Vec::new(alloc);
    append_explained(book, line, *refused, &mut text)?;
    out.extend_from_slice(text.as_slice())?;
    Ok(())
}

fn append_explained(
    book: &Book,
    line: &[u8],
    refused: Refused,
    out: &mut Vec<u8>,
) -> Result<(), NoMemory>
    ensures { OnOk result (out.new.items
        ≡ out.old.items ++ explained_refusal book.now line.now refused) }
{
    append_counted(b"refused ", u128::from(refused.fault.number()), out)?;
    append_labelled(b" ", refused.fault.name().as_bytes(), out)?;
    append_text(b": ", out)?;
    append_explanation(book, line, refused, out)?;
    append_text(b"\n", out)
}

fn append_explanation(
    book: &Book,
    line: &[u8],
    refused: Refused,
    out: &mut Vec<u8>,
) -> Result<(), NoMemory>
    ensures { OnOk result
        (out.new.items ≡ out.old.items ++ explanation book.now line.now refused) }
{
    let line = without_returns(line);
    if line.len() > LONGEST_COMMAND_LINE {
        return append_long(out);
    }
    append_words(
        book,
        line,
        word_refused(line, refused.at),
        refused.fault,
        out,
    )
}

fn append_long(out: &mut Vec<u8>) -> Result<(), NoMemory>
    ensures { OnOk result (out.new.items ≡ out.old.items ++ long_text) }
{
    append_counted(
        b"the line has more than ",
        LONGEST_COMMAND_LINE as u128,
        out,
    )?;
    append_text(b" bytes", out)
}

// The word that a line is refused for; empty where there is none.
fn word_refused(line: &[u8], at: Option<Misread>) -> &[u8]
    ensures { result.now ≡ word_refused at (words line.now) }
{
    match at {
        None => b"",
        Some(at) => word_at(line, at.word),
    }
}

fn append_words(
    book: &Book,
    line: &[u8],
    wrong: &[u8],
    fault: CommandFault,
    out: &mut Vec<u8>,
) -> Result<(), NoMemory>
    ensures { OnOk result (out.new.items
        ≡ out.old.items ++ words_text book.now (words line.now) wrong.now fault) }
{
    match fault {
        CommandFault::Empty => append_text(b"the line has no word; see help", out),
        CommandFault::Unknown => append_form(word_at(line, 1), word_at(line, 2), out),
        CommandFault::NoTable => append_no_name(book, line, wrong, out),
        CommandFault::BadColumn => append_bad_column(book, line, wrong, out),
        CommandFault::BadOperator => append_bad_operator(wrong, out),
        CommandFault::BadValue => append_bad_value(wrong, out),
        CommandFault::BadKey => append_bad_key(book, line, wrong, out),
        CommandFault::TooMany => append_too_many(out),
        CommandFault::NoMemory => append_text(b"out of memory", out),
        CommandFault::BadName => append_bad_name(wrong, out),
        CommandFault::Exists => append_exists(wrong, out),
        CommandFault::Full => append_full(out),
    }
}
