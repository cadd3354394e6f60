//! The answers to commands.

ghost use Rattle.std.specs.Prelude.{◌≡◌, ◌++◌, ◌<◌, length, take, OnOk, OnErr};
ghost use Rattle.agg_types.specs.declared.event.Select.TheVariants.{One, Conds};
ghost use Rattle.fleet_model.specs.Answers.{filter_of};
ghost use Rattle.fleet_model.specs.Ranking.{rank_of};
ghost use Rattle.show_clear.specs.Answer.{Answers, AskedExists};
ghost use Rattle.show_clear.specs.Answer.{NamesExist, filter_text};
ghost use Rattle.answer_text.specs.Tables.{shape_of};
ghost use Rattle.show_clear.specs.Answer.{headings, rank_text, row_lines, rows_text};
ghost use Rattle.show_clear.specs.Answer.{table_text};
ghost use Rattle.show_clear.specs.People.{AnswersPeople};
ghost use Rattle.show_clear.specs.Readers.{AnswersFor, AppendsNext, AppendsTold};

use crate::fleet::{Book, BookRows};
use crate::{Command, Question};
use agg_types::{Cond, Filter, Key, NoMemory, Rank, Select, Shape};
use answer_text::{
    append_change, append_change_ahead, append_heading, append_held, append_one_key,
    append_ranking, append_row, shape_of,
};
use key_text::append_text;
use std::alloc::Global;

/// Appends the text of a command's answer, each line with its LF: what the book answers now, or
/// `ok` for what changes it. After `NoMemory` the bytes of `out` are as they were.
///
/// The command names what stands in the book, as one that `parse` read over it does.
#[tactic(auto, using(crate::proofs::Readers::answers_scripts))]
pub fn answer(
    alloc: Global,
    book: &Book,
    command: &Command,
    out: &mut Vec<u8>,
) -> Result<(), NoMemory>
    requires { NamesExist book.now command.now }
    ensures ok { OnOk result (Answers book.now command.now out.old.items out.new.items) }
    ensures err { OnErr result (out.new.items ≡ out.old.items) }
{
    append_whole(alloc, book, Readers::Scripts, command, out)
}

/// Appends what people are answered: what `answer` does, and behind the moment of a filter's next
/// change how far off it is, in ms. After `NoMemory` the bytes of `out` are as they were.
///
/// The command names what stands in the book, as one that `parse` read over it does.
#[tactic(auto, using(crate::proofs::Readers::answers_people))]
pub fn answer_people(
    alloc: Global,
    book: &Book,
    command: &Command,
    out: &mut Vec<u8>,
) -> Result<(), NoMemory>
    requires { NamesExist book.now command.now }
    ensures ok { OnOk result (AnswersPeople book.now command.now out.old.items out.new.items) }
    ensures err { OnErr result (out.new.items ≡ out.old.items) }
{
    append_whole(alloc, book, Readers::People, command, out)
}

/// Whom an answer is for.
#[derive(Clone, Copy)]
enum Readers {
    Scripts,
    People,
}

// Appends the text of a command's answer whole, or leaves what was there.
fn append_whole(
    alloc: Global,
    book: &Book,
    readers: Readers,
    command: &Command,
    out: &mut Vec<u8>,
) -> Result<(), NoMemory>
    requires { NamesExist book.now command.now }
    ensures ok { OnOk result
        (AnswersFor readers book.now command.now out.old.items out.new.items) }
    ensures err { OnErr result (out.new.items ≡ out.old.items) }
{
    let len = out.len();
    if append_answer(alloc, book, readers, command, out).is_err() {
        out.truncate(len);
        return Err(NoMemory);
    }
    Ok(())
}

fn append_answer(
    alloc: Global,
    book: &Book,
    readers: Readers,
    command: &Command,
    out: &mut Vec<u8>,
) -> Result<(), NoMemory>
    requires { NamesExist book.now command.now }
    ensures ok { OnOk result
        (AnswersFor readers book.now command.now out.old.items out.new.items) }
    ensures begins { take (length out.old.items) out.new.items ≡ out.old.items }
{
    match command {
        Command::Ask(question) => append_asked(alloc, book, readers, question, out),
        Command::Change(_) => append_text(b"ok\n", out),
    }
}

fn append_asked(
    alloc: Global,
    book: &Book,
    readers: Readers,
    question: &Question,
    out: &mut Vec<u8>,
) -> Result<(), NoMemory>
    requires { AskedExists book.now question.now }
    ensures ok { OnOk result
        (AppendsTold readers book.now question.now out.old.items out.new.items) }
    ensures begins { take (length out.old.items) out.new.items ≡ out.old.items }
{
    match question {
        Question::Tables => append_headings(book, out),
        Question::Table { table, sel } => append_table(alloc, book, *table, sel, out),
        Question::FilterKeys(filter) => append_filter(alloc, book, *filter, out),
        Question::Ranking(rank) => append_rank(alloc, book, *rank, out),
        Question::NextChange(filter) => append_next(book, readers, *filter, out),
        Question::OneKey { table, key } => append_one_key(book, *table, key, out),
    }
}

fn append_headings(book: &Book, out: &mut Vec<u8>) -> Result<(), NoMemory>
    ensures ok { OnOk result (out.new.items
        ≡ out.old.items ++ headings book.now 0 book.now.config.tables) }
    ensures begins { take (length out.old.items) out.new.items ≡ out.old.items }
{
    let tables = book.config().tables.as_slice();
    for (table, shape) in tables.iter().enumerate() {
        append_heading(shape, book.used(table), out)?;
    }
    Ok(())
}

#[tactic(auto, using(key_text::proofs::Begins::begins_then))]
fn append_table(
    alloc: Global,
    book: &Book,
    table: usize,
    sel: &Select,
    out: &mut Vec<u8>,
) -> Result<(), NoMemory>
    requires { table < length book.now.config.tables }
    ensures ok { OnOk result (out.new.items ≡ out.old.items ++ table_text book.now table sel.now) }
    ensures begins { take (length out.old.items) out.new.items ≡ out.old.items }
{
    let shape = shape_of(book, table);
    let used = book.used(table);
    append_heading(shape, used, out)?;
    match sel {
        Select::All => append_listed(alloc, book, table, &[], out),
        Select::One(key) => append_one(book, shape, table, key, out),
        Select::Conds(conds) => append_listed(alloc, book, table, conds.as_slice(), out),
    }
}

fn append_one(
    book: &Book,
    shape: &Shape,
    table: usize,
    key: &Key,
    out: &mut Vec<u8>,
) -> Result<(), NoMemory>
    requires { shape.now ≡ shape_of book.now table }
    ensures ok { OnOk result
        (out.new.items ≡ out.old.items ++ rows_text book.now table (One key.now)) }
    ensures begins { take (length out.old.items) out.new.items ≡ out.old.items }
{
    match book.summed(table, key) {
        None => Ok(()),
        Some(sums) => append_row(shape, key, &sums, out),
    }
}

#[tactic(auto, using(crate::proofs::Lines::lines_where))]
fn append_listed(
    alloc: Global,
    book: &Book,
    table: usize,
    conds: &[Cond],
    out: &mut Vec<u8>,
) -> Result<(), NoMemory>
    requires { table < length book.now.config.tables }
    ensures ok { OnOk result
        (out.new.items ≡ out.old.items ++ rows_text book.now table (Conds conds.now)) }
    ensures begins { take (length out.old.items) out.new.items ≡ out.old.items }
{
    let rows = book.rows_where(alloc, table, conds)?;
    append_rows(shape_of(book, table), rows, out)
}

// Appends the lines of rows.
fn append_rows(shape: &Shape, rows: BookRows<'_>, out: &mut Vec<u8>) -> Result<(), NoMemory>
    ensures ok { OnOk result
        (out.new.items ≡ out.old.items ++ row_lines shape.now rows.entry) }
    ensures begins { take (length out.old.items) out.new.items ≡ out.old.items }
{
    for (key, sums) in rows {
        append_row(shape, key, &sums, out)?;
    }
    Ok(())
}

// A standing filter. Its table is there, as in every configuration that was checked.
#[tactic(auto, using(crate::proofs::Existing::filters_exist))]
fn filter_at(book: &Book, filter: usize) -> &Filter
    requires { filter < length book.now.config.filters }
    ensures value { result.now ≡ filter_of book.now filter }
    ensures table { result.now.table < length book.now.config.tables }
{
    &book.config().filters.as_slice()[filter]
}

// A ranked list. Its table is there, as in every configuration that was checked.
#[tactic(auto, using(crate::proofs::Existing::ranks_exist))]
fn rank_at(book: &Book, rank: usize) -> &Rank
    requires { rank < length book.now.config.ranks }
    ensures value { result.now ≡ rank_of book.now rank }
    ensures table { result.now.table < length book.now.config.tables }
{
    &book.config().ranks.as_slice()[rank]
}

fn append_filter(
    alloc: Global,
    book: &Book,
    filter: usize,
    out: &mut Vec<u8>,
) -> Result<(), NoMemory>
    requires { filter < length book.now.config.filters }
    ensures ok { OnOk result (out.new.items
        ≡ out.old.items ++ filter_text book.now (filter_of book.now filter)) }
    ensures begins { take (length out.old.items) out.new.items ≡ out.old.items }
{
    let standing = filter_at(book, filter);
    let keys = book.filter_keys(filter).into_vec(alloc)?;
    append_held(
        standing,
        shape_of(book, standing.table),
        keys.as_slice(),
        out,
    )
}

#[tactic(auto, using(crate::proofs::Lines::ranked_short))]
fn append_rank(alloc: Global, book: &Book, rank: usize, out: &mut Vec<u8>) -> Result<(), NoMemory>
    requires { rank < length book.now.config.ranks }
    ensures ok { OnOk result
        (out.new.items ≡ out.old.items ++ rank_text book.now (rank_of book.now rank)) }
    ensures begins { take (length out.old.items) out.new.items ≡ out.old.items }
{
    let listed = rank_at(book, rank);
    let entries = book.top(alloc, rank)?;
    append_ranking(listed, shape_of(book, listed.table), entries, out)
}

fn append_next(
    book: &Book,
    readers: Readers,
    filter: usize,
    out: &mut Vec<u8>,
) -> Result<(), NoMemory>
    requires { filter < length book.now.config.filters }
    ensures ok { OnOk result
        (AppendsNext readers book.now (filter_of book.now filter) out.old.items out.new.items) }
    ensures begins { take (length out.old.items) out.new.items ≡ out.old.items }
{
    let standing = filter_at(book, filter);
    let t = book.next_change(filter);
    let shape = shape_of(book, standing.table);
    match readers {
        Readers::Scripts => append_change(standing, shape, t, out),
        Readers::People => append_change_ahead(standing, shape, book.moment(), t, out),
    }
}
