//! Commands from their lines.

ghost use Rattle.std.specs.Prelude.{◌≡◌, ◌≢◌, ◌<◌, ◌≤◌, ◌+◌, ◌∷◌, length, false, Err, IfErr, IfOk};
ghost use Rattle.std.specs.Prelude.{IfSome};
ghost use Rattle.line_words.specs.Words.{words};
ghost use Rattle.show_clear.specs.Answer.{NamesExist};
ghost use Rattle.show_clear.specs.Change.{ChangeFits};
ghost use Rattle.show_clear.specs.Parse.{Finds, Says, Takes, TakesMemoryAt, Tells, added};
ghost use Rattle.show_clear.specs.Parse.{added_named, begins_del, cleared, command_by, command_in};
ghost use Rattle.show_clear.specs.Parse.{command_of, dropped, filter_at, filter_on, key_shown};
ghost use Rattle.show_clear.specs.Parse.{last_key, last_named};
ghost use Rattle.show_clear.specs.Parse.{named, new_name, no_name, one_key, rank_at, reading_of};
ghost use Rattle.show_clear.specs.Parse.{sel_of, shown, shown_by, table_and_sel, table_at};
ghost use Rattle.show_clear.specs.Parse.{table_shown, without_returns};
ghost use Rattle.show_clear.specs.declared.fault.CommandFault.TheVariants.{NoMemory as OutOfMemory};

use crate::conditions::{read_conds, read_some_conds};
use crate::fleet::Book;
use crate::{Change, Command, CommandFault, Question, Refused};
use agg_types::limits::LONGEST_COMMAND_LINE;
use agg_types::{Filter, Key, KeyKind, MOST_FILTERS, Name, Select, Shape, is_name};
use answer_text::shape_of;
use key_text::read_key;
use line_words::{Expected, Misread, Words};
use std::alloc::Global;

/// The command that a line says, over what stands in a book, or the first fault from the left. The
/// line comes without its LF; CRs at its end are dropped. Words are separated by one or more
/// spaces.
pub fn parse(alloc: Global, book: &Book, line: &[u8]) -> Result<Command, CommandFault>
    ensures read { Tells (command_of book.now line.now) result }
    ensures stands { IfOk result (NamesExist book.now) }
    ensures fits { IfOk result (ChangeFits book.now) }

    // A line of up to three words takes no memory, but for the name of a filter to be dropped.
    ensures spare { result ≡ Err OutOfMemory → begins_del (words (without_returns line.now)) ≡ false
        → 4 ≤ length (words (without_returns line.now)) }
{
    match read_command(alloc, book, line) {
        Ok(command) => Ok(command),
        Err(refused) => Err(refused.fault),
    }
}

/// The same, with the word that a line is refused for.
pub fn read_command(alloc: Global, book: &Book, line: &[u8]) -> Result<Command, Refused>
    ensures read { Says (reading_of book.now line.now) result }
    ensures stands { IfOk result (NamesExist book.now) }
    ensures fits { IfOk result (ChangeFits book.now) }
    ensures spare { begins_del (words (without_returns line.now)) ≡ false
        → TakesMemoryAt 4 (words (without_returns line.now)) result }
{
    read_line(alloc, book, line)
}

fn read_line(alloc: Global, book: &Book, line: &[u8]) -> Result<Command, Refused>
    ensures read { Says (reading_of book.now line.now) result }
    ensures spare { begins_del (words (without_returns line.now)) ≡ false
        → TakesMemoryAt 4 (words (without_returns line.now)) result }
{
    let line = without_returns(line);
    if line.len() > LONGEST_COMMAND_LINE {
        return Err(Refused::unplaced(CommandFault::Unknown));
    }
    let mut words = Words::of(line);
    command_in(alloc, book, &mut words)
}

/// A line without the CRs at its end, which don't count.
pub fn without_returns(line: &[u8]) -> &[u8]
    ensures { result.now ≡ without_returns line.now }
{
    let mut left = line;
    while let Some(front) = left.strip_suffix(b"\r") {
        left = front;
    }
    left
}

#[tactic(auto, unfolding(crate::specs::Parse::command_in))]
fn command_in(alloc: Global, book: &Book, words: &mut Words<'_>) -> Result<Command, Refused>
    ensures read { Says (command_in book.now words.old) result }
    ensures spare { begins_del words.old.words ≡ false → TakesMemoryAt 4 words.old.words result }
{
    let place = words.place();
    if words.is_empty() {
        let at = Misread::missing(place, Expected::Keyword);
        return Err(Refused::at(CommandFault::Empty, at));
    }
    let kind = words.word(Expected::Keyword)?;
    command_by(alloc, book, place, kind, words)
}

// By its first word.
fn command_by(
    alloc: Global,
    book: &Book,
    place: usize,
    kind: &[u8],
    words: &mut Words<'_>,
) -> Result<Command, Refused>
    ensures read { Says (command_by book.now place kind.now words.old) result }
    ensures spare { begins_del (kind.now ∷ words.old.words) ≡ false
        → TakesMemoryAt 3 words.old.words result }
{
    if kind == b"show".as_slice() {
        Ok(Command::Ask(shown(alloc, book, words)?))
    } else if kind == b"clear".as_slice() {
        Ok(Command::Change(cleared(alloc, book, words)?))
    } else if kind == b"add".as_slice() {
        Ok(Command::Change(added(alloc, book, words)?))
    } else if kind == b"del".as_slice() {
        Ok(Command::Change(dropped(alloc, book, words)?))
    } else {
        Err(Refused::from(Misread::wrong(place, Expected::Keyword)))
    }
}

// Behind `show`.
#[tactic(auto, unfolding(crate::specs::Parse::shown))]
fn shown(alloc: Global, book: &Book, words: &mut Words<'_>) -> Result<Question, Refused>
    ensures read { Says (shown book.now words.old) result }
    ensures spare { TakesMemoryAt 3 words.old.words result }
{
    let place = words.place();
    let kind = words.word(Expected::Keyword)?;
    shown_by(alloc, book, place, kind, words)
}

fn shown_by(
    alloc: Global,
    book: &Book,
    place: usize,
    kind: &[u8],
    words: &mut Words<'_>,
) -> Result<Question, Refused>
    ensures read { Says (shown_by book.now place kind.now words.old) result }
    ensures spare { TakesMemoryAt 2 words.old.words result }
{
    if kind == b"table".as_slice() {
        table_shown(alloc, book, words)
    } else if kind == b"filter".as_slice() {
        Ok(Question::FilterKeys(filter_named(book, words)?))
    } else if kind == b"rank".as_slice() {
        Ok(Question::Ranking(rank_named(book, words)?))
    } else if kind == b"next".as_slice() {
        Ok(Question::NextChange(filter_named(book, words)?))
    } else if kind == b"key".as_slice() {
        key_shown(alloc, book, words)
    } else {
        Err(Refused::from(Misread::wrong(place, Expected::Keyword)))
    }
}

// Behind `show table`.
#[tactic(auto, unfolding(crate::specs::Parse::table_shown))]
fn table_shown(alloc: Global, book: &Book, words: &mut Words<'_>) -> Result<Question, Refused>
    ensures read { Says (table_shown book.now words.old) result }
    ensures spare { TakesMemoryAt 2 words.old.words result }
{
    if words.is_empty() {
        return Ok(Question::Tables);
    }
    let (table, sel) = table_and_sel(alloc, book, words)?;
    Ok(Question::Table { table, sel })
}

// Behind `show key`.
#[tactic(auto, unfolding(crate::specs::Parse::key_shown))]
fn key_shown(alloc: Global, book: &Book, words: &mut Words<'_>) -> Result<Question, Refused>
    ensures read { Says (key_shown book.now words.old) result }
    ensures spare { TakesMemoryAt 2 words.old.words result }
{
    let table = table_named(book, words)?;
    let key = last_key(alloc, shape_of(book, table).kind, words)?;
    Ok(Question::OneKey { table, key })
}

// Behind `clear`.
#[tactic(auto, unfolding(crate::specs::Parse::cleared))]
fn cleared(alloc: Global, book: &Book, words: &mut Words<'_>) -> Result<Change, Refused>
    ensures read { Says (cleared book.now words.old) result }
    ensures spare { TakesMemoryAt 3 words.old.words result }
{
    words.keyword(b"table")?;
    let (table, sel) = table_and_sel(alloc, book, words)?;
    Ok(Change::Clear { table, sel })
}

// Behind `add`.
#[tactic(auto, unfolding(crate::specs::Parse::added))]
fn added(alloc: Global, book: &Book, words: &mut Words<'_>) -> Result<Change, Refused>
    ensures read { Says (added book.now words.old) result }
    ensures spare { TakesMemoryAt 3 words.old.words result }
{
    words.keyword(b"filter")?;
    let place = words.place();
    let name = words.word(Expected::Name)?;
    check_new_name(book, place, name)?;
    Ok(Change::AddFilter(filter_on(alloc, book, name, words)?))
}

// Behind `del`.
#[tactic(auto, unfolding(crate::specs::Parse::dropped))]
fn dropped(alloc: Global, book: &Book, words: &mut Words<'_>) -> Result<Change, Refused>
    ensures { Says (dropped book.now words.old) result }
{
    words.keyword(b"filter")?;
    let place = words.place();
    let name = words.word(Expected::Name)?;
    check_added(book, place, name)?;
    words.end()?;
    Ok(Change::DropFilter(Name::copy(alloc, name)?))
}

// A table by its name and a selector, to the end of the line.
#[tactic(auto, unfolding(crate::specs::Parse::table_and_sel))]
fn table_and_sel(
    alloc: Global,
    book: &Book,
    words: &mut Words<'_>,
) -> Result<(usize, Select), Refused>
    ensures read { Says (table_and_sel book.now words.old) result }
    ensures spare { TakesMemoryAt 2 words.old.words result }
{
    let table = table_named(book, words)?;
    let sel = selector(alloc, shape_of(book, table), words)?;
    Ok((table, sel))
}

// A selector, to the end of the line.
#[tactic(auto, unfolding(crate::specs::Parse::sel_of))]
fn selector(alloc: Global, shape: &Shape, words: &mut Words<'_>) -> Result<Select, Refused>
    ensures read { Says (sel_of shape.now words.old) result }
    ensures spare { TakesMemoryAt 1 words.old.words result }
{
    if words.is_empty() {
        return Ok(Select::All);
    }
    if words.next_is(b"key") {
        return one_key(alloc, shape.kind, words);
    }
    Ok(Select::Conds(read_conds(alloc, shape, words)?))
}

#[tactic(auto, unfolding(crate::specs::Parse::one_key))]
fn one_key(alloc: Global, kind: KeyKind, words: &mut Words<'_>) -> Result<Select, Refused>
    ensures { Says (one_key kind words.old) result }
{
    words.keyword(b"key")?;
    Ok(Select::One(last_key(alloc, kind, words)?))
}

// The key that the last word says.
#[tactic(auto, unfolding(crate::specs::Parse::last_key))]
fn last_key(alloc: Global, kind: KeyKind, words: &mut Words<'_>) -> Result<Key, Refused>
    ensures read { Says (last_key kind words.old) result }
    ensures spare { TakesMemoryAt 1 words.old.words result }
{
    let place = words.place();
    let text = words.word(Expected::Key)?;
    let Some(key) = read_key(alloc, kind, text)? else {
        let at = Misread::wrong(place, Expected::Key);
        return Err(Refused::at(CommandFault::BadKey, at));
    };
    words.end()?;
    Ok(key)
}

// The filter of this name, from its table and conditions.
#[tactic(auto, unfolding(crate::specs::Parse::filter_on))]
fn filter_on(
    alloc: Global,
    book: &Book,
    name: &[u8],
    words: &mut Words<'_>,
) -> Result<Filter, Refused>
    ensures read { Says (filter_on book.now name.now words.old) result }
    ensures spare { TakesMemoryAt 1 words.old.words result }
{
    let table = table_named(book, words)?;
    let conds = read_some_conds(alloc, shape_of(book, table), words)?;
    Ok(Filter {
        name: Name::copy(alloc, name)?,
        table,
        conds,
    })
}

// ---- names

// A word of this number is a name that nothing has.
fn no_name(place: usize) -> Refused
    ensures { result ≡ no_name place }
{
    Refused::at(CommandFault::NoTable, Misread::wrong(place, Expected::Name))
}

fn table_at(book: &Book, name: &[u8]) -> Option<usize>
    ensures at { result ≡ table_at book.now name.now }
    ensures within { IfSome result (λ table. table < length book.now.config.tables) }
{
    book.config().tables.position(name)
}

fn filter_at(book: &Book, name: &[u8]) -> Option<usize>
    ensures { result ≡ filter_at book.now name.now }
{
    book.config().filters.position(name)
}

fn rank_at(book: &Book, name: &[u8]) -> Option<usize>
    ensures { result ≡ rank_at book.now name.now }
{
    book.config().ranks.position(name)
}

// The position of a table, by the next word.
#[tactic(auto, using(crate::proofs::Named::named_lemmas), unfolding(crate::specs::Parse::named))]
fn table_named(book: &Book, words: &mut Words<'_>) -> Result<usize, Refused>
    ensures read { Takes (named (table_at book.now) words.old) result words.new }
    ensures within { IfOk result (λ table. table < length book.now.config.tables) }
    ensures shorter { IfOk result (λ table. length words.old.words ≡ length words.new.words + 1) }
{
    let place = words.place();
    let name = words.word(Expected::Name)?;
    match table_at(book, name) {
        Some(table) => Ok(table),
        None => Err(no_name(place)),
    }
}

// The position of a standing filter, whose name is the last word.
#[tactic(auto, using(crate::proofs::Named::named_lemmas))]
fn filter_named(book: &Book, words: &mut Words<'_>) -> Result<usize, Refused>
    ensures { Finds (last_named (filter_at book.now) words.old) result }
{
    let place = words.place();
    let name = words.word(Expected::Name)?;
    let Some(filter) = filter_at(book, name) else {
        return Err(no_name(place));
    };
    words.end()?;
    Ok(filter)
}

// The position of a ranked list, whose name is the last word.
#[tactic(auto, using(crate::proofs::Named::named_lemmas))]
fn rank_named(book: &Book, words: &mut Words<'_>) -> Result<usize, Refused>
    ensures { Finds (last_named (rank_at book.now) words.old) result }
{
    let place = words.place();
    let name = words.word(Expected::Name)?;
    let Some(rank) = rank_at(book, name) else {
        return Err(no_name(place));
    };
    words.end()?;
    Ok(rank)
}

// Whether an added filter has this name, which is the word of this number.
fn check_added(book: &Book, place: usize, name: &[u8]) -> Result<(), Refused>
    ensures read { result ≡ added_named book.now place name.now }
{
    if book.has_added(name) {
        return Ok(());
    }
    Err(no_name(place))
}

// Whether a filter of this name may be added. The name is the word of this number.
fn check_new_name(book: &Book, place: usize, name: &[u8]) -> Result<(), Refused>
    ensures read { result ≡ new_name book.now place name.now }
    ensures spare { IfErr result (λ refused. refused.fault ≢ OutOfMemory) }
{
    let filters = &book.config().filters;
    let at = Misread::wrong(place, Expected::Name);
    if !is_name(name) {
        return Err(Refused::at(CommandFault::BadName, at));
    }
    if filters.contains(name) {
        return Err(Refused::at(CommandFault::Exists, at));
    }
    if filters.len() < MOST_FILTERS {
        Ok(())
    } else {
        Err(Refused::at(CommandFault::Full, at))
    }
}
