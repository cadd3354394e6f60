//! What a line declares.

ghost use Rattle.std.specs.Prelude.{◌≡◌, ◌||◌, true, Err, is_ok};
ghost use Rattle.line_words.specs.Reader.{Reads};
ghost use Rattle.agg_config.specs.Declarations.{declared, filter_line, hold, ignore_line, keep};
ghost use Rattle.agg_config.specs.Declarations.{key_kind, line_declaration, log_line, me_line};
ghost use Rattle.agg_config.specs.Declarations.{number_behind};
ghost use Rattle.agg_config.specs.Declarations.{peer_line, push_line, rank_line, rows_line, shape};
ghost use Rattle.agg_config.specs.Declarations.{some_behind, table_line, type_of};
ghost use Rattle.agg_config.specs.ReadResults.{Gives, GivesWhole};
ghost use Rattle.agg_config.specs.Reading.{has_list, takes_memory};
ghost use Rattle.agg_config.specs.declared.causes.Unread.TheVariants.{NoMemory as Refused};

use crate::Unread;
use crate::columns::{Stored, in_order, known_periods, stored};
use crate::filters::{conditions, known_bounds};
use agg_types::{Col, Cond, Ignored, Items, KeyKind, Logged, Name, Push, Shape};
use line_words::{Expected, Misread, Words, is_comment};
use std::alloc::Global;

/// What a line declares. A filter and a ranked list name their table, a push and a log their
/// filter.
#[derive(Drop)]
pub(crate) enum Declaration {
    Me(Name),
    Peer(Name),
    Table(Shape),
    Filter {
        name: Name,
        table: Name,
        conds: Items<Cond>,
    },
    Rank {
        name: Name,
        table: Name,
        col: Col,
        n: u64,
    },
    Push(Push),
    Rows(u64),
    Log(Logged),
    Ignore(Ignored),
}

/// What a line declares, or nothing where it is blank or a comment.
#[tactic(auto, unfolding(crate::specs::Declarations::declared))]
pub(crate) fn declared(alloc: Global, line: &[u8]) -> Result<Option<Declaration>, Unread>
    ensures gives { Gives (λ x. x) result (declared line.now) }
    ensures spare { result ≡ Err Refused → takes_memory line.now ≡ true }
{
    if is_comment(line) {
        return Ok(None);
    }
    let mut words = Words::of(line);
    Ok(Some(line_declaration(alloc, &mut words)?))
}

#[tactic(auto, unfolding(crate::specs::Declarations::line_declaration))]
fn line_declaration(alloc: Global, words: &mut Words<'_>) -> Result<Declaration, Unread>
    ensures gives { Gives (λ x. x) result (line_declaration words.old) }
    ensures spare { result ≡ Err Refused → (is_ok (line_declaration words.old)
        || has_list words.old.words) ≡ true }
{
    let place = words.place();
    let kind = words.word(Expected::Keyword)?;
    if kind == b"name".as_slice() {
        me_line(alloc, words)
    } else if kind == b"peer".as_slice() {
        peer_line(alloc, words)
    } else if kind == b"table".as_slice() {
        table_line(alloc, words)
    } else if kind == b"filter".as_slice() {
        filter_line(alloc, words)
    } else if kind == b"rank".as_slice() {
        rank_line(alloc, words)
    } else if kind == b"push".as_slice() {
        push_line(alloc, words)
    } else if kind == b"rows".as_slice() {
        Ok(rows_line(words)?)
    } else if kind == b"log".as_slice() {
        log_line(alloc, words)
    } else if kind == b"ignore".as_slice() {
        ignore_line(alloc, words)
    } else {
        Err(Unread::Misread(Misread::wrong(place, Expected::Keyword)))
    }
}

#[tactic(auto, unfolding(crate::specs::Declarations::me_line))]
fn me_line(alloc: Global, words: &mut Words<'_>) -> Result<Declaration, Unread>
    ensures { GivesWhole (λ x. x) result (me_line words.old) }
{
    let name = words.word(Expected::Name)?;
    words.end()?;
    Ok(Declaration::Me(Name::copy(alloc, name)?))
}

#[tactic(auto, unfolding(crate::specs::Declarations::peer_line))]
fn peer_line(alloc: Global, words: &mut Words<'_>) -> Result<Declaration, Unread>
    ensures { GivesWhole (λ x. x) result (peer_line words.old) }
{
    let name = words.word(Expected::Name)?;
    words.end()?;
    Ok(Declaration::Peer(Name::copy(alloc, name)?))
}

#[tactic(auto, unfolding(crate::specs::Declarations::table_line))]
fn table_line(alloc: Global, words: &mut Words<'_>) -> Result<Declaration, Unread>
    ensures { Gives (λ x. x) result (table_line words.old) }
{
    let name = words.word(Expected::Name)?;
    words.keyword(b"type")?;
    let kind = key_kind(words)?;
    words.keyword(b"size")?;
    let size = words.number()?;
    let keep = keep(words)?;
    let cols = stored(alloc, words)?;
    shape(alloc, name, kind, size, keep, cols.as_slice())
}

/// The kind of keys that a type names, as a line `table .. type <type>` has it: `ip`, `ipv6`,
/// `integer`, `string` or `binary`, and `ipv4`, as HAProxy has it for `ip` from 3.2 on.
pub fn type_of(name: &[u8]) -> Option<KeyKind>
    ensures { result ≡ type_of name.now }
{
    if name == b"ipv4".as_slice() {
        Some(KeyKind::Ip)
    } else {
        KeyKind::from_name(name)
    }
}

// The kind of keys, or why its length is no number.
#[tactic(auto, unfolding(crate::specs::Declarations::key_kind))]
fn key_kind(words: &mut Words<'_>) -> Result<Result<KeyKind, Misread>, Misread>
    ensures { Reads (λ x. x) (key_kind words.old) result words.new }
{
    let place = words.place();
    let Some(kind) = type_of(words.word(Expected::Keyword)?) else {
        return Err(Misread::wrong(place, Expected::Keyword));
    };
    if !kind.takes_length() {
        return Ok(Ok(kind));
    }
    Ok(number_behind(words, b"len")?.map(|len| kind.with_length(len)))
}

// A word and the number behind it, or why that is none.
#[tactic(auto, unfolding(crate::specs::Declarations::number_behind))]
fn number_behind(words: &mut Words<'_>, name: &[u8]) -> Result<Result<u64, Misread>, Misread>
    ensures { Reads (λ x. x) (number_behind name.now words.old) result words.new }
{
    words.keyword(name)?;
    words.number()
}

// The same of a number that may be left out.
fn some_behind(words: &mut Words<'_>, name: &[u8]) -> Result<Result<Option<u64>, Misread>, Misread>
    ensures { Reads (λ x. x) (some_behind name.now words.old) result words.new }
{
    Ok(number_behind(words, name)?.map(Some))
}

// The longest life of a table's rows, if there is one, or why it is no number.
#[tactic(auto, unfolding(crate::specs::Declarations::keep))]
fn keep(words: &mut Words<'_>) -> Result<Result<Option<u64>, Misread>, Misread>
    ensures { Reads (λ x. x) (keep words.old) result words.new }
{
    if words.next_is(b"keep") {
        some_behind(words, b"keep")
    } else {
        Ok(Ok(None))
    }
}

// The table, where its numbers are known.
#[tactic(auto, unfolding(crate::specs::Declarations::shape))]
fn shape(
    alloc: Global,
    name: &[u8],
    kind: Result<KeyKind, Misread>,
    size: Result<u64, Misread>,
    keep: Result<Option<u64>, Misread>,
    cols: &[Stored],
) -> Result<Declaration, Unread>
    ensures { Gives (λ x. x) result (shape name.now kind size keep cols.now) }
{
    let kind = kind?;
    let size = size?;
    let keep = keep?;
    let cols = known_periods(alloc, cols)?;
    Ok(Declaration::Table(Shape {
        name: Name::copy(alloc, name)?,
        kind,
        size,
        keep,
        cols: in_order(alloc, cols.as_slice())?,
    }))
}

#[tactic(auto, unfolding(crate::specs::Declarations::filter_line))]
fn filter_line(alloc: Global, words: &mut Words<'_>) -> Result<Declaration, Unread>
    ensures { Gives (λ x. x) result (filter_line words.old) }
{
    let name = words.word(Expected::Name)?;
    let table = words.word(Expected::Name)?;
    let place = words.place();
    let conds = conditions(alloc, words)?;
    if conds.is_empty() {
        return Err(Unread::Misread(Misread::missing(place, Expected::Condition)));
    }
    let conds = known_bounds(alloc, conds.as_slice())?;
    Ok(Declaration::Filter {
        name: Name::copy(alloc, name)?,
        table: Name::copy(alloc, table)?,
        conds: Items::from_vec(conds),
    })
}

#[tactic(auto, unfolding(crate::specs::Declarations::rank_line))]
fn rank_line(alloc: Global, words: &mut Words<'_>) -> Result<Declaration, Unread>
    ensures { GivesWhole (λ x. x) result (rank_line words.old) }
{
    let name = words.word(Expected::Name)?;
    let table = words.word(Expected::Name)?;
    let col = words.column()?;
    let n = words.number()?;
    words.end()?;
    Ok(Declaration::Rank {
        n: n?,
        name: Name::copy(alloc, name)?,
        table: Name::copy(alloc, table)?,
        col,
    })
}

#[tactic(auto, unfolding(crate::specs::Declarations::push_line))]
fn push_line(alloc: Global, words: &mut Words<'_>) -> Result<Declaration, Unread>
    ensures { GivesWhole (λ x. x) result (push_line words.old) }
{
    let name = words.word(Expected::Name)?;
    let hold = hold(words)?;
    words.end()?;
    Ok(Declaration::Push(Push {
        hold: hold?,
        name: Name::copy(alloc, name)?,
    }))
}

// The hold, if there is one, or why it is no number.
#[tactic(auto, unfolding(crate::specs::Declarations::hold))]
fn hold(words: &mut Words<'_>) -> Result<Result<Option<u64>, Misread>, Misread>
    ensures { Reads (λ x. x) (hold words.old) result words.new }
{
    if words.is_empty() {
        return Ok(Ok(None));
    }
    some_behind(words, b"hold")
}

#[tactic(auto, unfolding(crate::specs::Declarations::rows_line))]
fn rows_line(words: &mut Words<'_>) -> Result<Declaration, Misread>
    ensures { result ≡ rows_line words.old }
{
    let rows = words.number()?;
    words.end()?;
    Ok(Declaration::Rows(rows?))
}

#[tactic(auto, unfolding(crate::specs::Declarations::log_line))]
fn log_line(alloc: Global, words: &mut Words<'_>) -> Result<Declaration, Unread>
    ensures { GivesWhole (λ x. x) result (log_line words.old) }
{
    let name = words.word(Expected::Name)?;
    words.end()?;
    Ok(Declaration::Log(Logged {
        filter: Name::copy(alloc, name)?,
    }))
}

#[tactic(auto, unfolding(crate::specs::Declarations::ignore_line))]
fn ignore_line(alloc: Global, words: &mut Words<'_>) -> Result<Declaration, Unread>
    ensures { GivesWhole (λ x. x) result (ignore_line words.old) }
{
    let name = words.word(Expected::Name)?;
    words.end()?;
    Ok(Declaration::Ignore(Ignored {
        table: Name::copy(alloc, name)?,
    }))
}
