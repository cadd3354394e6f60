//! What a line behind `start` says.

ghost use Rattle.std.specs.Prelude.{◌≡◌, ◌≤◌, ℕ, IfOk, MatchResult, Ok, Err};
ghost use Rattle.agg_types.specs.declared.limits.TheConstants.{LAST_MOMENT};
ghost use Rattle.line_words.specs.Reader.{left_of};
ghost use Rattle.replay.specs.Meaning.{AlwaysFits, FitsAlways, bytes_in, bytes_of, connect_in};
ghost use Rattle.replay.specs.Meaning.{hex_of, last_moment, last_number, lost_in, meaning_by};
ghost use Rattle.replay.specs.Meaning.{meaning_of, moment_in, said, told_in};

use agg_types::{Items, LAST_MOMENT, NoMemory};
use fleet_core::Step;
use line_words::{Expected, Misread, Words, is_comment};
use std::alloc::Global;

/// What a line behind `start` says.
#[derive(Drop)]
pub enum Meaning {
    /// Nothing: it is blank or a comment.
    Nothing,
    /// A step of a connection, or a moment.
    Does(Step),
    /// A step with a wrong or missing word.
    BadStep(Misread),
    /// A command.
    Asks,
}

/// What a line says, by its first word.
pub fn meaning_of(alloc: Global, line: &[u8]) -> Result<Meaning, NoMemory>
    ensures exact { IfOk result (λ meaning. meaning ≡ meaning_of (left_of line.now)) }
    ensures fits { IfOk result AlwaysFits }
{
    if is_comment(line) {
        return Ok(Meaning::Nothing);
    }
    let mut words = Words::of(line);
    match words.word(Expected::Keyword) {
        Ok(first) => by_first(alloc, first, &mut words),
        Err(at) => Ok(Meaning::BadStep(at)),
    }
}

fn by_first(alloc: Global, first: &[u8], words: &mut Words<'_>) -> Result<Meaning, NoMemory>
    ensures exact { IfOk result (λ meaning. meaning ≡ meaning_by first.now words.old) }
    ensures fits { IfOk result AlwaysFits }
{
    if first == b"connect".as_slice() {
        Ok(said(connect(words)))
    } else if first == b"bytes".as_slice() {
        bytes(alloc, words)
    } else if first == b"lost".as_slice() {
        Ok(said(lost(words)))
    } else if first == b"moment".as_slice() {
        Ok(said(moment(words)))
    } else if first == b"told".as_slice() {
        Ok(said(told(words)))
    } else {
        Ok(Meaning::Asks)
    }
}

fn said(step: Result<Step, Misread>) -> Meaning
    ensures exact { result ≡ said step }
    ensures fits { IfOk step FitsAlways → AlwaysFits result }
{
    match step {
        Ok(step) => Meaning::Does(step),
        Err(at) => Meaning::BadStep(at),
    }
}

#[tactic(auto, unfolding(crate::specs::Meaning::connect_in))]
fn connect(words: &mut Words<'_>) -> Result<Step, Misread>
    ensures exact { result ≡ connect_in words.old }
    ensures fits { IfOk result FitsAlways }
{
    words.end()?;
    Ok(Step::Connect)
}

#[tactic(auto, unfolding(crate::specs::Meaning::lost_in))]
fn lost(words: &mut Words<'_>) -> Result<Step, Misread>
    ensures exact { result ≡ lost_in words.old }
    ensures fits { IfOk result FitsAlways }
{
    Ok(Step::Lost(last_number(words)?))
}

#[tactic(auto, unfolding(crate::specs::Meaning::told_in))]
fn told(words: &mut Words<'_>) -> Result<Step, Misread>
    ensures exact { result ≡ told_in words.old }
    ensures fits { IfOk result FitsAlways }
{
    Ok(Step::Told(last_number(words)?))
}

#[tactic(auto, unfolding(crate::specs::Meaning::moment_in))]
fn moment(words: &mut Words<'_>) -> Result<Step, Misread>
    ensures exact { result ≡ moment_in words.old }
    ensures fits { IfOk result FitsAlways }
{
    Ok(Step::Moment(last_moment(words)?))
}

// The number that the last word writes.
#[tactic(auto, unfolding(crate::specs::Meaning::last_number))]
fn last_number(words: &mut Words<'_>) -> Result<u64, Misread>
    ensures { result ≡ last_number words.old }
{
    let number = words.number()??;
    words.end()?;
    Ok(number)
}

/// The moment that the last word says.
#[tactic(auto, unfolding(crate::specs::Meaning::last_moment))]
pub fn last_moment(words: &mut Words<'_>) -> Result<u64, Misread>
    ensures exact { result ≡ last_moment words.old }
    ensures in_range { IfOk result (λ moment. moment ≤ LAST_MOMENT) }
{
    let place = words.place();
    let moment = last_number(words)?;
    if moment > LAST_MOMENT {
        return Err(Misread::wrong(place, Expected::Moment));
    }
    Ok(moment)
}

fn bytes(alloc: Global, words: &mut Words<'_>) -> Result<Meaning, NoMemory>
    ensures exact { IfOk result (λ meaning. meaning ≡ said (bytes_in words.old)) }
    ensures fits { IfOk result AlwaysFits }
{
    match bytes_of(words) {
        Ok((conn, place, digits)) => hex_of(alloc, conn, place, digits),
        Err(at) => Ok(Meaning::BadStep(at)),
    }
}

// A connection's number, and digits with the number of their word.
#[tactic(auto, unfolding(crate::specs::Meaning::bytes_of))]
fn bytes_of<'a>(words: &mut Words<'a>) -> Result<(u64, usize, &'a [u8]), Misread>
    ensures { MatchResult result
        (λ found. bytes_of words.old ≡ Ok (found.0, found.1, found.2.now))
        (λ at. bytes_of words.old ≡ Err at) }
{
    let conn = words.number()??;
    let place = words.place();
    let digits = words.word(Expected::Hexadecimal)?;
    words.end()?;
    Ok((conn, place, digits))
}

// The bytes that digits of either case write.
fn hex_of(alloc: Global, conn: u64, place: usize, digits: &[u8]) -> Result<Meaning, NoMemory>
    ensures exact { IfOk result (λ meaning. meaning ≡ said (hex_of conn place digits.now)) }
    ensures fits { IfOk result AlwaysFits }
{
    match hex::decode(alloc, digits) {
        Ok(bytes) => Ok(Meaning::Does(Step::Bytes(conn, Items::from_vec(bytes)))),
        Err(hex::FromHexError::OutOfMemory) => Err(NoMemory),
        Err(_) => Ok(Meaning::BadStep(Misread::wrong(place, Expected::Hexadecimal))),
    }
}
