//! The words of a query.

ghost use Rattle.std.specs.Prelude.{◌≡◌, IfOk};
ghost use Rattle.std.specs.Option.{option_copied};
ghost use Rattle.percent_encoding.specs.Percent.{percent_decode};
ghost use Rattle.web_target.specs.Targets.{Reads, limit_of, plus_to_space, query_bytes, text_once};
ghost use Rattle.web_target.specs.Targets.{with_after, with_conds, with_limit, with_number};
ghost use Rattle.web_target.specs.Targets.{with_piece, with_since};
ghost use Rattle.web_target.specs.Targets.{since_of, with_text, words_in};

use crate::question::{FEWEST, MOST, TargetFault, Words};
use agg_types::{Items, NoMemory};
use line_words::{next_part, number};
use percent_encoding::percent_decode;
use std::alloc::Global;

/// The bytes that a text of a path stands for.
pub fn path_bytes(alloc: Global, text: &[u8]) -> Result<Items<u8>, NoMemory>
    ensures { IfOk result (λ bytes. bytes ≡ percent_decode text.now) }
{
    let mut bytes = Vec::new(alloc);
    percent_decode(text).append_to(&mut bytes)?;
    Ok(Items::from_vec(bytes))
}

// The bytes that a text of a query stands for.
fn query_bytes(alloc: Global, text: &[u8]) -> Result<Items<u8>, NoMemory>
    ensures { IfOk result (λ bytes. bytes ≡ query_bytes text.now) }
{
    let mut spaced = Vec::new(alloc);
    for byte in text {
        spaced.push(plus_to_space(*byte))?;
    }
    path_bytes(alloc, spaced.as_slice())
}

fn plus_to_space(byte: u8) -> u8
    ensures { result ≡ plus_to_space byte }
{
    if byte == b'+' { b' ' } else { byte }
}

// How many entries a text asks for.
fn limit_of(text: &[u8]) -> Result<u64, TargetFault>
    ensures { result ≡ limit_of text.now }
{
    match number(text) {
        Ok(limit) if FEWEST <= limit && limit <= MOST => Ok(limit),
        _ => Err(TargetFault::BadLimit),
    }
}

#[tactic(auto, unfolding(crate::specs::Targets::with_limit))]
fn with_limit(words: Words, text: &[u8]) -> Result<Words, TargetFault>
    ensures { Reads (with_limit words text.now) result }
{
    if words.limit.is_some() {
        return Err(TargetFault::Twice);
    }
    let limit = Some(limit_of(text)?);
    Ok(Words { limit, ..words })
}

// The number that a text tells changes from.
fn since_of(text: &[u8]) -> Result<u64, TargetFault>
    ensures { result ≡ since_of text.now }
{
    match number(text) {
        Ok(since) => Ok(since),
        Err(_) => Err(TargetFault::BadSince),
    }
}

#[tactic(auto, unfolding(crate::specs::Targets::with_since))]
fn with_since(words: Words, text: &[u8]) -> Result<Words, TargetFault>
    ensures { Reads (with_since words text.now) result }
{
    if words.since.is_some() {
        return Err(TargetFault::Twice);
    }
    let since = Some(since_of(text)?);
    Ok(Words { since, ..words })
}

// The text of a word that wasn't there before.
fn text_once(
    alloc: Global,
    had: &Option<Items<u8>>,
    text: &[u8],
) -> Result<Option<Items<u8>>, TargetFault>
    ensures { Reads (text_once had.now text.now) result }
{
    if had.is_some() {
        return Err(TargetFault::Twice);
    }
    Ok(Some(query_bytes(alloc, text)?))
}

#[tactic(auto, unfolding(crate::specs::Targets::with_after))]
fn with_after(alloc: Global, words: Words, text: &[u8]) -> Result<Words, TargetFault>
    ensures { Reads (with_after words text.now) result }
{
    let after = text_once(alloc, &words.after, text)?;
    Ok(Words { after, ..words })
}

#[tactic(auto, unfolding(crate::specs::Targets::with_conds))]
fn with_conds(alloc: Global, words: Words, text: &[u8]) -> Result<Words, TargetFault>
    ensures { Reads (with_conds words text.now) result }
{
    let conds = text_once(alloc, &words.conds, text)?;
    Ok(Words { conds, ..words })
}

// The words, with one more piece of the query; an empty one says nothing.
#[tactic(auto, unfolding(crate::specs::Targets::with_piece))]
fn with_piece(alloc: Global, words: Words, piece: &[u8]) -> Result<Words, TargetFault>
    ensures { Reads (with_piece words piece.now) result }
{
    if piece.is_empty() {
        return Ok(words);
    }
    match piece.strip_prefix(b"limit=") {
        Some(text) => with_limit(words, text),
        None => with_text(alloc, words, piece),
    }
}

// The words, with one more piece of the query that is no limit.
#[tactic(auto, unfolding(crate::specs::Targets::with_text))]
fn with_text(alloc: Global, words: Words, piece: &[u8]) -> Result<Words, TargetFault>
    ensures { Reads (with_text words piece.now) result }
{
    if let Some(text) = piece.strip_prefix(b"after=") {
        with_after(alloc, words, text)
    } else if let Some(text) = piece.strip_prefix(b"where=") {
        with_conds(alloc, words, text)
    } else {
        with_number(words, piece)
    }
}

// The words, with one more piece of the query that gives no text.
#[tactic(auto, unfolding(crate::specs::Targets::with_number))]
fn with_number(words: Words, piece: &[u8]) -> Result<Words, TargetFault>
    ensures { Reads (with_number words piece.now) result }
{
    match piece.strip_prefix(b"since=") {
        Some(text) => with_since(words, text),
        None => Err(TargetFault::Unknown),
    }
}

/// The words of a query, which need not be there.
#[tactic(auto, unfolding(crate::specs::Targets::words_in))]
pub fn words_in(alloc: Global, query: Option<&[u8]>) -> Result<Words, TargetFault>
    ensures { Reads (words_in (option_copied query.entry)) result }
{
    let mut words = Words {
        limit: None,
        after: None,
        conds: None,
        since: None,
    };
    let mut rest = query;
    while let Some(text) = rest {
        let (piece, behind) = next_part(text, b'&');
        words = with_piece(alloc, words, piece)?;
        rest = behind;
    }
    Ok(words)
}
