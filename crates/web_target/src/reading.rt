//! Targets, read.

ghost use Rattle.std.specs.Prelude.{◌≡◌, ◌≤◌, length, Some};
ghost use Rattle.std.specs.Option.{option_copied, option_map};
ghost use Rattle.web_target.specs.Targets.{Reads, ReadsBehind, asked_of, called_of, entries_of};
ghost use Rattle.web_target.specs.Targets.{changes_of, filter_of, filter_split, in_filters};
ghost use Rattle.web_target.specs.Targets.{in_tables, key_of, key_split, listed_of};
ghost use Rattle.web_target.specs.Targets.{are_entries, named_of, part_of, peers_of, question_of};
ghost use Rattle.web_target.specs.Targets.{rank_of, split_at, table_of};

use crate::query::{path_bytes, words_in};
use crate::question::{Part, Question, TargetFault, USUAL, Words};
use agg_types::Items;
use line_words::place_of;
use std::alloc::Global;

/// What a target asks for: its path, and its query where it has one. Of several faults the first
/// from the left is told; `NoMemory` only where an allocation failed.
#[tactic(auto, unfolding(crate::specs::Targets::question_of))]
pub fn read(alloc: Global, path: &[u8], query: Option<&[u8]>) -> Result<Question, TargetFault>
    ensures { Reads (question_of path.now (option_copied query.entry)) result }
{
    if path == b"/".as_slice() {
        Ok(Question::Page)
    } else if path == b"/healthz".as_slice() {
        Ok(Question::Health)
    } else if path == b"/metrics".as_slice() {
        Ok(Question::Metrics)
    } else if path == b"/api/v1".as_slice() {
        Ok(Question::Index)
    } else {
        asked_of(alloc, path, words_in(alloc, query))
    }
}

// What a path asks for whose query counts. A path that asks for nothing is told of first.
#[tactic(auto, unfolding(crate::specs::Targets::asked_of))]
fn asked_of(
    alloc: Global,
    path: &[u8],
    words: Result<Words, TargetFault>,
) -> Result<Question, TargetFault>
    ensures { ReadsBehind (asked_of path.now) words result }
{
    match path.strip_prefix(b"/api/v1/") {
        None => Err(TargetFault::NotFound),
        Some(behind) => called_of(alloc, behind, words),
    }
}

// What a path asks for behind `/api/v1/`.
#[tactic(auto, unfolding(crate::specs::Targets::called_of))]
fn called_of(
    alloc: Global,
    behind: &[u8],
    words: Result<Words, TargetFault>,
) -> Result<Question, TargetFault>
    ensures { ReadsBehind (called_of behind.now) words result }
{
    if behind == b"overview".as_slice() {
        Ok(Question::Overview)
    } else if behind == b"peers".as_slice() {
        peers_of(words?)
    } else {
        named_of(alloc, behind, words)
    }
}

// A list of a name.
#[tactic(auto, unfolding(crate::specs::Targets::named_of))]
fn named_of(
    alloc: Global,
    behind: &[u8],
    words: Result<Words, TargetFault>,
) -> Result<Question, TargetFault>
    ensures { ReadsBehind (named_of behind.now) words result }
{
    match behind.strip_prefix(b"tables/") {
        Some(text) => table_or_key(alloc, text, words),
        None => listed_of(alloc, behind, words),
    }
}

// A table, or one key of it.
fn table_or_key(
    alloc: Global,
    text: &[u8],
    words: Result<Words, TargetFault>,
) -> Result<Question, TargetFault>
    ensures { ReadsBehind (in_tables text.now) words result }
{
    match key_split(text) {
        None => table_of(alloc, path_bytes(alloc, text)?, words?),
        Some((table, key)) => key_of(path_bytes(alloc, table)?, path_bytes(alloc, key)?, words?),
    }
}

// The name of a table and the text of a key, where `/keys/` stands behind the name.
fn key_split(text: &[u8]) -> Option<(&[u8], &[u8])>
    ensures { option_map (λ names. (names.0.now, names.1.now)) result ≡ key_split text.now }
{
    match place_of(text, b'/') {
        None => None,
        Some(at) => split_at(text, at),
    }
}

// The same, where the first `/` stands here.
fn split_at(text: &[u8], at: usize) -> Option<(&[u8], &[u8])>
    requires { at ≤ length text.now }
    ensures { option_map (λ names. (names.0.now, names.1.now)) result
        ≡ split_at text.now (Some at) }
{
    let (table, rest) = text.split_at(at);
    match rest.strip_prefix(b"/keys/") {
        None => None,
        Some(key) => Some((table, key)),
    }
}

// A list of keys of a name.
#[tactic(auto, unfolding(crate::specs::Targets::listed_of))]
fn listed_of(
    alloc: Global,
    behind: &[u8],
    words: Result<Words, TargetFault>,
) -> Result<Question, TargetFault>
    ensures { ReadsBehind (listed_of behind.now) words result }
{
    if let Some(text) = behind.strip_prefix(b"filters/") {
        filter_or_changes(alloc, text, words)
    } else if let Some(text) = behind.strip_prefix(b"ranks/") {
        rank_of(path_bytes(alloc, text)?, words?)
    } else {
        Err(TargetFault::NotFound)
    }
}

// The keys of a filter, or what changed of them.
fn filter_or_changes(
    alloc: Global,
    text: &[u8],
    words: Result<Words, TargetFault>,
) -> Result<Question, TargetFault>
    ensures { ReadsBehind (in_filters text.now) words result }
{
    match filter_split(text) {
        None => filter_of(path_bytes(alloc, text)?, words?),
        Some(name) => changes_of(path_bytes(alloc, name)?, words?),
    }
}

// The name of a filter, where `/changes` stands behind it.
fn filter_split(text: &[u8]) -> Option<&[u8]>
    ensures { option_copied result ≡ filter_split text.now }
{
    match text.strip_suffix(b"/changes") {
        None => None,
        Some(name) => Some(name),
    }
}

// Which entries words ask for, and their conditions.
fn entries_of(words: Words) -> (Part, Option<Items<u8>>)
    ensures { result ≡ (entries_of words, words.conds) }
{
    let Words {
        limit,
        after,
        conds,
        since: _,
    } = words;
    let limit = limit.unwrap_or(USUAL);
    (Part { limit, after }, conds)
}

#[tactic(auto, unfolding(crate::specs::Targets::table_of))]
fn table_of(alloc: Global, name: Items<u8>, words: Words) -> Result<Question, TargetFault>
    ensures { result ≡ table_of name words }
{
    if words.since.is_some() {
        return Err(TargetFault::Unknown);
    }
    let (part, conds) = entries_of(words);
    let conds = match conds {
        None => Items::from_vec(Vec::new(alloc)),
        Some(conds) => conds,
    };
    Ok(Question::Table { name, conds, part })
}

// One key of a table, of which no word of a query tells more.
#[tactic(auto, unfolding(crate::specs::Targets::key_of))]
fn key_of(table: Items<u8>, key: Items<u8>, words: Words) -> Result<Question, TargetFault>
    ensures { result ≡ key_of table key words }
{
    if are_entries(&words) || words.since.is_some() {
        return Err(TargetFault::Unknown);
    }
    Ok(Question::Key { table, key })
}

// Whether words say which entries are asked for.
fn are_entries(words: &Words) -> bool
    ensures { result ≡ are_entries words.now }
{
    words.limit.is_some() || words.after.is_some() || words.conds.is_some()
}

// What changed of a filter, since a number that need not be there.
#[tactic(auto, unfolding(crate::specs::Targets::changes_of))]
fn changes_of(name: Items<u8>, words: Words) -> Result<Question, TargetFault>
    ensures { result ≡ changes_of name words }
{
    if are_entries(&words) {
        return Err(TargetFault::Unknown);
    }
    let since = words.since;
    Ok(Question::Changes { name, since })
}

// Which entries are asked for, where no conditions are.
fn part_of(words: Words) -> Result<Part, TargetFault>
    ensures { result ≡ part_of words }
{
    let is_since = words.since.is_some();
    let (part, conds) = entries_of(words);
    if conds.is_some() || is_since {
        return Err(TargetFault::Unknown);
    }
    Ok(part)
}

#[tactic(auto, unfolding(crate::specs::Targets::peers_of))]
fn peers_of(words: Words) -> Result<Question, TargetFault>
    ensures { result ≡ peers_of words }
{
    Ok(Question::Peers(part_of(words)?))
}

#[tactic(auto, unfolding(crate::specs::Targets::filter_of))]
fn filter_of(name: Items<u8>, words: Words) -> Result<Question, TargetFault>
    ensures { result ≡ filter_of name words }
{
    let part = part_of(words)?;
    Ok(Question::Filter { name, part })
}

#[tactic(auto, unfolding(crate::specs::Targets::rank_of))]
fn rank_of(name: Items<u8>, words: Words) -> Result<Question, TargetFault>
    ensures { result ≡ rank_of name words }
{
    let part = part_of(words)?;
    Ok(Question::Rank { name, part })
}
