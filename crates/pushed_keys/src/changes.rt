//! What changed of a table, packed.

ghost use Rattle.std.specs.Prelude.{◌≡◌, ◌++◌, ◌∷◌, [], drop, length};
ghost use Rattle.std.specs.Prelude.{slice_get, IfSome, MatchOption, OnOk};
ghost use Rattle.pushed_keys.specs.Changed.{IsChange, change_in};

use crate::Change;
use crate::parts::{LEFT, word_of};
use agg_types::NoMemory;
use std::alloc::Global;
use std::marker::Model;

/// Changes that are packed: of each the bytes of its key and two more. They are taken from the
/// front.
///
/// Contracts see the list of the changes that are left.
#[derive(Drop)]
pub struct Changes {
    // The bytes of the keys, one behind the other.
    bytes: Vec<u8>,
    // How many bytes each key has, and in the top bit whether it is taken away.
    words: Vec<u16>,
    // How many words are behind the front, and how many bytes.
    behind: usize,
    begin: usize,
}

impl Model for Changes {
    ghost use Rattle.std.specs.Prelude.{ℕ, List, drop};
    ghost use Rattle.pushed_keys.specs.declared.change.Change.{Change};

    ghost Value = { List (List ℕ × Change) };

    ghost use Rattle.pushed_keys.specs.Changed.{unpacked_changes, AreChanges};

    ghost view = { λ changes. unpacked_changes (drop changes.begin changes.bytes.items)
        (drop changes.behind changes.words.items) };

    ghost invariant = { λ changes. AreChanges changes.bytes.items changes.words.items
        changes.behind changes.begin };
}

impl Changes {
    /// No changes. Takes no memory.
    pub(crate) fn new(alloc: Global) -> Changes
        ensures { result ≡ [] }
    {
        Changes {
            bytes: Vec::new(alloc),
            words: Vec::new(alloc),
            behind: 0,
            begin: 0,
        }
    }

    /// How many changes are left.
    pub fn len(&self) -> usize
        ensures { result ≡ length self.now }
    {
        self.words.len() - self.behind
    }

    /// Adds a change behind the others. A key of 32,768 bytes meets `NoMemory` too, but no key of
    /// the peers protocol is that long.
    pub(crate) fn push(&mut self, key: &[u8], change: Change) -> Result<(), NoMemory>
        ensures { OnOk result (self.new ≡ self.old ++ (key.now, change) ∷ []) }
    {
        let Some(word) = word_for(key.len(), change) else {
            return Err(NoMemory);
        };
        self.words.reserve(1)?;
        self.bytes.extend_from_slice(key)?;
        self.words.push(word).unwrap();
        Ok(())
    }

    /// The first change that is left.
    pub fn first(&self) -> Option<(&[u8], Change)>
        ensures { MatchOption result (self.now ≡ [])
            (λ found. self.now ≡ (found.0.now, found.1) ∷ drop 1 self.now) }
    {
        let Some(word) = word_at(self.words.as_slice(), self.behind) else {
            return None;
        };
        let bytes = self.bytes.as_slice();
        let (_, left) = bytes.split_at(self.begin.min(bytes.len()));
        let (key, _) = left.split_at(((word % LEFT) as usize).min(left.len()));
        Some((key, change_in(word)))
    }

    /// Leaves the first change behind, if one is left.
    pub fn skip(&mut self)
        ensures { self.new ≡ drop 1 self.old }
    {
        let Some(word) = word_at(self.words.as_slice(), self.behind) else {
            return;
        };
        self.begin += (word % LEFT) as usize;
        self.behind += 1;
    }
}

// The word at a place.
fn word_at(words: &[u16], place: usize) -> Option<u16>
    ensures { result ≡ slice_get words.now place }
{
    words.get(place).copied()
}

// The word of a change, by the length of its key; none where the key is too long.
fn word_for(len: usize, change: Change) -> Option<u16>
    ensures { IfSome result (λ word. IsChange word len change) }
{
    match change {
        Change::Put => word_of(len, true),
        Change::TakeAway => word_of(len, false),
    }
}

// What happened to a key, by its word.
fn change_in(word: u16) -> Change
    ensures { result ≡ change_in word }
{
    if word < LEFT {
        Change::Put
    } else {
        Change::TakeAway
    }
}
