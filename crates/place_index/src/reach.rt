//! How a key's place is found.
ghost use Rattle.std.specs.Prelude.{◌≡◌, ◌≢◌, ◌<◌, ◌≤◌, ◌+◌, ℕ, Some, slice_get, IfSome, IfNone};
ghost use Rattle.std.specs.Prelude.{[], IfOk, IsTrue, IsOk, OnOk};
ghost use Rattle.std.specs.Vec.{vec_len, vec_capacity};
ghost use Rattle.place_index.specs.Crowd.{IsCrowded};
ghost use Rattle.place_index.specs.Loose.{IsLoose};
ghost use Rattle.place_index.specs.Places.{key_at};
ghost use Rattle.place_index.specs.Slots.{held};
ghost use Rattle.hash_windows.specs.Windows.{word_of, IsIn};
ghost use Rattle.place_index.specs.Reach.{Leads, spare};

use crate::crowd::Crowd;
use crate::slots::Slots;
use crate::{IndexKey, PlaceValue};
use agg_types::NoMemory;
use hash_windows::{Near, Trace, Windows, Word, short, word_at};
use std::alloc::Global;

/// How a key's place is found: by a word of its hash's window, or by an ordered map of the keys
/// that found no room there. The few places for which that map had no memory are looked at one by
/// one.
#[derive(Drop)]
pub(crate) struct Reach<K: Ord> {
    windows: Windows,
    crowd: Crowd<K>,
    // Memory for them is taken beforehand. None of them once memory is to be had again.
    loose: Vec<usize>,
}

impl<K: IndexKey> Reach<K> {
    /// Nothing is found. Takes no memory.
    pub(crate) fn new(alloc: Global) -> Reach<K> {
        Reach {
            windows: Windows::new(alloc),
            crowd: Crowd::new(alloc),
            loose: Vec::new(alloc),
        }
    }

    /// The place of a key.
    #[inline]
    pub(crate) fn find<V: PlaceValue>(&self, slots: &Slots<K, V>, key: &K) -> Option<usize>
        ensures some { IfSome result (λ at. key_at (held K.is_blank slots.now) at ≡ Some key.now) }
        ensures none { IfNone result ((at : ℕ)
            → key_at (held K.is_blank slots.now) at ≡ Some key.now
            → Leads K.cmp K.hashed self.now key.now at → ⊥) }
    {
        let hash = key.hash_of();
        let short = short(hash);
        if let Some(at) = named_in(self.windows.window(short), slots, short, key) {
            return Some(at);
        }
        if let Some(at) = crowded_at(&self.crowd, slots, hash, key) {
            return Some(at);
        }
        loose_in(&self.loose, slots, key)
    }

    /// Where a key is looked for. Reads no window.
    #[inline]
    pub(crate) fn trace(&self, key: &K) -> Trace {
        self.windows.trace(key.hash_of())
    }

    /// The trace with a first look at its window.
    #[inline]
    pub(crate) fn touch(&self, trace: Trace) -> Trace {
        self.windows.touch(trace)
    }

    /// The place that a word of a trace's window names. Nothing is promised of it.
    #[inline]
    pub(crate) fn guess(&self, trace: Trace) -> Option<usize> {
        self.windows.guess(trace)
    }

    /// Where the word of a key may stand. Reads no window.
    #[inline]
    pub(crate) fn near(&self, key: &K) -> Near {
        self.windows.near(key.hash_of())
    }

    /// The same for a place, after a first look at the window.
    #[inline]
    pub(crate) fn touch_near(&self, at: usize, near: Near) -> Near {
        self.windows.touch_near(at, near)
    }

    /// Takes memory for so many keys, or for none.
    pub(crate) fn reserve(&mut self, keys: usize) -> Result<(), NoMemory>
        ensures others { (k : K) (q : ℕ) → Leads K.cmp K.hashed self.old k q
            → Leads K.cmp K.hashed self.new k q }
        ensures ok { OnOk result (keys ≤ spare self.new) }
        ensures spare { spare self.old ≤ spare self.new }
        ensures held { keys ≤ spare self.old → IsOk result }
    {
        if keys <= self.loose.capacity() - self.loose.len() {
            return Ok(());
        }
        if self.loose.is_empty() {
            self.loose = anew(&self.loose, keys)?;
            return Ok(());
        }
        self.loose.reserve(keys)?;
        Ok(())
    }

    /// Has the place of a key be found.
    pub(crate) fn put(&mut self, key: &K, at: usize)
        requires { 0 < spare self.old }
        ensures leads { Leads K.cmp K.hashed self.new key.now at }
        ensures others { (k : K) (q : ℕ) → k ≢ key.now → Leads K.cmp K.hashed self.old k q
            → Leads K.cmp K.hashed self.new k q }
        ensures spare { spare self.old ≤ spare self.new + 1 }
    {
        let hash = key.hash_of();
        if self.windows.put(hash, at) {
            return;
        }
        let alloc = *self.loose.allocator();
        if self.crowd.put(alloc, hash, key, at) {
            return;
        }
        self.loose.push_reserved(at);
    }

    /// Has the place of a key be found no more. A hint says where its word may stand.
    pub(crate) fn clear(&mut self, key: &K, at: usize, near: Near)
        ensures others { (k : K) (q : ℕ) → k ≢ key.now → q ≢ at → Leads K.cmp K.hashed self.old k q
            → Leads K.cmp K.hashed self.new k q }
        ensures spare { spare self.old ≤ spare self.new }
    {
        if self.windows.free(at, near) {
            return;
        }
        let cleared = self.windows.clear(key.hash_of(), at);
        forget(&mut self.crowd, key, cleared);
        drop_loose(&mut self.loose, at);
    }

    /// Makes room for so many places, a little with each call, if there is memory for it.
    pub(crate) fn grow(&mut self, places: usize)
        ensures others { (k : K) (q : ℕ) → Leads K.cmp K.hashed self.old k q
            → Leads K.cmp K.hashed self.new k q }
        ensures spare { spare self.new ≡ spare self.old }
    {
        if !self.windows.is_small(places) {
            return;
        }
        self.windows.grow();
    }
}

// The place of a key, if a word of the window names it.
#[inline]
fn named_in<K: IndexKey, V: PlaceValue>(
    window: &[Word],
    slots: &Slots<K, V>,
    hash: u32,
    key: &K,
) -> Option<usize>
    ensures some { IfSome result (λ at. key_at (held K.is_blank slots.now) at ≡ Some key.now) }
    ensures none { IfNone result ((at : ℕ) → key_at (held K.is_blank slots.now) at ≡ Some key.now
        → IsIn window.now (word_of hash at) → ⊥) }
{
    for index in 0..window.len() {
        if let Some(at) = named_at(window, index, slots, hash, key) {
            return Some(at);
        }
    }
    None
}

// The place of a key, if the word of an index names it.
#[inline]
fn named_at<K: IndexKey, V: PlaceValue>(
    window: &[Word],
    index: usize,
    slots: &Slots<K, V>,
    hash: u32,
    key: &K,
) -> Option<usize>
    ensures some { IfSome result (λ at. key_at (held K.is_blank slots.now) at ≡ Some key.now) }
    ensures none { IfNone result ((at : ℕ) → key_at (held K.is_blank slots.now) at ≡ Some key.now
        → slice_get window.now index ≢ Some (word_of hash at)) }
{
    match word_at(window, index) {
        Some(word) => named_by(*word, slots, hash, key),
        None => None,
    }
}

// The place of a key, if the word names it.
#[inline]
fn named_by<K: IndexKey, V: PlaceValue>(
    word: Word,
    slots: &Slots<K, V>,
    hash: u32,
    key: &K,
) -> Option<usize>
    ensures some { IfSome result (λ at. key_at (held K.is_blank slots.now) at ≡ Some key.now) }
    ensures none { IfNone result ((at : ℕ) → key_at (held K.is_blank slots.now) at ≡ Some key.now
        → word ≢ word_of hash at) }
{
    match word.named(hash) {
        Some(at) => checked(slots, at, key),
        None => None,
    }
}

// The place of a key, if it is among those that found no free word.
#[inline]
fn crowded_at<K: IndexKey, V: PlaceValue>(
    crowd: &Crowd<K>,
    slots: &Slots<K, V>,
    hash: u32,
    key: &K,
) -> Option<usize>
    ensures some { IfSome result (λ at. key_at (held K.is_blank slots.now) at ≡ Some key.now) }
    ensures none { IfNone result ((at : ℕ) → key_at (held K.is_blank slots.now) at ≡ Some key.now
        → IsCrowded K.cmp crowd.now key.now hash at → ⊥) }
{
    match crowd.get(hash, key) {
        Some(at) => checked(slots, at, key),
        None => None,
    }
}

// The place of a key, if it is among some.
fn loose_in<K: IndexKey, V: PlaceValue>(
    loose: &[usize],
    slots: &Slots<K, V>,
    key: &K,
) -> Option<usize>
    ensures some { IfSome result (λ at. key_at (held K.is_blank slots.now) at ≡ Some key.now) }
    ensures none { IfNone result ((at : ℕ) → key_at (held K.is_blank slots.now) at ≡ Some key.now
        → IsLoose loose.now at → ⊥) }
{
    for index in 0..loose.len() {
        if let Some(at) = checked(slots, loose[index], key) {
            return Some(at);
        }
    }
    None
}

// A place, if the key lies there.
#[inline]
fn checked<K: IndexKey, V: PlaceValue>(slots: &Slots<K, V>, at: usize, key: &K) -> Option<usize>
    ensures some { IfSome result
        (λ place. key_at (held K.is_blank slots.now) place ≡ Some key.now) }
    ensures none { IfNone result (key_at (held K.is_blank slots.now) at ≢ Some key.now) }
{
    if slots.is_of(at, key) { Some(at) } else { None }
}

// Takes a key out of the crowd, unless its word was cleared.
fn forget<K: IndexKey>(crowd: &mut Crowd<K>, key: &K, cleared: bool)
    ensures { (k : K) (q : ℕ) → k ≢ key.now → IsCrowded K.cmp crowd.old k (K.hashed k) q
        → IsCrowded K.cmp crowd.new k (K.hashed k) q }
{
    if cleared {
        return;
    }
    crowd.remove(key);
}

// Memory for so many in place of an empty list's, and for twice as many as that has room for: it
// isn't copied, so what was never written takes none of the machine's.
fn anew(loose: &Vec<usize>, keys: usize) -> Result<Vec<usize>, NoMemory>
    ensures empty { IfOk result (λ more. more.items ≡ []) }
    ensures room { IfOk result (λ more. keys ≤ vec_capacity more) }
    ensures more { IfOk result (λ more. vec_capacity loose.now ≤ vec_capacity more) }
{
    let alloc = *loose.allocator();
    let room = keys.max(loose.capacity().saturating_mul(2));
    Ok(Vec::with_capacity(alloc, room)?)
}

// Takes a place out of some.
fn drop_loose(loose: &mut Vec<usize>, at: usize)
    ensures others { (q : ℕ) → q ≢ at → IsLoose loose.old.items q → IsLoose loose.new.items q }
    ensures len { vec_len loose.new ≤ vec_len loose.old }
    ensures capacity { vec_capacity loose.new ≡ vec_capacity loose.old }
{
    loose.retain(|own| *own != at);
}
