//! Verdicts in numbered places. Of most keys that have none that is known without a search.

ghost use Rattle.std.specs.Prelude.{◌≡◌, ◌≤◌, ℕ, List, [], length, slice_set, Some, None, IfOk};
ghost use Rattle.std.specs.Prelude.{◌<◌, ◌-◌, IfSome, IfNone, IsOk, OnErr, OnOk, true, unwrap_or};
ghost use Rattle.std.specs.Prelude.{false};
ghost use Rattle.std.specs.Option.{option_copied, option_map};
ghost use Rattle.place_index.specs.Places.{item_at, key_at, value_at, laid, revalued};
ghost use Rattle.place_index.specs.Places.{AreDistinct, IsAbsent};
ghost use Rattle.place_index.specs.Hash.{hash_of_bytes};
ghost use Rattle.standing_filters.specs.Marked.{is_marked};

use crate::judging::Verdict;
use crate::marks::Marks;
use agg_types::{Key, NoMemory};
use place_index::{IndexKey, PlaceIndex};
use place_order::PlaceRanks;
use std::alloc::Global;
use std::cmp::Ordering;
use std::marker::Model;

/// With more verdicts than that most hashes are marked, and no mark is looked at.
const FEW: usize = 4096;

/// Up to how many places the marks are made anew from time to time, which takes a look at each.
const SHORT_WALK: usize = 65536;

/// Verdicts on keys in numbered places, where the keys' hashes are marked: most filters hold few
/// keys, and most keys that come have no verdict.
///
/// Contracts see the list of the places, and for how many further verdicts there is room.
#[derive(Drop)]
pub(crate) struct MarkedVerdicts {
    verdicts: PlaceIndex<Key, Verdict>,
    marks: Marks,
    // How many verdicts were taken out since the marks were made: so many marks may be needless.
    gone: usize,
}

impl Model for MarkedVerdicts {
    ghost use Rattle.standing_filters.specs.Marked.{AreMarked, Marking};

    ghost Value = { Marking };

    ghost view = { λ m. record { places = m.verdicts.places; room = m.verdicts.room } };

    ghost invariant = { λ m. AreMarked m.marks m.verdicts.places };
}

impl MarkedVerdicts {
    /// No verdicts, and room for none. Takes no memory.
    pub(crate) fn new(alloc: Global) -> MarkedVerdicts
        ensures places { result.places ≡ [] }
        ensures room { result.room ≡ 0 }
    {
        MarkedVerdicts {
            verdicts: PlaceIndex::new(alloc),
            marks: Marks::new(),
            gone: 0,
        }
    }

    /// How many places there are, empty ones among them.
    #[inline]
    pub(crate) fn places(&self) -> usize
        ensures { result ≡ length self.now.places }
    {
        self.verdicts.places()
    }

    /// The key in a place.
    #[inline]
    pub(crate) fn key(&self, at: usize) -> Option<&Key>
        ensures { option_copied result ≡ key_at self.now.places at }
    {
        self.verdicts.key(at)
    }

    /// The verdict in a place.
    #[inline]
    pub(crate) fn value(&self, at: usize) -> Option<&Verdict>
        ensures { option_copied result ≡ value_at self.now.places at }
    {
        self.verdicts.value(at)
    }

    /// The place of a key. No key has two. A hint names a place where the key may lie: one that is
    /// right saves the search, and no answer depends on it. While few keys have verdicts, one whose
    /// hash isn't marked isn't looked for.
    #[inline]
    pub(crate) fn find_near(&self, hint: Option<usize>, key: &Key) -> Option<usize>
        ensures some { IfSome result (λ at. key_at self.now.places at ≡ Some key.now) }
        ensures none { IfNone result (IsAbsent self.now.places key.now) }
    {
        match hint {
            Some(at) if self.verdicts.is_in(at, key) => Some(at),
            _ => self.find(key),
        }
    }

    // The place of a key.
    #[inline]
    fn find(&self, key: &Key) -> Option<usize>
        ensures some { IfSome result (λ at. key_at self.now.places at ≡ Some key.now) }
        ensures none { IfNone result (IsAbsent self.now.places key.now) }
    {
        if !self.may_have(key.hash_of()) {
            return None;
        }
        self.verdicts.find(key)
    }

    /// Whether a key of a hash may have a place: it is sure that none has where this is false.
    #[inline(always)]
    pub(crate) fn may_have(&self, hash: u32) -> bool
        ensures { result ≡ false → (key : List ℕ) → hash_of_bytes key ≡ hash
            → IsAbsent self.now.places key }
    {
        self.verdicts.count() > FEW || self.marks.has(hash)
    }

    /// Makes room for so many further verdicts. After `NoMemory` there is room for as many as
    /// before.
    pub(crate) fn reserve(&mut self, keys: usize) -> Result<(), NoMemory>
        ensures places { self.new.places ≡ self.old.places }
        ensures ok { OnOk result (keys ≤ self.new.room) }
        ensures room { self.old.room ≤ self.new.room }
    {
        self.verdicts.reserve(keys)
    }

    /// Lays a key that has no place down, and answers its place. Takes no memory.
    pub(crate) fn insert(&mut self, key: Key, verdict: Verdict) -> usize
        requires absent { IsAbsent self.old.places key }
        requires room { 0 < self.old.room }
        ensures bound { result ≤ length self.old.places }
        ensures empty { item_at self.old.places result ≡ None }
        ensures after { self.new.places ≡ laid self.old.places result (Some (key, verdict)) }
        ensures room { self.new.room ≡ self.old.room - 1 }
        ensures distinct { AreDistinct self.new.places }
    {
        self.marks.mark(key.hash_of());
        let at = self.verdicts.insert(key, verdict).unwrap();
        // Its clause says that no key lies in two places.
        let _count = self.verdicts.count();
        at
    }

    /// Puts a verdict in the stead of the one in a place, if that isn't empty.
    #[inline]
    pub(crate) fn replace(&mut self, at: usize, verdict: Verdict)
        ensures after { self.new.places ≡ revalued self.old.places at verdict }
        ensures room { self.new.room ≡ self.old.room }
        ensures distinct { AreDistinct self.new.places }
    {
        self.verdicts.replace(at, verdict);
        // Its clause says that no key lies in two places.
        let _count = self.verdicts.count();
    }

    /// Empties a place, and answers what lay there.
    pub(crate) fn remove(&mut self, at: usize) -> Option<(Key, Verdict)>
        ensures value { result ≡ item_at self.old.places at }
        ensures after { self.new.places ≡ slice_set self.old.places at None }
        ensures room { self.new.room ≡ self.old.room }
        ensures distinct { AreDistinct self.new.places }
    {
        self.gone = self.gone.saturating_add(1);
        let item = self.verdicts.remove(at);
        // Many marks are needless, and few places have to be looked at to make them anew.
        if self.verdicts.places() <= SHORT_WALK && self.gone > self.verdicts.places() {
            self.renew();
        }
        // Its clause says that no key lies in two places.
        let _count = self.verdicts.count();
        item
    }

    // Makes the marks anew.
    #[cold]
    #[inline(never)]
    fn renew(&mut self)
        ensures { self.new ≡ self.old }
    {
        self.gone = 0;
        self.marks = marks_of(&self.verdicts);
    }
}

// Places are ranked by their keys.
impl PlaceRanks for MarkedVerdicts {
    ghost use Rattle.standing_filters.specs.Placed.{rank_in};

    ghost rank = { λ m at. rank_in m.places at };

    fn order(&self, left: usize, right: usize) -> Ordering {
        match (self.key(left), self.key(right)) {
            (Some(left), Some(right)) => left.cmp(right),
            (left, right) => bytes_of(left).cmp(&bytes_of(right)),
        }
    }
}

// The bytes of a key, or none where there is no key.
fn bytes_of(key: Option<&Key>) -> &[u8]
    ensures { result.now ≡ unwrap_or (option_map (λ k. k.now) key.entry) [] }
{
    match key {
        Some(key) => key.as_slice(),
        None => &[],
    }
}

// Marks of the keys in places.
fn marks_of(verdicts: &PlaceIndex<Key, Verdict>) -> Marks
    ensures { (at : ℕ) (key : List ℕ) → key_at verdicts.now.places at ≡ Some key
        → is_marked result (hash_of_bytes key) ≡ true }
{
    let mut marks = Marks::new();
    for at in 0..verdicts.places() {
        mark_in(&mut marks, verdicts, at);
    }
    marks
}

// Marks the hash of the key in a place, if there is one.
fn mark_in(marks: &mut Marks, verdicts: &PlaceIndex<Key, Verdict>, at: usize)
    ensures this { (key : List ℕ) → key_at verdicts.now.places at ≡ Some key
        → is_marked marks.new (hash_of_bytes key) ≡ true }
    ensures others { (hash : ℕ) → is_marked marks.old hash ≡ true
        → is_marked marks.new hash ≡ true }
{
    let Some(key) = verdicts.key(at) else {
        return;
    };
    marks.mark(key.hash_of());
}
