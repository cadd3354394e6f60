//! The places themselves: what lies in each, and which are empty.
ghost use Rattle.std.specs.Prelude.{◌≡◌, ◌≢◌, ◌≤◌, ◌<◌, ◌+◌, ◌^◌, [], Some, None, length, true};
ghost use Rattle.std.specs.Prelude.{IsTrue, IsFalse, IsOk, OnOk, IsSome, IfSome, IfNone};
ghost use Rattle.std.specs.Prelude.{slice_set, if◌then◌else◌};
ghost use Rattle.std.specs.Option.{option_copied, option_map};
ghost use Rattle.place_index.specs.Places.{item_at, key_at, value_at, laid, revalued};
ghost use Rattle.place_index.specs.Places.{AreEmpty, IsAbsent};
ghost use Rattle.place_index.specs.Slots.{is_own, is_empty_at, held};

use crate::{IndexKey, PlaceValue};
use agg_types::NoMemory;
use segments::Segments;
use std::alloc::Global;
use std::mem;

/// The memory of a place: a key beside its value, and no more.
///
/// In an empty place the blank key stands, and a value that keeps a number.
#[derive(Drop)]
pub struct Slot<K, V> {
    key: K,
    value: V,
}

impl<K: IndexKey, V: PlaceValue> Slot<K, V> {
    ghost use Rattle.std.specs.Borrow.{sem};
    ghost use Rattle.place_index.specs.Lending.{lends_value};

    // The slot of an empty place.
    fn blank(alloc: Global, number: usize) -> Slot<K, V>
        ensures { K.is_blank result.key ≡ true }
    {
        Slot {
            key: K::blank(),
            value: V::blank(alloc, number),
        }
    }

    // Lends the value for writing.
    #[inline]
    fn value_mut(&mut self) -> &mut V
        ensures* writes_back { sem 𝓛 (lends_value K.row V.row self.entry result) }
        ensures value { result.now ≡ self.old.value }
    {
        &mut self.value
    }
}

/// The places.
#[derive(Drop)]
pub(crate) struct Slots<K, V> {
    slots: Segments<Slot<K, V>>,
    // The number of a place that may be empty: the first of a chain. Each one's value keeps the
    // next.
    free: usize,
    // The place in which the blank key itself was laid down, if it was. All others where a blank
    // key stands are empty.
    own: Option<usize>,
}

impl<K: IndexKey, V: PlaceValue> Slots<K, V> {
    ghost use Rattle.std.specs.Borrow.{sem};
    ghost use Rattle.place_index.specs.Lending.{lends_held};

    /// No places. Takes no memory.
    pub(crate) fn new(alloc: Global) -> Slots<K, V>
        ensures { held K.is_blank result ≡ [] }
    {
        Slots {
            slots: Segments::new(alloc),
            free: 0,
            own: None,
        }
    }

    /// How many places there are.
    #[inline]
    pub(crate) fn len(&self) -> usize
        ensures { result ≡ length (held K.is_blank self.now) }
    {
        self.slots.len()
    }

    // The slot of a place that isn't empty.
    #[inline]
    fn filled(&self, at: usize) -> Option<&Slot<K, V>>
        ensures { option_map (λ slot. (slot.key, slot.value)) (option_copied result)
            ≡ item_at (held K.is_blank self.now) at }
    {
        let slot = self.slots.get(at)?;
        if is_empty_at(self.own, at, &slot.key) {
            None
        } else {
            Some(slot)
        }
    }

    /// The key in a place.
    #[inline]
    pub(crate) fn key(&self, at: usize) -> Option<&K>
        ensures { option_copied result ≡ key_at (held K.is_blank self.now) at }
    {
        match self.filled(at) {
            Some(slot) => Some(&slot.key),
            None => None,
        }
    }

    /// The value in a place.
    #[inline]
    pub(crate) fn value(&self, at: usize) -> Option<&V>
        ensures { option_copied result ≡ value_at (held K.is_blank self.now) at }
    {
        match self.filled(at) {
            Some(slot) => Some(&slot.value),
            None => None,
        }
    }

    /// Lends the value in a place for writing.
    #[inline]
    pub(crate) fn value_mut(&mut self, at: usize) -> &mut V
        requires { IsSome (item_at (held K.is_blank self.old) at) }
        ensures* writes_back { sem 𝓛 (lends_held K.row V.row self.entry at result) }
        ensures value { value_at (held K.is_blank self.old) at ≡ Some result.now }
    {
        let slot = self.slots.item_mut(at);
        slot.value_mut()
    }

    /// An empty place, or the next behind the last.
    pub(crate) fn vacant(&self) -> usize
        ensures bound { result ≤ length (held K.is_blank self.now) }
        ensures empty { item_at (held K.is_blank self.now) result ≡ None }
    {
        if self.free < self.len() && self.key(self.free).is_none() {
            self.free
        } else {
            self.len()
        }
    }

    /// The first place from a number on that isn't empty.
    pub(crate) fn first_from(&self, from: usize) -> Option<usize>
        ensures some { IfSome result (λ at. from ≤ at) }
        ensures filled { IfSome result (λ at. IsSome (item_at (held K.is_blank self.now) at)) }
        ensures before { IfSome result (λ at. AreEmpty (held K.is_blank self.now) from at) }
        ensures none { IfNone result
            (AreEmpty (held K.is_blank self.now) from (length (held K.is_blank self.now))) }
    {
        for at in from..self.len() {
            if self.key(at).is_some() {
                return Some(at);
            }
        }
        None
    }

    /// Takes the memory of so many further places, or of none.
    pub(crate) fn reserve(&mut self, places: usize) -> Result<(), NoMemory>
        ensures same { held K.is_blank self.new ≡ held K.is_blank self.old }
        ensures ok { OnOk result (places ≤ self.new.slots.room) }
        ensures room { self.old.slots.room ≤ self.new.slots.room }
        ensures held { places ≤ self.old.slots.room → IsOk result }
    {
        self.slots.reserve(places)
    }

    // The number that comes behind an empty place in the chain.
    fn free_after(&self, at: usize) -> usize {
        match self.slots.get(at) {
            Some(slot) => slot.value.number(),
            None => self.free,
        }
    }

    /// Lays a key that has no place and its value into an empty one, or into the next behind the
    /// last.
    pub(crate) fn fill(&mut self, at: usize, key: K, value: V)
        requires within { at ≤ length (held K.is_blank self.old) }
        requires absent { IsAbsent (held K.is_blank self.old) key }
        requires room { 0 < self.old.slots.room }
        ensures after { held K.is_blank self.new
            ≡ laid (held K.is_blank self.old) at (Some (key, value)) }
        ensures room { self.old.slots.room ≤ self.new.slots.room + 1 }
        ensures small { length (held K.is_blank self.new) < 2 ^ 64 }
    {
        self.own = own_with(self.own, at, &key);
        let slot = Slot { key, value };
        if at == self.slots.len() {
            self.slots.push_reserved(slot);
            return;
        }
        self.free = self.free_after(at);
        self.slots.replace(at, slot);
    }

    /// Takes what lies in a place, which is empty then.
    #[inline]
    pub(crate) fn empty(&mut self, at: usize) -> Option<(K, V)>
        ensures value { result ≡ item_at (held K.is_blank self.old) at }
        ensures after { held K.is_blank self.new ≡ slice_set (held K.is_blank self.old) at None }
        ensures room { self.new.slots.room ≡ self.old.slots.room }
    {
        if self.key(at).is_none() {
            return None;
        }
        let blank = Slot::blank(self.slots.allocator(), self.free);
        self.free = at;
        self.own = own_without(self.own, at);
        match self.slots.replace(at, blank) {
            Some(Slot { key, value }) => Some((key, value)),
            None => None,
        }
    }

    /// Exchanges the value in a place that isn't empty, and answers the one before.
    pub(crate) fn replace(&mut self, at: usize, value: V) -> Option<V>
        ensures value { result ≡ value_at (held K.is_blank self.old) at }
        ensures after { held K.is_blank self.new ≡ revalued (held K.is_blank self.old) at value }
        ensures room { self.new.slots.room ≡ self.old.slots.room }
    {
        if self.key(at).is_none() {
            return None;
        }
        Some(mem::replace(self.value_mut(at), value))
    }

    /// Whether a key lies in a place.
    #[inline]
    pub(crate) fn is_of(&self, at: usize, key: &K) -> bool
        ensures yes { IsTrue result → key_at (held K.is_blank self.now) at ≡ Some key.now }
        ensures no { IsFalse result → key_at (held K.is_blank self.now) at ≢ Some key.now }
    {
        match self.key(at) {
            Some(own) => is_same(own, key),
            None => false,
        }
    }
}

// Whether a place is empty in whose slot a key stands.
#[inline]
fn is_empty_at<K: IndexKey>(own: Option<usize>, at: usize, key: &K) -> bool
    ensures { result ≡ is_empty_at K.is_blank own at key.now }
{
    key.is_blank() && !is_own(own, at)
}

// Whether a place is the blank key's own.
#[inline]
fn is_own(own: Option<usize>, at: usize) -> bool
    ensures { result ≡ is_own own at }
{
    match own {
        Some(own) => at == own,
        None => false,
    }
}

// The blank key's own place once a key is laid down in a place.
fn own_with<K: IndexKey>(own: Option<usize>, at: usize, key: &K) -> Option<usize>
    ensures { result ≡ (if K.is_blank key.now then Some at else own) }
{
    if key.is_blank() { Some(at) } else { own }
}

// The blank key's own place once a place is emptied.
fn own_without(own: Option<usize>, at: usize) -> Option<usize>
    ensures { result ≡ (if is_own own at then None else own) }
{
    if is_own(own, at) { None } else { own }
}

// Whether two keys are the same.
#[inline]
fn is_same<K: IndexKey>(a: &K, b: &K) -> bool
    ensures yes { IsTrue result → a.now ≡ b.now }
    ensures no { IsFalse result → a.now ≢ b.now }
{
    *a == *b
}
