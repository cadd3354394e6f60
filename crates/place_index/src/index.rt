ghost use Rattle.std.specs.Prelude.{◌≡◌, ◌≢◌, ◌≤◌, ◌<◌, ◌+◌, ◌-◌, ◌^◌, [], Some, None};
ghost use Rattle.std.specs.Prelude.{IfOk, IsOk, OnOk, OnErr, IfSome, IfNone, IsSome, IsTrue};
ghost use Rattle.std.specs.Prelude.{IsFalse, length, slice_set};
ghost use Rattle.std.specs.Option.{option_copied};
ghost use Rattle.place_index.specs.Places.{item_at, key_at, value_at, laid, revalued, filled};
ghost use Rattle.place_index.specs.Slots.{held};
ghost use Rattle.place_index.specs.Reach.{IsIndex, spare};
ghost use Rattle.place_index.specs.Places.{AreDistinct, IsAbsent, AreEmpty};

use crate::reach::Reach;
use crate::slots::Slots;
use crate::{IndexKey, PlaceValue};
use agg_types::NoMemory;
use hash_windows::{Near, Trace};
use std::alloc::Global;
use std::marker::Model;

/// Keys with values in numbered places.
///
/// Contracts see the list of the places, each empty or a key with its value, so a place's number
/// stays right until the place is emptied, and for how many further keys there is room. No order
/// is kept.
pub struct PlaceIndex<K: IndexKey, V: Drop> {
    slots: Slots<K, V>,
    reach: Reach<K>,
    // How many places are filled.
    count: usize,
    // How many further keys are sure to be laid down.
    room: usize,
}

// By hand, so that what drops it elsewhere proves nothing of its parts.
impl<K: IndexKey, V: Drop> Drop for PlaceIndex<K, V> {
    fn drop(self) {
        let PlaceIndex {
            slots: _,
            reach: _,
            count: _,
            room: _,
        } = self;
    }
}

impl<K: IndexKey, V: Drop> Model for PlaceIndex<K, V> {
    ghost use Rattle.place_index.specs.Places.{Numbered, numbered_code};
    ghost use Rattle.place_index.specs.Slots.{held};
    ghost use Rattle.place_index.specs.Reach.{IsIndex, IsCounted};

    ghost Value = { Numbered K V };

    ghost coded = { numbered_code K.code V.code };

    ghost view = { λ a. record { places = held K.is_blank a.slots; room = a.room } };

    ghost invariant = { λ a. IsIndex K.cmp K.hashed a.reach (held K.is_blank a.slots)
        × IsCounted a.reach (held K.is_blank a.slots) a.count a.slots.slots.room a.room };
}

impl<K: IndexKey, V: PlaceValue> PlaceIndex<K, V> {
    ghost use Rattle.std.specs.Borrow.{sem};
    ghost use Rattle.place_index.specs.Lending.{lends_place};

    /// No places, and room for no key. Takes no memory.
    pub fn new(alloc: Global) -> PlaceIndex<K, V>
        ensures places { result.places ≡ [] }
        ensures room { result.room ≡ 0 }
    {
        PlaceIndex {
            slots: Slots::new(alloc),
            reach: Reach::new(alloc),
            count: 0,
            room: 0,
        }
    }

    /// How many places there are, empty ones among them.
    #[inline]
    pub fn places(&self) -> usize
        ensures { result ≡ length self.now.places }
    {
        self.slots.len()
    }

    /// How many places are filled. No key lies in two.
    #[inline]
    pub fn count(&self) -> usize
        ensures value { result ≡ filled self.now.places }
        ensures distinct { AreDistinct self.now.places }
    {
        self.count
    }

    /// The place of a key. No key has two.
    #[inline]
    pub fn find(&self, key: &K) -> Option<usize>
        ensures some { IfSome result (λ at. key_at self.now.places at ≡ Some key.now) }
        ensures none { IfNone result (IsAbsent self.now.places key.now) }
        ensures distinct { AreDistinct self.now.places }
    {
        look(&self.slots, &self.reach, key)
    }

    /// What `find` answers, whatever the hint: a place where the key may lie. One that is right
    /// saves the search.
    #[inline]
    pub fn find_near(&self, hint: Option<usize>, key: &K) -> Option<usize>
        ensures some { IfSome result (λ at. key_at self.now.places at ≡ Some key.now) }
        ensures none { IfNone result (IsAbsent self.now.places key.now) }
        ensures distinct { AreDistinct self.now.places }
    {
        match hint {
            Some(at) if self.is_in(at, key) => Some(at),
            _ => self.find(key),
        }
    }

    /// Whether a key lies in a place.
    #[inline]
    pub fn is_in(&self, at: usize, key: &K) -> bool
        ensures yes { IsTrue result → key_at self.now.places at ≡ Some key.now }
        ensures no { IsFalse result → key_at self.now.places at ≢ Some key.now }
        ensures distinct { AreDistinct self.now.places }
    {
        self.slots.is_of(at, key)
    }

    /// Where a key is looked for, by its hash alone: reads no memory but the key's.
    ///
    /// Who looks for several keys asks for the traces of all first, then touches what each leads
    /// to, and then asks for the guesses: so their waits for memory overlap. Nothing is promised
    /// of them.
    #[inline]
    pub fn trace(&self, key: &K) -> Trace {
        self.reach.trace(key)
    }

    /// The trace with a first look at what it leads to.
    #[inline]
    pub fn touch(&self, trace: Trace) -> Trace {
        self.reach.touch(trace)
    }

    /// Where the key of a trace may lie, without a look there. Nothing is promised of it.
    #[inline]
    pub fn guess(&self, trace: Trace) -> Option<usize> {
        self.reach.guess(trace)
    }

    /// A hint for `remove_near`: where the word may stand that names a place. Reads no memory but
    /// the key's.
    ///
    /// Who empties several places asks for the hints of all first, then touches what each leads to,
    /// and then removes: so their waits for memory overlap.
    #[inline]
    pub fn near(&self, at: usize) -> Near {
        match self.slots.key(at) {
            Some(key) => self.reach.near(key),
            None => Near::nowhere(),
        }
    }

    /// The hint after a first look at what it leads to.
    #[inline]
    pub fn touch_near(&self, at: usize, near: Near) -> Near {
        self.reach.touch_near(at, near)
    }

    /// The key in a place.
    #[inline]
    pub fn key(&self, at: usize) -> Option<&K>
        ensures { option_copied result ≡ key_at self.now.places at }
    {
        self.slots.key(at)
    }

    /// The value in a place.
    #[inline]
    pub fn value(&self, at: usize) -> Option<&V>
        ensures { option_copied result ≡ value_at self.now.places at }
    {
        self.slots.value(at)
    }

    /// Lends the value in a place that isn't empty for writing: once the borrow ends, the place has
    /// what was left there beside its key, and nothing else has changed.
    #[inline]
    pub fn value_mut(&mut self, at: usize) -> &mut V
        requires { IsSome (item_at self.old.places at) }
        ensures* writes_back { sem 𝓛 (lends_place K.row V.row
            (record { hashed = K.hashed; is_blank = K.is_blank }) (record { cmp = K.cmp })
            (record { eq = K.eq }) (record { partial_cmp = K.partial_cmp }) self.entry at result) }
        ensures value { value_at self.old.places at ≡ Some result.now }
    {
        self.slots.value_mut(at)
    }

    /// Makes room for so many further keys: as many inserts are then sure to be answered `Ok`,
    /// whatever memory there is. After `NoMemory` there is room for as many as before.
    pub fn reserve(&mut self, keys: usize) -> Result<(), NoMemory>
        ensures places { self.new.places ≡ self.old.places }
        ensures ok { OnOk result (keys ≤ self.new.room) }
        ensures room { self.old.room ≤ self.new.room }
        ensures err { OnErr result (self.new ≡ self.old) }
        ensures held { keys ≤ self.old.room → IsOk result }
    {
        if keys <= self.room {
            return Ok(());
        }
        self.slots.reserve(keys)?;
        self.reach.reserve(keys)?;
        self.room = keys;
        Ok(())
    }

    /// Lays a key that has no place into an empty one, or into a new one behind the last, and
    /// answers its number. After `NoMemory`, which doesn't come where there is room, nothing has
    /// changed.
    pub fn insert(&mut self, key: K, value: V) -> Result<usize, NoMemory>
        requires { IsAbsent self.old.places key }
        ensures bound { IfOk result (λ at. at ≤ length self.old.places) }
        ensures empty { IfOk result (λ at. item_at self.old.places at ≡ None) }
        ensures ok { IfOk result
            (λ at. self.new.places ≡ laid self.old.places at (Some (key, value))) }
        ensures room { OnOk result (self.new.room ≡ self.old.room - 1) }
        ensures err { OnErr result (self.new ≡ self.old) }
        ensures reserved { 0 < self.old.room → IsOk result }
    {
        let at = lay(&mut self.slots, &mut self.reach, key, value)?;
        self.count += 1;
        self.room = self.room.saturating_sub(1);
        Ok(at)
    }

    /// Exchanges the value in a place, and answers the one before: none where the place is empty,
    /// which it then stays.
    pub fn replace(&mut self, at: usize, value: V) -> Option<V>
        ensures value { result ≡ value_at self.old.places at }
        ensures after { self.new.places ≡ revalued self.old.places at value }
        ensures room { self.new.room ≡ self.old.room }
    {
        exchange(&mut self.slots, &self.reach, at, value)
    }

    /// Empties a place, and answers what lay there.
    pub fn remove(&mut self, at: usize) -> Option<(K, V)>
        ensures value { result ≡ item_at self.old.places at }
        ensures after { self.new.places ≡ slice_set self.old.places at None }
        ensures room { self.new.room ≡ self.old.room }
    {
        self.remove_near(at, Near::nowhere())
    }

    /// What `remove` does and answers, whatever the hint: one that doesn't fit costs a search.
    pub fn remove_near(&mut self, at: usize, near: Near) -> Option<(K, V)>
        ensures value { result ≡ item_at self.old.places at }
        ensures after { self.new.places ≡ slice_set self.old.places at None }
        ensures room { self.new.room ≡ self.old.room }
    {
        let item = take(&mut self.slots, &mut self.reach, at, near)?;
        self.count -= 1;
        Some(item)
    }

    /// The first place from a number on that isn't empty: the step of a walk over places.
    pub fn first_from(&self, from: usize) -> Option<usize>
        ensures some { IfSome result (λ at. from ≤ at) }
        ensures filled { IfSome result (λ at. IsSome (item_at self.now.places at)) }
        ensures before { IfSome result (λ at. AreEmpty self.now.places from at) }
        ensures none { IfNone result (AreEmpty self.now.places from (length self.now.places)) }
    {
        self.slots.first_from(from)
    }
}

// The place of a key.
#[inline]
fn look<K: IndexKey, V: PlaceValue>(slots: &Slots<K, V>, reach: &Reach<K>, key: &K) -> Option<usize>
    requires { IsIndex K.cmp K.hashed reach.now (held K.is_blank slots.now) }
    ensures some { IfSome result (λ at. key_at (held K.is_blank slots.now) at ≡ Some key.now) }
    ensures none { IfNone result (IsAbsent (held K.is_blank slots.now) key.now) }
    ensures distinct { AreDistinct (held K.is_blank slots.now) }
{
    reach.find(slots, key)
}

// Lays a key that has no place into an empty one, and answers its number.
fn lay<K: IndexKey, V: PlaceValue>(
    slots: &mut Slots<K, V>,
    reach: &mut Reach<K>,
    key: K,
    value: V,
) -> Result<usize, NoMemory>
    requires index { IsIndex K.cmp K.hashed reach.old (held K.is_blank slots.old) }
    requires absent { IsAbsent (held K.is_blank slots.old) key }
    ensures index { IsIndex K.cmp K.hashed reach.new (held K.is_blank slots.new) }
    ensures bound { IfOk result (λ at. at ≤ length (held K.is_blank slots.old)) }
    ensures empty { IfOk result (λ at. item_at (held K.is_blank slots.old) at ≡ None) }
    ensures ok { IfOk result (λ at. held K.is_blank slots.new
        ≡ laid (held K.is_blank slots.old) at (Some (key, value))) }
    ensures err { OnErr result (held K.is_blank slots.new ≡ held K.is_blank slots.old) }
    ensures small { OnOk result (length (held K.is_blank slots.new) < 2 ^ 64) }
    ensures free { slots.old.slots.room ≤ slots.new.slots.room + 1 }
    ensures spare { spare reach.old ≤ spare reach.new + 1 }
    ensures reserved { 0 < slots.old.slots.room → 0 < spare reach.old → IsOk result }
{
    let at = slots.vacant();
    slots.reserve(1)?;
    reach.reserve(1)?;
    reach.grow(slots.len().saturating_add(1));
    reach.put(&key, at);
    slots.fill(at, key, value);
    Ok(at)
}

// Exchanges the value in a place.
fn exchange<K: IndexKey, V: PlaceValue>(
    slots: &mut Slots<K, V>,
    reach: &Reach<K>,
    at: usize,
    value: V,
) -> Option<V>
    requires { IsIndex K.cmp K.hashed reach.now (held K.is_blank slots.old) }
    ensures index { IsIndex K.cmp K.hashed reach.now (held K.is_blank slots.new) }
    ensures value { result ≡ value_at (held K.is_blank slots.old) at }
    ensures after { held K.is_blank slots.new
        ≡ revalued (held K.is_blank slots.old) at value }
    ensures filled { filled (held K.is_blank slots.new)
        ≡ filled (held K.is_blank slots.old) }
    ensures free { slots.new.slots.room ≡ slots.old.slots.room }
{
    slots.replace(at, value)
}

// Empties a place, and answers what lay there. A hint says where its word may stand.
fn take<K: IndexKey, V: PlaceValue>(
    slots: &mut Slots<K, V>,
    reach: &mut Reach<K>,
    at: usize,
    near: Near,
) -> Option<(K, V)>
    requires { IsIndex K.cmp K.hashed reach.old (held K.is_blank slots.old) }
    ensures index { IsIndex K.cmp K.hashed reach.new (held K.is_blank slots.new) }
    ensures value { result ≡ item_at (held K.is_blank slots.old) at }
    ensures after { held K.is_blank slots.new ≡ slice_set (held K.is_blank slots.old) at None }
    ensures free { slots.new.slots.room ≡ slots.old.slots.room }
    ensures spare { spare reach.old ≤ spare reach.new }
{
    let key = slots.key(at)?;
    reach.clear(key, at, near);
    slots.empty(at)
}
