ghost use Rattle.std.specs.Prelude.{◌≡◌, ◌≤◌, ◌+◌, ◌*◌, [], Some, IfOk, IfSome, OnErr};
ghost use Rattle.std.specs.Prelude.{OnOk};
ghost use Rattle.std.specs.Option.{IsSomeAnd, option_map};
ghost use Rattle.std.specs.Map.{keys_of};
ghost use Rattle.agg_types.specs.declared.limits.TheConstants.{LONGEST_RANK};
ghost use Rattle.place_index.specs.Places.{key_at, in_order, AreDistinct};
ghost use Rattle.ranked.specs.Bounds.{AreAllBounded, AreOthersKept, IsByKey, IsListOf, bound_at};
ghost use Rattle.ranked.specs.Bounds.{first_ranked, zeros_at};

use crate::looks::looks_at_most;
use crate::slack::{serves, zeros_for};
use crate::{Ranked, Wanted};
use agg_types::{Key, NoMemory};
use crossing::Values;
use expiry_wheel::{DueIndex, OrderedDue};
use place_index::{PlaceIndex, Slot};
use std::alloc::Global;
use std::marker::Model;
use std::mem::size_of;

/// A bound on each key's value of one column, from which a ranked list finds its first keys.
///
/// A bound keeps slack, so that a value that moves a little moves nothing here: it is kept while it
/// holds and isn't above four times of what it bounds. Values only fall by themselves, so a bound
/// holds as time goes on. A touch finds it by the hash of its key.
///
/// Contracts see the list of the keys in order, each with how many leading zeros its bound has.
/// Nothing keeps that order: a ranked list goes by the bounds.
pub struct Bounds {
    // By the leading zeros of its bound: each key, the greatest bounds first.
    index: OrderedDue<Key>,
    // How many leading zeros the bound of each key has, where the key's hash leads to.
    zeros: PlaceIndex<Key, u64>,
    alloc: Global,
}

const _: () = prove!(size_of::<Slot<Key, u64>>() == 32);

// By hand, so that what drops it elsewhere proves nothing of its parts.
impl Drop for Bounds {
    fn drop(self) {
        let Bounds {
            index: _,
            zeros: _,
            alloc: _,
        } = self;
    }
}

impl Model for Bounds {
    ghost use Rattle.std.specs.Prelude.{List, ℕ};
    ghost use Rattle.place_index.specs.Places.{in_order};
    ghost use Rattle.ranked.specs.Bounds.{IsIndexOf};

    ghost Value = { List (List ℕ × ℕ) };

    ghost view = { λ bounds. in_order bounds.zeros.places };

    ghost invariant = { λ bounds. IsIndexOf bounds.index (in_order bounds.zeros.places) };
}

impl Bounds {
    /// No bounds. Takes no memory.
    pub fn new(alloc: Global) -> Bounds
        ensures { result ≡ [] }
    {
        Bounds {
            index: OrderedDue::new(alloc),
            zeros: PlaceIndex::new(alloc),
            alloc,
        }
    }

    /// Sees to it that a key's bound is at least this. After `NoMemory` nothing has changed.
    pub fn touch(&mut self, key: &Key, bound: u128) -> Result<(), NoMemory>
        ensures holds { OnOk result
            (IsSomeAnd (bound_at self.new key.now) (λ kept. bound ≤ kept)) }
        ensures near { OnOk result
            (IsSomeAnd (bound_at self.new key.now) (λ kept. kept ≤ 4 * bound + 3)) }
        ensures others { OnOk result (AreOthersKept key.now self.old self.new) }
        ensures err { OnErr result (self.new ≡ self.old) }
    {
        self.touch_near(None, key, bound)
    }

    /// What `touch` does and answers, whatever the hint: the number of a place. Bounds that took
    /// the same keys, and let them go, in the same order as another index have each key in the
    /// place that it has there, and then no key is searched.
    pub fn touch_near(
        &mut self,
        hint: Option<usize>,
        key: &Key,
        bound: u128,
    ) -> Result<(), NoMemory>
        ensures holds { OnOk result
            (IsSomeAnd (bound_at self.new key.now) (λ kept. bound ≤ kept)) }
        ensures near { OnOk result
            (IsSomeAnd (bound_at self.new key.now) (λ kept. kept ≤ 4 * bound + 3)) }
        ensures others { OnOk result (AreOthersKept key.now self.old self.new) }
        ensures err { OnErr result (self.new ≡ self.old) }
    {
        let Some((at, zeros)) = find(&self.zeros, hint, key) else {
            return self.add(key, zeros_for(bound));
        };
        if serves(zeros, bound) {
            return Ok(());
        }
        let wanted = zeros_for(bound);
        self.index.plan(wanted, key.duplicate(self.alloc)?)?;
        self.index.cancel(zeros, key);
        self.zeros.replace(at, wanted);
        Ok(())
    }

    /// Takes a key's bound away. Takes no memory.
    pub fn drop_key(&mut self, key: &Key)
        ensures gone { bound_at self.new key.now ≡ None }
        ensures others { AreOthersKept key.now self.old self.new }
    {
        if let Some((at, zeros)) = find(&self.zeros, None, key) {
            self.zeros.remove(at);
            self.index.cancel(zeros, key);
        }
    }

    /// Takes all bounds away, in the time that they take. Takes no memory.
    pub fn clear(&mut self)
        ensures { self.new ≡ [] }
    {
        *self = Bounds::new(self.alloc);
    }

    /// A ranked list at a moment: the first keys of its table by its column, if each key with a
    /// live row has a bound of at least its value. Takes all memory that the list needs.
    pub fn top<'a, V: Values>(
        &'a self,
        alloc: Global,
        wanted: Wanted,
        values: &'a V,
    ) -> Result<Ranked<'a, V>, NoMemory>
        requires short { wanted.n ≤ LONGEST_RANK }
        requires bounds { AreAllBounded self.now
            (λ key. V.living values.now wanted.table key wanted.now)
            (λ key. V.summed values.now wanted.table key wanted.col wanted.now) }
        ensures list { IfOk result (λ list. list.left ≡ first_ranked wanted.n
            (λ key. V.living values.now wanted.table key wanted.now)
            (λ key. V.summed values.now wanted.table key wanted.col wanted.now)
            (keys_of self.now)) }
        ensures index { IfOk result (λ list. IsListOf list.index self.now) }
        ensures start { IfOk result (λ list. list.walked ≡ 0) }
        ensures ordered { IsByKey self.now }
    {
        Ranked::new(alloc, &self.index, wanted, values)
    }

    /// Whether that list looks at no more than so many keys until it has given all. It is tried, at
    /// so many at most. No clause says so: it is for who has another way to the same keys.
    pub fn looks_at_most<V: Values>(
        &self,
        alloc: Global,
        wanted: Wanted,
        values: &V,
        most: usize,
    ) -> Result<bool, NoMemory>
        requires { wanted.n ≤ LONGEST_RANK }
    {
        looks_at_most(alloc, &self.index, wanted, values, most)
    }
}

impl Bounds {
    fn add(&mut self, key: &Key, zeros: u64) -> Result<(), NoMemory>
        requires new { zeros_at self.old key.now ≡ None }
        ensures kept { OnOk result (zeros_at self.new key.now ≡ Some zeros) }
        ensures others { OnOk result (AreOthersKept key.now self.old self.new) }
        ensures err { OnErr result (self.new ≡ self.old) }
    {
        let own = key.duplicate(self.alloc)?;
        self.index.plan(zeros, key.duplicate(self.alloc)?)?;
        if let Err(refused) = self.zeros.insert(own, zeros) {
            self.index.cancel(zeros, key);
            return Err(refused);
        }
        Ok(())
    }
}

// The place of a key, which a hint may say, and how many leading zeros its bound has.
fn find(zeros: &PlaceIndex<Key, u64>, hint: Option<usize>, key: &Key) -> Option<(usize, u64)>
    ensures own { IfSome result (λ found. key_at zeros.now.places found.0 ≡ Some key.now) }
    ensures value { option_map (λ found. found.1) result
        ≡ zeros_at (in_order zeros.now.places) key.now }
    ensures distinct { AreDistinct zeros.now.places }
{
    let at = zeros.find_near(hint, key)?;
    let own = zeros.value(at)?;
    Some((at, *own))
}
