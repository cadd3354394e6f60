ghost use Rattle.std.specs.Prelude.{◌≡◌, ◌≢◌, ◌+◌, ◌*◌, ◌<◌, ◌≤◌, ℕ, [], length, IfOk, OnOk, OnErr};
ghost use Rattle.std.specs.Option.{IsSomeAnd};
ghost use Rattle.std.specs.Map.{keys_of};
ghost use Rattle.agg_types.specs.declared.limits.TheConstants.{LONGEST_RANK};
ghost use Rattle.ranked.specs.Bounds.{AreAllBounded, IsBounded, IsByKey, IsListOf, bound_at};
ghost use Rattle.ranked.specs.Bounds.{first_ranked};
ghost use Rattle.ranked.specs.Leaders.{IsOneKeyOf, bounds_of};

use crate::{Bounds, Ranked, Wanted};
use agg_types::{Key, NoMemory};
use crossing::Values;
use std::alloc::Global;
use std::marker::Model;

/// The bounds of several ranked lists, by their positions.
#[derive(Drop)]
pub struct Leaders {
    lists: Vec<Bounds>,
}

impl Model for Leaders {
    ghost use Rattle.std.specs.Prelude.{List, ℕ};

    ghost Value = { List (List (List ℕ × ℕ)) };

    ghost view = { λ leaders. leaders.lists.items };
}

impl Leaders {
    /// No bounds, for so many ranked lists.
    pub fn new(alloc: Global, count: usize) -> Result<Leaders, NoMemory>
        ensures count { IfOk result (λ leaders. length leaders ≡ count) }
        ensures none { IfOk result (λ leaders. (list : ℕ) → bounds_of leaders list ≡ []) }
    {
        let mut lists = Vec::new(alloc);
        for _ in 0..count {
            lists.push(Bounds::new(alloc))?;
        }
        Ok(Leaders { lists })
    }

    /// Sees to it that a key's bound in a list is at least this. After `NoMemory` nothing has
    /// changed. The hint says in which place the key may lie, as `Bounds::touch_near` takes it.
    pub fn touch(
        &mut self,
        list: usize,
        hint: Option<usize>,
        key: &Key,
        bound: u128,
    ) -> Result<(), NoMemory>
        requires { list < length self.old }
        ensures holds { OnOk result (IsBounded (bounds_of self.new list) key.now bound) }
        ensures near { OnOk result (IsSomeAnd (bound_at (bounds_of self.new list) key.now)
            (λ kept. kept ≤ 4 * bound + 3)) }
        ensures others { IsOneKeyOf list key.now self.old self.new }
        ensures err { OnErr result (self.new ≡ self.old) }
    {
        self.lists[list].touch_near(hint, key, bound)
    }

    /// Takes a key's bound in a list away. Takes no memory.
    pub fn drop_key(&mut self, list: usize, key: &Key)
        requires { list < length self.old }
        ensures gone { bound_at (bounds_of self.new list) key.now ≡ None }
        ensures others { IsOneKeyOf list key.now self.old self.new }
    {
        self.lists[list].drop_key(key);
    }

    /// Takes all bounds of a list away. Takes no memory.
    pub fn clear(&mut self, list: usize)
        requires { list < length self.old }
        ensures gone { bounds_of self.new list ≡ [] }
        ensures others { (other : ℕ) → other ≢ list
            → bounds_of self.new other ≡ bounds_of self.old other }
        ensures count { length self.new ≡ length self.old }
    {
        self.lists[list].clear();
    }

    /// A ranked list at a moment, as `Bounds::top` finds it.
    pub fn top<'a, V: Values>(
        &'a self,
        alloc: Global,
        list: usize,
        wanted: Wanted,
        values: &'a V,
    ) -> Result<Ranked<'a, V>, NoMemory>
        requires there { list < length self.now }
        requires short { wanted.n ≤ LONGEST_RANK }
        requires bounds { AreAllBounded (bounds_of self.now list)
            (λ key. V.living values.now wanted.table key wanted.now)
            (λ key. V.summed values.now wanted.table key wanted.col wanted.now) }
        ensures list { IfOk result (λ found. found.left ≡ first_ranked wanted.n
            (λ key. V.living values.now wanted.table key wanted.now)
            (λ key. V.summed values.now wanted.table key wanted.col wanted.now)
            (keys_of (bounds_of self.now list))) }
        ensures index { IfOk result (λ found. IsListOf found.index (bounds_of self.now list)) }
        ensures start { IfOk result (λ found. found.walked ≡ 0) }
        ensures ordered { IsByKey (bounds_of self.now list) }
    {
        self.lists[list].top(alloc, wanted, values)
    }
    /// Whether that list looks at no more than so many keys, as `Bounds::looks_at_most` tries it.
    pub fn looks_at_most<V: Values>(
        &self,
        alloc: Global,
        list: usize,
        wanted: Wanted,
        values: &V,
        most: usize,
    ) -> Result<bool, NoMemory>
        requires there { list < length self.now }
        requires short { wanted.n ≤ LONGEST_RANK }
    {
        self.lists[list].looks_at_most(alloc, wanted, values, most)
    }
}
