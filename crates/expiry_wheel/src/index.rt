ghost use Rattle.std.specs.Prelude.{◌≡◌, ℕ, ◌≤◌, List, Option, OnOk, OnErr};
ghost use Rattle.std.specs.Option.{option_map};
ghost use Rattle.expiry_wheel.specs.Entries.{IsInOrder, has_entry, with_entry, without_entry};
ghost use Rattle.expiry_wheel.specs.Entries.{first_moment, first_due, without_due, first_above};
ghost use Rattle.expiry_wheel.specs.Lent.{lent_entry};

use agg_types::NoMemory;

/// A set of entries, each a moment and an item: what is to happen when.
///
/// Contracts see an index as the list of its entries by moment, then by item, with no two alike.
/// Only `plan` takes memory.
pub trait DueIndex<T: Ord> {
    /// The entries, in order.
    ghost planned: { Self → List (ℕ × T) };

    /// Adds an entry. One that is there stays as it is. After `NoMemory` nothing has changed.
    fn plan(&mut self, at: u64, item: T) -> Result<(), NoMemory>
        ensures ok { OnOk result
            (planned self.new ≡ with_entry T.cmp (planned self.old) (at, item)) }
        ensures err { OnErr result (planned self.new ≡ planned self.old) }
        ensures ordered { IsInOrder T.cmp (planned self.old) };

    /// Takes an entry away, and answers whether it was there.
    fn cancel(&mut self, at: u64, item: &T) -> bool
        ensures found { result ≡ has_entry T.cmp (planned self.old) (at, item.now) }
        ensures removed { planned self.new
            ≡ without_entry T.cmp (planned self.old) (at, item.now) }
        ensures ordered { IsInOrder T.cmp (planned self.old) };

    /// The moment of the least entry.
    fn next_at(&self) -> Option<u64>
        ensures moment { result ≡ first_moment (planned self.now) }
        ensures ordered { IsInOrder T.cmp (planned self.now) };

    /// Takes the least entry away and answers it, if its moment is at most `t`.
    fn take_due(&mut self, t: u64) -> Option<(u64, T)>
        ensures taken { result ≡ first_due t (planned self.old) }
        ensures rest { planned self.new ≡ without_due t (planned self.old) }
        ensures ordered { IsInOrder T.cmp (planned self.old) };

    /// The least entry above the given one, which need not be there, or the least of all.
    fn after<'a>(&'a self, given: Option<(u64, &'a T)>) -> Option<(u64, &'a T)>
        ensures next { option_map lent_entry result
            ≡ first_above T.cmp (option_map lent_entry given.entry) (planned self.now) }
        ensures ordered { IsInOrder T.cmp (planned self.now) };
}
