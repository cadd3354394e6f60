//! The entries of one index, in order.

ghost use Rattle.std.specs.Prelude.{◌≡◌, length};
ghost use Rattle.std.specs.Option.{option_map};
ghost use Rattle.std.specs.Iterator.{at_most};
ghost use Rattle.std.specs.Map.Iter.{TakesFirst};
ghost use Rattle.expiry_wheel.specs.Entries.{IsInOrder};
ghost use Rattle.expiry_wheel.specs.Items.{AreFromFirst, first_item, without_first};
ghost use Rattle.expiry_wheel.specs.Lent.{lent_entry};

use crate::DueIndex;
use std::marker::Model;

/// Lends the entries of an index, each a moment and an item: by moment, then by item. Takes no
/// memory.
///
/// Contracts see the list of what is left.
#[derive(Drop)]
pub struct Entries<'a, T: Ord, I: DueIndex<T>> {
    index: &'a I,
    next: Option<(u64, &'a T)>,
}

impl<'a, T: Ord, I: DueIndex<T>> Model for Entries<'a, T, I> {
    ghost use Rattle.std.specs.Prelude.{List, ℕ};
    ghost use Rattle.std.specs.Option.{option_map};
    ghost use Rattle.std.specs.Coded.{coded_list, coded×, coded_ℕ};
    ghost use Rattle.expiry_wheel.specs.Lent.{lent_entry};
    ghost use Rattle.expiry_wheel.specs.Merge.{left_from};

    ghost Value = { List (ℕ × T) };

    ghost coded = { coded_list (coded× coded_ℕ T.code) };

    ghost view = { λ e. left_from T.cmp (option_map lent_entry e.next) (I.planned e.index.now) };
}

impl<'a, T: Ord, I: DueIndex<T>> Entries<'a, T, I> {
    /// All entries of an index.
    pub fn new(index: &'a I) -> Entries<'a, T, I>
        ensures all { result ≡ I.planned index.now }
        ensures ordered { IsInOrder T.cmp (I.planned index.now) }
    {
        Entries {
            index,
            next: index.after(None),
        }
    }

    /// The next entry, which stays. No later entry has an earlier moment.
    pub fn peek(&self) -> Option<(u64, &'a T)>
        ensures next { option_map lent_entry result ≡ first_item self.now }
        ensures first { AreFromFirst self.now }
    {
        self.next
    }

    /// Takes the next entry, if there is one.
    pub fn step(&mut self)
        ensures { self.new ≡ without_first self.old }
    {
        if let Some(taken) = self.next {
            self.next = self.index.after(Some(taken));
        }
    }
}

impl<'a, T: Ord, I: DueIndex<T>> Iterator for Entries<'a, T, I> {
    type Item = (u64, &'a T);

    ghost next_gives = { TakesFirst lent_entry };

    ghost remaining = { λ entries. at_most (length entries) };

    fn next(&mut self) -> Option<(u64, &'a T)> {
        let (at, item) = self.next?;
        self.next = self.index.after(Some((at, item)));
        Some((at, item))
    }
}
