ghost use Rattle.std.specs.Prelude.{◌≡◌, [], ◌∷◌, length, ◌<◌, ◌↔◌, IsTrue, IsSome, IfNone, IfSome};
ghost use Rattle.std.specs.Prelude.{OnOk, OnErr};
ghost use Rattle.std.specs.Option.{option_map, option_copied};
ghost use Rattle.std.specs.List.{list_any, find};
ghost use Rattle.std.specs.List.Sorted.{IsStrictlySortedBy};
ghost use Rattle.std.specs.Ordering.{is_lt};
ghost use Rattle.std.specs.BTreeMap.{is_at};
ghost use Rattle.std.specs.BTreeSet.{insert_key};
ghost use Rattle.std.specs.Set.{remove_key};
ghost use Rattle.expiry_wheel.specs.Items.{first_item, without_first, first_item_above};

use agg_types::NoMemory;
use std::alloc::Global;
use std::cmp::Ordering;
use std::collections::BTreeSet;
use std::marker::Model;
use std::mem;
use std::ops::Bound;

// The items of one moment, in order, which contracts see as their list.
//
// The first stands by itself, so that a lone item takes no memory of its own. With no first there
// are no others.
#[derive(Drop)]
pub(crate) struct Together<T: Ord> {
    first: Option<T>,
    others: BTreeSet<T>,
}

impl<T: Ord> Model for Together<T> {
    ghost use Rattle.std.specs.Prelude.{List};
    ghost use Rattle.std.specs.Coded.{coded_list};
    ghost use Rattle.expiry_wheel.specs.Items.{items_of, AreTogether};

    ghost Value = { List T };

    ghost coded = { coded_list T.code };

    ghost view = { λ a. items_of a.first a.others.keys };

    ghost invariant = { λ a. AreTogether T.cmp a.first a.others.keys };
}

impl<T: Ord + Drop> Together<T> {
    pub(crate) fn one(alloc: Global, item: T) -> Together<T>
        ensures { result ≡ item ∷ [] }
    {
        Together {
            first: Some(item),
            others: BTreeSet::new(alloc),
        }
    }

    pub(crate) fn insert(&mut self, item: T) -> Result<(), NoMemory>
        ensures ok { OnOk result (self.new ≡ insert_key T.cmp self.old item) }
        ensures err { OnErr result (self.new ≡ self.old) }
        ensures ordered { IsStrictlySortedBy T.cmp self.new }
    {
        let Some(first) = &mut self.first else {
            self.first = Some(item);
            return Ok(());
        };
        match item.cmp(&*first) {
            Ordering::Less => {
                let second = mem::replace(first, item);
                if let Err(refused) = self.others.insert(second) {
                    *first = refused.value;
                    return Err(NoMemory);
                }
            }
            Ordering::Equal => {}
            Ordering::Greater => {
                self.others.insert(item)?;
            }
        }
        Ok(())
    }

    pub(crate) fn remove(&mut self, item: &T) -> bool
        ensures found { result ≡ list_any (is_at (T.cmp item.now)) self.old }
        ensures removed { self.new ≡ remove_key (is_at (T.cmp item.now)) self.old }
        ensures ordered { IsStrictlySortedBy T.cmp self.new }
    {
        let Some(first) = &self.first else {
            return false;
        };
        if item.cmp(first) == Ordering::Equal {
            self.first = self.others.pop_first();
            return true;
        }
        self.others.remove(item)
    }

    pub(crate) fn is_empty(&self) -> bool
        ensures { IsTrue result ↔ (self.now ≡ []) }
    {
        self.first.is_none()
    }

    pub(crate) fn take_first(&mut self) -> Option<T>
        ensures taken { result ≡ first_item self.old }
        ensures rest { self.new ≡ without_first self.old }
        ensures ordered { IsStrictlySortedBy T.cmp self.new }
    {
        let second = self.others.pop_first();
        mem::replace(&mut self.first, second)
    }

    pub(crate) fn first(&self) -> Option<&T>
        ensures first { option_copied result ≡ first_item self.now }
        ensures ordered { IsStrictlySortedBy T.cmp self.now }
    {
        self.first.as_ref()
    }

    pub(crate) fn above<'a>(&'a self, item: &'a T) -> Option<&'a T>
        ensures { option_copied result ≡ first_item_above T.cmp item.now self.now }
    {
        let first = self.first.as_ref()?;
        if item.cmp(first) == Ordering::Less {
            return Some(first);
        }
        self.others
            .range((Bound::Excluded(item), Bound::Unbounded))
            .next()
    }
}
