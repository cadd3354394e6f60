ghost use Rattle.std.specs.Prelude.{◌≡◌, length};
ghost use Rattle.std.specs.Option.{option_map};
ghost use Rattle.std.specs.Map.Iter.{TakesFirst};
ghost use Rattle.std.specs.Iterator.{at_most};
ghost use Rattle.expiry_wheel.specs.Lent.{lent_entry};
ghost use Rattle.expiry_wheel.specs.Merge.{merged, second_comes_first};

use crate::DueIndex;
use std::marker::Model;

/// An entry that one of two indexes lends: its moment and its item.
#[derive(Clone, Copy, Debug)]
pub enum DueEntry<'a, T, U> {
    /// An entry of the first index.
    First(u64, &'a T),
    /// An entry of the second index.
    Second(u64, &'a U),
}

/// Goes through two indexes side by side, by moment, and takes no memory.
///
/// At one moment the first index's entries come first. Contracts see the list of what is left.
#[derive(Drop)]
pub struct Due<'a, T: Ord, U: Ord, A: DueIndex<T>, B: DueIndex<U>> {
    firsts: &'a A,
    seconds: &'a B,
    // The next entry of each.
    first: Option<(u64, &'a T)>,
    second: Option<(u64, &'a U)>,
}

impl<'a, T: Ord, U: Ord, A: DueIndex<T>, B: DueIndex<U>> Model for Due<'a, T, U, A, B> {
    ghost use Rattle.std.specs.Prelude.{List, ℕ, ◌⊎◌};
    ghost use Rattle.std.specs.Option.{option_map};
    ghost use Rattle.std.specs.Coded.{coded_list, coded×, coded⊎, coded_ℕ};
    ghost use Rattle.expiry_wheel.specs.Lent.{lent_entry};
    ghost use Rattle.expiry_wheel.specs.Merge.{merged, left_from};

    ghost Value = { List ((ℕ × T) ⊎ (ℕ × U)) };

    ghost coded = { coded_list (coded⊎ (coded× coded_ℕ T.code) (coded× coded_ℕ U.code)) };

    ghost view = { λ a. merged
        (left_from T.cmp (option_map lent_entry a.first) (A.planned a.firsts.now))
        (left_from U.cmp (option_map lent_entry a.second) (B.planned a.seconds.now)) };
}

impl<'a, T: Ord, U: Ord, A: DueIndex<T>, B: DueIndex<U>> Due<'a, T, U, A, B> {
    /// All entries of both indexes.
    pub fn new(firsts: &'a A, seconds: &'a B) -> Due<'a, T, U, A, B>
        ensures { result ≡ merged (A.planned firsts.now) (B.planned seconds.now) }
    {
        Due {
            firsts,
            seconds,
            first: firsts.after(None),
            second: seconds.after(None),
        }
    }
}

impl<'a, T: Ord, U: Ord, A: DueIndex<T>, B: DueIndex<U>> Iterator for Due<'a, T, U, A, B> {
    type Item = DueEntry<'a, T, U>;

    ghost use Rattle.expiry_wheel.specs.DueEntry.{view_of_entry};

    ghost next_gives = { TakesFirst view_of_entry };

    ghost remaining = { λ s. at_most (length s) };

    fn next(&mut self) -> Option<DueEntry<'a, T, U>> {
        if is_second_next(self.first, self.second) {
            let (at, item) = self.second?;
            self.second = self.seconds.after(Some((at, item)));
            Some(DueEntry::Second(at, item))
        } else {
            let (at, item) = self.first?;
            self.first = self.firsts.after(Some((at, item)));
            Some(DueEntry::First(at, item))
        }
    }
}

fn is_second_next<T, U>(first: Option<(u64, &T)>, second: Option<(u64, &U)>) -> bool
    ensures { result ≡ second_comes_first (option_map lent_entry first.entry)
        (option_map lent_entry second.entry) }
{
    let Some((first_at, _)) = first else {
        return true;
    };
    let Some((second_at, _)) = second else {
        return false;
    };
    second_at < first_at
}
