//! The best keys found so far.

ghost use Rattle.std.specs.Prelude.{◌≡◌, ◌==◌, ◌≤◌, ◌++◌, ◌∷◌, length, map, take, drop, true};
ghost use Rattle.std.specs.Option.{option_map};
ghost use Rattle.std.specs.Ordering.{is_lt};
ghost use Rattle.expiry_wheel.specs.Lent.{lent_entry};
ghost use Rattle.fleet_model.specs.Ranking.{put_in_order, rank_cmp};
ghost use Rattle.ranked.specs.Walk.{AreRanked, is_settled, view_of_candidate};

use crate::slack::bound_of;
use agg_types::Key;

/// Whether a candidate stands before every key from an entry of the index on.
pub(crate) fn is_settled(best: (&Key, u128), ahead: Option<(u64, &Key)>) -> bool
    ensures { result
        ≡ is_settled (view_of_candidate best.entry) (option_map lent_entry ahead.entry) }
{
    match ahead {
        None => true,
        Some((zeros, _)) => best.1 > bound_of(zeros),
    }
}

/// Whether a key isn't kept: there are as many candidates as there is room for, and it doesn't come
/// before the last one. It is compared with that one alone.
pub(crate) fn stays_out(candidates: &[(&Key, u128)], room: usize, key: (&Key, u128)) -> bool
    requires kept { length candidates.now ≤ room }
    requires ranked { AreRanked (map view_of_candidate candidates.now) }
    ensures { result ≡ true
        → take room (put_in_order rank_cmp (view_of_candidate key.entry)
        (map view_of_candidate candidates.now)) ≡ map view_of_candidate candidates.now }
{
    let len = candidates.len();
    if len < room {
        return false;
    }
    if len == 0 {
        return true;
    }
    !comes_before(key, candidates[len - 1])
}

/// Before how many candidates a key's place is.
pub(crate) fn place_of(candidates: &[(&Key, u128)], key: (&Key, u128)) -> usize
    ensures within { result ≤ length candidates.now }
    ensures place { put_in_order rank_cmp (view_of_candidate key.entry)
        (map view_of_candidate candidates.now)
        ≡ map view_of_candidate (take result candidates.now) ++ view_of_candidate key.entry
        ∷ map view_of_candidate (drop result candidates.now) }
{
    for (place, other) in candidates.iter().enumerate() {
        if comes_before(key, *other) {
            return place;
        }
    }
    candidates.len()
}

fn comes_before(key: (&Key, u128), other: (&Key, u128)) -> bool
    ensures { result
        ≡ is_lt (rank_cmp (view_of_candidate key.entry) (view_of_candidate other.entry)) }
{
    key.1 > other.1 || (key.1 == other.1 && *key.0 < *other.0)
}
