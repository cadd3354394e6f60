//! One walk from the greatest bound on.

ghost use Rattle.std.specs.Prelude.{◌≡◌, ◌<◌, ◌≤◌, ◌⊎◌, [], false, true, length, map, slice_get};
ghost use Rattle.std.specs.Prelude.{take, vec_len, vec_capacity};
ghost use Rattle.expiry_wheel.specs.Items.{AreFromFirst, first_item, without_first};
ghost use Rattle.fleet_model.specs.Ranking.{put_in_order, rank_cmp};
ghost use Rattle.std.specs.Option.{option_map};
ghost use Rattle.expiry_wheel.specs.Lent.{lent_entry};
ghost use Rattle.ranked.specs.Walk.{AreBounds, AreRanked, WalksOn, found, is_done};
ghost use Rattle.ranked.specs.Walk.{view_of_candidate};

use crate::Wanted;
use crate::candidates::{is_settled, place_of, stays_out};
use agg_types::Key;
use crossing::Values;
use expiry_wheel::{Entries, OrderedDue};

/// Puts a key among the candidates, of which no more are kept than there is room for. Where that
/// many are there, a key that doesn't come before the last one moves none.
pub(crate) fn offer<'a>(candidates: &mut Vec<(&'a Key, u128)>, room: usize, key: (&'a Key, u128))
    requires kept { vec_len candidates.old ≤ room }
    requires space { room < vec_capacity candidates.old }
    requires ranked { AreRanked (map view_of_candidate candidates.old.items) }
    ensures offered { map view_of_candidate candidates.new.items
        ≡ take room (put_in_order rank_cmp (view_of_candidate key.entry)
        (map view_of_candidate candidates.old.items)) }
    ensures kept { vec_len candidates.new ≤ room }
    ensures space { room < vec_capacity candidates.new }
    ensures ranked { AreRanked (map view_of_candidate candidates.new.items) }
{
    if stays_out(candidates.as_slice(), room, key) {
        return;
    }
    let place = place_of(candidates.as_slice(), key);
    match candidates.insert(place, key) {
        Ok(()) => candidates.truncate(room),
        Err(_) => {}
    }
}

// Whether a walk may stop.
fn is_done(candidates: &[(&Key, u128)], next: Option<(u64, &Key)>) -> bool
    ensures { result
        ≡ is_done (map view_of_candidate candidates.now) (option_map lent_entry next.entry) }
{
    match candidates {
        [] => next.is_none(),
        [best, ..] => is_settled(*best, next),
    }
}

// Takes the next entry, and offers its key if it has a live row.
fn take_next<'a, V: Values>(
    ahead: &mut Entries<'a, Key, OrderedDue<Key>>,
    candidates: &mut Vec<(&'a Key, u128)>,
    room: usize,
    values: &V,
    wanted: Wanted,
)
    requires kept { vec_len candidates.old ≤ room }
    requires space { room < vec_capacity candidates.old }
    requires ranked { AreRanked (map view_of_candidate candidates.old.items) }
    requires bounds { AreBounds (λ key. V.living values.now wanted.table key wanted.now)
        (λ key. V.summed values.now wanted.table key wanted.col wanted.now) ahead.old }
    requires undone { is_done (map view_of_candidate candidates.old.items) (first_item ahead.old)
        ≡ false }
    ensures kept { vec_len candidates.new ≤ room }
    ensures space { room < vec_capacity candidates.new }
    ensures ranked { AreRanked (map view_of_candidate candidates.new.items) }
    ensures walked { WalksOn (map view_of_candidate candidates.old.items) ahead.old 1
        (map view_of_candidate candidates.new.items) ahead.new }
    ensures taken { ahead.new ≡ without_first ahead.old }
    ensures same { found (λ key. V.living values.now wanted.table key wanted.now)
        (λ key. V.summed values.now wanted.table key wanted.col wanted.now) room
        (map view_of_candidate candidates.new.items) ahead.new
        ≡ found (λ key. V.living values.now wanted.table key wanted.now)
        (λ key. V.summed values.now wanted.table key wanted.col wanted.now) room
        (map view_of_candidate candidates.old.items) ahead.old }
{
    if let Some((_, key)) = ahead.peek() {
        ahead.step();
        let Wanted {
            table,
            col,
            now,
            ..
        } = wanted;
        if values.live(table, key, now) > 0 {
            offer(candidates, room, (key, values.value(table, key, col, now)));
        }
    }
}

/// Takes entries until the best candidate is settled or none is left, and answers how many.
pub(crate) fn take_certain<'a, V: Values>(
    ahead: &mut Entries<'a, Key, OrderedDue<Key>>,
    candidates: &mut Vec<(&'a Key, u128)>,
    room: usize,
    values: &V,
    wanted: Wanted,
) -> usize
    requires kept { vec_len candidates.old ≤ room }
    requires space { room < vec_capacity candidates.old }
    requires ranked { AreRanked (map view_of_candidate candidates.old.items) }
    requires bounds { AreBounds (λ key. V.living values.now wanted.table key wanted.now)
        (λ key. V.summed values.now wanted.table key wanted.col wanted.now) ahead.old }
    ensures kept { vec_len candidates.new ≤ room }
    ensures space { room < vec_capacity candidates.new }
    ensures ranked { AreRanked (map view_of_candidate candidates.new.items) }
    ensures bounds { AreBounds (λ key. V.living values.now wanted.table key wanted.now)
        (λ key. V.summed values.now wanted.table key wanted.col wanted.now) ahead.new }
    ensures walked { WalksOn (map view_of_candidate candidates.old.items) ahead.old result
        (map view_of_candidate candidates.new.items) ahead.new }
    ensures settled { is_done (map view_of_candidate candidates.new.items) (first_item ahead.new)
        ≡ true }
    ensures first { AreFromFirst ahead.new }
    ensures same { found (λ key. V.living values.now wanted.table key wanted.now)
        (λ key. V.summed values.now wanted.table key wanted.col wanted.now) room
        (map view_of_candidate candidates.new.items) ahead.new
        ≡ found (λ key. V.living values.now wanted.table key wanted.now)
        (λ key. V.summed values.now wanted.table key wanted.col wanted.now) room
        (map view_of_candidate candidates.old.items) ahead.old }
{
    let mut walked = 0usize;
    'entries: while !is_done(candidates.as_slice(), ahead.peek()) {
        take_next(ahead, candidates, room, values, wanted);
        walked = walked.saturating_add(1);
    }
    walked
}
