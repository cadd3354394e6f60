//! Rows that end as the clock goes on.
//!
//! A place is looked at when it is due. The rows that have ended are taken out one by one, and what
//! is left is looked at later. Where a plan was missed, all places are looked at.
//!
//! A place that is emptied frees the word that names it. Where words stand that are wanted next is
//! looked for together (`Ahead`), and each is a hint: no clause speaks of it.
ghost use Rattle.std.specs.Prelude.{◌≡◌, ◌≢◌, ◌<◌, ◌≤◌, ◌↔◌, ℕ, [], ◌∷◌, Some, true, false, filter};
ghost use Rattle.std.specs.Prelude.{length, IfSome, IfNone, IsSome, IsTrue};
ghost use Rattle.std.specs.BTreeMap.{is_at};
ghost use Rattle.std.specs.Map.{keys_of, lookup};
ghost use Rattle.std.specs.Ordering.{nat_cmp};
ghost use Rattle.place_plans.specs.Plans.{count_due, plan_at};
ghost use Rattle.peer_rows.specs.Ends.{ArePlanned, AreLive, HasEnded, IsLeast};
ghost use Rattle.peer_rows.specs.Ends.{IsLookedAt, OthersStay, StayLive, is_behind, lives_at};
ghost use Rattle.peer_rows.specs.Ends.{rows_at};
ghost use Rattle.place_index.specs.Places.{in_order};
ghost use Rattle.peer_rows.specs.Table.{IsKept, rows_in};

use crate::ahead::Ahead;
use crate::ends::Ends;
use crate::index::KeyPlaces;
use agg_types::Key;
use place_index::Near;

/// Keys whose last row has ended, each with the position of its table.
pub(crate) type Gone = Vec<(usize, Key)>;

// A peer whose row in a place has ended at a moment.
fn first_ended(keys: &KeyPlaces, at: usize, t: u64) -> Option<usize>
    ensures some { IfSome result (HasEnded t (rows_at keys.now.places at)) }
    ensures none { IfNone result (AreLive t (rows_at keys.now.places at)) }
{
    match keys.value(at) {
        Some(rows) => rows.first_ended(t),
        None => None,
    }
}

// When the first of the rows in a place ends, if one does.
fn least_end(keys: &KeyPlaces, at: usize) -> Option<u64>
    ensures least { IsLeast (rows_at keys.now.places at) result }
    ensures behind { (t : ℕ) → AreLive t (rows_at keys.now.places at)
        → is_behind t result ≡ true }
{
    match keys.value(at) {
        Some(rows) => rows.least_end(),
        None => None,
    }
}

// Whether a peer's row is the only one in a place.
fn is_only(keys: &KeyPlaces, at: usize, peer: usize) -> bool
    ensures { IsTrue result ↔ (keys_of (rows_at keys.now.places at) ≡ peer ∷ []) }
{
    match keys.value(at) {
        Some(rows) => rows.is_only(peer),
        None => false,
    }
}

// The peer of the only row in a place, if that has ended at a moment.
fn only_ended(keys: &KeyPlaces, at: usize, t: u64) -> Option<usize>
    ensures ended { IfSome result (HasEnded t (rows_at keys.now.places at)) }
    ensures only { IfSome result
        (λ peer. keys_of (rows_at keys.now.places at) ≡ peer ∷ []) }
{
    match keys.value(at) {
        Some(rows) => rows.only_ended(t),
        None => None,
    }
}

// Empties a place, whose only row is a peer's, and answers the key.
fn end_only(
    keys: &mut KeyPlaces,
    counts: &mut Vec<usize>,
    at: usize,
    near: Near,
    peer: usize,
) -> Option<Key>
    requires kept { IsKept (in_order keys.old.places) counts.old.items }
    requires held { IsSome (lookup (is_at (nat_cmp peer)) (rows_at keys.old.places at)) }
    requires only { keys_of (rows_at keys.old.places at) ≡ peer ∷ [] }
    ensures kept { IsKept (in_order keys.new.places) counts.new.items }
    ensures peers { length counts.new.items ≡ length counts.old.items }
    ensures rows { (t : ℕ) → HasEnded t (rows_at keys.old.places at) peer
        → StayLive t keys.old.places keys.new.places }
    ensures others { OthersStay at keys.old.places keys.new.places }
    ensures none { rows_at keys.new.places at ≡ [] }
    ensures fewer { length (rows_at keys.new.places at) < length (rows_at keys.old.places at) }
{
    let _distinct = keys.count();
    counts[peer] -= 1;
    let (key, _) = keys.remove_near(at, near)?;
    Some(key)
}

// Takes a peer's row out of a place, and answers the key if it was its last.
fn end_row(
    keys: &mut KeyPlaces,
    counts: &mut Vec<usize>,
    at: usize,
    near: Near,
    peer: usize,
) -> Option<Key>
    requires kept { IsKept (in_order keys.old.places) counts.old.items }
    requires held { IsSome (lookup (is_at (nat_cmp peer)) (rows_at keys.old.places at)) }
    ensures kept { IsKept (in_order keys.new.places) counts.new.items }
    ensures peers { length counts.new.items ≡ length counts.old.items }
    ensures rows { (t : ℕ) → HasEnded t (rows_at keys.old.places at) peer
        → StayLive t keys.old.places keys.new.places }
    ensures others { OthersStay at keys.old.places keys.new.places }
    ensures fewer { length (rows_at keys.new.places at) < length (rows_at keys.old.places at) }
{
    if is_only(keys, at, peer) {
        return end_only(keys, counts, at, near, peer);
    }
    let _distinct = keys.count();
    counts[peer] -= 1;
    let rows = keys.value_mut(at);
    let _ended = rows.take(peer);
    None
}

// Takes the rows out of a place that have ended at a moment, and answers the key if none is left.
fn end_place(
    keys: &mut KeyPlaces,
    counts: &mut Vec<usize>,
    at: usize,
    near: Near,
    t: u64,
) -> Option<Key>
    requires { IsKept (in_order keys.old.places) counts.old.items }
    ensures kept { IsKept (in_order keys.new.places) counts.new.items }
    ensures peers { length counts.new.items ≡ length counts.old.items }
    ensures rows { StayLive t keys.old.places keys.new.places }
    ensures others { OthersStay at keys.old.places keys.new.places }
    ensures live { AreLive t (rows_at keys.new.places at) }
{
    if let Some(peer) = only_ended(keys, at, t) {
        return end_only(keys, counts, at, near, peer);
    }
    let mut gone = None;
    while let Some(peer) = first_ended(keys, at, t) {
        gone = end_row(keys, counts, at, near, peer);
    }
    gone
}

// Looks at a place: what has ended there goes, and what is left is looked at later.
fn look(
    keys: &mut KeyPlaces,
    ends: &mut Ends,
    counts: &mut Vec<usize>,
    at: usize,
    near: Near,
    t: u64,
    table: usize,
    told: bool,
    gone: &mut Gone,
)
    requires { IsKept (in_order keys.old.places) counts.old.items }
    ensures kept { IsKept (in_order keys.new.places) counts.new.items }
    ensures peers { length counts.new.items ≡ length counts.old.items }
    ensures rows { StayLive t keys.old.places keys.new.places }
    ensures others { OthersStay at keys.old.places keys.new.places }
    ensures looked { IsLookedAt t ends.new keys.new.places at }
    ensures plans { (p : ℕ) → p ≢ at
        → plan_at ends.new.plans p ≡ plan_at ends.old.plans p }
    ensures missed { ends.new.missed ≡ false → ends.old.missed ≡ false }
    ensures due { count_due t ends.new.plans ≤ count_due t ends.old.plans }
{
    if let Some(key) = end_place(keys, counts, at, near, t)
        && told
    {
        // Without memory a key isn't told.
        let _pushed = gone.push((table, key));
    }
    let least = least_end(keys, at);
    ends.note(at, t, least);
}

/// Takes the rows that have ended at a moment out of the places that are due.
pub(crate) fn end_due(
    keys: &mut KeyPlaces,
    ends: &mut Ends,
    counts: &mut Vec<usize>,
    t: u64,
    table: usize,
    told: bool,
    gone: &mut Gone,
)
    requires kept { IsKept (in_order keys.old.places) counts.old.items }
    requires planned { ArePlanned keys.old.places ends.old }
    requires seen { ends.old.missed ≡ false }
    ensures kept { IsKept (in_order keys.new.places) counts.new.items }
    ensures peers { length counts.new.items ≡ length counts.old.items }
    ensures rows { rows_in (in_order keys.new.places)
        ≡ filter (λ e. lives_at t e.1) (rows_in (in_order keys.old.places)) }
    ensures planned { ArePlanned keys.new.places ends.new }
{
    let mut ahead = Ahead::look(keys, &ends.plans, t);
    while let Some(at) = ends.plans.take_due(t) {
        look(keys, ends, counts, at, ahead.take(), t, table, told, gone);
        if ahead.is_empty() {
            ahead = Ahead::look(keys, &ends.plans, t);
        }
    }
}

/// Takes the rows that have ended at a moment out of all places.
pub(crate) fn end_all(
    keys: &mut KeyPlaces,
    ends: &mut Ends,
    counts: &mut Vec<usize>,
    t: u64,
    table: usize,
    told: bool,
    gone: &mut Gone,
)
    requires kept { IsKept (in_order keys.old.places) counts.old.items }
    requires planned { ArePlanned keys.old.places ends.old }
    ensures kept { IsKept (in_order keys.new.places) counts.new.items }
    ensures peers { length counts.new.items ≡ length counts.old.items }
    ensures rows { rows_in (in_order keys.new.places)
        ≡ filter (λ e. lives_at t e.1) (rows_in (in_order keys.old.places)) }
    ensures planned { ArePlanned keys.new.places ends.new }
{
    ends.missed = false;
    for at in 0..keys.places() {
        look(
            keys,
            ends,
            counts,
            at,
            Near::nowhere(),
            t,
            table,
            told,
            gone,
        );
    }
}
