//! When a filter's set changes by the clock alone, key by key.

ghost use Rattle.std.specs.Prelude.{◌≡◌, ℕ, ◌+◌, ◌^◌, ◌<◌, ◌≤◌, [], List, None, Some};
ghost use Rattle.agg_types.specs.declared.column.Col.{Col};
ghost use Rattle.agg_types.specs.declared.config.Filter.{Filter};
ghost use Rattle.agg_types.specs.declared.event.Event.{Event};
ghost use Rattle.agg_types.specs.declared.event.What.TheVariants.{Moment};
ghost use Rattle.fleet_model.specs.Changes.{IsKeyChange, NoKeyChangesBefore, rows_flat_from};
ghost use Rattle.fleet_model.specs.Keys.{Rows, holds, key_rows};
ghost use Rattle.fleet_model.specs.Laws.{IsOrdered};
ghost use Rattle.fleet_model.specs.Machine.{after};
ghost use Rattle.fleet_model.specs.Next.{IsNextChange, flat_moment, longest_period};
ghost use Rattle.fleet_model.specs.Next.{table_flat_from};
ghost use Rattle.fleet_model.specs.Sound.{IsSound};
ghost use Rattle.fleet_model.specs.State.{State};
ghost use Rattle.fleet_model.specs.Values.{cols_of};

/// A filter's next change is the first of its keys' changes: that of a key before which no key
/// changes, and none where no key's comes.
pub fn a_filter_changes_with_its_first_key()
    ensures first { (state : State) (filtering : Filter) (key : List ℕ) (t : ℕ) → IsOrdered state
        → IsKeyChange state filtering key (Some t) → NoKeyChangesBefore state filtering t
        → IsNextChange state filtering (Some t) }
    ensures never { (state : State) (filtering : Filter) → IsOrdered state
        → ((key : List ℕ) → IsKeyChange state filtering key None)
        → IsNextChange state filtering None }
{}

/// A key without rows never changes.
pub fn a_key_without_rows_never_changes()
    ensures { (state : State) (filtering : Filter) (key : List ℕ)
        → key_rows state.rows filtering.table key ≡ [] → IsKeyChange state filtering key None }
{}

/// A moment changes nothing of what is foreseen from then on: whether a filter holds a key, and its
/// next change, if the moment is short of it.
pub fn a_moment_keeps_what_is_foreseen()
    ensures holds { (state : State) (e : Event) (told : ℕ) → e.what ≡ Moment told
        → (filtering : Filter) (key : List ℕ) (t : ℕ) → state.moment ≤ t → told ≤ t
        → holds (after state e) filtering key t ≡ holds state filtering key t }
    ensures change { (state : State) (e : Event) (told : ℕ) → e.what ≡ Moment told
        → (filtering : Filter) (key : List ℕ) (t : ℕ) → told < t
        → IsKeyChange state filtering key (Some t)
        → IsKeyChange (after state e) filtering key (Some t) }
    ensures never { (state : State) (e : Event) (told : ℕ) → e.what ≡ Moment told
        → (filtering : Filter) (key : List ℕ)
        → IsKeyChange state filtering key None → IsKeyChange (after state e) filtering key None }
{}

/// From the moment from which each of its rows has ended, or its rates are 0, the clock changes
/// nothing of a key. That is no later than the moment of its whole table.
pub fn a_key_is_flat_in_time()
    ensures stays { (state : State) (filtering : Filter) (key : List ℕ) (t later : ℕ)
        → rows_flat_from (cols_of state.config.tables filtering.table)
        (key_rows state.rows filtering.table key) ≤ t
        → t ≤ later → holds state filtering key later ≡ holds state filtering key t }
    ensures within { (cols : List (Col × ℕ)) (rows : Rows) (table : ℕ) (key : List ℕ)
        → rows_flat_from cols (key_rows rows table key) ≤ flat_moment (longest_period cols) rows }
{}

/// In a sound state the clock changes nothing of a table's rows, nor of a key's, from 2^32 ms on:
/// they have arrived, and a life and two periods are shorter than that.
pub fn a_sound_state_is_flat_soon()
    ensures tables { (state : State) (table : ℕ) → IsSound state
        → table_flat_from state table < state.moment + 2 ^ 32 }
    ensures keys { (state : State) (table : ℕ) (key : List ℕ) → IsSound state
        → flat_moment (longest_period (cols_of state.config.tables table))
        (key_rows state.rows table key) < state.moment + 2 ^ 32 }
{}
