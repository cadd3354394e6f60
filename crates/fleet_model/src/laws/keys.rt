//! One key of a table: what is said of it by its rows alone, and how keys and rows are counted as
//! rows come and go.

ghost use Rattle.std.specs.Prelude.{◌≡◌, ℕ, ◌+◌, ◌&&◌, ◌==◌, Bool, false, is_some, not, List};
ghost use Rattle.std.specs.Prelude.{length};
ghost use Rattle.std.specs.BTreeMap.{is_at};
ghost use Rattle.std.specs.Map.{remove_entry};
ghost use Rattle.agg_types.specs.RowKey.{row_key_cmp};
ghost use Rattle.agg_types.specs.declared.column.Col.{Col};
ghost use Rattle.agg_types.specs.declared.config.Cond.{Cond};
ghost use Rattle.agg_types.specs.declared.config.Filter.{Filter};
ghost use Rattle.agg_types.specs.declared.row_key.RowKey.{RowKey};
ghost use Rattle.fleet_model.specs.Answers.{set_at, summed};
ghost use Rattle.fleet_model.specs.Keys.{AreInOrder, AreKeysOf, AreLiveAt, Rows, has_live};
ghost use Rattle.fleet_model.specs.Keys.{held_rows, holds, key_rows, meet_at, one_if, row_at};
ghost use Rattle.fleet_model.specs.Keys.{sum_of, worth_of};
ghost use Rattle.fleet_model.specs.Laws.{AreLive, IsOrdered, has_live_row};
ghost use Rattle.fleet_model.specs.Machine.{with_row};
ghost use Rattle.fleet_model.specs.Moments.{is_live};
ghost use Rattle.fleet_model.specs.State.{State};
ghost use Rattle.fleet_model.specs.Values.{cols_of, live_keys, meets, same_key, value};
ghost use Rattle.fleet_model.specs.declared.arrival.Arrival.{Arrival};

/// A key's values, whether a row of it lives, whether it meets conditions, and its summed row are
/// what its own rows say.
pub fn a_key_answers_by_its_rows()
    ensures values { (cols : List (Col × ℕ)) (rows : Rows) (table : ℕ) (key : List ℕ) (col : Col)
        (t : ℕ)
        → value cols rows table key col t ≡ worth_of cols (key_rows rows table key) col t }
    ensures conditions { (cols : List (Col × ℕ)) (rows : Rows) (table : ℕ) (key : List ℕ) (t : ℕ)
        (conds : List Cond)
        → meets cols rows table key t conds ≡ meet_at cols (key_rows rows table key) conds t }
    ensures lives { (rows : Rows) (table : ℕ) (key : List ℕ) (t : ℕ)
        → has_live_row rows table key t ≡ has_live (key_rows rows table key) t }
    ensures sums { (state : State) (table : ℕ) (key : List ℕ) → AreLive state
        → summed state table key
        ≡ sum_of (cols_of state.config.tables table) (key_rows state.rows table key) state.moment }
    ensures any { (rows : Rows) (t : ℕ)
        → AreLiveAt t rows → has_live rows t ≡ not (length rows == 0) }
{}

/// A filter's set is the keys that it holds, in the order of their bytes; and no other list is.
pub fn a_set_is_the_keys_that_hold()
    ensures is_one { (state : State) (filtering : Filter) (t : ℕ) → IsOrdered state
        → AreKeysOf (λ key. holds state filtering key t) (set_at state filtering t) }
    ensures only { (test : List ℕ → Bool) (keys others : List (List ℕ))
        → AreKeysOf test keys → AreKeysOf test others → keys ≡ others }
{}

/// A row that is put makes its peer's rows one more where the place was free, one less where it
/// takes the older one away, and else changes no count. One that is taken out makes them one less.
pub fn peers_rows_are_counted()
    ensures put { (t : ℕ) (rows : Rows) (place : RowKey) (row : Arrival) (table peer : ℕ)
        → AreInOrder rows
        → held_rows (with_row t rows place row) table peer
        + one_if ((place.table == table) && (place.peer == peer) && is_some (row_at rows place))
        ≡ held_rows rows table peer
        + one_if ((place.table == table) && (place.peer == peer) && is_live t row) }
    ensures taken { (rows : Rows) (place : RowKey) (table peer : ℕ)
        → held_rows (remove_entry (is_at (row_key_cmp place)) rows) table peer
        + one_if ((place.table == table) && (place.peer == peer) && is_some (row_at rows place))
        ≡ held_rows rows table peer }
{}

/// Where the rows of one key alone change, the number of a table's keys changes by that key alone.
pub fn keys_are_counted()
    ensures { (rows others : Rows) (table : ℕ) (key : List ℕ) (t : ℕ) → AreInOrder rows
        → AreInOrder others
        → ((other : List ℕ) → same_key key other ≡ false
        → key_rows others table other ≡ key_rows rows table other)
        → length (live_keys others table t) + one_if (has_live (key_rows rows table key) t)
        ≡ length (live_keys rows table t) + one_if (has_live (key_rows others table key) t) }
{}
