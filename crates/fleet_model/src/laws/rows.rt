//! Rows as they come and go, key by key: laws of every list of rows in the order of their places,
//! and so of the rows of every sound state.

ghost use Rattle.std.specs.Prelude.{◌≡◌, ℕ, ◌&&◌, ◌==◌, Bool, true, false, not, if◌then◌else◌, []};
ghost use Rattle.std.specs.Prelude.{List, Some, filter};
ghost use Rattle.std.specs.BTreeMap.{is_at};
ghost use Rattle.std.specs.List.{AllByRecursion};
ghost use Rattle.std.specs.Map.{remove_entry};
ghost use Rattle.agg_types.specs.RowKey.{row_key_cmp};
ghost use Rattle.agg_types.specs.declared.row_key.RowKey.{RowKey};
ghost use Rattle.fleet_model.specs.Keys.{AreInOrder, Rows, is_at_key, key_rows, row_at};
ghost use Rattle.fleet_model.specs.Machine.{with_row};
ghost use Rattle.fleet_model.specs.Moments.{is_live};
ghost use Rattle.fleet_model.specs.declared.arrival.Arrival.{Arrival};

/// A row that is put, or takes an older one away as its life is over, does so among the rows of its
/// key. No other key's rows change.
pub fn a_put_is_of_its_key()
    ensures own { (t : ℕ) (rows : Rows) (place : RowKey) (row : Arrival) (table : ℕ) (key : List ℕ)
        → AreInOrder rows → is_at_key table key place ≡ true
        → key_rows (with_row t rows place row) table key
        ≡ with_row t (key_rows rows table key) place row }
    ensures others { (t : ℕ) (rows : Rows) (place : RowKey) (row : Arrival) (table : ℕ)
        (key : List ℕ)
        → AreInOrder rows → is_at_key table key place ≡ false
        → key_rows (with_row t rows place row) table key ≡ key_rows rows table key }
{}

/// A moment leaves of each key's rows those that live then.
pub fn a_moment_ends_rows_of_each_key()
    ensures { (t : ℕ) (rows : Rows) (table : ℕ) (key : List ℕ)
        → key_rows (filter (λ row. is_live t row.1) rows) table key
        ≡ filter (λ row. is_live t row.1) (key_rows rows table key) }
{}

/// A clear, which chooses by the key alone, takes all rows of a key or none.
pub fn a_clear_takes_whole_keys()
    ensures { (gone : List ℕ → Bool) (rows : Rows) (cleared table : ℕ) (key : List ℕ)
        → key_rows (filter (λ row. not ((row.0.table == cleared) && gone row.0.key)) rows) table key
        ≡ (if (table == cleared) && gone key then [] else key_rows rows table key) }
{}

/// Rows that fail a test can go one by one, in any order: each that goes changes nothing of what
/// passes, and once all that are left pass, they are what passes.
pub fn rows_go_one_by_one()
    ensures one { (p : RowKey × Arrival → Bool) (rows : Rows) (place : RowKey) (row : Arrival)
        → row_at rows place ≡ Some row → p (place, row) ≡ false
        → filter p (remove_entry (is_at (row_key_cmp place)) rows) ≡ filter p rows }
    ensures all { (p : RowKey × Arrival → Bool) (rows : Rows)
        → AllByRecursion (λ row. p row ≡ true) rows → filter p rows ≡ rows }
{}
