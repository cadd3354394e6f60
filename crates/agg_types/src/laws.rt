//! What the tables of columns and of kinds promise. Each law stands on a function that does
//! nothing: its clause is the law.

ghost use Rattle.std.specs.Prelude.{◌≡◌, ◌≤◌, ℕ, List, None, Some, count_by, length, map};
ghost use Rattle.std.specs.Prelude.{slice_index, true};
ghost use Rattle.agg_types.specs.Check.{ascends};
ghost use Rattle.agg_types.specs.Col.{all_cols, col_id, place, same_col};
ghost use Rattle.agg_types.specs.Fits.{key_fits};
ghost use Rattle.agg_types.specs.Kind.{allows, given_length, kind_length, kind_name, kind_named};
ghost use Rattle.agg_types.specs.Kind.{kind_number, kind_numbered, with_length};
ghost use Rattle.agg_types.specs.declared.column.Col.{Col};
ghost use Rattle.agg_types.specs.declared.column.TheConstants.{COLUMNS, LAST_TYPE};
ghost use Rattle.agg_types.specs.declared.config.KeyKind.{KeyKind};

/// The columns ascend by their numbers, and each stands among them once.
pub fn each_column_stands_once()
    ensures ascends { ascends (map col_id all_cols) ≡ true }
    ensures once { (col : Col) → count_by (same_col col) all_cols ≡ 1 }
{}

/// There are `COLUMNS` columns, and none has a number above `LAST_TYPE`.
pub fn columns_are_counted()
    ensures count { length all_cols ≡ COLUMNS }
    ensures numbers { (col : Col) → col_id col ≤ LAST_TYPE }
{}

/// Of a list with one value for each column, in their order, that of a column is at its place.
pub fn values_stand_at_their_columns()
    ensures { (f : Col → ℕ) (col : Col) → slice_index (map f all_cols) (place col) ≡ f col }
{}

/// A kind is found by its number and by its name, so no two kinds have the same. What is found has
/// length 0 where a declaration gives it one.
pub fn each_kind_is_found()
    ensures number { (kind : KeyKind)
        → kind_numbered (kind_number kind) ≡ Some (with_length kind 0) }
    ensures name { (kind : KeyKind) → kind_named (kind_name kind) ≡ Some (with_length kind 0) }
{}

/// Kinds of one number, or of one name, are the same but for their lengths.
pub fn kinds_differ()
    ensures number { (one other : KeyKind) → kind_number one ≡ kind_number other
        → with_length one 0 ≡ with_length other 0 }
    ensures name { (one other : KeyKind) → kind_name one ≡ kind_name other
        → with_length one 0 ≡ with_length other 0 }
{}

/// A kind is what it is but for its length, with the length that its declaration gives it.
pub fn kind_is_found_with_its_length()
    ensures given { (kind : KeyKind) (len : ℕ) → given_length kind ≡ Some len
        → with_length (with_length kind 0) len ≡ kind }
    ensures none { (kind : KeyKind) → given_length kind ≡ None → with_length kind 0 ≡ kind }
{}

/// Bytes may be a key of a kind exactly where their length may be that of its keys.
pub fn keys_have_the_length_of_their_kind()
    ensures { (kind : KeyKind) (key : List ℕ)
        → key_fits kind key ≡ allows (kind_length kind) (length key) }
{}
