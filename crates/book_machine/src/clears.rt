//! Clears. A whole table goes at once, also where conditions choose each of its many keys. Else the
//! keys that conditions choose are found in one walk of the rows as they lie, and then their rows
//! are taken away one by one.

ghost use Rattle.std.specs.Prelude.{◌≡◌, ◌≤◌, ◌&&◌, ◌==◌, ◌∷◌, [], not, filter, length, map};
ghost use Rattle.std.specs.Prelude.{true};
ghost use Rattle.std.specs.Prelude.{IfOk, OnOk, OnErr};
ghost use Rattle.std.specs.List.{list_any};
ghost use Rattle.fleet_model.specs.Values.{meets, same_key};
ghost use Rattle.book_machine.specs.Gone.{is_gone, without_keys};
ghost use Rattle.book_machine.specs.Leading.{StaysLed};
ghost use Rattle.book_rows.specs.Listing.{AreThoseMeeting, DoAllMeet, rows_meet};

use crate::gone::Gone;
use crate::leaders::{drop_bounds, drop_table_bounds};
use agg_types::{Col, Cond, Key, NoMemory, Rank};
use book_rows::Store;
use book_rows::values::found_meets;
use peer_rows::EachKey;
use ranked::Leaders;
use std::alloc::Global;

// A clear by conditions looks whether all keys of a table meet them where it has more than so many.
// Of fewer it tells which it took, so that who keeps a copy of a filter's set needn't list it anew.
const FEW: usize = 4096;

/// Takes away the rows of a key and its bounds.
pub fn clear_key(
    store: &mut Store,
    leaders: &mut Leaders,
    ranks: &[Rank],
    table: usize,
    key: &Key,
    t: u64,
)
    requires { length ranks.now ≤ length leaders.old }
    ensures rows { store.new ≡ record store.old {
      rows = filter (λ row. not ((row.0.table == table) && same_key key.now row.0.key))
          store.old.rows;
    } }
    ensures count { length leaders.new ≡ length leaders.old }
    ensures led { StaysLed ranks.now store.old.rows t leaders.old store.new.rows t leaders.new }
{
    drop_bounds(leaders, ranks, table, key);
    store.clear_key(table, key);
}

/// The same, and answers the key alone.
pub fn clear_one(
    alloc: Global,
    store: &mut Store,
    leaders: &mut Leaders,
    ranks: &[Rank],
    table: usize,
    key: &Key,
    t: u64,
) -> Result<Vec<Key>, NoMemory>
    requires { length ranks.now ≤ length leaders.old }
    ensures ok { OnOk result (store.new ≡ record store.old {
      rows = filter (λ row. not ((row.0.table == table) && same_key key.now row.0.key))
          store.old.rows;
    }) }
    ensures gone { IfOk result (λ keys. keys.items ≡ key.now ∷ []) }
    ensures err { OnErr result (store.new ≡ store.old) }
    ensures led { StaysLed ranks.now store.old.rows t leaders.old store.new.rows t leaders.new }
{
    let mut keys = Vec::new(alloc);
    keys.push(key.duplicate(alloc)?)?;
    clear_key(store, leaders, ranks, table, key, t);
    Ok(keys)
}

/// Takes away the rows of a table, and the bounds of its keys. Takes no memory.
pub fn clear_table(store: &mut Store, leaders: &mut Leaders, ranks: &[Rank], table: usize, t: u64)
    requires { length ranks.now ≤ length leaders.old }
    ensures rows { store.new ≡ record store.old {
      rows = filter (λ row. not (row.0.table == table)) store.old.rows;
    } }
    ensures led { StaysLed ranks.now store.old.rows t leaders.old store.new.rows t leaders.new }
{
    drop_table_bounds(leaders, ranks, table);
    store.clear_table(table);
}

/// Takes away the rows of each key of a table whose values meet the conditions, as they were
/// before, and its bounds, and answers which keys these are. Where a table of many keys has none
/// that doesn't meet them, it is cleared whole, so nothing is searched.
pub(crate) fn clear_where(
    alloc: Global,
    store: &mut Store,
    leaders: &mut Leaders,
    ranks: &[Rank],
    cols: &[(Col, u32)],
    table: usize,
    t: u64,
    conds: &[Cond],
) -> Result<Gone, NoMemory>
    requires { length ranks.now ≤ length leaders.old }
    ensures ok { OnOk result (store.new ≡ record store.old {
      rows = filter (λ row. not
          ((row.0.table == table) && meets cols.now store.old.rows table row.0.key t conds.now))
          store.old.rows;
    }) }
    ensures gone { IfOk result (λ gone.
        store.new.rows ≡ without_keys table (is_gone gone) store.old.rows) }
    ensures err { OnErr result (store.new ≡ store.old) }
    ensures led { StaysLed ranks.now store.old.rows t leaders.old store.new.rows t leaders.new }
{
    if store.used(table) > FEW && all_meet(store, cols, table, t, conds) {
        clear_table(store, leaders, ranks, table, t);
        return Ok(Gone::Table);
    }
    let mut keys = keys_that_meet(alloc, store, cols, table, t, conds)?;
    // Bounds and verdicts stand in the order of their keys: so what is read for one is near when
    // the next one is taken away.
    keys.sort_unstable();
    clear_keys(store, leaders, ranks, table, keys.as_slice(), t);
    Ok(Gone::Keys(keys))
}

// Whether each key of a table that has rows meets the conditions: a walk up to the first that
// doesn't.
fn all_meet(store: &Store, cols: &[(Col, u32)], table: usize, t: u64, conds: &[Cond]) -> bool
    ensures { result ≡ true → DoAllMeet store.now.rows table cols.now conds.now t }
{
    fleet_model::laws::keys::a_key_answers_by_its_rows();
    match store.each_key(table) {
        None => false,
        Some(walk) => each_meets(walk, cols, t, conds),
    }
}

// Whether the rows of each key meet the conditions.
fn each_meets(walk: EachKey<'_>, cols: &[(Col, u32)], t: u64, conds: &[Cond]) -> bool
    ensures { result ≡ true
        → filter (λ e. rows_meet cols.now conds.now t e.1) walk.entry ≡ walk.entry }
{
    for (key, rows) in walk {
        let _own = key;
        let _few = rows.len();
        if !found_meets(Some(&rows), cols, t, conds) {
            return false;
        }
    }
    true
}

// The keys of a table that have rows and meet the conditions, in no order: one walk of the rows as
// they lie.
fn keys_that_meet(
    alloc: Global,
    store: &Store,
    cols: &[(Col, u32)],
    table: usize,
    t: u64,
    conds: &[Cond],
) -> Result<Vec<Key>, NoMemory>
    ensures { IfOk result (λ keys. AreThoseMeeting store.now.rows table cols.now conds.now t
        keys.items) }
{
    fleet_model::laws::keys::a_key_answers_by_its_rows();
    match store.each_key(table) {
        None => Ok(Vec::new(alloc)),
        Some(walk) => kept_keys(alloc, walk, cols, t, conds),
    }
}

// The keys whose rows meet the conditions.
fn kept_keys(
    alloc: Global,
    walk: EachKey<'_>,
    cols: &[(Col, u32)],
    t: u64,
    conds: &[Cond],
) -> Result<Vec<Key>, NoMemory>
    ensures { IfOk result (λ keys. keys.items
        ≡ map (λ e. e.0) (filter (λ e. rows_meet cols.now conds.now t e.1) walk.entry)) }
{
    let mut keys = Vec::new(alloc);
    for (key, rows) in walk {
        let _few = rows.len();
        if found_meets(Some(&rows), cols, t, conds) {
            keys.push(key.duplicate(alloc)?)?;
        }
    }
    Ok(keys)
}

fn clear_keys(
    store: &mut Store,
    leaders: &mut Leaders,
    ranks: &[Rank],
    table: usize,
    keys: &[Key],
    t: u64,
)
    requires { length ranks.now ≤ length leaders.old }
    ensures rows { store.new ≡ record store.old {
      rows = filter (λ row. not
          ((row.0.table == table) && list_any (λ key. same_key key row.0.key) keys.now))
          store.old.rows;
    } }
    ensures led { StaysLed ranks.now store.old.rows t leaders.old store.new.rows t leaders.new }
{
    for key in keys {
        clear_key(store, leaders, ranks, table, key, t);
    }
}
