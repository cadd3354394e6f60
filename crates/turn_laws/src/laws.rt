//! Laws of the updates and the marks of one table. Each is the contract of a function that does
//! nothing.

ghost use Rattle.std.specs.Prelude.{◌≡◌, ◌⊎◌, ◌<◌, ◌≤◌, ◌+◌, ◌-◌, ◌*◌, ◌%◌, ◌^◌, ℕ, List, []};
ghost use Rattle.std.specs.Prelude.{Some, true, false, length, map, slice_get, slice_index_or};
ghost use Rattle.std.specs.List.{enumerate_from};
ghost use Rattle.pushed_keys.specs.Rules.{put_after};
ghost use Rattle.pushed_keys.specs.declared.change.Change.TheVariants.{Put, TakeAway};
ghost use Rattle.pushed_keys.specs.declared.change.TheConstants.{REFRESH_AHEAD};
ghost use Rattle.pushed_keys.specs.declared.pushed.Pushed.{Pushed};
ghost use Rattle.telling.specs.Among.{IsAmong, IsMarked, IsMarkOf};
ghost use Rattle.telling.specs.Telling.{Told, asked, table_at, told_after, turn_at, untold};
ghost use Rattle.turn_laws.specs.Keys.{AreSets, IsKept, is_in, put_of};
ghost use Rattle.turn_laws.specs.Session.{Step, id_of, updates_behind};
ghost use Rattle.turn_laws.specs.Written.{Has, IsUpdateOf, Tells, updates_at};

/// What was told stays in order: at first, behind each turn over sets in order, and where all is
/// asked for.
pub fn what_is_told_stays_in_order()
    ensures first { IsKept untold }
    ensures asked { (told : Told) → IsKept told → IsKept (asked told) }
    ensures turned { (pushed : List Pushed) (sets : List (List (List ℕ))) (now : ℕ) (told : Told)
        → AreSets sets → IsKept told → IsKept (told_after pushed sets now told) }
{}

/// Of each table a turn writes the changes of its keys, by the rule for one key.
pub fn a_table_is_told()
    ensures updates { (pushed : List Pushed) (sets : List (List (List ℕ))) (now : ℕ) (told : Told)
        (place : ℕ) (table : Pushed) → slice_get pushed place ≡ Some table → AreSets sets
        → IsKept told → Tells table (turn_at now told) (slice_index_or sets place [])
        (table_at told place) (updates_at pushed sets now told place) }
    ensures marks { (pushed : List Pushed) (sets : List (List (List ℕ))) (now : ℕ) (told : Told)
        (place : ℕ) (table : Pushed) (key : List ℕ) → slice_get pushed place ≡ Some table
        → AreSets sets → IsKept told
        → put_of key (table_at (told_after pushed sets now told) place).marks
        ≡ put_after table (turn_at now told) (is_in key (slice_index_or sets place []))
        (put_of key (table_at told place).marks) }
{}

/// Each key stands at most once among the updates of a table in one turn.
pub fn a_key_stands_once()
    ensures { (pushed : List Pushed) (sets : List (List (List ℕ))) (now : ℕ) (told : Told)
        (place : ℕ) (table : Pushed) (key : List ℕ) (i j : ℕ)
        → slice_get pushed place ≡ Some table → AreSets sets → IsKept told
        → IsUpdateOf table key (slice_get (updates_at pushed sets now told place) i)
        → IsUpdateOf table key (slice_get (updates_at pushed sets now told place) j)
        → i ≡ j }
{}

/// The ids of all updates of a table that a session writes are 1, 2, 3 and so on, over turns and
/// resync requests, modulo 2^32.
pub fn ids_count_from_one()
    ensures { (pushed : List Pushed) (steps : List Step) (place : ℕ) (table : Pushed)
        → slice_get pushed place ≡ Some table
        → map id_of (updates_behind pushed untold steps place)
        ≡ map (λ n. Some (n.0 % 2 ^ 32))
        (enumerate_from 1 (updates_behind pushed untold steps place)) }
{}

/// The last update id of a table counts on by one for each of its updates.
pub fn ids_count_on()
    ensures { (pushed : List Pushed) (sets : List (List (List ℕ))) (now : ℕ) (told : Told)
        (place : ℕ) (table : Pushed) → slice_get pushed place ≡ Some table → IsKept told
        → (table_at (told_after pushed sets now told) place).last
        ≡ ((table_at told place).last + length (updates_at pushed sets now told place)) % 2 ^ 32 }
{}

/// Where all is asked for, each key of the set is put, whatever was told.
pub fn asked_for_all_every_key_is_put()
    ensures { (pushed : List Pushed) (sets : List (List (List ℕ))) (now : ℕ) (told : Told)
        (place : ℕ) (table : Pushed) (key : List ℕ) → slice_get pushed place ≡ Some table
        → AreSets sets → IsKept told → told.anew ≡ true
        → IsAmong key (slice_index_or sets place [])
        → Has (updates_at pushed sets now told place) table key Put }
{}

/// A key of the set is put where it has no mark, and where its mark is older than its refresh. So
/// behind a turn each has a mark of that moment, or of one that isn't as old.
pub fn no_refresh_is_late()
    ensures new { (pushed : List Pushed) (sets : List (List (List ℕ))) (now : ℕ) (told : Told)
        (place : ℕ) (table : Pushed) (key : List ℕ) → slice_get pushed place ≡ Some table
        → AreSets sets → IsKept told → IsAmong key (slice_index_or sets place [])
        → ((put : ℕ) → IsMarkOf (table_at told place).marks key put → ⊥)
        → Has (updates_at pushed sets now told place) table key Put }
    ensures due { (pushed : List Pushed) (sets : List (List (List ℕ))) (now : ℕ) (told : Told)
        (place : ℕ) (table : Pushed) (key : List ℕ) (put : ℕ)
        → slice_get pushed place ≡ Some table → AreSets sets → IsKept told
        → IsAmong key (slice_index_or sets place [])
        → IsMarkOf (table_at told place).marks key put
        → table.life ≤ 2 * (now - put + REFRESH_AHEAD)
        → Has (updates_at pushed sets now told place) table key Put }
    ensures behind { (pushed : List Pushed) (sets : List (List (List ℕ))) (now : ℕ) (told : Told)
        (place : ℕ) (table : Pushed) (key : List ℕ) → slice_get pushed place ≡ Some table
        → AreSets sets → IsKept told → IsAmong key (slice_index_or sets place [])
        → (put : ℕ) × IsMarkOf (table_at (told_after pushed sets now told) place).marks key put
        × ((put ≡ now) ⊎ (2 * (now - put + REFRESH_AHEAD) < table.life)) }
{}

/// A key that is told, left the set and isn't held is taken away in that turn, and none that left
/// and isn't held has a mark behind it.
pub fn a_key_that_left_is_taken_away()
    ensures taken { (pushed : List Pushed) (sets : List (List (List ℕ))) (now : ℕ) (told : Told)
        (place : ℕ) (table : Pushed) (key : List ℕ) → slice_get pushed place ≡ Some table
        → AreSets sets → IsKept told → table.holds ≡ false
        → (IsAmong key (slice_index_or sets place []) → ⊥)
        → IsMarked table now key (table_at told place).marks
        → Has (updates_at pushed sets now told place) table key TakeAway }
    ensures gone { (pushed : List Pushed) (sets : List (List (List ℕ))) (now : ℕ) (told : Told)
        (place : ℕ) (table : Pushed) (key : List ℕ) (put : ℕ)
        → slice_get pushed place ≡ Some table → AreSets sets → IsKept told → table.holds ≡ false
        → (IsAmong key (slice_index_or sets place []) → ⊥)
        → IsMarkOf (table_at (told_after pushed sets now told) place).marks key put → ⊥ }
{}
