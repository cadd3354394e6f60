//! Laws of the definitions that the contracts cite. Each is the contract of a function that does
//! nothing.

ghost use Rattle.std.specs.Prelude.{◌≡◌, ◌⊎◌, ◌<◌, ℕ, List};
ghost use Rattle.std.specs.Prelude.{[], Some, false, slice_get, slice_index_or};
ghost use Rattle.pushed_keys.specs.Moves.{marked, set_of};
ghost use Rattle.pushed_keys.specs.declared.pushed.Pushed.{Pushed};
ghost use Rattle.telling.specs.Among.{AllMarks, IsAmong, IsMarked, IsMarkOf};
ghost use Rattle.telling.specs.Telling.{Told, table_at, told_after, told_keys};

/// Behind a turn exactly the set is told of a table without a hold, at the turn's moment.
pub fn the_set_is_told()
    ensures { (pushed : List Pushed) (sets : List (List (List ℕ))) (now : ℕ) (told : Told)
        (place : ℕ) (table : Pushed) → slice_get pushed place ≡ Some table → table.holds ≡ false
        → 0 < table.life
        → told_keys pushed (told_after pushed sets now told) place now
        ≡ slice_index_or sets place [] }
{}

/// Behind a turn the marks say the set, so that moves that make this set another may be given to
/// the next turn. In a table without a hold no other key has a mark.
pub fn the_set_is_marked()
    ensures set { (pushed : List Pushed) (sets : List (List (List ℕ))) (now : ℕ) (told : Told)
        (place : ℕ) (table : Pushed) → slice_get pushed place ≡ Some table
        → set_of (table_at (told_after pushed sets now told) place).marks
        ≡ slice_index_or sets place [] }
    ensures all { (pushed : List Pushed) (sets : List (List (List ℕ))) (now : ℕ) (told : Told)
        (place : ℕ) (table : Pushed) → slice_get pushed place ≡ Some table → table.holds ≡ false
        → marked (table_at (told_after pushed sets now told) place).marks
        ≡ slice_index_or sets place [] }
{}

/// Behind a turn each key of the set has a mark, with a hold too; and each further key with one had
/// one before, and was put less than its life ago.
pub fn the_marks_are_held()
    ensures set { (pushed : List Pushed) (sets : List (List (List ℕ))) (now : ℕ) (told : Told)
        (place : ℕ) (table : Pushed) (key : List ℕ) → slice_get pushed place ≡ Some table
        → IsAmong key (slice_index_or sets place [])
        → IsAmong key (marked (table_at (told_after pushed sets now told) place).marks) }
    ensures further { (pushed : List Pushed) (sets : List (List (List ℕ))) (now : ℕ) (told : Told)
        (place : ℕ) (table : Pushed) (key : List ℕ) → slice_get pushed place ≡ Some table
        → IsAmong key (marked (table_at (told_after pushed sets now told) place).marks)
        → IsAmong key (slice_index_or sets place [])
        ⊎ IsMarked table now key (table_at told place).marks }
{}

/// Behind a turn each key of the set is told, with a hold too; and each further key was put before,
/// less than its life ago.
pub fn the_set_is_held()
    ensures told { (pushed : List Pushed) (sets : List (List (List ℕ))) (now : ℕ) (told : Told)
        (place : ℕ) (table : Pushed) (key : List ℕ) → slice_get pushed place ≡ Some table
        → 0 < table.life → IsAmong key (slice_index_or sets place [])
        → IsAmong key (told_keys pushed (told_after pushed sets now told) place now) }
    ensures further { (pushed : List Pushed) (sets : List (List (List ℕ))) (now : ℕ) (told : Told)
        (place : ℕ) (table : Pushed) (key : List ℕ) → slice_get pushed place ≡ Some table
        → 0 < table.life
        → IsAmong key (told_keys pushed (told_after pushed sets now told) place now)
        → IsAmong key (slice_index_or sets place [])
        ⊎ IsMarked table now key (table_at told place).marks }
{}

/// Each mark behind a turn is of a key of its set, at its moment, or was there before.
pub fn marks_are_turns()
    ensures { (pushed : List Pushed) (sets : List (List (List ℕ))) (now : ℕ) (told : Told)
        (place : ℕ) (table : Pushed) → slice_get pushed place ≡ Some table
        → AllMarks (λ key put. (IsAmong key (slice_index_or sets place []) × (put ≡ now))
        ⊎ IsMarkOf (table_at told place).marks key put)
        (table_at (told_after pushed sets now told) place).marks }
{}
