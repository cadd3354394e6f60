//! What is promised of that which moved in a filter's set.
//!
//! A law of the definitions that the contracts cite is the contract of a function that does
//! nothing.

ghost use Rattle.std.specs.Prelude.{◌≡◌, ◌++◌, ℕ, List, true, false};
ghost use Rattle.agg_types.specs.declared.event.Event.{Event};
ghost use Rattle.set_changes.specs.Numbered.{Says, Sets, said_of};
ghost use Rattle.set_changes.specs.declared.change.Change.{Change};
ghost use Rattle.set_moves.specs.Moving.{AreMoved, FirstTurns, applied, has_key};

/// Who knows a filter's set behind an earlier list of events, and adds the keys that entered and
/// takes away those that left, knows the set now: of each key whose first change turned what was
/// held then.
pub fn what_moved_gives_the_set_now()
    ensures { (sets : Sets) (place : ℕ) (early late : List Event) (changes : List Change)
        (entered left : List (List ℕ)) (key : List ℕ)
        → Says sets place (said_of changes) early late → AreMoved changes entered left
        → FirstTurns changes key (sets.held early place key)
        → sets.held (early ++ late) place key
        ≡ applied entered left key (sets.held early place key) }
{}

/// Whatever was held then, a key that is told to have entered is held now, and one that is told to
/// have left isn't.
pub fn what_is_told_is_so_now()
    ensures { (sets : Sets) (place : ℕ) (early late : List Event) (changes : List Change)
        (entered left : List (List ℕ)) (key : List ℕ)
        → Says sets place (said_of changes) early late → AreMoved changes entered left
        → (has_key entered key ≡ true → sets.held (early ++ late) place key ≡ true)
        × (has_key left key ≡ true → sets.held (early ++ late) place key ≡ false) }
{}
