//! The law of a receiver. It is the contract of a function that does nothing.

ghost use Rattle.std.specs.Prelude.{◌≡◌, ◌+◌, ℕ, List, Some, slice_get};
ghost use Rattle.pushed_keys.specs.declared.pushed.Pushed.{Pushed};
ghost use Rattle.telling.specs.Telling.{told_keys, untold};
ghost use Rattle.turn_laws.specs.Keys.{is_in};
ghost use Rattle.turn_laws.specs.Receiver.{AreTurns, is_flagged, new_receiver, newest};
ghost use Rattle.turn_laws.specs.Receiver.{receiver_behind};
ghost use Rattle.turn_laws.specs.Session.{Step, told_behind};
ghost use Rattle.turn_laws.specs.Written.{AreTables};

/// A receiver that reads the bytes of a session's turns, each at the turn's moment, has of a table,
/// from the last turn on, exactly the keys that are told with gpc0 1.
pub fn a_receiver_has_what_is_told()
    ensures { (pushed : List Pushed) (steps : List Step) (place : ℕ) (table : Pushed)
        (key : List ℕ) (now : ℕ) → slice_get pushed place ≡ Some table → AreTables pushed
        → AreTurns table place 0 steps now
        → is_flagged now (newest (place + 1) key
        (receiver_behind pushed untold steps new_receiver).entries)
        ≡ is_in key (told_keys pushed (told_behind pushed untold steps) place now) }
{}
