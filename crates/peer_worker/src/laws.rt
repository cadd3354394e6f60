//! Laws of the definitions that the contracts cite. Each is the contract of a function that does
//! nothing.

ghost use Rattle.std.specs.Prelude.{◌≡◌, ◌++◌, Bool, List, []};
ghost use Rattle.session_core.specs.Piece.{Setup};
ghost use Rattle.peer_worker.specs.Turns.{Turn, said_in, text_in, unsaid_in};
ghost use Rattle.telling.specs.Telling.{text_of};

/// What was written of a telling is a beginning of the text of its turn, in whole messages; and all
/// of it, once nothing is unsaid. So it is when the next telling is made.
pub fn pieces_make_the_turn()
    ensures begins { (setup : Setup) (seated : Bool) (turns : List Turn)
        → text_in setup seated turns
        ≡ said_in setup seated turns ++ text_of (unsaid_in setup seated turns) }
    ensures whole { (setup : Setup) (seated : Bool) (turns : List Turn)
        → unsaid_in setup seated turns ≡ []
        → said_in setup seated turns ≡ text_in setup seated turns }
{}
