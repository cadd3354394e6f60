//! What rounds come to, one after the other.
//!
//! A law of the definitions that the contracts cite is the contract of a function that does
//! nothing.

ghost use Rattle.std.specs.Prelude.{◌≡◌, ◌≤◌, ◌<◌, ◌++◌, ℕ, List, map};
ghost use Rattle.std.specs.List.{flat_map};
ghost use Rattle.agg_types.specs.declared.event.Event.{Event};
ghost use Rattle.set_changes.specs.Numbered.{Says, Sets, said_of};
ghost use Rattle.logged_keys.specs.Rounds.{EachSays, GoOn, Part, Span, tellings};

/// Of rounds that each go on where the one before it ended, exactly one tells what changed under a
/// number, of all numbers behind the first round's beginning and up to the last one's end.
pub fn each_number_is_told_once()
    ensures { (first last number : ℕ) (spans : List Span) → GoOn first spans last
        → first < number → number ≤ last → tellings spans number ≡ 1 }
{}

/// What the changes of such rounds say, one round behind the other, is what came into the set and
/// what left it on the whole way.
pub fn rounds_say_the_whole_way()
    ensures { (sets : Sets) (place : ℕ) (early : List Event) (parts : List Part)
        → EachSays sets place early parts
        → Says sets place (said_of (flat_map (λ part. part.changes) parts)) early
        (flat_map (λ part. part.events) parts) }
{}
