//! What the hub promises to many threads at once, in one clause each.
//!
//! A law of the definitions that the contracts cite is the contract of a function that does
//! nothing. That of two receipts is the contract of one that compares them: that two lists are of
//! one history is known from the tokens that receipts hold.

ghost use Rattle.std.specs.Prelude.{◌≡◌, ◌≢◌, ◌↔◌, ◌++◌, ℕ, true, List, MatchBool, length};
ghost use Rattle.std.specs.Prelude.{unwrap_or};
ghost use Rattle.agg_types.specs.Fits.{fits};
ghost use Rattle.agg_types.specs.declared.config.Config.{Config};
ghost use Rattle.agg_types.specs.declared.event.Event.{Event};
ghost use Rattle.agg_types.specs.declared.event.What.{What};
ghost use Rattle.agg_types.specs.declared.event.What.TheVariants.{Leave, Sit};
ghost use Rattle.fleet_model.specs.State.{State};
ghost use Rattle.set_changes.specs.Numbered.{said_of};
ghost use Rattle.set_changes.specs.declared.change.Change.{Change};
ghost use Rattle.hub.specs.Changing.{SayBehind, held_behind};
ghost use Rattle.hub.specs.History.{Beginning};
ghost use Rattle.hub.specs.Posts.{Follows, PostsAfter, Seated};
ghost use Rattle.hub.specs.Roll.{MayPost};
ghost use Rattle.hub.specs.Shows.{ShowsPosted};
ghost use Rattle.hub.specs.Trailed.{trail_to};
ghost use Rattle.hub.specs.Views.{IsBookOf, Learns};

use crate::receipt::Receipt;

/// What may be posted is all that fits the configuration, but a Sit and a Leave.
pub fn what_may_be_posted()
    ensures { (config : Config) (what : What) → MayPost config what
        ↔ ((fits config what ≡ true) × (what ≢ Sit) × (what ≢ Leave)) }
{}

/// The one law on many threads. A batch was posted at Ok; a lens learned the receipt, and looked.
/// Then the book answers what recomputing from a list gives that begins with all that the lens had
/// seen and learned. The list has exactly this batch, in one piece and behind all that the pass had
/// seen. It holds whatever other threads do meanwhile.
pub fn a_look_shows_what_was_posted()
    ensures { (pass after : Seated) (whats : List What)
        (receipt seen learned looked : Beginning) (book : State)
        → PostsAfter pass after whats receipt → Learns seen receipt learned
        → Follows learned looked → IsBookOf book looked
        → ShowsPosted seen receipt pass whats book }
{}

/// Who knows a filter's set at an earlier list of events, and adds and takes away what a look tells
/// behind that list, knows the set now. Of each key the last change says whether the filter holds
/// it; where none is of the key, that is as it was.
pub fn changes_give_the_set_now()
    ensures { (seen : Beginning) (early late : List Event) (place : ℕ) (changes : List Change)
        (key : List ℕ) → seen.events ≡ early ++ late
        → SayBehind (trail_to seen) place (length early) changes
        → held_behind seen.config seen.opening seen.events place key
        ≡ unwrap_or (said_of changes key)
        (held_behind seen.config seen.opening early place key) }
{}

/// Of two receipts of one hub the list of one begins the other's. Whether the first one's does.
pub fn of_two_receipts_one_begins_the_other(first: &Receipt, second: &Receipt) -> bool
    requires { second.now.of ≡ first.now.of }
    ensures { MatchBool result (Follows first.now second.now) (Follows second.now first.now) }
{
    first.begins(second)
}
