//! Kept verdicts: which keys the standing filters hold, and when the clock alone changes that.
//!
//! A key is judged by the filters of its table when its rows may have changed, and else when a
//! change that was planned for it has come. Keys that a clear took are in no set, so they needn't
//! be judged (`forgetting`). The memory that this takes is there before an event is applied
//! (`preparing`), so following it is sure. A moment by which nothing changes reads nothing.

ghost use Rattle.std.specs.Prelude.{◌≡◌, ◌<◌, length, IfOk, Some, if◌then◌else◌, nat_lt};
ghost use Rattle.std.specs.Prelude.{[], remove, ℕ, List};
ghost use Rattle.agg_types.specs.Whats.{as_what};
ghost use Rattle.fleet_model.specs.Sound.{IsSound};
ghost use Rattle.fleet_model.specs.State.{State};
ghost use Rattle.book.specs.Flips.{TellsStepIfKnown};
ghost use Rattle.book_machine.specs.Gone.{AreGone, is_gone};
ghost use Rattle.book.specs.Verdicts.{AreHeld, AreHeldFor, Follows, GoesOn, HasFewer, HasRoomFor};
ghost use Rattle.book_machine.specs.Leaving.{IsAddedPlace, IsLeaving};
ghost use Rattle.book.specs.Reads.{IsFewBefore, IsFewFor, IsForDue, IsQuietTo, IsQuietUntil};

use agg_types::{LentWhat, NoMemory, What};
use book_machine::{Gone, Machine};
use crossing::Meter;
use peer_rows::Spot;
use standing_filters::{Flips, Standing};

/// The verdicts of all standing filters.
#[derive(Drop)]
pub(crate) struct Verdicts {
    pub(crate) standing: Standing,
}

impl Verdicts {
    /// The verdicts of the filters of a machine that has no row.
    pub(crate) fn new(machine: &Machine) -> Result<Verdicts, NoMemory>
        requires sound { IsSound machine.now }
        requires empty { machine.now.rows ≡ [] }
        ensures { IfOk result (λ verdicts. AreHeld machine.now verdicts.standing) }
    {
        standing_filters::laws::adding_begins();
        let standing = Standing::new(machine.alloc, &machine.config)?;
        Ok(Verdicts { standing })
    }

    /// An event that counts has happened to the machine, for which the verdicts were prepared:
    /// judges what it touched. The spot is a hint at where the rows of a Put's key lie. A filter
    /// that the event dropped stood at the place that leaves; the keys that it took from its table
    /// are those that are gone. The flips tell which keys come into sets and which leave them; they
    /// are lost where filters come or go, and where a filter's table is cleared whole.
    pub(crate) fn follow(
        &mut self,
        machine: &Machine,
        what: LentWhat<'_>,
        spot: Option<Spot>,
        leaving: Option<usize>,
        gone: &Gone,
        meter: &mut Meter,
        flips: &mut Flips,
    )
        requires sound { IsSound machine.now }
        requires room { HasRoomFor (as_what what) machine.now.config self.old.standing }
        ensures held { (state : State) → IsSound state
            → Follows (as_what what.entry) state machine.now
            → IsLeaving state (as_what what.entry) leaving
            → AreGone (as_what what.entry) (is_gone gone.now) state.rows machine.now.rows
            → AreHeldFor (as_what what.entry) state self.old.standing
            → AreHeld machine.now self.new.standing }
        ensures few { (state : State) → IsSound state
            → Follows (as_what what.entry) state machine.now
            → AreHeldFor (as_what what.entry) state self.old.standing
            → IsFewBefore state (as_what what.entry) meter.old.evals
            → IsFewFor state machine.now (as_what what.entry) meter.new.evals }
        ensures quiet { (state : State) → IsSound state
            → Follows (as_what what.entry) state machine.now
            → AreHeldFor (as_what what.entry) state self.old.standing
            → IsFewBefore state (as_what what.entry) meter.old.evals
            → IsQuietTo state (as_what what.entry) → meter.new.evals ≡ 0 }
        ensures flips { (state : State) → IsSound state
            → Follows (as_what what.entry) state machine.now
            → AreGone (as_what what.entry) (is_gone gone.now) state.rows machine.now.rows
            → AreHeldFor (as_what what.entry) state self.old.standing
            → TellsStepIfKnown state machine.now flips.old flips.new }
    {
        match what {
            LentWhat::Put { table, key, .. } => {
                self.touch(machine, table, key, spot, meter, flips);
            }
            LentWhat::Other(what) => {
                self.follow_other(machine, what, spot, leaving, gone, meter, flips);
            }
        }
    }

    // The same of one that lies elsewhere as it is.
    fn follow_other(
        &mut self,
        machine: &Machine,
        what: &What,
        spot: Option<Spot>,
        leaving: Option<usize>,
        gone: &Gone,
        meter: &mut Meter,
        flips: &mut Flips,
    )
        requires sound { IsSound machine.now }
        requires room { HasRoomFor what.now machine.now.config self.old.standing }
        ensures held { (state : State) → IsSound state → Follows what.now state machine.now
            → IsLeaving state what.now leaving
            → AreGone what.now (is_gone gone.now) state.rows machine.now.rows
            → AreHeldFor what.now state self.old.standing
            → AreHeld machine.now self.new.standing }
        ensures few { (state : State) → IsSound state → Follows what.now state machine.now
            → AreHeldFor what.now state self.old.standing
            → IsFewBefore state what.now meter.old.evals
            → IsFewFor state machine.now what.now meter.new.evals }
        ensures quiet { (state : State) → IsSound state → Follows what.now state machine.now
            → AreHeldFor what.now state self.old.standing
            → IsFewBefore state what.now meter.old.evals
            → IsQuietTo state what.now → meter.new.evals ≡ 0 }
        ensures flips { (state : State) → IsSound state → Follows what.now state machine.now
            → AreGone what.now (is_gone gone.now) state.rows machine.now.rows
            → AreHeldFor what.now state self.old.standing
            → TellsStepIfKnown state machine.now flips.old flips.new }
    {
        match what {
            What::Put { table, key, .. } => self.touch(machine, *table, key, spot, meter, flips),
            What::Clear { table, .. } => self.forget(machine, *table, gone, flips),
            What::AddFilter(_) => flips.lose(),
            What::DropFilter(_) => {
                flips.lose();
                self.drop_one(leaving);
            }
            What::Moment(_) => self.turn(machine, meter, flips),
            What::Sit => {}
            What::Open(_) => {}
            What::Leave => {}
        }
    }

    // The clock may have gone on: judges what has come due since.
    fn turn(&mut self, machine: &Machine, meter: &mut Meter, flips: &mut Flips)
        requires sound { IsSound machine.now }
        ensures held { (told : ℕ) (state : State) → IsSound state
            → GoesOn told state machine.now → AreHeld state self.old.standing
            → AreHeld machine.now self.new.standing }
        ensures few { (told : ℕ) (state : State) → IsSound state
            → GoesOn told state machine.now → AreHeld state self.old.standing
            → meter.old.evals ≡ 0 → IsForDue state machine.now.moment meter.new.evals }
        ensures quiet { (told : ℕ) (state : State) → IsSound state
            → GoesOn told state machine.now → AreHeld state self.old.standing
            → meter.old.evals ≡ 0 → IsQuietUntil state machine.now.moment
            → meter.new.evals ≡ 0 }
        ensures flips { (told : ℕ) (state : State) → IsSound state
            → GoesOn told state machine.now → AreHeld state self.old.standing
            → TellsStepIfKnown state machine.now flips.old flips.new }
    {
        standing_filters::laws::moment_keeps_verdicts();
        let turned = self.standing.moment(machine, machine.moment, meter, flips);
        let Ok(()) = turned else {
            unreachable!();
        };
    }

    // An added filter is gone, which stood at this place, if it stood: its verdicts go as well.
    fn drop_one(&mut self, place: Option<usize>)
        ensures { (state later : State) (name : List ℕ) → HasFewer name state later
            → IsAddedPlace state name place
            → AreHeld state self.old.standing → AreHeld later self.new.standing }
    {
        match place {
            None => {}
            Some(place) => self.drop_place(place),
        }
    }

    // The same of a place that there is.
    fn drop_place(&mut self, place: usize)
        ensures { (state later : State) (name : List ℕ) → HasFewer name state later
            → IsAddedPlace state name (Some place)
            → AreHeld state self.old.standing → AreHeld later self.new.standing }
    {
        drop_at(&mut self.standing, place);
    }
}

/// Takes away the filter at a place, if there is one.
pub(crate) fn drop_at(standing: &mut Standing, place: usize)
    ensures { standing.new.filters ≡ (if nat_lt place (length standing.old.filters)
        then remove standing.old.filters place else standing.old.filters) }
{
    if place < standing.len() {
        standing.remove(place);
    }
}
