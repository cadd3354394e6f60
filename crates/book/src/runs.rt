//! Runs of updates: what those of one peer have in common is looked up once, and their seat is
//! counted up once, behind the last.

ghost use Rattle.std.specs.Prelude.{◌≡◌, ◌+◌, ◌<◌, ◌≤◌, fold, length};
ghost use Rattle.std.specs.Prelude.{OnErr, OnOk};
ghost use Rattle.agg_types.specs.Whats.{as_what};
ghost use Rattle.agg_types.specs.declared.limits.TheConstants.{NUMBERS_END};
ghost use Rattle.fleet_model.specs.Machine.{after, session_of};
ghost use Rattle.fleet_model.specs.Sound.{IsSound};
ghost use Rattle.book.specs.Flips.{TellsAllIfKnown, TellsStepIfKnown, part_of};
ghost use Rattle.book.specs.Verdicts.{IsBook};
ghost use Rattle.book.specs.Runs.{IsPartApplied};
ghost use Rattle.book_machine.specs.Turns.{IsLentInto, IsTurn, IsUpdateOf};
ghost use Rattle.book.specs.Runs.{left_at};
ghost use Rattle.book_machine.specs.Turns.{counted_to, with_update};
ghost use Rattle.book_machine.specs.Uses.{IsUseOf};

use crate::book::Book;
use crate::lookahead::Lookahead;
use crate::verdicts::Verdicts;
use agg_types::{LentWhat, NoMemory, Whats};
use book_frame::seats;
use book_frame::seats::count_to;
use book_machine::{Machine, TableUse, Turn};
use book_rows::Drops;
use peer_rows::Spot;
use standing_filters::Flips;

/// How far a run came, and whether an allocation failed at that place.
#[derive(Clone, Copy)]
pub(crate) struct Came {
    pub(crate) place: usize,
    pub(crate) refused: bool,
}

impl Book {
    /// Applies what a seat posted as one, under its numbers from a first one on, from a place on.
    /// It stops at the first event for which an allocation fails, and answers the place that it
    /// came to. Each event up to there is applied as by `apply`. The hints are where another book
    /// found the rows of keys, by place; where they end, they take up where this one finds them, as
    /// far as there is memory.
    ///
    /// What updates of one peer have in common is looked up once for all that come one after the
    /// other. How much was read for a run, no clause says. The flips tell which keys came into the
    /// filters' sets on the way and which left them, or that this isn't known.
    pub fn step_run(
        &mut self,
        seat: u64,
        first: u64,
        posted: &Whats,
        from: usize,
        hints: &mut Vec<Option<Spot>>,
        flips: &mut Flips,
    ) -> usize
        requires from_in { from ≤ length posted.now }
        requires small { first + length posted.now < NUMBERS_END }
        ensures onwards { from ≤ result }
        ensures within { result ≤ length posted.now }
        ensures applied { IsPartApplied seat first posted.now from result self.old self.new }
        ensures brings { fold after self.new (left_at seat first posted.now result)
            ≡ fold after self.old (left_at seat first posted.now from) }
        ensures sound { IsSound self.new }
        ensures flips { TellsAllIfKnown self.old (part_of seat first posted.now from result)
            flips.old flips.new }
    {
        let mut done = from;
        'places: while done < posted.len() {
            let came = self.take_updates(seat, first, posted, done, hints, flips);
            done = came.place;
            if came.refused || done == posted.len() {
                break;
            }
            let hint = hint_at(hints, done);
            let number = first + done as u64;
            let Ok(taken) = self.apply_telling(seat, number, posted.at(done), hint, flips) else {
                break;
            };
            note(hints, done, taken.spot);
            done += 1;
        }
        let _ = &self.machine;
        done
    }

    // Takes the updates of one peer that follow each other from a place on.
    fn take_updates(
        &mut self,
        seat: u64,
        first: u64,
        whats: &Whats,
        from: usize,
        hints: &mut Vec<Option<Spot>>,
        flips: &mut Flips,
    ) -> Came
        requires from_in { from < length whats.now }
        requires small { first + length whats.now < NUMBERS_END }
        ensures onwards { from ≤ result.place }
        ensures within { result.place ≤ length whats.now }
        ensures applied { IsPartApplied seat first whats.now from result.place self.old self.new }
        ensures flips { TellsAllIfKnown self.old (part_of seat first whats.now from result.place)
            flips.old flips.new }
    {
        take_updates(
            &mut self.machine,
            &mut self.verdicts,
            &mut self.drops,
            seat,
            first,
            whats,
            from,
            hints,
            flips,
        )
    }
}

/// The hint at where the rows of an event's key lie, by its place.
pub(crate) fn hint_at(hints: &Vec<Option<Spot>>, place: usize) -> Option<Spot> {
    hints.get(place).copied().flatten()
}

/// Notes where rows were found, where hints are taken up, if there is memory for it.
pub(crate) fn note(hints: &mut Vec<Option<Spot>>, place: usize, spot: Option<Spot>) {
    if hints.len() == place {
        let _noted = hints.push(spot);
    }
}

// Takes an update of a turn: room is made to judge its key, its row is put, and the key judged.
// Nothing has changed after NoMemory.
#[inline(always)]
fn take_one(
    machine: &mut Machine,
    verdicts: &mut Verdicts,
    drops: &mut Drops,
    turn: Turn,
    table_use: &TableUse,
    what: LentWhat<'_>,
    hint: Option<Spot>,
    flips: &mut Flips,
) -> Result<Option<Spot>, NoMemory>
    requires session { turn.session ≡ session_of machine.old turn.peer }
    requires found { IsUseOf machine.old.config table_use.now }
    requires lent { IsLentInto table_use.now.table what }
    requires update { IsUpdateOf machine.old.config turn.peer (as_what what) }
    requires book { IsBook machine.old verdicts.old.standing }
    ensures ok { OnOk result
        (machine.new ≡ with_update machine.old turn.seat (as_what what.entry)) }
    ensures err { OnErr result (machine.new ≡ machine.old) }
    ensures book { IsBook machine.new verdicts.new.standing }
    ensures flips { OnOk result
        (TellsStepIfKnown machine.old machine.new flips.old flips.new) }
    ensures flips_err { OnErr result (flips.new ≡ flips.old) }
{
    verdicts.prepare_update(machine, table_use, what)?;
    let applied = machine.put_lent(turn, table_use, what, hint)?;
    verdicts.follow_update(machine, table_use, what, applied.spot, flips);
    drops.note(what, applied.dropped);
    Ok(applied.spot)
}

// Takes the updates of a turn that follow each other, for which the seat isn't counted up.
fn take_each(
    machine: &mut Machine,
    verdicts: &mut Verdicts,
    drops: &mut Drops,
    turn: Turn,
    first: u64,
    whats: &Whats,
    from: usize,
    hints: &mut Vec<Option<Spot>>,
    flips: &mut Flips,
) -> Came
    requires from_in { from ≤ length whats.now }
    requires small { first + length whats.now < NUMBERS_END }
    requires turn { IsTurn machine.old turn.seat (first + from) turn.peer turn.session }
    requires book { IsBook machine.old verdicts.old.standing }
    ensures onwards { from ≤ result.place }
    ensures within { result.place ≤ length whats.now }
    ensures seats { machine.new.seats ≡ machine.old.seats }
    ensures book { IsBook machine.new verdicts.new.standing }
    ensures applied { IsPartApplied turn.seat first whats.now from result.place machine.old
        (counted_to machine.new turn.seat (first + result.place)) }
    ensures flips { TellsAllIfKnown machine.old
        (part_of turn.seat first whats.now from result.place) flips.old flips.new }
{
    let mut place = from;
    let mut ahead = Lookahead::none();
    let mut table_use = machine.use_of(turn.table);
    'updates: while place < whats.len() {
        let what = whats.at(place);
        let Some(table) = machine.table_of(turn.peer, &table_use, what) else {
            break;
        };
        machine.use_after(&mut table_use, table);
        if !ahead.has(place) {
            ahead.look(machine, turn.peer, whats, place, hints);
        }
        let hint = ahead.spot(place).or(hint_at(hints, place));
        let taken = take_one(
            machine, verdicts, drops, turn, &table_use, what, hint, flips,
        );
        let Ok(spot) = taken else {
            return Came {
                place,
                refused: true,
            };
        };
        note(hints, place, spot);
        place += 1;
    }
    Came {
        place,
        refused: false,
    }
}

/// Takes the updates of one peer that follow each other from a place on, up to the first that
/// doesn't fit or for which an allocation fails. Where the event there isn't an update that is due,
/// it takes none.
pub(crate) fn take_updates(
    machine: &mut Machine,
    verdicts: &mut Verdicts,
    drops: &mut Drops,
    seat: u64,
    first: u64,
    whats: &Whats,
    from: usize,
    hints: &mut Vec<Option<Spot>>,
    flips: &mut Flips,
) -> Came
    requires from_in { from < length whats.now }
    requires small { first + length whats.now < NUMBERS_END }
    requires book { IsBook machine.old verdicts.old.standing }
    ensures onwards { from ≤ result.place }
    ensures within { result.place ≤ length whats.now }
    ensures book { IsBook machine.new verdicts.new.standing }
    ensures applied { IsPartApplied seat first whats.now from result.place machine.old machine.new }
    ensures flips { TellsAllIfKnown machine.old (part_of seat first whats.now from result.place)
        flips.old flips.new }
{
    let Some(turn) = machine.turn_at(seat, first + from as u64, whats.at(from)) else {
        return Came {
            place: from,
            refused: false,
        };
    };
    let came = take_each(
        machine, verdicts, drops, turn, first, whats, from, hints, flips,
    );
    machine.count_to(seat, first + came.place as u64);
    came
}
