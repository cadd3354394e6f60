//! Events by their parts, as a caller has them or as a batch lends them.

ghost use Rattle.std.specs.Prelude.{◌≡◌, true, false, [], ◌∷◌, IfOk, IsOk, OnOk, OnErr};
ghost use Rattle.agg_types.specs.Whats.{as_what};
ghost use Rattle.agg_types.specs.declared.event.What.TheVariants.{Leave};
ghost use Rattle.book_frame.specs.Due.{IsDue};
ghost use Rattle.fleet_model.specs.Machine.{after, counts_now, event_of, number_of};
ghost use Rattle.fleet_model.specs.Sound.{IsSound};
ghost use Rattle.book_machine.specs.Dropped.{is_dropped};
ghost use Rattle.book_machine.specs.Due.{FitsPlace};
ghost use Rattle.book.specs.Flips.{TellsAllIfKnown};
ghost use Rattle.book.specs.Reads.{IsFewFor, IsQuietTo};

use crate::book::{Book, Taken};
use agg_types::{LentWhat, NoMemory, What};
use crossing::Meter;
use peer_rows::Spot;
use standing_filters::Flips;

impl Book {
    /// Applies one event by its parts, as `step` does.
    pub fn apply(&mut self, seat: u64, seq: u64, what: &What) -> Result<(), NoMemory>
        ensures ok { OnOk result (self.new ≡ after self.old (event_of seat seq what.now)) }
        ensures err { OnErr result (self.new ≡ self.old) }
        ensures leaving { what.now ≡ Leave → IsOk result }
        ensures uncounted { counts_now self.old (event_of seat seq what.now) ≡ false
            → IsOk result }
        ensures sound { IsSound self.new }
    {
        self.apply_lent(seat, seq, LentWhat::of(what))
    }

    /// Applies one event that is lent, as `step` does.
    pub fn apply_lent(&mut self, seat: u64, seq: u64, what: LentWhat<'_>) -> Result<(), NoMemory>
        ensures ok { OnOk result
            (self.new ≡ after self.old (event_of seat seq (as_what what.entry))) }
        ensures err { OnErr result (self.new ≡ self.old) }
        ensures leaving { as_what what.entry ≡ Leave → IsOk result }
        ensures uncounted { counts_now self.old (event_of seat seq (as_what what.entry)) ≡ false
            → IsOk result }
        ensures sound { IsSound self.new }
    {
        let mut flips = Flips::unknown(self.machine.alloc);
        self.apply_telling(seat, seq, what, None, &mut flips)?;
        Ok(())
    }

    /// Applies one event by its parts, as `step_at` does.
    pub fn apply_at(
        &mut self,
        seat: u64,
        seq: u64,
        what: &What,
        hint: Option<Spot>,
    ) -> Result<Taken, NoMemory>
        ensures ok { OnOk result (self.new ≡ after self.old (event_of seat seq what.now)) }
        ensures dropped { IfOk result (λ taken. taken.dropped
            ≡ is_dropped self.old (event_of seat seq what.now)) }
        ensures err { OnErr result (self.new ≡ self.old) }
        ensures leaving { what.now ≡ Leave → IsOk result }
        ensures uncounted { counts_now self.old (event_of seat seq what.now) ≡ false
            → IsOk result }
        ensures quiet { IfOk result (λ taken. IsQuietTo self.old what.now → taken.read ≡ 0) }
        ensures few { IfOk result (λ taken. IsFewFor self.old self.new what.now taken.read) }
        ensures sound { IsSound self.new }
    {
        let mut flips = Flips::unknown(self.machine.alloc);
        self.apply_telling(seat, seq, LentWhat::of(what), hint, &mut flips)
    }

    /// Applies one event by its parts, as `step_at` does, and tells of the sets as `step_telling`
    /// does.
    pub(crate) fn apply_telling(
        &mut self,
        seat: u64,
        seq: u64,
        what: LentWhat<'_>,
        hint: Option<Spot>,
        flips: &mut Flips,
    ) -> Result<Taken, NoMemory>
        ensures ok { OnOk result
            (self.new ≡ after self.old (event_of seat seq (as_what what.entry))) }
        ensures dropped { IfOk result (λ taken. taken.dropped
            ≡ is_dropped self.old (event_of seat seq (as_what what.entry))) }
        ensures err { OnErr result (self.new ≡ self.old) }
        ensures leaving { as_what what.entry ≡ Leave → IsOk result }
        ensures uncounted { counts_now self.old (event_of seat seq (as_what what.entry)) ≡ false
            → IsOk result }
        ensures quiet { IfOk result
            (λ taken. IsQuietTo self.old (as_what what.entry) → taken.read ≡ 0) }
        ensures few { IfOk result
            (λ taken. IsFewFor self.old self.new (as_what what.entry) taken.read) }
        ensures sound { IsSound self.new }
        ensures flips { OnOk result (TellsAllIfKnown self.old
            (event_of seat seq (as_what what.entry) ∷ []) flips.old flips.new) }
        ensures flips_err { OnErr result (flips.new ≡ flips.old) }
    {
        if !self.machine.is_due(seat, seq, what) {
            return Ok(Taken::unseen());
        }
        self.apply_due(seat, seq, what, hint, flips)
    }

    // The same of one that counts. What its verdicts need is made first; it goes back if the
    // machine is refused memory then.
    fn apply_due(
        &mut self,
        seat: u64,
        seq: u64,
        what: LentWhat<'_>,
        hint: Option<Spot>,
        flips: &mut Flips,
    ) -> Result<Taken, NoMemory>
        requires counts { counts_now self.old (event_of seat seq (as_what what)) ≡ true }
        requires sits { IsDue (as_what what) seat seq (number_of self.old seat) }
        requires fits { FitsPlace self.old.config (as_what what) }
        ensures ok { OnOk result
            (self.new ≡ after self.old (event_of seat seq (as_what what.entry))) }
        ensures dropped { IfOk result (λ taken. taken.dropped
            ≡ is_dropped self.old (event_of seat seq (as_what what.entry))) }
        ensures err { OnErr result (self.new ≡ self.old) }
        ensures leaving { as_what what.entry ≡ Leave → IsOk result }
        ensures quiet { IfOk result
            (λ taken. IsQuietTo self.old (as_what what.entry) → taken.read ≡ 0) }
        ensures few { IfOk result
            (λ taken. IsFewFor self.old self.new (as_what what.entry) taken.read) }
        ensures sound { IsSound self.new }
        ensures flips { OnOk result (TellsAllIfKnown self.old
            (event_of seat seq (as_what what.entry) ∷ []) flips.old flips.new) }
        ensures flips_err { OnErr result (flips.new ≡ flips.old) }
    {
        fleet_model::laws::states_are_sound();
        let mut meter = Meter::new();
        self.verdicts.prepare(&self.machine, what, &mut meter)?;
        let leaving = self.machine.leaving(what);
        let outcome = match self.machine.apply(seat, seq, what, hint) {
            Ok(outcome) => outcome,
            Err(refused) => {
                self.verdicts.go_back(&self.machine);
                return Err(refused);
            }
        };
        let applied = outcome.applied;
        let spot = applied.spot;
        self.verdicts.follow(
            &self.machine,
            what,
            spot,
            leaving,
            &outcome.gone,
            &mut meter,
            flips,
        );
        self.drops.note(what, applied.dropped);
        Ok(Taken {
            spot,
            dropped: applied.dropped,
            read: meter.evals,
        })
    }
}
