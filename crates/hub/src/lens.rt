//! Readers: what they enter, what they have seen, and what they are told.

ghost use Rattle.std.specs.Prelude.{◌≡◌, true, false, if◌then◌else◌, length, map, MatchBool};
ghost use Rattle.std.specs.Prelude.{IfOk, IfSome};
ghost use Rattle.std.specs.Borrow.{sem};
ghost use Rattle.left_right.specs.Sides.{view};
ghost use Rattle.hub.specs.Changing.{SayBehind};
ghost use Rattle.hub.specs.History.{AllCount};
ghost use Rattle.hub.specs.Kept.{IsTold};
ghost use Rattle.hub.specs.Posts.{Follows};
ghost use Rattle.hub.specs.Trailed.{trail_to};
ghost use Rattle.hub.specs.Views.{IsBookOf, Learns};

use crate::copies::Sight;
use crate::hand::{HubReader, HubReading};
use crate::looks::Looks;
use crate::receipt::Receipt;
use agg_types::NoMemory;
use book::Book;
use set_changes::Change;
use std::alloc::Global;
use std::marker::Model;
use std::sync::Arc;

/// A copy that was entered.
struct Visit {
    reading: HubReading,
    // The turn at which the look is counted.
    turn: u64,
}

impl Drop for Visit {
    fn drop(self) {
        let Visit { reading, turn: _ } = self;
        reading.leave();
    }
}

impl Visit {
    // The reader, and the look is counted no more.
    fn leave(self, looks: &Looks) -> HubReader
        ensures { view result.place ≡ view self.reading.place }
    {
        let Visit { reading, turn } = self;
        let reader = reading.leave();
        looks.end(turn);
        reader
    }
}

/// What looks at the book. Contracts see the list that it has seen.
pub struct Lens {
    reader: Option<HubReader>,
    visit: Option<Visit>,
    // For the list that it has seen.
    seen: Receipt,
    looks: Arc<Looks, Global>,
}

impl Drop for Lens {
    fn drop(self) {
        let Lens {
            reader: _,
            visit,
            seen: _,
            looks,
        } = self;
        if let Some(visit) = visit {
            visit.leave(&looks);
        }
    }
}

impl Model for Lens {
    ghost use Rattle.std.specs.Prelude.{◌≡◌, IfSome, false, is_some};
    ghost use Rattle.left_right.specs.Sides.{view as view_of};
    ghost use Rattle.hub.specs.Copied.{IsWhole};
    ghost use Rattle.hub.specs.Kept.{IsTold};
    ghost use Rattle.hub.specs.Views.{Seeing};

    ghost Value = { Seeing };

    ghost view = { λ l. record { seen = l.seen; inside = is_some l.visit } };

    ghost invariant = { λ l. IfSome l.reader (λ r. IsTold l.seen.of (view_of r.place))
        × IfSome l.visit (λ v. IsWhole v.reading.part.value.copied
        × (v.reading.part.value.copied.at ≡ l.seen) × (v.reading.part.value.part ≡ false)
        × IsTold l.seen.of (view_of v.reading.place)) };
}

/// A look at the book, which stays as it is while the look lasts.
pub struct Look<'a> {
    lens: &'a mut Lens,
}

impl Drop for Look<'_> {
    fn drop(self)
        ensures { self.exit.0.now.seen ≡ self.entry.lens.now.seen }
    {
        let Look { lens } = self;
        lens.leave();
    }
}

impl Look<'_> {
    /// The book, which answers for exactly the events of the list that the lens has seen.
    pub fn book(&self) -> &Book
        requires { self.now.lens.now.inside ≡ true }
        ensures { IsBookOf result.now self.now.lens.now.seen }
    {
        self.lens.book()
    }

    /// What came into the set of the filter at a place of the book's configuration and what left
    /// it, behind the first so many events of the list that the lens has seen, in order. None where
    /// that isn't known any more. Takes memory for the answer alone.
    pub fn changes(&self, filter: usize, since: u64) -> Result<Option<Vec<&Change>>, NoMemory>
        requires { self.now.lens.now.inside ≡ true }
        ensures { IfOk result (λ found. IfSome found (λ changes.
            SayBehind (trail_to self.now.lens.now.seen) filter since
            (map (λ change. change.now) changes.items))) }
    {
        self.lens.changes(filter, since)
    }

    /// A receipt for the list of the book, by which other lenses learn what this one was shown.
    pub fn receipt(&self) -> Receipt
        ensures { result ≡ self.now.lens.now.seen }
    {
        self.lens.receipt()
    }
}

impl Lens {
    ghost use Rattle.hub.specs.Looking.{Rests};

    /// A lens that has seen this list, over a reader that was told of its log.
    pub(crate) fn new(reader: HubReader, seen: Receipt, looks: Arc<Looks, Global>) -> Lens
        requires { IsTold seen.of (view reader.place) }
        ensures { result ≡ record { seen = seen; inside = false } }
    {
        Lens {
            reader: Some(reader),
            visit: None,
            seen,
            looks,
        }
    }

    /// How many events the list has that it has seen. They all count.
    pub fn len(&self) -> u64
        ensures length { result ≡ length self.now.seen.events }
        ensures legal { AllCount self.now.seen.config self.now.seen.opening self.now.seen.events }
    {
        self.seen.len()
    }

    // A receipt for the list that it has seen.
    fn receipt(&self) -> Receipt
        ensures { result ≡ self.now.seen }
    {
        self.seen.again()
    }

    fn book(&self) -> &Book
        requires { self.now.inside ≡ true }
        ensures { IsBookOf result.now self.now.seen }
    {
        match &self.visit {
            None => unreachable!(),
            Some(visit) => { visit.reading.get().book() }
        }
    }

    fn changes(&self, filter: usize, since: u64) -> Result<Option<Vec<&Change>>, NoMemory>
        requires { self.now.inside ≡ true }
        ensures { IfOk result (λ found. IfSome found (λ changes. SayBehind
            (trail_to self.now.seen) filter since (map (λ change. change.now) changes.items))) }
    {
        match &self.visit {
            None => unreachable!(),
            Some(visit) => visit.reading.get().changes(filter, since),
        }
    }

    // Leaves the copy that was entered, if one was.
    fn leave(&mut self)
        ensures { self.new ≡ record { seen = self.old.seen; inside = false } }
    {
        if let Some(visit) = self.visit.take() {
            self.reader = Some(visit.leave(&self.looks));
        }
    }

    // Enters the copy that is shown, if it has all that this lens has seen. The look is counted
    // from before the copy is entered until it is left.
    fn count_in(&mut self) -> bool
        ensures inside { result ≡ self.new.inside }
        ensures seen { MatchBool result (Follows self.old.seen self.new.seen)
            (self.new.seen ≡ self.old.seen) }
    {
        let turn = self.looks.begin();
        if self.enter(turn) {
            return true;
        }
        self.looks.end(turn);
        false
    }

    // Enters the copy that is shown, if it has all that this lens has seen.
    fn enter(&mut self, turn: u64) -> bool
        ensures inside { result ≡ self.new.inside }
        ensures seen { MatchBool result (Follows self.old.seen self.new.seen)
            (self.new.seen ≡ self.old.seen) }
    {
        self.leave();
        let Some(reader) = self.reader.take() else {
            return false;
        };
        match reader.enter_as::<Sight>() {
            Err(reader) => {
                self.reader = Some(reader);
                false
            }
            Ok(reading) => {
                let found = Receipt::found(&reading);
                if !self.seen.begins(&found) {
                    self.reader = Some(reading.leave());
                    return false;
                }
                if reading.get().has_part() {
                    self.reader = Some(reading.leave());
                    return false;
                }
                self.seen = found;
                self.visit = Some(Visit { reading, turn });
                true
            }
        }
    }

    /// Looks at the book as it is shown. None where no copy could be entered; the lens is then as
    /// before.
    pub fn look(&mut self) -> Option<Look<'_>>
        ensures* none { sem 𝓛 (Rests self.entry result) }
        ensures some { IfSome result
            (λ k. (k.lens.ghost_name ≡ self.entry.ghost_name) × (k.lens.now.inside ≡ true)
            × Follows self.old.seen k.lens.now.seen) }
    {
        if self.count_in() {
            Some(Look { lens: self })
        } else {
            None
        }
    }

    /// Learns which list a receipt shows. Of this list and the lens's own the longer is then what
    /// the lens has seen, so later looks show no less. Takes no memory, and ends a look that was
    /// forgotten.
    pub fn learn(&mut self, receipt: &Receipt)
        requires { receipt.now.of ≡ self.old.seen.of }
        ensures { Learns self.old.seen receipt.now self.new.seen }
    {
        self.leave();
        if self.seen.begins(receipt) {
            self.seen = receipt.again();
        }
    }
}
