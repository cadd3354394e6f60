//! What an event makes of the machine.

ghost use Rattle.std.specs.Prelude.{◌≡◌, ◌<◌, ◌&&◌, length, true, IsTrue, IfOk, IsOk};
ghost use Rattle.std.specs.Prelude.{OnErr, OnOk, nat_lt};
ghost use Rattle.agg_types.specs.Whats.{as_what, lent_cells};
ghost use Rattle.agg_types.specs.declared.event.What.TheVariants.{Leave};
ghost use Rattle.agg_types.specs.declared.limits.TheConstants.{NUMBERS_END};
ghost use Rattle.fleet_model.specs.Machine.{after, counts_now, event_of, happened, number_of};
ghost use Rattle.fleet_model.specs.Machine.{session_of};
ghost use Rattle.fleet_model.specs.Seats.{is_number};
ghost use Rattle.book_frame.specs.Due.{HasDueNumber, IsDue};
ghost use Rattle.book_machine.specs.Dropped.{is_dropped, lacks_room};
ghost use Rattle.book_machine.specs.Due.{FitsPlace, IsPlaced};
ghost use Rattle.book_machine.specs.Gone.{AreGone, is_gone};
ghost use Rattle.book_machine.specs.Due.{put_at};
ghost use Rattle.book_machine.specs.Turns.{with_update};
ghost use Rattle.book_machine.specs.Uses.{has_list};
ghost use Rattle.book_machine.specs.Leaving.{IsLeaving};

use crate::leaders::go_on;
use crate::machine::{Applied, Machine, Outcome, clear, put};
use agg_types::{Key, LentCells, LentWhat, NUMBERS_END, NoMemory, What};
use book_frame::seats;
use book_frame::seats::{count_up, end_sessions, is_number, open_session, sit_down, stand_up};
use book_frame::standing::{add_filter, added_at, drop_filter};
use book_rows::At;
use peer_rows::Spot;

impl Machine {
    /// The place of the filter that an event drops, if it counts.
    pub fn leaving(&self, what: LentWhat<'_>) -> Option<usize>
        ensures { IsLeaving self.now (as_what what.entry) result }
    {
        match what {
            LentWhat::Put { .. } => None,
            LentWhat::Other(what) => self.leaving_by(what),
        }
    }

    // The same of one that lies elsewhere as it is.
    fn leaving_by(&self, what: &What) -> Option<usize>
        ensures { IsLeaving self.now what.now result }
    {
        match what {
            What::DropFilter(name) => {
                let filters = self.config.filters.as_slice();
                added_at(filters, self.configured, name.as_slice())
            }
            What::Sit => None,
            What::Open(_) => None,
            What::Put { .. } => None,
            What::Clear { .. } => None,
            What::AddFilter(_) => None,
            What::Moment(_) => None,
            What::Leave => None,
        }
    }

    // Whether an event counts, and then what its number and its seat are.
    #[tactic(auto, unfolding(fleet_model::specs::Machine::counts_now))]
    fn counts(&self, seat: u64, seq: u64, what: LentWhat<'_>) -> bool
        ensures exact { result ≡ counts_now self.now (event_of seat seq (as_what what.entry)) }
        ensures sits { IsTrue result
            → IsDue (as_what what.entry) seat seq (number_of self.now seat) }
    {
        match what {
            LentWhat::Put { .. } => self.config.fits_lent(what) && self.has_next(seat, seq),
            LentWhat::Other(what) => {
                seats::is_due(&self.config, &self.seats, self.next_seat, seat, seq, what)
            }
        }
    }

    // Whether a number is that of a seat's next event, and small.
    fn has_next(&self, seat: u64, seq: u64) -> bool
        ensures exact { result
            ≡ (is_number (number_of self.now seat) seq && nat_lt seq NUMBERS_END) }
        ensures due { IsTrue result → HasDueNumber seq (number_of self.now seat) }
    {
        is_number(seats::number_of(&self.seats, seat), seq) && seq < NUMBERS_END
    }

    /// Whether an event counts, and then that it is of peers and tables that there are.
    pub fn is_due(&self, seat: u64, seq: u64, what: LentWhat<'_>) -> bool
        ensures exact { result ≡ counts_now self.now (event_of seat seq (as_what what.entry)) }
        ensures sits { IsTrue result
            → IsDue (as_what what.entry) seat seq (number_of self.now seat) }
        ensures fits { IsTrue result → FitsPlace self.now.config (as_what what.entry) }
    {
        self.counts(seat, seq, what)
    }

    /// Where the rows of an update's key may lie: what the hint says. Where there is none, they are
    /// searched for if they are read before the row is put: for a ranked list, or since all rows
    /// have a bound.
    #[inline(always)]
    pub(crate) fn spot_for(
        &self,
        hint: Option<Spot>,
        is_ranked: bool,
        table: usize,
        key: &Key,
    ) -> Option<Spot>
        requires { table < length self.now.config.tables }
    {
        let are_read = is_ranked || self.config.rows.is_some();
        self.rows.spot_for(hint, are_read, table, key)
    }

    /// One event that counts, as the machine of one event says, whatever the hint; nothing has
    /// changed after `NoMemory`.
    #[tactic(auto, unfolding(crate::specs::Dropped::is_dropped, fleet_model::specs::Machine::after))]
    pub fn apply(
        &mut self,
        seat: u64,
        seq: u64,
        what: LentWhat<'_>,
        hint: Option<Spot>,
    ) -> Result<Outcome, NoMemory>
        requires counts { counts_now self.old (event_of seat seq (as_what what)) ≡ true }
        requires sits { IsDue (as_what what) seat seq (number_of self.old seat) }
        requires fits { FitsPlace self.old.config (as_what what) }
        ensures ok { OnOk result
            (self.new ≡ after self.old (event_of seat seq (as_what what.entry))) }
        ensures dropped { IfOk result (λ outcome. outcome.applied.dropped
            ≡ is_dropped self.old (event_of seat seq (as_what what.entry))) }
        ensures gone { IfOk result (λ outcome. AreGone (as_what what.entry)
            (is_gone outcome.gone) self.old.rows self.new.rows) }
        ensures err { OnErr result (self.new ≡ self.old) }
        ensures leaving { as_what what.entry ≡ Leave → IsOk result }
    {
        match what {
            LentWhat::Put {
                peer,
                table,
                key,
                life,
                cells,
            } => {
                let is_ranked = self.is_ranked(table);
                let at = At {
                    table,
                    key,
                    peer,
                    spot: self.spot_for(hint, is_ranked, table, key),
                    is_ranked,
                };
                Ok(Outcome::of(self.apply_put(seat, seq, at, life, cells)?))
            }
            LentWhat::Other(what) => self.apply_other(seat, seq, what, hint),
        }
    }

    // The row of an update, whatever the hint; its seat isn't counted up. Nothing has changed after
    // NoMemory.
    #[inline(always)]
    #[tactic(auto, unfolding(crate::specs::Dropped::lacks_room, fleet_model::specs::Machine::happened, fleet_model::specs::Machine::with_put))]
    pub(crate) fn put_row(
        &mut self,
        session: Option<u64>,
        seat: u64,
        at: At<'_>,
        life: Option<u64>,
        cells: LentCells<'_>,
    ) -> Result<Applied, NoMemory>
        requires session { session ≡ session_of self.old at.peer }
        requires placed { IsPlaced self.old.config at.peer at.table life }
        requires ranked { at.is_ranked ≡ has_list self.old.config at.table }
        ensures ok { OnOk result (self.new
            ≡ with_update self.old seat (put_at at.entry life (lent_cells cells.entry))) }
        ensures dropped { IfOk result (λ applied. applied.dropped
            ≡ lacks_room self.old seat (put_at at.entry life (lent_cells cells.entry))) }
        ensures err { OnErr result (self.new ≡ self.old) }
    {
        put(
            &mut self.rows,
            &mut self.leaders,
            &self.config,
            session,
            seat,
            self.moment,
            at,
            life,
            cells,
        )
    }

    // An update that counts.
    #[tactic(auto, unfolding(crate::specs::Dropped::lacks_room, fleet_model::specs::Machine::happened, fleet_model::specs::Machine::with_put))]
    fn apply_put(
        &mut self,
        seat: u64,
        seq: u64,
        at: At<'_>,
        life: Option<u64>,
        cells: LentCells<'_>,
    ) -> Result<Applied, NoMemory>
        requires sits { HasDueNumber seq (number_of self.old seat) }
        requires placed { IsPlaced self.old.config at.peer at.table life }
        requires ranked { at.is_ranked ≡ has_list self.old.config at.table }
        ensures ok { OnOk result (self.new ≡ happened self.old
            (event_of seat seq (put_at at.entry life (lent_cells cells.entry)))
            (put_at at.entry life (lent_cells cells.entry))) }
        ensures dropped { IfOk result (λ applied. applied.dropped
            ≡ lacks_room self.old seat (put_at at.entry life (lent_cells cells.entry))) }
        ensures err { OnErr result (self.new ≡ self.old) }
    {
        let session = seats::session_of(&self.sessions, at.peer);
        let applied = self.put_row(session, seat, at, life, cells)?;
        count_up(&mut self.seats, seat, seq);
        Ok(applied)
    }

    // An event that counts and that lies elsewhere as it is.
    #[tactic(auto, unfolding(crate::specs::Dropped::lacks_room, fleet_model::specs::Machine::happened, fleet_model::specs::Machine::with_put, fleet_model::specs::Rows::clears_at))]
    fn apply_other(
        &mut self,
        seat: u64,
        seq: u64,
        what: &What,
        hint: Option<Spot>,
    ) -> Result<Outcome, NoMemory>
        requires sits { IsDue what.now seat seq (number_of self.old seat) }
        requires fits { FitsPlace self.old.config what.now }
        ensures ok { OnOk result
            (self.new ≡ happened self.old (event_of seat seq what.now) what.now) }
        ensures dropped { IfOk result
            (λ outcome. outcome.applied.dropped ≡ lacks_room self.old seat what.now) }
        ensures gone { IfOk result (λ outcome.
            AreGone what.now (is_gone outcome.gone) self.old.rows self.new.rows) }
        ensures err { OnErr result (self.new ≡ self.old) }
        ensures leaving { what.now ≡ Leave → IsOk result }
    {
        match what {
            What::Sit => {
                sit_down(&mut self.seats, seat)?;
                self.next_seat = seat + 1;
                Ok(Outcome::unseen())
            }
            What::Open(peer) => {
                open_session(&mut self.sessions, *peer, seat)?;
                count_up(&mut self.seats, seat, seq);
                Ok(Outcome::unseen())
            }
            What::Put {
                peer,
                table,
                key,
                life,
                cells,
            } => {
                let is_ranked = self.is_ranked(*table);
                let at = At {
                    table: *table,
                    key,
                    peer: *peer,
                    spot: self.spot_for(hint, is_ranked, *table, key),
                    is_ranked,
                };
                let cells = LentCells::Slice(cells.as_slice());
                let applied = self.apply_put(seat, seq, at, *life, cells)?;
                Ok(Outcome::of(applied))
            }
            What::Clear { table, sel } => {
                let gone = clear(
                    self.alloc,
                    &mut self.rows,
                    &mut self.leaders,
                    &self.config,
                    *table,
                    self.moment,
                    sel,
                )?;
                count_up(&mut self.seats, seat, seq);
                Ok(Outcome {
                    applied: Applied::unseen(),
                    gone,
                })
            }
            What::AddFilter(filter) => {
                add_filter(self.alloc, &mut self.config.filters, filter)?;
                count_up(&mut self.seats, seat, seq);
                Ok(Outcome::unseen())
            }
            What::DropFilter(name) => {
                drop_filter(&mut self.config.filters, self.configured, name);
                count_up(&mut self.seats, seat, seq);
                Ok(Outcome::unseen())
            }
            What::Moment(moment) => {
                let later = self.moment.max(*moment);
                go_on(
                    &mut self.rows,
                    &mut self.leaders,
                    &self.config,
                    self.moment,
                    later,
                );
                self.moment = later;
                count_up(&mut self.seats, seat, seq);
                Ok(Outcome::unseen())
            }
            What::Leave => {
                stand_up(&mut self.seats, seat);
                end_sessions(&mut self.sessions, seat);
                Ok(Outcome::unseen())
            }
        }
    }
}
