//! Turns: updates of one peer that come one after the other, what they have in common looked up
//! once, and their seat counted up behind the last.

ghost use Rattle.std.specs.Prelude.{◌≡◌, IfOk, IfSome, IsTrue, OnErr, OnOk, is_some};
ghost use Rattle.agg_types.specs.Whats.{as_what};
ghost use Rattle.fleet_model.specs.Machine.{number_of, session_of};
ghost use Rattle.book_machine.specs.Dropped.{lacks_room};
ghost use Rattle.book_machine.specs.Due.{FitsPlace};
ghost use Rattle.book_machine.specs.Turns.{IsLentInto, IsPutOf, IsTurn, IsUpdateOf, counted_to};
ghost use Rattle.book_machine.specs.Turns.{with_update};
ghost use Rattle.book_machine.specs.Uses.{IsUseOf};

use crate::machine::{Applied, Machine};
use crate::table_use::TableUse;
use agg_types::{LentWhat, NoMemory};
use book_frame::seats;
use book_frame::seats::{count_to, is_number};
use book_rows::At;
use peer_rows::Spot;

/// Whose updates come one after the other, the table of the first, and the session in force of the
/// peer.
#[derive(Clone, Copy)]
pub struct Turn {
    /// The seat.
    pub seat: u64,
    /// The position of the peer.
    pub peer: usize,
    /// The position of the table of the first.
    pub table: usize,
    /// The seat of the session in force, if there is one.
    pub session: Option<u64>,
}

impl Machine {
    /// The turn that begins with an event, if it is lent as an update and its number is due.
    pub fn turn_at(&self, seat: u64, number: u64, what: LentWhat<'_>) -> Option<Turn>
        ensures seat { IfSome result (λ turn. turn.seat ≡ seat) }
        ensures turn { IfSome result
            (λ turn. IsTurn self.now seat number turn.peer turn.session) }
    {
        let LentWhat::Put { peer, table, .. } = what else {
            return None;
        };
        if !is_number(seats::number_of(&self.seats, seat), number) {
            return None;
        }
        Some(Turn {
            seat,
            peer,
            table,
            session: seats::session_of(&self.sessions, peer),
        })
    }

    /// The table of an update of a peer, if an event is lent as one, and fits. What stands on the
    /// table of the last update says sooner whether it does.
    #[inline(always)]
    pub fn table_of(&self, peer: usize, last: &TableUse, what: LentWhat<'_>) -> Option<usize>
        requires { IsUseOf self.now.config last.now }
        ensures update { IfSome result
            (λ _. IsUpdateOf self.now.config peer (as_what what.entry)) }
        ensures lent { IfSome result (λ table. IsLentInto table what.entry) }
    {
        match what {
            LentWhat::Put {
                peer: other,
                table,
                ..
            } => {
                if other == peer && self.config.fits_by(last.table, last.form, what) {
                    Some(table)
                } else {
                    None
                }
            }
            LentWhat::Other(_) => None,
        }
    }

    /// The number of a seat's next event from now on.
    pub fn count_to(&mut self, seat: u64, number: u64)
        requires sits { IsTrue (is_some (number_of self.old seat)) }
        ensures { self.new ≡ counted_to self.old seat number }
    {
        count_to(&mut self.seats, seat, number);
    }

    /// Puts the row of an update of a turn, of a table on which this stands, whatever the hint; its
    /// seat isn't counted up. Nothing has changed after NoMemory.
    #[inline(always)]
    pub fn put_lent(
        &mut self,
        turn: Turn,
        table_use: &TableUse,
        what: LentWhat<'_>,
        hint: Option<Spot>,
    ) -> Result<Applied, NoMemory>
        requires session { turn.session ≡ session_of self.old turn.peer }
        requires found { IsUseOf self.old.config table_use.now }
        requires lent { IsLentInto table_use.now.table what }
        requires put { IsPutOf turn.peer (as_what what) }
        requires placed { FitsPlace self.old.config (as_what what) }
        ensures ok { OnOk result
            (self.new ≡ with_update self.old turn.seat (as_what what.entry)) }
        ensures dropped { IfOk result (λ applied. applied.dropped
            ≡ lacks_room self.old turn.seat (as_what what.entry)) }
        ensures err { OnErr result (self.new ≡ self.old) }
    {
        let LentWhat::Put {
            peer,
            table,
            key,
            life,
            cells,
        } = what
        else {
            return Ok(Applied::unseen());
        };
        let at = At {
            table,
            key,
            peer,
            spot: self.spot_for(hint, table_use.is_ranked, table, key),
            is_ranked: table_use.is_ranked,
        };
        self.put_row(turn.session, turn.seat, at, life, cells)
    }
}
