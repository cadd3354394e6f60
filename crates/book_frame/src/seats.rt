//! Work on the seats that sit and on the sessions in force.

ghost use Rattle.std.specs.Prelude.{◌≡◌, ◌+◌, ◌<◌, ◌==◌, ◌&&◌, not, filter, length, nat_lt};
ghost use Rattle.std.specs.Prelude.{IsTrue, OnOk, OnErr, is_some};
ghost use Rattle.std.specs.BTreeMap.{insert_entry, is_at};
ghost use Rattle.std.specs.Map.{lookup, remove_entry};
ghost use Rattle.std.specs.Ordering.{nat_cmp};
ghost use Rattle.agg_types.specs.Fits.{fits};
ghost use Rattle.fleet_model.specs.Seats.{is_next, is_number};
ghost use Rattle.book_frame.specs.Due.{IsDue};

use agg_types::{Config, LAST_SEAT, MOST_SEATS, NUMBERS_END, NoMemory, What};
use std::collections::BTreeMap;

/// The number of its next event, by seat that sits.
pub type Seats = BTreeMap<u64, u64>;

/// The seat that is the session in force, by peer.
pub type Sessions = BTreeMap<usize, u64>;

/// Whether fewer seats sit than may.
pub fn has_free_seat(seats: &Seats) -> bool
    ensures { result ≡ nat_lt (length seats.now.entries) MOST_SEATS }
{
    seats.len() < MOST_SEATS
}

/// The number of a seat's next event, or none where it doesn't sit.
pub fn number_of(seats: &Seats, seat: u64) -> Option<u64>
    ensures { result ≡ lookup (is_at (nat_cmp seat)) seats.now.entries }
{
    seats.get(&seat).copied()
}

/// The session in force of a peer, or none.
pub fn session_of(sessions: &Sessions, peer: usize) -> Option<u64>
    ensures { result ≡ lookup (is_at (nat_cmp peer)) sessions.now.entries }
{
    sessions.get(&peer).copied()
}

/// Whether a number is the one that is due.
pub fn is_number(due: Option<u64>, number: u64) -> bool
    ensures { result ≡ is_number due number }
{
    match due {
        None => false,
        Some(due) => due == number,
    }
}

// Whether an event comes next at its seat.
fn is_next(what: &What, seat: u64, seq: u64, free: bool, above: u64, due: Option<u64>) -> bool
    ensures { result ≡ is_next what.now seat seq free above due }
{
    match what {
        What::Sit => seq == 0 && seat <= LAST_SEAT && above <= seat && free,
        _ => is_number(due, seq) && seq < NUMBERS_END,
    }
}

/// Whether an event counts where only seats from a number on may sit down, and then what its own
/// number and its seat are.
pub fn is_due(config: &Config, seats: &Seats, above: u64, seat: u64, seq: u64, what: &What) -> bool
    ensures exact { result ≡ (fits config.now what.now
        && is_next what.now seat seq (nat_lt (length seats.now.entries) MOST_SEATS) above
        (lookup (is_at (nat_cmp seat)) seats.now.entries)) }
    ensures sits { IsTrue result
        → IsDue what.now seat seq (lookup (is_at (nat_cmp seat)) seats.now.entries) }
{
    counts(config, seats, above, seat, seq, what)
}

fn counts(config: &Config, seats: &Seats, above: u64, seat: u64, seq: u64, what: &What) -> bool
    ensures { result ≡ (fits config.now what.now
        && is_next what.now seat seq (nat_lt (length seats.now.entries) MOST_SEATS) above
        (lookup (is_at (nat_cmp seat)) seats.now.entries)) }
{
    let due = number_of(seats, seat);
    let free = has_free_seat(seats);
    let fits = config.fits(what);
    let next = is_next(what, seat, seq, free, above, due);
    fits && next
}

/// One more event of a seat that sits.
pub fn count_up(seats: &mut Seats, seat: u64, seq: u64)
    requires due { IsTrue (is_number (lookup (is_at (nat_cmp seat)) seats.old.entries) seq) }
    requires small { seq < NUMBERS_END }
    ensures { seats.new.entries ≡ insert_entry nat_cmp seats.old.entries seat (seq + 1) }
{
    if let Some(number) = seats.get_mut(&seat) {
        *number = seq + 1;
    }
}

/// The number of the next event of a seat that sits, whatever it was.
pub fn count_to(seats: &mut Seats, seat: u64, number: u64)
    requires sits { IsTrue (is_some (lookup (is_at (nat_cmp seat)) seats.old.entries)) }
    ensures { seats.new.entries ≡ insert_entry nat_cmp seats.old.entries seat number }
{
    if let Some(next) = seats.get_mut(&seat) {
        *next = number;
    }
}

/// A seat sits down.
pub fn sit_down(seats: &mut Seats, seat: u64) -> Result<(), NoMemory>
    ensures ok { OnOk result (seats.new.entries ≡ insert_entry nat_cmp seats.old.entries seat 1) }
    ensures err { OnErr result (seats.new.entries ≡ seats.old.entries) }
{
    seats.insert(seat, 1)?;
    Ok(())
}

/// A seat is the session in force of a peer from now on.
pub fn open_session(sessions: &mut Sessions, peer: usize, seat: u64) -> Result<(), NoMemory>
    ensures ok { OnOk result
        (sessions.new.entries ≡ insert_entry nat_cmp sessions.old.entries peer seat) }
    ensures err { OnErr result (sessions.new.entries ≡ sessions.old.entries) }
{
    sessions.insert(peer, seat)?;
    Ok(())
}

/// A seat leaves.
pub fn stand_up(seats: &mut Seats, seat: u64)
    ensures { seats.new.entries ≡ remove_entry (is_at (nat_cmp seat)) seats.old.entries }
{
    seats.remove(&seat);
}

/// Ends the sessions of a seat.
pub fn end_sessions(sessions: &mut Sessions, seat: u64)
    ensures { sessions.new.entries
        ≡ filter (λ session. not (session.1 == seat)) sessions.old.entries }
{
    sessions.retain(|_, holder| *holder != seat);
}
