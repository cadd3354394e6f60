//! What a session tells of the pushed tables, and what it looks with.

ghost use Rattle.std.specs.Prelude.{◌≡◌, Bool, [], map, true, IfOk, MatchOption};
ghost use Rattle.hub.specs.History.{Beginning};
ghost use Rattle.hub.specs.Posts.{Follows};
ghost use Rattle.peer_worker.specs.Gathering.{Each, IsMovedSince};
ghost use Rattle.peer_worker.specs.Knowing.{Knows, KnowsAt};
ghost use Rattle.peer_worker.specs.Tellings.{Brings, Equips, HoldsLast, LooksBack, MayShow, SaysOn};
ghost use Rattle.peer_worker.specs.Tellings.{TellsOn, TurnsTo, WritesOn, asked_pushing};
ghost use Rattle.peer_worker.specs.Turns.{sets_in};

use crate::moves::moves_since;
use agg_types::{Config, Items, Key, NoMemory};
use book::{Book, keys_named};
use hub::{Hub, Lens, Look, Naming};
use pushed_keys::{Moved, Pushed, pushed_of};
use std::alloc::Global;
use std::io::Write;
use std::marker::Model;
use std::sync::Wait;
use telling::{PIECE, Teller, Unsaid};
use worker_frame::{Gate, News, Place, Poster, WriteFailed, send};

/// The least time between two turns of a session, in ms. With reads that last no longer each turn
/// comes within twice that.
const TURN_AFTER: u64 = 50;

/// How many pieces of a turn are written at most between two reads.
const MOST_PIECES: u64 = 8;

/// What a session tells of the pushed tables, and what it looks with.
///
/// Contracts see the tables, what was told of them, the lens, and what the last turn has still to
/// say. It knows which list the last turn was over, so that a turn is given what came into a set
/// and what left it, and not the set.
#[derive(Drop)]
pub struct Pushing {
    pushed: Items<Pushed>,
    teller: Teller,
    // none until one is to be had
    lens: Option<Lens>,
    // when the last turn was made
    made: Option<u64>,
    // how many events the list had that the last turn was over
    told: Option<u64>,
    // whether the last turn that was due was made
    is_made: bool,
    // what the last turn has still to say
    unsaid: Unsaid,
    // the piece of it that is written; it has no room where nothing is unsaid
    piece: Vec<u8>,
    // of each table, how many keys the gate was told that are told; none before it was
    reported: Vec<Option<u64>>,
}

impl Model for Pushing {
    ghost use Rattle.peer_worker.specs.Knowing.{KnowsBy, Pushing};

    ghost Value = { Pushing };

    ghost view = { λ p. record {
      pushed = p.pushed;
      teller = p.teller;
      lens = p.lens;
      unsaid = p.unsaid;
    } };

    ghost invariant = { λ p. KnowsBy p.pushed p.teller p.told p.lens };
}

// Has a lens learn what was posted last, if there is a poster.
fn show_last(poster: &Option<Poster>, lens: &mut Lens)
    requires { MayShow poster.now lens.old.seen }
    ensures kept { Follows lens.old.seen lens.new.seen }
    ensures holds { HoldsLast poster.now lens.new.seen }
{
    if let Some(poster) = poster {
        poster.show(lens);
    }
}

impl Pushing {
    /// Of a session that has told nothing yet. None where the configuration pushes nothing.
    pub fn new(alloc: Global, config: &Config) -> Result<Option<Pushing>, NoMemory>
        ensures { (hub : Beginning) (seated : Bool) → hub.config ≡ config.now
            → IfOk result (TellsOn hub seated []) }
    {
        if config.pushes.is_empty() {
            return Ok(None);
        }
        let pushed = pushed_of(alloc, config)?;
        let reported = Vec::from_elem(alloc, None, pushed.len())?;
        let teller = Teller::new(alloc);
        Ok(Some(Pushing {
            pushed,
            teller,
            lens: None,
            made: None,
            told: None,
            is_made: false,
            unsaid: Unsaid::none(alloc),
            piece: Vec::new(alloc),
            reported,
        }))
    }

    /// Whether a turn is due.
    pub fn is_due(&self, now: u64) -> bool {
        match self.made {
            None => true,
            Some(made) => now.saturating_sub(made) >= TURN_AFTER,
        }
    }

    /// A resync request was read, if this is so: all is told anew.
    pub fn ask(&mut self, asks: bool)
        ensures { self.new ≡ asked_pushing asks self.old }
    {
        if asks {
            self.teller.ask();
        }
    }

    /// Has a lens of a hub from now on, if one is to be had.
    pub fn equip<J: Naming, H: Wait + Drop, R: Wait>(&mut self, rt: &R, hub: &Hub<J, H>)
        ensures { Equips hub.now self.old self.new }
    {
        if self.lens.is_none() {
            self.lens = hub.lens(rt).ok();
            self.told = None;
        }
    }

    /// Makes a turn at a moment, over a look that has what was posted last. None is made while
    /// something is unsaid, and none where no look is to be had, or an allocation failed: then
    /// nothing is told. The look is given up before anything is written.
    pub fn turn(&mut self, alloc: Global, poster: &Option<Poster>, now: u64)
        requires of { LooksBack self.old poster.now }
        ensures tables { self.new.pushed ≡ self.old.pushed }
        ensures turns { TurnsTo self.old self.new poster.now }
    {
        if !self.unsaid.is_done() {
            return;
        }
        self.is_made = false;
        let Some(mut lens) = self.lens.take() else {
            return;
        };
        show_last(poster, &mut lens);
        let pushed = self.pushed.as_slice();
        let begun = begin(alloc, pushed, &mut self.teller, &mut self.told, &mut lens);
        self.lens = Some(lens);
        self.made = Some(now);
        if let Some(unsaid) = begun {
            self.unsaid = unsaid;
            self.is_made = true;
        }
    }

    /// Tells a gate that all is told, and how many keys of each table are, where that isn't what it
    /// was told last. It tells nothing while something is unsaid, and where the last turn that was
    /// due couldn't be made.
    pub fn report<G: Gate>(&mut self, gate: &G, place: Place, peer: Option<usize>)
        ensures { self.new ≡ self.old }
    {
        if let Some(peer) = peer
            && self.is_made
            && self.unsaid.is_done()
        {
            gate.told_all(place, peer);
            report_counts(&self.teller, &mut self.reported, gate, place, peer);
        }
    }

    /// Writes the next pieces of what is unsaid, and says how many bytes: none where nothing is
    /// unsaid, or an allocation failed. Behind the last piece their room is given back.
    pub fn write<W: Write>(&mut self, writer: &mut W) -> Result<usize, WriteFailed>
        ensures { SaysOn self.old self.new (W.contents writer.old) (W.contents writer.new) result }
    {
        let pushed = self.pushed.as_slice();
        let count = write_pieces(pushed, &mut self.unsaid, &mut self.piece, writer)?;
        give_back(&self.unsaid, &mut self.piece);
        Ok(count)
    }
}

// Tells a gate how many keys of each table are told, where that isn't what it was told last.
fn report_counts<G: Gate>(
    teller: &Teller,
    reported: &mut Vec<Option<u64>>,
    gate: &G,
    place: Place,
    peer: usize,
) {
    for table in 0..reported.len() {
        let keys = teller.count(table);
        if let Some(last) = reported.get_mut(table)
            && *last != Some(keys)
        {
            *last = Some(keys);
            gate.tell(place, News::Told(peer, table, keys));
        }
    }
}

// Gives the room of pieces back where nothing is unsaid.
fn give_back(unsaid: &Unsaid, piece: &mut Vec<u8>) {
    if unsaid.is_done() {
        *piece = Vec::new(*piece.allocator());
    }
}

// Writes a piece of what is unsaid, and says of how many bytes.
fn write_piece<W: Write>(
    pushed: &[Pushed],
    unsaid: &mut Unsaid,
    piece: &mut Vec<u8>,
    writer: &mut W,
) -> Result<usize, WriteFailed>
    ensures { WritesOn pushed.now unsaid.old unsaid.new (W.contents writer.old)
        (W.contents writer.new) result }
{
    if unsaid.is_done() {
        return Ok(0);
    }
    // Room for a piece at once, so that it isn't moved as it grows.
    piece.clear();
    let Ok(()) = piece.reserve(PIECE) else {
        return Ok(0);
    };
    let Ok(()) = unsaid.write(pushed, piece) else {
        return Ok(0);
    };
    match send(writer, piece.as_slice()) {
        Ok(()) => Ok(piece.len()),
        Err(failed) => Err(failed),
    }
}

// Writes as many pieces as may stand between two reads, and says how many bytes.
fn write_pieces<W: Write>(
    pushed: &[Pushed],
    unsaid: &mut Unsaid,
    piece: &mut Vec<u8>,
    writer: &mut W,
) -> Result<usize, WriteFailed>
    ensures { WritesOn pushed.now unsaid.old unsaid.new (W.contents writer.old)
        (W.contents writer.new) result }
{
    let mut count = 0;
    for _ in 0..MOST_PIECES {
        match write_piece(pushed, unsaid, piece, writer) {
            Ok(0) => return Ok(count),
            Ok(more) => count = more.saturating_add(count),
            Err(failed) => return Err(failed),
        }
    }
    Ok(count)
}

// What a turn over a look has to say. None where no look is to be had, or an allocation failed:
// then all is as before.
fn begin(
    alloc: Global,
    pushed: &[Pushed],
    teller: &mut Teller,
    told: &mut Option<u64>,
    lens: &mut Lens,
) -> Option<Unsaid>
    requires { Knows pushed.now teller.old told.old lens.old.seen }
    ensures lens { Follows lens.old.seen lens.new.seen }
    ensures knows { Knows pushed.now teller.new told.new lens.new.seen }
    ensures says { MatchOption result (teller.new ≡ teller.old)
        (Brings pushed.now teller.old teller.new lens.new.seen) }
{
    let unsaid = begin_looking(alloc, pushed, teller, *told, lens)?;
    *told = Some(lens.len());
    Some(unsaid)
}

// The same, of which the list isn't noted yet.
fn begin_looking(
    alloc: Global,
    pushed: &[Pushed],
    teller: &mut Teller,
    told: Option<u64>,
    lens: &mut Lens,
) -> Option<Unsaid>
    requires { Knows pushed.now teller.old told lens.old.seen }
    ensures lens { Follows lens.old.seen lens.new.seen }
    ensures says { MatchOption result (teller.new ≡ teller.old)
        (Brings pushed.now teller.old teller.new lens.new.seen) }
{
    let look = lens.look()?;
    begin_over(alloc, pushed, teller, told, &look)
}

// What a turn over a look has to say. None where an allocation failed: then all is as before.
fn begin_over(
    alloc: Global,
    pushed: &[Pushed],
    teller: &mut Teller,
    told: Option<u64>,
    look: &Look<'_>,
) -> Option<Unsaid>
    requires inside { look.now.lens.now.inside ≡ true }
    requires knows { Knows pushed.now teller.old told look.now.lens.now.seen }
    ensures { MatchOption result (teller.new ≡ teller.old)
        (Brings pushed.now teller.old teller.new look.now.lens.now.seen) }
{
    let Some(number) = told else {
        return begin_whole(alloc, pushed, teller, look);
    };
    match moves_since(alloc, look, pushed, number) {
        Err(_) => None,
        Ok(None) => begin_whole(alloc, pushed, teller, look),
        Ok(Some(moves)) => begin_moves(pushed, teller, number, look, moves.as_slice()),
    }
}

// The same over what moved since so many first events of the look's list.
fn begin_moves(
    pushed: &[Pushed],
    teller: &mut Teller,
    number: u64,
    look: &Look<'_>,
    moves: &[Vec<Moved<'_>>],
) -> Option<Unsaid>
    requires inside { look.now.lens.now.inside ≡ true }
    requires knows { KnowsAt pushed.now teller.old number look.now.lens.now.seen }
    requires moved { Each (λ table moves. IsMovedSince number look.now.lens.now.seen table moves)
        pushed.now (map (λ moves. moves.items) moves.now) }
    ensures { MatchOption result (teller.new ≡ teller.old)
        (Brings pushed.now teller.old teller.new look.now.lens.now.seen) }
{
    let now = look.book().moment();
    let Ok(unsaid) = teller.begin_by(pushed, moves, now) else {
        return None;
    };
    Some(unsaid)
}

// The same over the whole sets.
fn begin_whole(
    alloc: Global,
    pushed: &[Pushed],
    teller: &mut Teller,
    look: &Look<'_>,
) -> Option<Unsaid>
    requires inside { look.now.lens.now.inside ≡ true }
    ensures { MatchOption result (teller.new ≡ teller.old)
        (Brings pushed.now teller.old teller.new look.now.lens.now.seen) }
{
    let book = look.book();
    let Ok(sets) = sets_in(alloc, book, pushed) else {
        return None;
    };
    teller.begin(pushed, sets.as_slice(), book.moment()).ok()
}

// The sets of the pushed tables in a book.
fn sets_in<'a>(
    alloc: Global,
    book: &'a Book,
    pushed: &[Pushed],
) -> Result<Vec<Vec<&'a Key>>, NoMemory>
    ensures { IfOk result (λ sets. map (λ set. map (λ key. key.now) set.items) sets.items
        ≡ sets_in pushed.now book.now) }
{
    let mut sets = Vec::new(alloc);
    for table in pushed {
        sets.push(keys_named(alloc, book, table.name.as_slice())?)?;
    }
    Ok(sets)
}
