//! What a session does at each read beside taking its piece: it rests, and tells the pushed tables.

ghost use Rattle.std.specs.Prelude.{◌≡◌, Bool, List, [], false};
ghost use Rattle.peer_worker.specs.Silent.{HearsAt};
ghost use Rattle.peer_worker.specs.Turns.{Turn, seat_at};
ghost use Rattle.peer_worker.specs.Working.{IsAtWork, StaysAtWork, Takes};

use crate::faults::TurnFault;
use crate::worker::Worker;
use hub::Naming;
use std::io::Write;
use std::sync::Wait;
use worker_frame::{Clock, Context, Gate};

// Makes a turn over the pushed tables where that is due: the peer's hello was accepted, and the
// last turn is a while ago and has nothing more to say.
fn make_turn<J: Naming, H: Wait + Drop, R: Wait + std::rt::Clock, C: Clock, G: Gate>(
    context: &Context<'_, J, H, R, C, G>,
    worker: &mut Worker,
    now: u64,
)
    requires work { (seated : Bool) × (turns : List Turn)
        × IsAtWork context.now.hub.now seated worker.old turns }
    ensures seat { seat_at worker.new.poster ≡ seat_at worker.old.poster }
    ensures session { worker.new.session ≡ worker.old.session }
    ensures works { StaysAtWork context.now.hub.now worker.old worker.new }
{
    let peer = worker.session.peer();
    if peer.is_none() {
        return;
    }
    let Some(pushing) = &mut worker.pushing else {
        return;
    };
    if !pushing.is_due(now) {
        return;
    }
    pushing.equip(context.rt, context.hub);
    pushing.turn(context.alloc, &worker.poster, now);
}

// Makes a turn where one is due, and writes the next pieces of what is unsaid. The others
// follow behind the next read. Behind the last one the gate is told what is told.
fn tell<J: Naming, H: Wait + Drop, R: Wait + std::rt::Clock, C: Clock, G: Gate, W: Write>(
    context: &Context<'_, J, H, R, C, G>,
    worker: &mut Worker,
    writer: &mut W,
    now: u64,
) -> Result<(), TurnFault>
    requires work { (seated : Bool) × (turns : List Turn)
        × IsAtWork context.now.hub.now seated worker.old turns }
    ensures seat { seat_at worker.new.poster ≡ seat_at worker.old.poster }
    ensures takes { Takes context.now.hub.now worker.old worker.new [] (W.contents writer.old)
        (W.contents writer.new) result }
    ensures heard { worker.old.session.late ≡ false
        → HearsAt now worker.old.session worker.new.session result }
{
    make_turn(context, worker, now);
    let (place, peer) = (worker.place(), worker.session.peer());
    let Some(pushing) = &mut worker.pushing else {
        return Ok(());
    };
    let count = pushing.write(writer)?;
    pushing.report(context.gate, place, peer);
    worker.pulse.wrote(count, now);
    Ok(())
}

/// Rests, and tells what is to be told.
pub fn attend<J: Naming, H: Wait + Drop, R: Wait + std::rt::Clock, C: Clock, G: Gate, W: Write>(
    context: &Context<'_, J, H, R, C, G>,
    worker: &mut Worker,
    writer: &mut W,
    now: u64,
) -> Result<(), TurnFault>
    requires work { (seated : Bool) × (turns : List Turn)
        × IsAtWork context.now.hub.now seated worker.old turns }
    ensures seat { seat_at worker.new.poster ≡ seat_at worker.old.poster }
    ensures takes { Takes context.now.hub.now worker.old worker.new [] (W.contents writer.old)
        (W.contents writer.new) result }
    ensures heard { worker.old.session.late ≡ false
        → HearsAt now worker.old.session worker.new.session result }
{
    worker.pause(writer, now)?;
    tell(context, worker, writer, now)
}

/// The same where nothing came: it lets go of the batches that it keeps first.
pub fn stand_by<J: Naming, H: Wait + Drop, R: Wait + std::rt::Clock, C: Clock, G: Gate, W: Write>(
    context: &Context<'_, J, H, R, C, G>,
    worker: &mut Worker,
    writer: &mut W,
    now: u64,
) -> Result<(), TurnFault>
    requires work { (seated : Bool) × (turns : List Turn)
        × IsAtWork context.now.hub.now seated worker.old turns }
    ensures seat { seat_at worker.new.poster ≡ seat_at worker.old.poster }
    ensures takes { Takes context.now.hub.now worker.old worker.new [] (W.contents writer.old)
        (W.contents writer.new) result }
    ensures heard { worker.old.session.late ≡ false
        → HearsAt now worker.old.session worker.new.session result }
{
    worker.let_go(context.alloc);
    attend(context, worker, writer, now)
}
