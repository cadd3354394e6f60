//! A session's turns: it reads, and does what that asks for.

ghost use Rattle.std.specs.Prelude.{◌≡◌, ◌<◌, ◌≤◌, ◌+◌, ◌^◌, ◌⊎◌, Bool, List, [], Err, false};
ghost use Rattle.peer_worker.specs.Silent.{HearsAt, HearsOn, HearsUntil, IsHeard};
ghost use Rattle.worker_frame.specs.Traffic.{Traffic, so_far};
ghost use Rattle.peer_worker.specs.Turns.{Turn, seat_at};
ghost use Rattle.peer_worker.specs.Working.{IsAtWork, Takes, Works, WorksOn};
ghost use Rattle.worker_frame.specs.declared.source.TheConstants.{MOST_READS};

use crate::attending::{attend, stand_by};
use crate::faults::TurnFault;
use crate::posting::{end_session, post_batch};
use crate::pushing::Pushing;
use crate::worker::Worker;
use hub::Naming;
use session_core::SessionCause;
use std::io::Write;
use std::sync::Wait;
use worker_frame::{Came, Cause, Clock, Context, Gate, Link, MOST_READS, Source, buffer, front};

// Takes a piece: its facts are posted, and then its replies and acknowledgements are written.
fn take_piece<J: Naming, H: Wait + Drop, R: Wait + std::rt::Clock, C: Clock, G: Gate, W: Write>(
    context: &Context<'_, J, H, R, C, G>,
    worker: &mut Worker,
    writer: &mut W,
    piece: &[u8],
    now: u64,
) -> Result<(), TurnFault>
    requires work { (seated : Bool) × (turns : List Turn)
        × IsAtWork context.now.hub.now seated worker.old turns }
    ensures seat { seat_at worker.new.poster ≡ seat_at worker.old.poster }
    ensures takes { Takes context.now.hub.now worker.old worker.new piece.now
        (W.contents writer.old) (W.contents writer.new) result }
    ensures heard { worker.old.session.late ≡ false
        → HearsAt now worker.old.session worker.new.session result }
{
    match worker.session.feed(context.hub.config(), piece, now) {
        Ok(batch) => {
            let asks = batch.asks_all();
            post_batch(context, worker, writer, batch)?;
            worker.ask(asks);
            Ok(())
        }
        Err(fault) => {
            let cause = end_session(context, worker, writer, fault)?;
            Err(TurnFault::Session(cause))
        }
    }
}

// Takes a piece at its turn, tells of its peer, and rests: at the moment at which the piece
// came, since a peer isn't silent while its own piece waits to be posted.
fn treat_piece<J: Naming, H: Wait + Drop, R: Wait + std::rt::Clock, C: Clock, G: Gate, W: Write>(
    context: &Context<'_, J, H, R, C, G>,
    worker: &mut Worker,
    writer: &mut W,
    piece: &[u8],
) -> Result<(), TurnFault>
    requires work { (seated : Bool) × (turns : List Turn)
        × IsAtWork context.now.hub.now seated worker.old turns }
    ensures seat { seat_at worker.new.poster ≡ seat_at worker.old.poster }
    ensures takes { Takes context.now.hub.now worker.old worker.new piece.now
        (W.contents writer.old) (W.contents writer.new) result }
    ensures heard { IsHeard (C.gives context.now.clock.now) worker.old.session
        → HearsOn (C.gives context.now.clock.now) worker.new.session result }
{
    context.gate.turn(worker.place());
    let now = context.clock.now();
    worker.listen(context.hub.config(), piece, now);
    take_piece(context, worker, writer, piece, now)?;
    worker.greet(context.gate);
    attend(context, worker, writer, now)
}

// Reads once, and does what that asks for. Whether the source goes on.
fn turn_session<
    J: Naming,
    H: Wait + Drop,
    R: Wait + std::rt::Clock,
    C: Clock,
    G: Gate,
    S: Source,
    W: Write,
>(
    context: &Context<'_, J, H, R, C, G>,
    worker: &mut Worker,
    link: &mut Link<S, W>,
    buffer: &mut [u8],
) -> Result<bool, Cause>
    requires work { (seated : Bool) × (turns : List Turn)
        × IsAtWork context.now.hub.now seated worker.old turns }
    requires reads { S.reads link.old.source < 2 ^ 62 }
    ensures seat { seat_at worker.new.poster ≡ seat_at worker.old.poster }
    ensures works { (seated : Bool) (start : Traffic)
        → Works context.now.hub.now seated worker.old start
        (so_far (S.given link.old.source) (W.contents link.old.writer))
        → WorksOn context.now.hub.now seated worker.new start
        (so_far (S.given link.new.source) (W.contents link.new.writer)) result }
    ensures reads { S.reads link.new.source ≡ S.reads link.old.source + 1 }
    ensures failed { S.failed link.old.source ≤ S.failed link.new.source }
    ensures read { result ≡ Err Cause.Read
        → S.failed link.old.source < S.failed link.new.source }
    ensures heard { IsHeard (C.gives context.now.clock.now) worker.old.session
        → HearsUntil (C.gives context.now.clock.now) worker.new.session result }
{
    match link.source.read(buffer) {
        Err(_) => Err(Cause::Read),
        Ok(Came::End) => Ok(false),
        Ok(Came::Nothing) => {
            stand_by(context, worker, &mut link.writer, context.clock.now())?;
            Ok(true)
        }
        Ok(Came::Bytes(count)) => {
            treat_piece(context, worker, &mut link.writer, front(buffer, count))?;
            Ok(true)
        }
    }
}

// Makes room for what is read, and for what is told. None where an allocation failed.
fn make_room<J: Naming, H: Wait + Drop, R: Wait + std::rt::Clock, C: Clock, G: Gate>(
    context: &Context<'_, J, H, R, C, G>,
    worker: &mut Worker,
) -> Option<Vec<u8>>
    ensures session { worker.new.session ≡ worker.old.session }
    ensures poster { worker.new.poster ≡ worker.old.poster }
    ensures work { (seated : Bool) → IsAtWork context.now.hub.now seated worker.old []
        → IsAtWork context.now.hub.now seated worker.new [] }
{
    let Ok(pushing) = Pushing::new(context.alloc, context.hub.config()) else {
        return None;
    };
    worker.pushing = pushing;
    buffer(context.alloc)
}

/// Reads until the source ends, the gate says so, or a fault comes.
pub fn run_session<
    J: Naming,
    H: Wait + Drop,
    R: Wait + std::rt::Clock,
    C: Clock,
    G: Gate,
    S: Source,
    W: Write,
>(
    context: &Context<'_, J, H, R, C, G>,
    worker: &mut Worker,
    link: &mut Link<S, W>,
) -> Result<(), Cause>
    requires work { IsAtWork context.now.hub.now worker.old.session.seated worker.old [] }
    requires reads { S.reads link.old.source ≡ 0 }
    ensures seat { seat_at worker.new.poster ≡ seat_at worker.old.poster }
    ensures works { WorksOn context.now.hub.now worker.old.session.seated worker.new
        (so_far (S.given link.old.source) (W.contents link.old.writer))
        (so_far (S.given link.new.source) (W.contents link.new.writer)) result }
    ensures read { result ≡ Err Cause.Read
        → (S.failed link.old.source < S.failed link.new.source)
        ⊎ (S.reads link.new.source ≡ MOST_READS) }
    ensures heard { IsHeard (C.gives context.now.clock.now) worker.old.session
        → HearsUntil (C.gives context.now.clock.now) worker.new.session result }
{
    let Some(mut buffer) = make_room(context, worker) else {
        return Err(Cause::Session(SessionCause::NoMemory));
    };
    for made in 0..MOST_READS {
        if context.gate.stop() || !turn_session(context, worker, link, buffer.as_mut_slice())? {
            return Ok(());
        }
    }
    Err(Cause::Read)
}
