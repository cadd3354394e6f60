//! What a session posts, and what it writes behind that.

ghost use Rattle.std.specs.Prelude.{◌≡◌, List, IfOk};
ghost use Rattle.std.specs.List.{All};
ghost use Rattle.agg_types.specs.declared.event.What.{What};
ghost use Rattle.hub.specs.Roll.{MayPost};
ghost use Rattle.peer_worker.specs.Turns.{IsPosterOf, PosterTells, seat_at};
ghost use Rattle.peer_worker.specs.Waiting.{PostsTo, SignalsThen};
ghost use Rattle.peer_worker.specs.Working.{EndsTo, SettlesTo};

use crate::faults::AnswerFault;
use crate::waiting::await_shown;
use crate::worker::Worker;
use agg_types::Whats;
use hub::Naming;
use session_core::{Batch, SessionCause, SessionFault};
use std::io::Write;
use std::sync::Wait;
use worker_frame::{Clock, Context, Gate, send};

// Posts facts, if there are any and the session has a seat, and waits until they are shown, also
// where a signal couldn't be written meanwhile.
fn post_facts<J: Naming, H: Wait + Drop, R: Wait + std::rt::Clock, C: Clock, G: Gate, W: Write>(
    context: &Context<'_, J, H, R, C, G>,
    worker: &mut Worker,
    writer: &mut W,
    facts: Whats,
) -> Result<(), AnswerFault>
    requires of { IsPosterOf context.now.hub.now worker.old.poster }
    requires fits { All (MayPost context.now.hub.now.config) facts }
    ensures session { worker.new.session ≡ worker.old.session }
    ensures pushing { worker.new.pushing ≡ worker.old.pushing }
    ensures seat { seat_at worker.new.poster ≡ seat_at worker.old.poster }
    ensures told { SignalsThen (W.contents writer.old) (λ written. (whats : List What)
        → PosterTells context.now.hub.now worker.old.poster whats 0
        → PostsTo context.now.hub.now worker.new.poster whats facts
        (W.contents writer.new) result written) }
{
    let Some(poster) = &mut worker.poster else {
        return Ok(());
    };
    if facts.is_empty() {
        return Ok(());
    }
    let count = facts.len() as u64;
    let ticket = poster.append(context.rt, context.hub, facts)?;
    let awaited = await_shown(context, &mut worker.pulse, writer, ticket)?;
    poster.take_up(awaited.receipt);
    worker.told = worker.told.saturating_add(count);
    worker.reuse();
    if !awaited.is_heard {
        return Err(AnswerFault::Signal);
    }
    Ok(())
}

/// Posts a batch's facts, and then writes its replies and acknowledgements.
pub fn post_batch<J: Naming, H: Wait + Drop, R: Wait + std::rt::Clock, C: Clock, G: Gate, W: Write>(
    context: &Context<'_, J, H, R, C, G>,
    worker: &mut Worker,
    writer: &mut W,
    batch: Batch,
) -> Result<(), AnswerFault>
    requires of { IsPosterOf context.now.hub.now worker.old.poster }
    requires fits { All (MayPost context.now.hub.now.config) batch.facts }
    ensures session { worker.new.session ≡ worker.old.session }
    ensures pushing { worker.new.pushing ≡ worker.old.pushing }
    ensures seat { seat_at worker.new.poster ≡ seat_at worker.old.poster }
    ensures told { SignalsThen (W.contents writer.old) (λ written. (whats : List What)
        → PosterTells context.now.hub.now worker.old.poster whats 0
        → SettlesTo context.now.hub.now worker.new.poster whats batch written
        (W.contents writer.new) result) }
{
    let (facts, out) = batch.into_parts();
    post_facts(context, worker, writer, facts)?;
    send(writer, out.as_slice())?;
    worker.pulse.wrote(out.len(), context.clock.now());
    Ok(())
}

/// Ends a session with a fault, and says its cause: what its batch has is posted and written
/// first, unless an allocation failed.
pub fn end_session<
    J: Naming,
    H: Wait + Drop,
    R: Wait + std::rt::Clock,
    C: Clock,
    G: Gate,
    W: Write,
>(
    context: &Context<'_, J, H, R, C, G>,
    worker: &mut Worker,
    writer: &mut W,
    fault: SessionFault,
) -> Result<SessionCause, AnswerFault>
    requires of { IsPosterOf context.now.hub.now worker.old.poster }
    requires fits { All (MayPost context.now.hub.now.config) fault.batch.facts }
    ensures session { worker.new.session ≡ worker.old.session }
    ensures pushing { worker.new.pushing ≡ worker.old.pushing }
    ensures seat { seat_at worker.new.poster ≡ seat_at worker.old.poster }
    ensures ends { SignalsThen (W.contents writer.old) (λ written. (whats : List What)
        → PosterTells context.now.hub.now worker.old.poster whats 0
        → EndsTo context.now.hub.now worker.old.poster worker.new.poster whats fault
        written (W.contents writer.new) result) }
    ensures cause { IfOk result (λ cause. cause ≡ fault.cause) }
{
    let SessionFault { cause, batch } = fault;
    match cause {
        SessionCause::NoMemory => Ok(SessionCause::NoMemory),
        _ => {
            post_batch(context, worker, writer, batch)?;
            Ok(cause)
        }
    }
}
