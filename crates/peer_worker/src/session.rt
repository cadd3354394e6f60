//! One connection of a peer.

ghost use Rattle.std.specs.Prelude.{◌≡◌, ◌<◌, ◌⊎◌, ℕ, List, IfSome, IfErr, MatchResult};
ghost use Rattle.std.specs.Option.{option_map};
ghost use Rattle.agg_types.specs.declared.event.What.{What};
ghost use Rattle.hub.specs.Posts.{Follows, SitsDown};
ghost use Rattle.worker_frame.specs.declared.served.Cause.{Cause};
ghost use Rattle.session_core.specs.declared.cause.SessionCause.{SessionCause};
ghost use Rattle.peer_worker.specs.Silent.{WasSilent};
ghost use Rattle.worker_frame.specs.Traffic.{so_far};
ghost use Rattle.peer_worker.specs.Turns.{PosterTells, IsPosterOf, SeatIsServed, seat_at};
ghost use Rattle.peer_worker.specs.Working.{IsServedUntil, IsServedWhole};
ghost use Rattle.worker_frame.specs.declared.source.TheConstants.{MOST_READS};

use crate::running::run_session;
use crate::worker::Worker;
use hub::{Naming, Pass};
use std::io::Write;
use std::sync::Wait;
use worker_frame::{Clock, Context, Faulted, Gate, Link, Poster, Served, Source};

// Gives the pass of a session that has one back to the hub.
fn leave<J: Naming, H: Wait + Drop, R: Wait + std::rt::Clock, C: Clock, G: Gate>(
    context: &Context<'_, J, H, R, C, G>,
    poster: Option<Poster>,
) -> Served
    requires of { IsPosterOf context.now.hub.now poster }
    ensures { (whats : List What) (waiting : ℕ)
        → PosterTells context.now.hub.now poster whats waiting
        → SeatIsServed context.now.hub.now (seat_at poster) result whats waiting }
{
    match poster {
        None => Served {
            last: None,
            left: None,
        },
        Some(poster) => poster.leave(context.rt, context.hub),
    }
}

/// Serves one connection of a peer, with a pass that has posted nothing, or without a seat.
///
/// It reads a piece, posts its facts, and then writes its replies and acknowledgements, those
/// of a fault too. After each read it asks whether a heartbeat or a further resync request is
/// due, or the peer was silent for too long. So an acknowledgement is written only where the
/// facts before it were posted.
///
/// Where tables are pushed it has a lens of its own, and after each read looks whether
/// something is to be told of them, at most every 50 ms. Where no lens or look is to be had, or
/// an allocation failed, nothing is told, and the next turn tells it. What a turn says is
/// written in pieces of at most 64 KB, up to eight behind each read, and no turn is made before
/// all of the one before was written.
pub fn serve_session<
    J: Naming,
    H: Wait + Drop,
    R: Wait + std::rt::Clock,
    C: Clock,
    G: Gate,
    S: Source,
    W: Write,
>(
    context: &Context<'_, J, H, R, C, G>,
    link: &mut Link<S, W>,
    pass: Option<Pass>,
) -> Result<Served, Faulted>
    requires pass { IfSome pass (λ p. SitsDown p × Follows context.now.hub.now p.seen) }
    requires reads { S.reads link.old.source ≡ 0 }

    // What was read, told and written, tellings of pushed tables among it; and what the
    // receipts show of that.
    ensures served { MatchResult result
        (IsServedWhole context.now.hub.now (option_map (λ p. p.seat) pass)
        (so_far (S.given link.old.source) (W.contents link.old.writer))
        (so_far (S.given link.new.source) (W.contents link.new.writer)))
        (IsServedUntil context.now.hub.now (option_map (λ p. p.seat) pass)
        (so_far (S.given link.old.source) (W.contents link.old.writer))
        (so_far (S.given link.new.source) (W.contents link.new.writer))) }

    // It ends for silence only where the clock can give two moments `LONGEST_SILENCE` ms apart.
    ensures silent { IfErr result (λ faulted. faulted.cause
        ≡ Cause.Session SessionCause.TimedOut → WasSilent (C.gives context.now.clock.now)) }

    // It ends with Read only where a read failed, or `MOST_READS` were made.
    ensures read { IfErr result (λ faulted. faulted.cause ≡ Cause.Read
        → (S.failed link.old.source < S.failed link.new.source)
        ⊎ (S.reads link.new.source ≡ MOST_READS)) }
{
    let mut worker = Worker::new(context.alloc, pass, context.clock.now());
    let ended = run_session(context, &mut worker, link);
    worker.bid_farewell(context.gate, link.source.sender(), &ended);
    let served = leave(context, worker.into_poster());
    match ended {
        Ok(()) => Ok(served),
        Err(cause) => Err(Faulted { cause, served }),
    }
}
