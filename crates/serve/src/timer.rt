//! The timer: what makes time pass in the fleet.

ghost use Rattle.std.specs.Prelude.{◌≡◌, ◌<◌, ◌≤◌, ◌∷◌, ℕ, List, [], IfOk, IfErr, true};
ghost use Rattle.agg_types.specs.declared.event.What.{What};
ghost use Rattle.agg_types.specs.declared.event.What.TheVariants.{Moment};
ghost use Rattle.hub.specs.Posts.{Follows, SitsDown};
ghost use Rattle.worker_frame.specs.Moments.{HasTimed, IsTimed, cut_at, cut_by, stored_at};
ghost use Rattle.worker_frame.specs.Moments.{stored_by};
ghost use Rattle.serve.specs.Ticking.{IsTicking, PortionsTo, TurnsTo};
ghost use Rattle.worker_frame.specs.Told.{HasTold, TellsMore};

use agg_types::{LAST_MOMENT, What, Whats};
use hub::{Lens, Naming, Pass, PostFault};
use std::sync::Wait;
use worker_frame::{Cause, Clock, Context, Faulted, Gate, Place, Poster, Served};

/// How many turns a timer makes at most.
const MOST_TURNS: u64 = 1 << 40;

/// How many portions a turn has at most, before what its clock gave.
const MOST_PORTIONS: u64 = 1000;

/// A timer at work.
#[derive(Drop)]
struct Ticker {
    poster: Poster,
    // what looks at how much ends; none where none could be had yet
    lens: Option<Lens>,
    // what its last turn ended with, in ms; at first 0
    last: u64,
}

impl Ticker {
    // The moment of the next portion, behind one and up to another, in ms: by it few rows end
    // behind the book's moment. It is the latter where nothing can be looked at.
    fn portion(&mut self, at: u64, given: u64, most: usize) -> u64
        requires { at < given }
        ensures poster { self.new.poster ≡ self.old.poster }
        ensures last { self.new.last ≡ self.old.last }
        ensures behind { at < result }
        ensures by { result ≤ given }
    {
        let Some(lens) = &mut self.lens else {
            return given;
        };
        let Some(look) = lens.look() else {
            return given;
        };
        let by = look.book().few_by(given, most);
        by.max(at + 1).min(given)
    }
}

// Posts a moment.
fn post_moment<J: Naming, H: Wait + Drop, R: Wait, C: Clock, G: Gate>(
    context: &Context<'_, J, H, R, C, G>,
    poster: &mut Poster,
    moment: u64,
) -> Result<(), PostFault>
    requires pass { poster.old.pass.seen.of ≡ context.now.hub.now.of }
    requires in_range { moment ≤ LAST_MOMENT }
    ensures seat { poster.new.pass.seat ≡ poster.old.pass.seat }
    ensures told { (whats : List What) → HasTold context.now.hub.now poster.old whats 0
        → TellsMore context.now.hub.now poster.new whats (Moment moment ∷ []) result }
{
    let Ok(whats) = Whats::alone(context.alloc, What::Moment(moment)) else {
        return Err(PostFault::NoMemory(Whats::new(context.alloc)));
    };
    poster.post(context.rt, context.hub, whats)
}

// Posts the portions of a turn, each once the one before is shown. Whether the turn goes on to
// what its clock gave.
fn post_portions<J: Naming, H: Wait + Drop, R: Wait, C: Clock, G: Gate>(
    context: &Context<'_, J, H, R, C, G>,
    ticker: &mut Ticker,
    given: u64,
) -> Result<bool, PostFault>
    requires gives { C.gives context.now.clock.now given }
    requires in_range { given ≤ LAST_MOMENT }
    requires at { IsTicking context.now.hub.now (C.gives context.now.clock.now) ticker.old.poster
        ticker.old.last [] }
    ensures last { ticker.new.last ≡ ticker.old.last }
    ensures seat { ticker.new.poster.pass.seat ≡ ticker.old.poster.pass.seat }
    ensures to { PortionsTo context.now.hub.now (C.gives context.now.clock.now) ticker.old.last
        given ticker.new.poster result }
{
    let mut at = ticker.last;
    if given <= at {
        return Ok(true);
    }
    for _ in 0..MOST_PORTIONS {
        let next = ticker.portion(at, given, context.clock.portion());
        if next >= given {
            return Ok(true);
        }
        post_moment(context, &mut ticker.poster, next)?;
        at = next;
        if context.gate.stop() {
            return Ok(false);
        }
        context.gate.turn(Place::Timer);
    }
    Ok(true)
}

// Makes a turn: portions of what its clock gave, and then that. Whether another one follows.
fn make_timer_turn<J: Naming, H: Wait + Drop, R: Wait, C: Clock, G: Gate>(
    context: &Context<'_, J, H, R, C, G>,
    ticker: &mut Ticker,
) -> Result<bool, PostFault>
    requires at { IsTicking context.now.hub.now (C.gives context.now.clock.now) ticker.old.poster
        ticker.old.last [] }
    ensures seat { ticker.new.poster.pass.seat ≡ ticker.old.poster.pass.seat }
    ensures to { TurnsTo context.now.hub.now (C.gives context.now.clock.now) ticker.new result }
{
    let given = context.clock.now();
    if given > LAST_MOMENT {
        return Ok(true);
    }
    if ticker.lens.is_none() {
        ticker.lens = context.hub.lens(context.rt).ok();
    }
    if !post_portions(context, ticker, given)? {
        return Ok(false);
    }
    post_moment(context, &mut ticker.poster, given)?;
    ticker.last = given;
    Ok(true)
}

// Makes turns until the gate says so, or a fault comes.
fn post_moments<J: Naming, H: Wait + Drop, R: Wait, C: Clock, G: Gate>(
    context: &Context<'_, J, H, R, C, G>,
    ticker: &mut Ticker,
) -> Result<(), Cause>
    requires at { IsTicking context.now.hub.now (C.gives context.now.clock.now) ticker.old.poster
        ticker.old.last [] }
    ensures seat { ticker.new.poster.pass.seat ≡ ticker.old.poster.pass.seat }
    ensures timed { HasTimed context.now.hub.now (C.gives context.now.clock.now) (cut_at result)
        ticker.new.poster (stored_at result) }
{
    for _ in 0..MOST_TURNS {
        if context.gate.stop() {
            return Ok(());
        }
        context.gate.turn(Place::Timer);
        match make_timer_turn(context, ticker) {
            Ok(true) => context.clock.rest(),
            Ok(false) => return Ok(()),
            Err(refusal) => return Err(Cause::Post(refusal)),
        }
    }
    Err(Cause::Read)
}

/// Posts the clock's moments, one after each rest, with a pass that has posted nothing.
///
/// Where more rows end by a moment than the clock says (`Clock::portion`), earlier moments are
/// posted first, each alone, so that few end by each; at most 1,000. They rise from behind what
/// the turn before told. No clause counts rows.
///
/// A moment above the last isn't posted. It ends when the gate says so; with Read after 2^40
/// turns; with Post at its first post that isn't Ok, and where an allocation of its own fails
/// (of no events).
pub fn run_timer<J: Naming, H: Wait + Drop, R: Wait, C: Clock, G: Gate>(
    context: &Context<'_, J, H, R, C, G>,
    pass: Pass,
) -> Result<Served, Faulted>
    requires pass { SitsDown pass × Follows context.now.hub.now pass.seen }
    ensures ok { IfOk result (IsTimed context.now.hub.now (C.gives context.now.clock.now) true
        pass.seat 0) }
    ensures err { IfErr result (λ faulted. IsTimed context.now.hub.now
        (C.gives context.now.clock.now) (cut_by faulted.cause) pass.seat
        (stored_by faulted.cause) faulted.served) }
{
    let poster = Poster::new(pass);
    let mut ticker = Ticker {
        poster,
        lens: None,
        last: 0,
    };
    let ended = post_moments(context, &mut ticker);
    let Ticker { poster, .. } = ticker;
    let served = poster.leave(context.rt, context.hub);
    match ended {
        Ok(()) => Ok(served),
        Err(cause) => Err(Faulted { cause, served }),
    }
}
