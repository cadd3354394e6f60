//! Admins over memory.

ghost use Rattle.std.specs.Prelude.{◌≡◌, IfSome};
ghost use Rattle.hub.specs.Posts.{Follows, SitsDown};

use crate::memory::{Script, Turnstile, Watch};
use crate::paper::Paper;
use crate::peers::{Case, say};
use crate::told::Ending;
use anyhow::{Result, anyhow};
use hub::{Hub, Lens, Naming, Pass};
use serve::{Context, Door, Faulted, Link, Served, serve_admin};
use std::alloc::Global;
use std::sync::Wait;
use test_hub_calls::TRIES;

/// Serves an admin.
fn serve<J: Naming, H: Wait + Drop, R: Wait>(
    context: &Context<'_, J, H, R, Watch, Turnstile>,
    link: &mut Link<Script<'_>, Paper>,
    lens: Lens,
    pass: Pass,
    door: Door,
) -> Result<Served, Faulted>
    requires pass { SitsDown pass × Follows context.now.hub.now pass.seen }
    requires lens { Follows context.now.hub.now lens.seen }
    requires reads { link.old.source.reads ≡ 0 }
{
    serve_admin(context, link, lens, pass, door)
}

/// A lens of this hub.
#[tactic(auto, using(worker_frame::proofs::Later::lens_follows))]
pub fn lens_of<J: Naming, H: Wait + Drop, R: Wait>(rt: &R, hub: &Hub<J, H>) -> Option<Lens>
    ensures { IfSome result (λ l. Follows hub.now l.seen) }
{
    hub.lens(rt).ok()
}

/// A seat of this hub, by a further call where one had no memory.
pub fn seat_of<J: Naming, H: Wait + Drop, R: Wait>(rt: &R, hub: &Hub<J, H>) -> Option<Pass>
    ensures { IfSome result (λ p. SitsDown p × Follows hub.now p.seen) }
{
    for _ in 0..TRIES {
        if let Ok(pass) = hub.seat(rt) {
            return Some(pass);
        }
    }
    None
}

/// Serves an admin, and tells what it wrote and how it ended. None without a lens or a seat.
pub fn command<J: Naming, H: Wait + Drop, R: Wait>(
    rt: &R,
    alloc: Global,
    hub: &Hub<J, H>,
    case: Case,
    paper: Paper,
    door: Door,
) -> Option<(Paper, Ending)> {
    let watch = Watch::new();
    let mut link = Link {
        source: Script::new(case.steps, case.reads, &watch),
        writer: paper,
    };
    let lens = lens_of(rt, hub)?;
    let pass = seat_of(rt, hub)?;
    let gate = Turnstile::new(case.looks);
    let context = Context {
        rt,
        alloc,
        hub,
        clock: &watch,
        gate: &gate,
    };
    let ended = serve(&context, &mut link, lens, pass, door);
    let Link { writer, .. } = link;
    Some((writer, Ending::of(&ended).behind(gate.turns())))
}

/// Serves an admin over a paper that looks, with answers for these readers.
pub fn row<J: Naming, H: Wait + Drop, R: Wait + Print>(
    rt: &R,
    alloc: Global,
    hub: &Hub<J, H>,
    case: Case,
    door: Door,
) -> Result<()> {
    let paper = Paper::new(alloc, case.pen, hub.lens(rt).ok());
    match command(rt, alloc, hub, case, paper, door) {
        None => Err(anyhow!("no seat, or no lens")),
        Some((paper, ending)) => say(rt, case.title, &paper, ending),
    }
}

/// How many of so many admins had a seat, and left it.
pub fn leavers<J: Naming, H: Wait + Drop, R: Wait>(
    rt: &R,
    alloc: Global,
    hub: &Hub<J, H>,
    case: Case,
    count: u64,
) -> u64 {
    let mut left = 0u64;
    for _ in 0..count {
        let paper = Paper::new(alloc, case.pen, None);
        if let Some((_, ending)) = command(rt, alloc, hub, case, paper, Door::Programs)
            && ending.has_left()
        {
            left = left.saturating_add(1);
        }
    }
    left
}
