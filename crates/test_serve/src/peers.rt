//! Sessions over memory.

ghost use Rattle.std.specs.Prelude.{◌≡◌, IfSome};
ghost use Rattle.hub.specs.Posts.{Follows, SitsDown};

use crate::admins::seat_of;
use crate::fleet::sum_in;
use crate::memory::{Script, Step, Turnstile, Watch};
use crate::paper::{Paper, Pen};
use crate::told::Ending;
use anyhow::Result;
use hub::{Hub, Lens, Naming, Pass};
use serve::{Context, Faulted, Link, Served, serve_session};
use std::alloc::Global;
use std::sync::Wait;
use std::time::Clock;

/// A connection: what it sends, how many of its reads work, how many looks find its gate open, and
/// how it takes what it is sent.
#[derive(Clone, Copy)]
pub struct Case {
    pub title: &'static str,
    pub steps: &'static [Step],
    pub reads: u64,
    pub looks: u64,
    pub pen: Pen,
    pub seated: bool,
}

/// Serves a session.
fn serve<J: Naming, H: Wait + Drop, R: Wait + Clock>(
    context: &Context<'_, J, H, R, Watch, Turnstile>,
    link: &mut Link<Script<'_>, Paper>,
    pass: Option<Pass>,
) -> Result<Served, Faulted>
    requires pass { IfSome pass (λ p. SitsDown p × Follows context.now.hub.now p.seen) }
    requires reads { link.old.source.reads ≡ 0 }
{
    serve_session(context, link, pass)
}

/// A seat, if the case has one.
fn seat_for<J: Naming, H: Wait + Drop, R: Wait>(rt: &R, hub: &Hub<J, H>, case: Case) -> Option<Pass>
    ensures { IfSome result (λ p. SitsDown p × Follows hub.now p.seen) }
{
    if case.seated { seat_of(rt, hub) } else { None }
}

/// Serves a session, and tells what it wrote and how it ended.
pub fn talk<J: Naming, H: Wait + Drop, R: Wait + Clock>(
    rt: &R,
    alloc: Global,
    hub: &Hub<J, H>,
    case: Case,
    paper: Paper,
) -> (Paper, Ending) {
    let watch = Watch::new();
    let mut link = Link {
        source: Script::new(case.steps, case.reads, &watch),
        writer: paper,
    };
    let pass = seat_for(rt, hub, case);
    let gate = Turnstile::new(case.looks);
    let context = Context {
        rt,
        alloc,
        hub,
        clock: &watch,
        gate: &gate,
    };
    let ended = serve(&context, &mut link, pass);
    let Link { writer, .. } = link;
    (writer, Ending::of(&ended).behind(gate.turns()))
}

/// Prints what was written, what the row of 10.0.0.1 was at each write, and how it ended.
pub fn say(rt: &impl Print, title: &str, paper: &Paper, ending: Ending) -> Result<()> {
    let written = paper.as_slice().escape_ascii();
    println!(rt; "{title}: [{written}] over {:?}; {ending}", paper.sums())?;
    Ok(())
}

/// Prints what the row of 10.0.0.1 is.
pub fn say_sum(rt: &impl Print, alloc: Global, lens: Option<Lens>) -> Result<()> {
    if let Some(mut lens) = lens {
        let sum = sum_in(alloc, &mut lens)?;
        println!(rt; "  10.0.0.1 has {}", sum.unwrap_or(0))?;
    }
    Ok(())
}

/// Serves a session over a paper that looks.
pub fn row<J: Naming, H: Wait + Drop, R: Wait + Clock + Print>(
    rt: &R,
    alloc: Global,
    hub: &Hub<J, H>,
    case: Case,
) -> Result<()> {
    let paper = Paper::new(alloc, case.pen, hub.lens(rt).ok());
    let (paper, ending) = talk(rt, alloc, hub, case, paper);
    say(rt, case.title, &paper, ending)
}

/// How many of so many sessions had a seat, and left it.
pub fn leavers<J: Naming, H: Wait + Drop, R: Wait + Clock>(
    rt: &R,
    alloc: Global,
    hub: &Hub<J, H>,
    case: Case,
    count: u64,
) -> u64 {
    let mut left = 0u64;
    for _ in 0..count {
        let paper = Paper::new(alloc, case.pen, None);
        let (_, ending) = talk(rt, alloc, hub, case, paper);
        if ending.has_left() {
            left = left.saturating_add(1);
        }
    }
    left
}
