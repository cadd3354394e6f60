//! What workers are promised to do, said of bytes and moments that are known: a source that keeps
//! what it gave, a writer that keeps what it took, and a clock that names its moments.

ghost use Rattle.std.specs.Prelude.{◌≡◌, [], Some, take, IfSome};
ghost use Rattle.hub.specs.Posts.{Follows, SitsDown};
ghost use Rattle.admin_worker.specs.Commands.{IsCommandedWhole};
ghost use Rattle.worker_frame.specs.Traffic.{so_far};
ghost use Rattle.peer_worker.specs.Working.{IsServedWhole};

use crate::admins::{lens_of, seat_of};
use crate::bytes::{AT_ONCE, QUESTIONS};
use crate::memory::{Turnstile, Watch};
use crate::recording::Recording;
use anyhow::{Result, anyhow};
use hub::{Hub, Lens, Naming, Pass};
use serve::{Context, Door, Link, Served, serve_admin, serve_session};
use std::alloc::Global;
use std::sync::Wait;
use std::time::Clock;

/// How a worker was served that ended by itself: what it was given, and what it wrote.
#[derive(Drop)]
struct Known<'a> {
    given: &'a [u8],
    written: Vec<u8>,
    served: Served,
}

// A connection that sends these bytes, and keeps what it is sent.
fn link_of(alloc: Global, bytes: &[u8]) -> Link<Recording<'_>, Vec<u8>>
    ensures given { take result.source.given result.source.bytes.now ≡ [] }
    ensures reads { result.source.reads ≡ 0 }
    ensures written { result.writer.items ≡ [] }
{
    Link {
        source: Recording::new(bytes),
        writer: Vec::new(alloc),
    }
}

/// Serves a session that sends these bytes. What is written is what answers exactly those that were
/// given, and the receipts show their facts. None where it ended for a cause.
fn talk<'a, J: Naming, H: Wait + Drop, R: Wait + Clock>(
    context: &Context<'_, J, H, R, Watch, Turnstile>,
    pass: Pass,
    bytes: &'a [u8],
) -> Option<Known<'a>>
    requires pass { SitsDown pass × Follows context.now.hub.now pass.seen }
    ensures { IfSome result (λ known. IsServedWhole context.now.hub.now (Some pass.seat)
        (so_far (Some []) (Some [])) (so_far (Some known.given.now) (Some known.written.items))
        known.served) }
{
    let mut link = link_of(context.alloc, bytes);
    match serve_session(context, &mut link, Some(pass)) {
        Err(_) => None,
        Ok(served) => Some(Known {
            given: link.source.given(),
            written: link.writer,
            served,
        }),
    }
}

/// Serves an admin that sends these bytes. What is written is the answers to the lines among those
/// that were given, and the receipts show the changes that they ask for. None where it ended for a
/// cause.
fn command<'a, J: Naming, H: Wait + Drop, R: Wait>(
    context: &Context<'_, J, H, R, Watch, Turnstile>,
    lens: Lens,
    pass: Pass,
    bytes: &'a [u8],
) -> Option<Known<'a>>
    requires pass { SitsDown pass × Follows context.now.hub.now pass.seen }
    requires lens { Follows context.now.hub.now lens.seen }
    ensures { IfSome result (λ known. IsCommandedWhole Door.Programs context.now.hub.now pass.seat
        (so_far (Some []) (Some [])) (so_far (Some known.given.now) (Some known.written.items))
        known.served) }
{
    let mut link = link_of(context.alloc, bytes);
    match serve_admin(context, &mut link, lens, pass, Door::Programs) {
        Err(_) => None,
        Ok(served) => Some(Known {
            given: link.source.given(),
            written: link.writer,
            served,
        }),
    }
}

// A session of known bytes. None without a seat.
fn session<J: Naming, H: Wait + Drop, R: Wait + Clock>(
    context: &Context<'_, J, H, R, Watch, Turnstile>,
) -> Option<Known<'static>> {
    let pass = seat_of(context.rt, context.hub)?;
    talk(context, pass, AT_ONCE)
}

// An admin of known bytes. None without a seat or a lens.
fn admin<J: Naming, H: Wait + Drop, R: Wait>(
    context: &Context<'_, J, H, R, Watch, Turnstile>,
) -> Option<Known<'static>> {
    let lens = lens_of(context.rt, context.hub)?;
    let pass = seat_of(context.rt, context.hub)?;
    command(context, lens, pass, QUESTIONS)
}

// Prints how much of these bytes was given, and what was written.
fn say(rt: &impl Print, who: &str, all: &[u8], known: Option<Known<'_>>) -> Result<()> {
    let Some(known) = known else {
        return Err(anyhow!("no seat, no lens, or a cause"));
    };
    let (given, all) = (known.given.len(), all.len());
    let written = known.written.as_slice().escape_ascii();
    println!(rt; "{who} of known bytes: {given} of {all} given, [{written}] written")?;
    Ok(())
}

/// Serves a session and then an admin of known bytes, and prints what was given and written.
pub fn row<J: Naming, H: Wait + Drop, R: Wait + Clock + Print>(
    rt: &R,
    alloc: Global,
    hub: &Hub<J, H>,
) -> Result<()> {
    let (watch, gate) = (Watch::new(), Turnstile::new(1000));
    let context = Context {
        rt,
        alloc,
        hub,
        clock: &watch,
        gate: &gate,
    };
    say(rt, "a session", AT_ONCE, session(&context))?;
    say(rt, "an admin", QUESTIONS, admin(&context))
}
