//! A session whose peer calls a second time meanwhile.

ghost use Rattle.std.specs.Prelude.{◌≡◌, IfSome};
ghost use Rattle.hub.specs.Posts.{Follows, SitsDown};

use crate::cases::TALK;
use crate::memory::{Script, Turnstile, Watch};
use crate::paper::{EVEN, Paper};
use crate::peers::say;
use crate::told::Ending;
use anyhow::Result;
use hub::{Hub, Naming, Pass};
use serve::{Came, Context, Faulted, Link, ReadFailed, Served, Source, serve_session};
use std::alloc::Global;
use std::sync::Wait;
use std::time::Clock;
use test_hub_calls::session;

/// Before which of its reads, counted from 0, the peer calls again.
const AGAIN: u64 = 2;

/// What the peer sends, and what else happens before it is read.
#[derive(Drop)]
struct Rivalled<'a, 's, J: Naming, H: Wait + Drop, R> {
    rt: &'a R,
    alloc: Global,
    hub: &'a Hub<J, H>,
    script: Script<'s>,
}

impl<'a, 's, J: Naming, H: Wait + Drop, R: Wait> Source for Rivalled<'a, 's, J, H, R> {
    ghost use Rattle.std.specs.Prelude.{None};

    ghost reads = { λ s. s.script.reads };

    ghost failed = { λ s. s.script.failed };

    ghost given = { λ s. None };

    fn read(&mut self, buffer: &mut [u8]) -> Result<Came, ReadFailed> {
        if self.script.reads() == AGAIN {
            let _ = session(self.rt, self.alloc, self.hub, 0, 1);
        }
        self.script.read(buffer)
    }
}

/// Serves the older session.
fn serve<J: Naming, H: Wait + Drop, R: Wait + Clock>(
    context: &Context<'_, J, H, R, Watch, Turnstile>,
    link: &mut Link<Rivalled<'_, '_, J, H, R>, Paper>,
    pass: Option<Pass>,
) -> Result<Served, Faulted>
    requires pass { IfSome pass (λ p. SitsDown p × Follows context.now.hub.now p.seen) }
    requires reads { link.old.source.script.reads ≡ 0 }
{
    serve_session(context, link, pass)
}

/// Serves a session, and the newer one of its peer before its last read. Tells what the older one
/// wrote and how it ended.
pub fn row<'a, J: Naming, H: Wait + Drop, R: Wait + Clock + Print>(
    rt: &'a R,
    alloc: Global,
    hub: &'a Hub<J, H>,
) -> Result<()> {
    let (watch, gate) = (Watch::new(), Turnstile::new(1000));
    let mut link = Link {
        source: Rivalled {
            rt,
            alloc,
            hub,
            script: Script::new(&TALK, 1000, &watch),
        },
        writer: Paper::new(alloc, EVEN, hub.lens(rt).ok()),
    };
    let context = Context {
        rt,
        alloc,
        hub,
        clock: &watch,
        gate: &gate,
    };
    let ended = serve(&context, &mut link, hub.seat(rt).ok());
    let ending = Ending::of(&ended).behind(gate.turns());
    say(rt, "its peer calls again", &link.writer, ending)
}
