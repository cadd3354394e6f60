//! A session whose batch waits behind a look, while its heartbeat can't be written.

ghost use Rattle.std.specs.Prelude.{◌≡◌, IfSome};
ghost use Rattle.hub.specs.Posts.{Follows, SitsDown};

use crate::bytes::{DEFINE_FIVE, HELLO, SIX};
use crate::memory::{Script, Step, Turnstile, Watch};
use crate::paper::{EVEN, Paper, Pen};
use crate::peers::say;
use crate::told::Ending;
use anyhow::Result;
use hub::{Hub, Naming, Pass};
use serve::{Came, Context, Faulted, Link, ReadFailed, Served, Source, serve_session};
use std::alloc::Global;
use std::sync::Wait;
use std::sync::atomic::{AtomicBool, Ordering};
use std::thread;
use std::thread::Threads;
use std::time::{Clock, Duration};

/// The second update is posted for 4,000 ms.
const TALK: [Step; 3] = [
    Step::Bytes(HELLO),
    Step::Bytes(DEFINE_FIVE),
    Step::Lasting(SIX, 4000),
];

/// What answers the hello and the first update is written, and nothing else.
const PEN: Pen = Pen { writes: 2, ..EVEN };

/// How long the look lasts, in ms.
const LOOK: u64 = 1000;

/// What the two threads tell each other.
#[derive(Drop)]
struct Flags {
    // whether the session is about to read its first update
    is_read: AtomicBool,
    // whether the other thread is inside its look, or gave up
    is_inside: AtomicBool,
}

fn wait_for<W: Wait>(rt: &W, flag: &AtomicBool) {
    for _ in rt.forever() {
        if flag.load(Ordering::SeqCst) {
            break;
        }
        thread::yield_now();
    }
}

/// What the peer sends; its first update once there is a look.
#[derive(Drop)]
struct Held<'a, 's, R> {
    rt: &'a R,
    flags: &'a Flags,
    script: Script<'s>,
}

impl<'a, 's, R: Wait> Source for Held<'a, 's, R> {
    ghost use Rattle.std.specs.Prelude.{None};

    ghost reads = { λ s. s.script.reads };

    ghost failed = { λ s. s.script.failed };

    ghost given = { λ s. None };

    fn read(&mut self, buffer: &mut [u8]) -> Result<Came, ReadFailed> {
        if self.script.reads() == 1 {
            self.flags.is_read.store(true, Ordering::SeqCst);
            wait_for(self.rt, &self.flags.is_inside);
        }
        self.script.read(buffer)
    }
}

// Looks for a second from when the session has its first update.
fn look_on<J: Naming, H: Wait + Drop, W: Wait + Clock>(rt: &W, hub: &Hub<J, H>, flags: &Flags) {
    wait_for(rt, &flags.is_read);
    if let Ok(mut lens) = hub.lens(rt)
        && let Some(look) = lens.look()
    {
        flags.is_inside.store(true, Ordering::SeqCst);
        rt.sleep(Duration::from_millis(LOOK));
        drop(look);
    }
    flags.is_inside.store(true, Ordering::SeqCst);
}

/// Serves the session.
fn serve<J: Naming, H: Wait + Drop, R: Wait + Clock>(
    context: &Context<'_, J, H, R, Watch, Turnstile>,
    link: &mut Link<Held<'_, '_, R>, Paper>,
    pass: Option<Pass>,
) -> Result<Served, Faulted>
    requires pass { IfSome pass (λ p. SitsDown p × Follows context.now.hub.now p.seen) }
    requires reads { link.old.source.script.reads ≡ 0 }
{
    serve_session(context, link, pass)
}

// Serves the session, and tells what it wrote and how it ended.
fn talk<J: Naming, H: Wait + Drop, R: Print + Wait + Clock>(
    rt: &R,
    alloc: Global,
    hub: &Hub<J, H>,
    flags: &Flags,
) -> Result<()> {
    let (watch, gate) = (Watch::new(), Turnstile::new(1000));
    let mut link = Link {
        source: Held {
            rt,
            flags,
            script: Script::new(&TALK, 1000, &watch),
        },
        writer: Paper::new(alloc, PEN, hub.lens(rt).ok()),
    };
    let context = Context {
        rt,
        alloc,
        hub,
        clock: &watch,
        gate: &gate,
    };
    let ended = serve(&context, &mut link, hub.seat(rt).ok());
    let ending = Ending::of(&ended).behind(gate.turns());
    say(
        rt,
        "its heartbeat fails behind a look",
        &link.writer,
        ending,
    )
}

/// Serves a session whose second update waits for a look to end, and looks in another thread.
pub fn row<
    J: Naming + Send + Sync,
    H: Wait + Drop + Send,
    R: Threads + Wait + Clock + Print + Copy + Send + Sync,
>(rt: &R, alloc: Global, hub: &Hub<J, H>) -> Result<()> {
    let flags = Flags {
        is_read: AtomicBool::new(false),
        is_inside: AtomicBool::new(false),
    };
    let shared = &flags;
    let mut told = Ok(());
    thread::scope(thread::scope_env(), rt, |scope| {
        if scope.spawn(move || look_on(rt, hub, shared)).is_ok() {
            told = talk(rt, alloc, hub, shared);
        }
    });
    told
}
