//! What a session tells its gate of what it was taught, and of what its proxy is told.

ghost use Rattle.std.specs.Prelude.{◌≡◌, IfSome};
ghost use Rattle.hub.specs.Posts.{Follows, SitsDown};

use crate::admins::seat_of;
use crate::bytes::{DEFINE_FIVE, HELLO};
use crate::cases::{HELD, PUSHED, TOLD};
use crate::memory::{Script, Step, Watch};
use crate::paper::{EVEN, Paper};
use crate::told::Ending;
use agg_types::Key;
use anyhow::Result;
use hub::{Hub, Naming, Pass};
use serve::{Context, Faulted, Gate, Link, News, Place, Served, serve_session};
use std::alloc::Global;
use std::io;
use std::sync::Wait;
use std::time::Clock;
use test_support::TWO_PROXIES;

/// A peer that teaches rows of its own, with ids up to 2^31 - 1, and learned ones. The first piece
/// has an explicit id, and the next two the one after it; then an update comes in two pieces. One
/// is of a table that isn't followed, and then the first table is in force again. Timed updates
/// follow, of 2^31 - 1 and the id after it. Behind the greatest id comes 0.
const TAUGHT: [Step; 9] = [
    Step::Bytes(HELLO),
    Step::Bytes(DEFINE_FIVE),
    Step::Bytes(b"\x0a\x80\x09\x80\x00\x00\x01\x0a\x00\x00\x01\x05"),
    Step::Bytes(b"\x0a\x81\x05\x0a\x00\x00\x02\x06\x0a\x81\x05\x0a\x00\x00\x03\x06"),
    Step::Bytes(b"\x0a\x80\x09\x00\x00"),
    Step::Bytes(b"\x00\x07\x0a\x00\x00\x04\x01"),
    Step::Bytes(
        b"\x0a\x82\x07\x02\x01u\x04\x04\x04\x00\
        \x0a\x80\x09\x80\x00\x00\x01\x0a\x00\x00\x01\x05\
        \x0a\x83\x01\x01\x0a\x81\x05\x0a\x00\x00\x01\x06",
    ),
    Step::Bytes(
        b"\x0a\x85\x0d\x7f\xff\xff\xff\x00\x00\x10\x00\x0a\x00\x00\x01\x05\
        \x0a\x86\x09\x00\x00\x10\x00\x0a\x00\x00\x01\x05",
    ),
    Step::Bytes(
        b"\x0a\x80\x09\xff\xff\xff\xff\x0a\x00\x00\x01\x05\
        \x0a\x81\x05\x0a\x00\x00\x01\x06",
    ),
];

/// Fleets, and what a peer of each sends.
pub const CASES: [(&str, &[u8], &[Step]); 3] = [
    ("rows of its own and learned ones", TWO_PROXIES, &TAUGHT),
    ("a filter is pushed", PUSHED, &TOLD),
    ("a filter is pushed with a hold", HELD, &TOLD),
];

/// A gate that prints what it is told of.
#[derive(Clone, Copy)]
struct Herald<'a, R> {
    rt: &'a R,
}

impl<'a, R: Print> Gate for Herald<'a, R> {
    fn turn(&self, _place: Place) {}

    fn stop(&self) -> bool {
        false
    }

    fn tell(&self, _place: Place, news: News<'_>) {
        let _ = match news {
            News::Taught(peer, table, taught) => {
                println!(self.rt; "  peer {peer}, table {table}: {taught:?}")
            }
            News::Learned(peer, table, keys) => print_learned(self.rt, peer, table, keys),
            News::Told(peer, table, keys) => {
                println!(self.rt; "  peer {peer}, pushed table {table}: {keys} told")
            }
            _ => Ok(()),
        };
    }
}

/// Prints the keys of learned rows.
fn print_learned(rt: &impl Print, peer: usize, table: usize, keys: &[Key]) -> io::Result<()> {
    for key in keys {
        let key = key.as_slice();
        println!(rt; "  peer {peer}, table {table}: learned {key:?}")?;
    }
    Ok(())
}

/// Serves a session.
fn serve<J: Naming, H: Wait + Drop, R: Wait + Clock + Print>(
    context: &Context<'_, J, H, R, Watch, Herald<'_, R>>,
    link: &mut Link<Script<'_>, Paper>,
    pass: Option<Pass>,
) -> Result<Served, Faulted>
    requires pass { IfSome pass (λ p. SitsDown p × Follows context.now.hub.now p.seen) }
    requires reads { link.old.source.reads ≡ 0 }
{
    serve_session(context, link, pass)
}

/// Serves a session, and prints what it tells its gate and how it ended.
pub fn row<J: Naming, H: Wait + Drop, R: Wait + Clock + Print>(
    rt: &R,
    alloc: Global,
    hub: &Hub<J, H>,
    title: &str,
    steps: &[Step],
) -> Result<()> {
    println!(rt; "news of a session: {title}")?;
    let watch = Watch::new();
    let mut link = Link {
        source: Script::new(steps, 1000, &watch),
        writer: Paper::new(alloc, EVEN, None),
    };
    let gate = Herald { rt };
    let context = Context {
        rt,
        alloc,
        hub,
        clock: &watch,
        gate: &gate,
    };
    let ended = serve(&context, &mut link, seat_of(rt, hub));
    println!(rt; "  {}", Ending::of(&ended))?;
    Ok(())
}
