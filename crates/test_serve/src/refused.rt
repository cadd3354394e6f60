//! Workers to which allocations are refused: how far each comes, and what is shown of that then.
//!
//! A worker that lacks memory ends. What a refused post had is shown to nobody; what is pending is
//! shown behind a later post of another seat, and was never answered. So as many of a worker's
//! batches are shown as it answered, and one more where one was pending. That is printed, with a
//! note before it of how the worker ended. `test_serve again` runs these scenes alone, and
//! `tools/check/refused_growths.py` lets its allocations fail in turn.

ghost use Rattle.std.specs.Prelude.{◌≡◌, IfOk};

use crate::admins::command;
use crate::bytes::{DEFINE_FIVE, DEFINE_SIX, HELLO, SIX};
use crate::cases::PUSHED;
use crate::memory::{Step, Turnstile};
use crate::paper::Paper;
use crate::peers::talk;
use crate::scene::whole;
use crate::timers::{Beats, tick};
use crate::told::{Ending, Outcome};
use agg_types::{Key, What};
use anyhow::{Result, anyhow};
use hub::{Hub, Lens, Naming, Pass, Receipt};
use serve::Door;
use std::alloc::Global;
use std::sync::Wait;
use std::time::Clock;
use test_hub_calls::{first_sum, flush, lens, post, sit};
use test_support::{TWO_PROXIES, alone, put};

/// Who works.
#[derive(Clone, Copy)]
enum Who {
    Session,
    Admin,
    Timer,
}

/// What a look shows: the sum of 10.0.0.1, how many filters there are, and the moment.
#[derive(Clone, Copy, PartialEq)]
struct Sight(u64, usize, u64);

/// An answer, and whether it stands behind a batch.
type Answer = (&'static [u8], bool);

/// What a worker reads, what it answers to it, and what is shown before its batches and behind
/// each.
#[derive(Clone, Copy)]
pub struct Trial {
    pub title: &'static str,
    pub fleet: &'static [u8],
    who: Who,
    steps: &'static [Step],
    answers: &'static [Answer],
    sights: &'static [Sight],
}

/// A session of two updates.
const SESSION: Trial = Trial {
    title: "a session",
    fleet: TWO_PROXIES,
    who: Who::Session,
    steps: &[
        Step::Bytes(HELLO),
        Step::Bytes(DEFINE_FIVE),
        Step::Bytes(SIX),
    ],
    answers: &[
        (b"200\n\x00\x00", true),
        (b"\x0a\x84\x05\x01\x00\x00\x00\x01", true),
        (b"\x0a\x84\x05\x01\x00\x00\x00\x02", true),
    ],
    sights: &[
        Sight(0, 0, 0),
        Sight(0, 0, 0),
        Sight(5, 0, 0),
        Sight(6, 0, 0),
    ],
};

/// A session whose proxy is told a key: the table's definition behind the hello, and the key behind
/// the update that brings it into the filter's set. A turn that lacked memory is made at the next
/// silence.
const TOLD: Trial = Trial {
    title: "a session that is told a key",
    fleet: PUSHED,
    who: Who::Session,
    steps: &[
        Step::Bytes(HELLO),
        Step::Silent(50),
        Step::Silent(100),
        Step::Silent(150),
        Step::Silent(200),
        Step::Bytes(DEFINE_SIX),
        Step::Silent(250),
        Step::Silent(300),
        Step::Silent(350),
        Step::Silent(400),
    ],
    answers: &[
        (b"200\n\x00\x00", true),
        (b"\x0a\x82\x09\x01\x01f\x04\x04\x04\xf0\xe2\x03", false),
        (b"\x0a\x84\x05\x01\x00\x00\x00\x01", true),
        (
            b"\x0a\x85\x0d\x00\x00\x00\x01\x00\x00\x27\x10\x0a\x00\x00\x01\x01",
            false,
        ),
    ],
    sights: &[Sight(0, 1, 0), Sight(0, 1, 0), Sight(6, 1, 0)],
};

/// What an admin's question is answered.
const TABLE: Answer = (b"# table: t, type: ip, size:1000, used:1\n\n", false);

/// A command for which memory lacked.
const REFUSED: &[u8] = b"refused 9 NoMemory\n\n";

/// An admin who asks, and clears a key.
const CLEAR: Trial = Trial {
    title: "an admin who clears",
    fleet: TWO_PROXIES,
    who: Who::Admin,
    steps: &[
        Step::Bytes(b"show table\nclear ta"),
        Step::Bytes(b"ble t key 10.0.0.1\n"),
    ],
    answers: &[TABLE, (b"ok\n\n", true)],
    sights: &[Sight(5, 0, 0), Sight(0, 0, 0)],
};

/// An admin who asks, and adds a filter.
const ADD: Trial = Trial {
    title: "an admin who adds a filter",
    fleet: TWO_PROXIES,
    who: Who::Admin,
    steps: &[Step::Bytes(b"show table\nadd filter f t data.gpc0 ge 1\n")],
    answers: &[TABLE, (b"ok\n\n", true)],
    sights: &[Sight(5, 0, 0), Sight(5, 1, 0)],
};

/// The moments that a timer posts.
const MOMENTS: [u64; 4] = [100, 200, 300, 400];

/// A timer, which answers nothing.
const TIMER: Trial = Trial {
    title: "a timer",
    fleet: TWO_PROXIES,
    who: Who::Timer,
    steps: &[],
    answers: &[],
    sights: &[
        Sight(0, 0, 0),
        Sight(0, 0, 100),
        Sight(0, 0, 200),
        Sight(0, 0, 300),
        Sight(0, 0, 400),
    ],
};

/// All of them.
pub const TRIALS: [Trial; 5] = [SESSION, TOLD, CLEAR, ADD, TIMER];

/// How a worker ended, how many of its batches it answered, and how many are shown behind that.
#[derive(Clone, Copy)]
struct Deed {
    outcome: Outcome,
    answered: u64,
    shown: u64,
}

/// How many answers stand on a text that has nothing else, each whole or refused, and how many of
/// them whole behind a batch. None where there is something else.
fn answered_in(answers: &[Answer], text: &[u8]) -> Option<(usize, u64)> {
    let (mut rest, mut count, mut batches) = (text, 0usize, 0u64);
    for (answer, is_batch) in answers {
        if let Some(behind) = rest.strip_prefix(*answer) {
            rest = behind;
            batches = batches.saturating_add(u64::from(*is_batch));
        } else if let Some(behind) = rest.strip_prefix(REFUSED) {
            rest = behind;
        } else {
            break;
        }
        count = count.saturating_add(1);
    }
    if rest.is_empty() {
        Some((count, batches))
    } else {
        None
    }
}

/// Whether a text has the answers to these batches, all answers where the worker ended by itself,
/// and nothing else. Who answers nothing made all posts then.
fn answers_right(trial: &Trial, text: &[u8], deed: Deed) -> bool {
    let Some((count, batches)) = answered_in(trial.answers, text) else {
        return false;
    };
    if trial.answers.is_empty() {
        let most = (trial.sights.len() as u64).saturating_sub(1);
        return deed.outcome != Outcome::Whole || deed.answered == most;
    }
    batches == deed.answered && (count == trial.answers.len() || deed.outcome != Outcome::Whole)
}

/// Whether as many batches are shown as were answered, and one more where one was pending; and
/// whether a look shows what they bring.
fn shows_right(sights: &[Sight], sight: Sight, deed: Deed) -> bool {
    let wanted = match deed.outcome {
        Outcome::Whole | Outcome::NoMemory => deed.answered,
        Outcome::Pending => deed.answered.saturating_add(1),
        Outcome::Other => return false,
    };
    let place = usize::try_from(deed.shown).unwrap_or(usize::MAX);
    deed.shown == wanted && sights.get(place) == Some(&sight)
}

/// What a lens shows.
fn sight_in(alloc: Global, lens: &mut Lens) -> Result<Sight> {
    let key = Key::copy(alloc, &[10, 0, 0, 1])?;
    let Some(look) = lens.look() else {
        return Err(anyhow!("no look"));
    };
    let book = look.book();
    let sum = first_sum(book.summed(0, &key));
    Ok(Sight(sum, book.config().filters.len(), book.moment()))
}

/// Another seat, which posts before the worker sits down: for an admin a row of 10.0.0.1.
fn prepare<J: Naming, H: Wait + Drop, W: Wait>(
    rt: &W,
    alloc: Global,
    hub: &Hub<J, H>,
    pass: &mut Pass,
    who: Who,
) -> Result<Receipt>
    requires { pass.old.seen.of ≡ hub.now.of }
    ensures { IfOk result (λ r. (r.of ≡ hub.now.of) × (pass.new.seen.of ≡ hub.now.of)) }
{
    let Who::Admin = who else {
        return flush(rt, alloc, hub, pass);
    };
    let mut whats = alone(alloc, What::Open(1))?;
    whats.push(put(alloc, 1, 0x0a00_0001, 5)?)?;
    post(rt, alloc, hub, pass, whats)
}

/// What a worker wrote, and how it ended. None where it got no seat or no lens.
fn work<J: Naming, H: Wait + Drop, R: Wait + Clock>(
    rt: &R,
    alloc: Global,
    hub: &Hub<J, H>,
    trial: Trial,
    paper: Paper,
) -> Option<(Paper, Ending)> {
    let case = whole(trial.title, trial.steps);
    match trial.who {
        Who::Session => Some(talk(rt, alloc, hub, case, paper)),
        Who::Admin => command(rt, alloc, hub, case, paper, Door::Programs),
        Who::Timer => {
            let beats = Beats::new(MOMENTS);
            let gate = Turnstile::new(MOMENTS.len() as u64);
            let (ending, _) = tick(rt, alloc, hub, &beats, &gate)?;
            Some((paper, ending))
        }
    }
}

/// Prints a note of how a worker ended, and whether that is right.
fn say(rt: &impl Print, title: &str, deed: Deed, is_right: bool) -> Result<()> {
    let Deed {
        outcome,
        answered,
        shown,
    } = deed;
    println!(rt; "again: {title}: {outcome:?}, {answered} answered, {shown} shown")?;
    println!(rt; "{title} is right: {is_right}")?;
    Ok(())
}

/// Lets a worker work, and shows what it left by a post of another seat.
pub fn row<J: Naming, H: Wait + Drop, R: Wait + Clock + Print>(
    rt: &R,
    alloc: Global,
    hub: &Hub<J, H>,
    trial: Trial,
) -> Result<()> {
    let paper = Paper::roomy(alloc)?;
    let mut other = sit(rt, hub)?;
    let before = prepare(rt, alloc, hub, &mut other, trial.who)?.len();
    let Some((paper, ending)) = work(rt, alloc, hub, trial, paper) else {
        return Err(anyhow!("no seat or no lens"));
    };
    let mut lens = lens(rt, hub)?;
    let receipt = flush(rt, alloc, hub, &mut other)?;
    lens.learn(&receipt);
    let sight = sight_in(alloc, &mut lens)?;
    // (its Sit and its Leave are no batches)
    let deed = Deed {
        outcome: ending.outcome(),
        answered: ending.posted_behind(before.saturating_add(1)),
        shown: receipt.len().saturating_sub(before).saturating_sub(2),
    };
    let is_right = answers_right(&trial, paper.as_slice(), deed)
        && shows_right(trial.sights, sight, deed);
    say(rt, trial.title, deed, is_right)
}
