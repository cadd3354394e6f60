//! Steps of a script, done by the fleet.

ghost use Rattle.std.specs.Prelude.{◌≡◌, ◌≢◌, ◌++◌, ℕ, List, IsTrue, IfOk, OnOk, Err, None};
ghost use Rattle.agg_types.specs.declared.config.Config.{Config};
ghost use Rattle.fleet_core.specs.Possible.{does_fit};
ghost use Rattle.fleet_core.specs.declared.step.FleetFault.TheVariants.{NoMemory as Refused};
ghost use Rattle.fleet_core.specs.declared.step.Step.{Step};
ghost use Rattle.replay.specs.Given.{Did, IsSettled, answer_ending, answer_text, came_text};
ghost use Rattle.replay.specs.Given.{done_text, step_given};

use crate::ending::Ending;
use crate::tellings::append_shown;
use crate::texts::{append_conn, append_end, append_sent};
use agg_types::NoMemory;
use fleet_core::{Fleet, FleetFault, Replies, Step};
use key_text::append_text;
use std::alloc::Global;

/// Does a step, appends what it prints, and tells how the replay ends by it, if it does. After
/// `NoMemory` neither the fleet nor the text are of use.
pub fn do_step(
    alloc: Global,
    fleet: &mut Fleet,
    step: &Step,
    out: &mut Vec<u8>,
) -> Result<Option<Ending>, NoMemory>
    requires fits { IsTrue (does_fit fleet.old.book.config step.now) }
    ensures { (config : Config) (opening : ℕ) (past : List Step)
        → IsSettled fleet.old config opening past
        → IfOk result (Did (step_given config opening past step.now) fleet.new config opening
        out.old.items out.new.items) }
{
    let answer = fleet.step(step);
    let ending = append_answer(alloc, step, answer, out)?;
    if fleet.waiting() > 0 {
        return Err(NoMemory);
    }
    append_shown(alloc, fleet, step, out)?;
    Ok(ending)
}

// Appends what is printed of what a fleet answers, and tells how the replay ends by it.
fn append_answer(
    alloc: Global,
    step: &Step,
    answer: Result<Replies, FleetFault>,
    out: &mut Vec<u8>,
) -> Result<Option<Ending>, NoMemory>
    ensures text { OnOk result (out.new.items ≡ out.old.items ++ answer_text step.now answer) }
    ensures ended { IfOk result (λ ending. ending ≡ answer_ending answer) }
    ensures kept { OnOk result (answer ≢ Err Refused) }
{
    match answer {
        Ok(replies) => append_done(alloc, step, &replies, out)?,
        Err(fault) => match fault {
            FleetFault::NoConn => append_text(b"fault NoConn\n", out)?,
            FleetFault::Spent => {
                append_text(b"fault Spent\n", out)?;
                return Ok(Some(Ending::Failed));
            }
            FleetFault::NoMemory => return Err(NoMemory),
            FleetFault::Session { cause, out: sent } => {
                append_sent(alloc, step.conn(), sent.as_slice(), out)?;
                append_end(step.conn(), cause, out)?;
            }
        },
    }
    Ok(None)
}

// Appends what is printed of a step that ended no session.
fn append_done(
    alloc: Global,
    step: &Step,
    replies: &Replies,
    out: &mut Vec<u8>,
) -> Result<(), NoMemory>
    ensures { OnOk result (out.new.items ≡ out.old.items ++ done_text step.now replies.now None) }
{
    append_came(step, replies.conn, out)?;
    append_sent(alloc, replies.conn, replies.out.as_slice(), out)
}

fn append_came(step: &Step, conn: u64, out: &mut Vec<u8>) -> Result<(), NoMemory>
    ensures { OnOk result (out.new.items ≡ out.old.items ++ came_text step.now conn) }
{
    match step {
        Step::Connect => append_conn(conn, out),
        _ => Ok(()),
    }
}
