//! Commands of a script, over the fleet.

ghost use Rattle.std.specs.Prelude.{◌≡◌, ℕ, List, IfOk, IsTrue};
ghost use Rattle.agg_types.specs.declared.config.Config.{Config};
ghost use Rattle.fleet_core.specs.Possible.{does_fit};
ghost use Rattle.fleet_core.specs.declared.step.Step.{Step};
ghost use Rattle.replay.specs.Given.{Did, IsSettled, step_given};
ghost use Rattle.replay.specs.Runs.{AskOrRefusal, CommandGives, LineDid, step_of, change_given};
ghost use Rattle.replay.specs.Runs.{state_after};
ghost use Rattle.show_clear.specs.Answer.{NamesExist};
ghost use Rattle.show_clear.specs.Change.{ChangeFits};
ghost use Rattle.show_clear.specs.Parse.{command_of};

use crate::doing::do_step;
use crate::ending::Ending;
use agg_types::NoMemory;
use fleet_core::{Fleet, Step};
use key_text::append_text;
use show_clear::{Change, Command, answer, parse, refusal};
use std::alloc::Global;

/// Does what a command asks for, and appends its answer or its refusal. After `NoMemory` neither
/// the fleet nor the text are of use.
pub fn ask(
    alloc: Global,
    fleet: &mut Fleet,
    line: &[u8],
    out: &mut Vec<u8>,
) -> Result<Option<Ending>, NoMemory>
    ensures { (config : Config) (opening : ℕ) (past : List Step)
        → IsSettled fleet.old config opening past
        → IfOk result (LineDid
        (AskOrRefusal config opening past
        (command_of (state_after config opening past) line.now))
        fleet.new config opening out.old.items out.new.items) }
{
    match parse(alloc, fleet.book(), line) {
        Ok(command) => obey(alloc, fleet, command, out),
        Err(fault) => {
            refusal(&fault, out)?;
            Ok(None)
        }
    }
}

// Does what a command asks for, whose names stand in the book.
fn obey(
    alloc: Global,
    fleet: &mut Fleet,
    command: Command,
    out: &mut Vec<u8>,
) -> Result<Option<Ending>, NoMemory>
    requires stands { NamesExist fleet.old.book command }
    requires fits { ChangeFits fleet.old.book command }
    ensures { (config : Config) (opening : ℕ) (past : List Step)
        → IsSettled fleet.old config opening past
        → IfOk result (LineDid (CommandGives config opening past command)
        fleet.new config opening out.old.items out.new.items) }
{
    match command {
        Command::Ask(question) => {
            answer(alloc, fleet.book(), &Command::Ask(question), out)?;
            Ok(None)
        }
        Command::Change(change) => change_fleet(alloc, fleet, &step_of(change), out),
    }
}

// The step that makes a change.
fn step_of(change: Change) -> Step
    ensures { result ≡ step_of change }
{
    match change {
        Change::Clear { table, sel } => Step::Clear { table, sel },
        Change::AddFilter(filter) => Step::AddFilter(filter),
        Change::DropFilter(name) => Step::DropFilter(name),
    }
}

// Does the step of a command that changes something, and appends `ok`.
fn change_fleet(
    alloc: Global,
    fleet: &mut Fleet,
    step: &Step,
    out: &mut Vec<u8>,
) -> Result<Option<Ending>, NoMemory>
    requires fits { IsTrue (does_fit fleet.old.book.config step.now) }
    ensures { (config : Config) (opening : ℕ) (past : List Step)
        → IsSettled fleet.old config opening past
        → IfOk result (Did (change_given (step_given config opening past step.now)) fleet.new
        config opening out.old.items out.new.items) }
{
    let ending = do_step(alloc, fleet, step, out)?;
    if ending.is_none() {
        append_text(b"ok\n", out)?;
    }
    Ok(ending)
}
