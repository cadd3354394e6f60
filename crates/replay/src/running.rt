//! The lines behind `start`, one after the other.

ghost use Rattle.std.specs.Prelude.{◌≡◌, ◌++◌, ◌≤◌, ◌^◌, [], ℕ, List, codes, IfOk, IfSome, OnOk};
ghost use Rattle.std.specs.Prelude.{OnErr};
ghost use Rattle.std.specs.Fmt.{decimal};
ghost use Rattle.agg_types.specs.Check.{config_faults};
ghost use Rattle.agg_types.specs.declared.config.Config.{Config};
ghost use Rattle.agg_types.specs.declared.limits.TheConstants.{LAST_MOMENT};
ghost use Rattle.fleet_core.specs.declared.step.Step.{Step};
ghost use Rattle.line_words.specs.Words.{lines_of};
ghost use Rattle.replay.specs.Given.{IsSettled};
ghost use Rattle.replay.specs.Meaning.{fault_text};
ghost use Rattle.replay.specs.Runs.{LineDid, LineGives, Prints};
ghost use Rattle.replay.specs.Script.{OrNothing};
ghost use Rattle.replay.specs.Writing.{Wrote, WroteFront};

use crate::commands::ask;
use crate::doing::do_step;
use crate::ending::Ending;
use crate::steps::{Meaning, meaning_of};
use crate::streams::{MOST_LINES, take_line};
use crate::writing::write_text;
use agg_types::{Config, NoMemory};
use fleet_core::Fleet;
use key_text::{append_number, append_text};
use line_words::{Expected, next_line};
use std::alloc::Global;
use std::io;
use std::io::{BufRead, ErrorKind, Write};

/// Opens a fleet and does what the lines that a source has left say, the first of which has this
/// number: writes what each prints, and tells how the replay ends. Where an allocation of the
/// opening fails, nothing is written.
pub fn run<R: BufRead, W: Write>(
    alloc: Global,
    config: Config,
    opening: u64,
    script: &mut R,
    first: u128,
    out: &mut W,
) -> io::Result<Ending>
    requires checked { config_faults config ≡ [] }
    requires in_range { opening ≤ LAST_MOMENT }
    requires numbered { first ≤ 2 ^ 64 }
    ensures whole { IfSome (R.remaining script.old) (λ text. IfOk result
        (Wrote (OrNothing (Prints config opening (lines_of text) [] first))
        (W.contents out.old) (W.contents out.new))) }
    ensures cut { IfSome (R.remaining script.old) (λ text. OnErr result
        (WroteFront (OrNothing (Prints config opening (lines_of text) [] first))
        (W.contents out.old) (W.contents out.new))) }
{
    let Ok(mut fleet) = Fleet::new(alloc, config, opening) else {
        return Ok(Ending::Failed);
    };
    let mut bytes = Vec::new(alloc);
    let mut printed = Vec::new(alloc);
    'lines: for number in first..first + MOST_LINES {
        take_line(script, &mut bytes)?;
        let Some((line, _)) = next_line(bytes.as_slice()) else {
            return Ok(Ending::Done);
        };
        printed.clear();
        let Ok(ended) = do_line(alloc, &mut fleet, line, number, &mut printed) else {
            write_text(b"fault NoMemory\n", out)?;
            return Ok(Ending::Failed);
        };
        write_text(printed.as_slice(), out)?;
        if let Some(ending) = ended {
            return Ok(ending);
        }
    }
    Err(io::Error::from(ErrorKind::FileTooLarge))
}

// Does what a line says, appends what it prints, and tells how the replay ends by it, if it does.
fn do_line(
    alloc: Global,
    fleet: &mut Fleet,
    line: &[u8],
    number: u128,
    out: &mut Vec<u8>,
) -> Result<Option<Ending>, NoMemory>
    ensures { (config : Config) (opening : ℕ) (past : List Step)
        → IsSettled fleet.old config opening past
        → IfOk result (LineDid (LineGives config opening past number line.now) fleet.new config
        opening out.old.items out.new.items) }
{
    match meaning_of(alloc, line)? {
        Meaning::Nothing => Ok(None),
        Meaning::Does(step) => do_step(alloc, fleet, &step, out),
        Meaning::BadStep(at) => append_bad(number, fault_text(at.expected), out),
        Meaning::Asks => ask(alloc, fleet, line, out),
    }
}

// What is printed of a bad step.
fn fault_text(expected: Expected) -> &'static [u8]
    ensures { result.now ≡ fault_text expected }
{
    match expected {
        Expected::Hexadecimal => b": hex\n",
        _ => b": step\n",
    }
}

fn append_bad(number: u128, fault: &[u8], out: &mut Vec<u8>) -> Result<Option<Ending>, NoMemory>
    ensures text { OnOk result
        (out.new.items ≡ out.old.items ++ (codes "script line " ++ decimal number ++ fault.now)) }
    ensures ended { IfOk result (λ ending. ending ≡ Some Ending.BadScript) }
{
    append_text(b"script line ", out)?;
    append_number(number, out)?;
    append_text(fault, out)?;
    Ok(Some(Ending::BadScript))
}
