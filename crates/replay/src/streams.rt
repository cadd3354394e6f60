//! A script that comes from a source, line by line.

ghost use Rattle.std.specs.Prelude.{◌≡◌, ◌≤◌, ◌^◌, IfOk, IfSome, OnErr, OnOk};
ghost use Rattle.line_words.specs.Words.{lines_of};
ghost use Rattle.replay.specs.Script.{IsReplayed, ScriptPrints};
ghost use Rattle.replay.specs.Source.{TakesLine};
ghost use Rattle.replay.specs.Writing.{Wrote, WroteFront};

use crate::ending::Ending;
use crate::running::run;
use crate::script::{bad_configuration, bad_start};
use crate::start::start_of;
use agg_config::Reader;
use std::alloc::Global;
use std::io;
use std::io::{BufRead, Write};

/// The most lines that are read of a part of a script; no source gives as many.
pub(crate) const MOST_LINES: u128 = 1 << 62;

/// Reads the next line of a source, with its LF if it has one, or nothing at the end. After a fault
/// the bytes are of no use.
#[tactic(auto, using(crate::proofs::Source::line_taken))]
pub(crate) fn take_line<R: BufRead>(source: &mut R, bytes: &mut Vec<u8>) -> io::Result<()>
    ensures { OnOk result (TakesLine (R.remaining source.old) (R.remaining source.new)
        bytes.new.items) }
{
    bytes.clear();
    source.read_until(b'\n', bytes)?;
    Ok(())
}

/// Replays a script that a source gives, line by line: its configuration up to the line `start`,
/// then steps and commands, and writes what each of them prints.
///
/// Of the script no more is kept than one line. A read or a write that fails ends it where it
/// fails, and so does a line for which there is no memory: then a beginning of what the script
/// prints was written.
///
/// Faults of the script are found in this order: the line `start`, the configuration, then line by
/// line. Out of memory ends it as `Ending::Failed`. Before the fleet is open nothing is written
/// then, and later `fault NoMemory` in place of the text of the line that wanted it. The lines of a
/// script are told in docs/REPLAY.md.
pub fn replay_lines<R: BufRead, W: Write>(
    alloc: Global,
    script: &mut R,
    out: &mut W,
) -> io::Result<Ending>
    ensures whole { IfSome (R.remaining script.old) (λ text. IfOk result
        (Wrote (ScriptPrints text) (W.contents out.old) (W.contents out.new))) }
    ensures cut { IfSome (R.remaining script.old) (λ text. OnErr result
        (WroteFront (ScriptPrints text) (W.contents out.old) (W.contents out.new))) }
{
    let Ok(config) = Reader::new(alloc) else {
        return Ok(Ending::Failed);
    };
    let start = start_of(alloc, config, script)?;
    let Some(opening) = start.opening else {
        return bad_start(alloc, start.number, out);
    };
    match start.config.finish() {
        Ok(config) => run(alloc, config, opening, script, start.number + 1, out),
        Err(fault) => bad_configuration(alloc, fault, out),
    }
}

/// Replays a script as `replay_lines` does, and flushes what it wrote. A read, a write or a flush
/// that fails ends it as `Ending::Failed`: then a beginning was written.
pub fn replay_from<R: BufRead, W: Write>(alloc: Global, script: &mut R, out: &mut W) -> Ending
    ensures { IfSome (R.remaining script.old)
        (λ bytes. IsReplayed bytes (W.contents out.old) (W.contents out.new) result) }
{
    let Ok(ending) = replay_lines(alloc, script, out) else {
        return Ending::Failed;
    };
    match out.flush() {
        Ok(()) => ending,
        Err(_) => Ending::Failed,
    }
}
