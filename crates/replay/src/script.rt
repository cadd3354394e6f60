//! A script of steps and commands, replayed.

ghost use Rattle.std.specs.Prelude.{◌≡◌, ◌++◌, codes, IfOk, OnOk, OnErr};
ghost use Rattle.std.specs.Fmt.{decimal};
ghost use Rattle.agg_config.specs.declared.causes.LineFault.{LineFault};
ghost use Rattle.replay.specs.Script.{BadLine, BadStart, OrNothing, ScriptPrints};
ghost use Rattle.replay.specs.Writing.{Wrote, WroteFront};

use crate::ending::Ending;
use crate::streams::replay_lines;
use crate::writing::write_text;
use agg_config::{LineCause, LineFault};
use agg_types::NoMemory;
use key_text::{append_number, append_text};
use std::alloc::Global;
use std::io;
use std::io::Write;

/// Replays a script as `replay_lines` does. A write that fails ends it, and so does a line for
/// which there is no memory: then a beginning of what it prints was written.
pub fn replay<W: Write>(alloc: Global, script: &[u8], out: &mut W) -> io::Result<Ending>
    ensures whole { IfOk result (Wrote (ScriptPrints script.now)
        (W.contents out.old) (W.contents out.new)) }
    ensures cut { OnErr result (WroteFront (ScriptPrints script.now)
        (W.contents out.old) (W.contents out.new)) }
{
    let mut left = script;
    replay_lines(alloc, &mut left, out)
}

/// Writes that a script has no line `start` that says a moment.
pub(crate) fn bad_start<W: Write>(alloc: Global, number: u128, out: &mut W) -> io::Result<Ending>
    ensures whole { IfOk result (Wrote (OrNothing (BadStart number))
        (W.contents out.old) (W.contents out.new)) }
    ensures cut { OnErr result (WroteFront (OrNothing (BadStart number))
        (W.contents out.old) (W.contents out.new)) }
{
    let mut text = Vec::new(alloc);
    let Ok(()) = append_start_fault(number, &mut text) else {
        return Ok(Ending::Failed);
    };
    write_text(text.as_slice(), out)?;
    Ok(Ending::BadScript)
}

fn append_start_fault(number: u128, out: &mut Vec<u8>) -> Result<(), NoMemory>
    ensures { OnOk result
        (out.new.items
        ≡ out.old.items ++ (codes "script line " ++ decimal number ++ codes ": start\n")) }
{
    append_text(b"script line ", out)?;
    append_number(number, out)?;
    append_text(b": start\n", out)
}

/// Writes what is wrong with a configuration.
pub(crate) fn bad_configuration<W: Write>(
    alloc: Global,
    fault: LineFault,
    out: &mut W,
) -> io::Result<Ending>
    ensures whole { IfOk result (Wrote (OrNothing (BadLine fault))
        (W.contents out.old) (W.contents out.new)) }
    ensures cut { OnErr result (WroteFront (OrNothing (BadLine fault))
        (W.contents out.old) (W.contents out.new)) }
{
    if fault.cause == LineCause::NoMemory {
        return Ok(Ending::Failed);
    }
    let Ok(text) = format!(in alloc; "{fault}\n") else {
        return Ok(Ending::Failed);
    };
    write_text(text.as_bytes(), out)?;
    Ok(Ending::BadConfiguration)
}
