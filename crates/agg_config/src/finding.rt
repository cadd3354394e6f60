//! All faults of a configuration's text.

ghost use Rattle.std.specs.Prelude.{◌≡◌, ◌≢◌, ◌++◌, ◌∷◌, [], IfOk, OnOk};
ghost use Rattle.line_words.specs.Words.{lines_of};
ghost use Rattle.agg_config.specs.Faults.{AreFaults};
ghost use Rattle.agg_config.specs.declared.causes.LineCause.TheVariants.{NoMemory as RefusedLine};

use crate::checker::Checker;
use crate::{LineCause, LineFault};
use agg_types::NoMemory;
use line_words::next_line;
use std::alloc::Global;

/// The faults of a configuration: the first faulty line, then the first one if that is left blank,
/// and so on. They are found in one pass: a faulty line takes no longer than another.
pub fn faults(alloc: Global, text: &[u8]) -> Result<Vec<LineFault>, NoMemory>
    ensures { IfOk result (λ faults. AreFaults (lines_of text.now) faults.items) }
{
    let mut checker = Checker::new(alloc)?;
    let mut faults = Vec::new(alloc);
    let mut left = text;
    'lines: while let Some((line, rest)) = next_line(left) {
        match checker.line(line) {
            Ok(()) => {}
            Err(fault) => note(&mut faults, fault)?,
        }
        left = rest;
    }
    match checker.finish() {
        None => Ok(faults),
        Some(fault) => {
            faults.push(fault)?;
            Ok(faults)
        }
    }
}

// Notes a fault, unless an allocation failed.
fn note(faults: &mut Vec<LineFault>, fault: LineFault) -> Result<(), NoMemory>
    ensures noted { OnOk result (faults.new.items ≡ faults.old.items ++ fault ∷ []) }
    ensures faulty { OnOk result (fault.cause ≢ RefusedLine) }
{
    if fault.cause == LineCause::NoMemory {
        return Err(NoMemory);
    }
    faults.push(fault)?;
    Ok(())
}
