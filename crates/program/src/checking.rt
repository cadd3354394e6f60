//! All that is wrong with a configuration, as it is told.

ghost use Rattle.std.specs.Prelude.{◌≡◌, IfOk, OnOk};
ghost use Rattle.std.specs.Io.KnownBytes.{Appends};
ghost use Rattle.line_words.specs.Words.{lines_of};
ghost use Rattle.config_text.specs.Explained.{explanations};
ghost use Rattle.program.specs.Checking.{checked_text, faults_text};
ghost use Rattle.program.specs.Faults.{line_text};

use agg_config::LineFault;
use agg_types::NoMemory;
use config_text::append_explanations;
use std::alloc::Global;
use std::io;
use std::io::Write;

/// What explains the faults of a text's lines.
pub(crate) fn explained_faults(
    alloc: Global,
    text: &[u8],
    faults: &[LineFault],
) -> Result<Vec<u8>, NoMemory>
    ensures { IfOk result (λ lines. lines.items ≡ explanations (lines_of text.now) faults.now) }
{
    let mut lines = Vec::new(alloc);
    append_explanations(text, faults, &mut lines)?;
    Ok(lines)
}

// Prints a faulty line of a configuration.
fn print_line<O: Write>(fault: LineFault, output: &mut O) -> io::Result<()>
    ensures { OnOk result
        (Appends (O.contents output.old) (O.contents output.new) (line_text fault)) }
{
    let line = fault.line;
    let name = fault.cause.name();
    writeln!(output, "config line {line}: {name}")
}

// Prints each faulty line.
fn print_lines<O: Write>(faults: &[LineFault], output: &mut O) -> io::Result<()>
    ensures { OnOk result
        (Appends (O.contents output.old) (O.contents output.new) (faults_text faults.now)) }
{
    for fault in faults {
        print_line(*fault, output)?;
    }
    Ok(())
}

/// Prints all faults of a configuration, or that there is none.
pub(crate) fn print_faults<O: Write>(faults: &[LineFault], output: &mut O) -> io::Result<()>
    ensures { OnOk result
        (Appends (O.contents output.old) (O.contents output.new) (checked_text faults.now)) }
{
    match faults {
        [] => writeln!(output, "ok"),
        faults => print_lines(faults, output),
    }
}
