//! From one text to the other.

ghost use Rattle.std.specs.Prelude.{◌≡◌, map, IfOk, OnOk};
ghost use Rattle.std.specs.Option.{option_map};
ghost use Rattle.line_words.specs.Words.{lines_of};
ghost use Rattle.haproxy_import.specs.Found.{Reads, as_space, declared, found, imported};

use crate::found::Found;
use crate::origins::Origin;
use crate::same::same_config;
use crate::text::text_of;
use agg_config::{LineCause, LineFault, read};
use agg_types::{Config, NoMemory};
use line_words::next_line;
use std::alloc::Global;
use thiserror::Error;

/// Why there is no configuration.
#[derive(Clone, Copy, Debug, PartialEq, Eq, Error)]
pub enum ImportFault {
    /// An allocation failed.
    #[error("out of memory")]
    NoMemory,
    /// The text wouldn't be read as what the file declares; not expected.
    #[error("the configuration can't be written")]
    Unlike,
}

impl From<NoMemory> for ImportFault {
    fn from(_refused: NoMemory) -> ImportFault {
        ImportFault::NoMemory
    }
}

/// The text of a collector's configuration, from that of a haproxy.cfg. The collector has the name
/// that is given, or else that of the last peer. Comments name the lines by these files.
///
/// The collector reads it without a fault, and has then exactly what `imported` says. The text is
/// read again before it is given: what would be read as something else is `Unlike`.
#[tactic(auto, unfolding(crate::specs::Found::imported))]
pub fn import(
    alloc: Global,
    me: Option<&[u8]>,
    text: &[u8],
    origins: &[Origin<'_>],
) -> Result<Vec<u8>, ImportFault>
    ensures { IfOk result (λ written.
        Reads written.items (imported (option_map (λ name. name.now) me.entry) text.now)) }
{
    let spaced = spaced(alloc, text)?;
    from_spaced(alloc, me, spaced.as_slice(), origins)
}

// The same of a text whose words only spaces separate.
#[tactic(auto, unfolding(crate::specs::Found::declared))]
fn from_spaced(
    alloc: Global,
    me: Option<&[u8]>,
    text: &[u8],
    origins: &[Origin<'_>],
) -> Result<Vec<u8>, ImportFault>
    ensures { IfOk result (λ written.
        Reads written.items (declared (option_map (λ name. name.now) me.entry) text.now)) }
{
    let found = found_in(alloc, me, text, origins)?;
    let config = found.config(me)?;
    let notes = found.into_notes()?;
    let written = text_of(alloc, &config, &notes)?;
    confirm(alloc, written.as_slice(), &config)?;
    Ok(written)
}

// Reads what was written, and compares it.
#[tactic(auto, unfolding(crate::specs::Found::Reads))]
fn confirm(alloc: Global, written: &[u8], config: &Config) -> Result<(), ImportFault>
    ensures { OnOk result (Reads written.now config.now) }
{
    match read(alloc, written) {
        Ok(back) => compare(&back, config),
        Err(fault) => Err(fault_of(fault)),
    }
}

fn compare(back: &Config, config: &Config) -> Result<(), ImportFault>
    ensures { OnOk result (back.now ≡ config.now) }
{
    if same_config(back, config) {
        Ok(())
    } else {
        Err(ImportFault::Unlike)
    }
}

fn fault_of(fault: LineFault) -> ImportFault {
    match fault.cause {
        LineCause::NoMemory => ImportFault::NoMemory,
        LineCause::Syntax | LineCause::Number | LineCause::Check(_) => ImportFault::Unlike,
    }
}

fn spaced(alloc: Global, text: &[u8]) -> Result<Vec<u8>, NoMemory>
    ensures { IfOk result (λ spaced. spaced.items ≡ map as_space text.now) }
{
    let spaced = text.iter().map(|byte| as_space(*byte)).collect(alloc)?;
    Ok(spaced)
}

// A tab and a CR separate words as a space does.
fn as_space(byte: u8) -> u8
    ensures { result ≡ as_space byte }
{
    if byte == b'\t' || byte == b'\r' {
        b' '
    } else {
        byte
    }
}

fn found_in<'a>(
    alloc: Global,
    me: Option<&[u8]>,
    text: &'a [u8],
    origins: &'a [Origin<'a>],
) -> Result<Found<'a>, NoMemory>
    ensures { IfOk result (λ state.
        state ≡ found (option_map (λ name. name.now) me.entry) (lines_of text.now)) }
{
    let mut found = Found::new(alloc, me, origins)?;
    let mut left = text;
    'lines: while let Some((line, rest)) = next_line(left) {
        found.line(line)?;
        left = rest;
    }
    Ok(found)
}
