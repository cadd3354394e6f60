//! The texts of several files, one behind the other.

ghost use Rattle.std.specs.Prelude.{◌≡◌, IfOk, IfSome};
ghost use Rattle.program.specs.Texts.{joined_of, texts_from};

use crate::files::{Files, read_text};
use haproxy_import::Origin;
use std::alloc::Global;
use std::io;
use std::io::Read;

/// The text of files, one behind the other, and how many lines stand before each.
#[derive(Drop)]
pub(crate) struct Texts<'a> {
    pub(crate) text: Vec<u8>,
    pub(crate) origins: Vec<Origin<'a>>,
}

/// The texts of the files that are named, each with an LF behind it, or else that of standard
/// input.
pub(crate) fn read_texts<'a, F: Files, I: Read>(
    alloc: Global,
    files: &F,
    names: &[&'a str],
    input: &mut I,
) -> io::Result<Texts<'a>>
    ensures { IfOk result (λ read. IfSome
        (texts_from (F.holds files.now) names.now (I.remaining input.old))
        (λ known. read.text.items ≡ known)) }
{
    match names {
        [] => Ok(Texts {
            text: read_text(alloc, files, None, input)?,
            origins: Vec::new(alloc),
        }),
        names => join(alloc, files, names),
    }
}

// The texts of files, each with an LF behind it.
fn join<'a, F: Files>(alloc: Global, files: &F, names: &[&'a str]) -> io::Result<Texts<'a>>
    ensures { IfOk result (λ read. IfSome (joined_of (F.holds files.now) names.now)
        (λ known. read.text.items ≡ known)) }
{
    let mut text = Vec::new(alloc);
    let mut origins = Vec::new(alloc);
    let mut before: u64 = 0;
    for name in names {
        let origin = Origin { name, before };
        origins.push(origin)?;
        let part = files.read(alloc, name)?;
        before = count_lines(part.as_slice()).saturating_add(before);
        text.extend_from_slice(part.as_slice())?;
        text.push(b'\n')?;
    }
    Ok(Texts { text, origins })
}

// How many lines a text has with an LF behind it.
fn count_lines(text: &[u8]) -> u64 {
    let mut count: u64 = 1;
    for byte in text {
        if *byte == b'\n' {
            count = count.saturating_add(1);
        }
    }
    count
}
