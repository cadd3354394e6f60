//! The files that words of a command line name.

ghost use Rattle.std.specs.Prelude.{◌≡◌, ℕ, List, Option, IfOk, IfSome};
ghost use Rattle.program.specs.Texts.{read_from};

use std::alloc::Global;
use std::io;
use std::io::Read;

/// Where files are found by their names: on a disk, or in memory.
pub trait Files {
    // what a file of this name is known to hold
    ghost holds: { Self → List ℕ → Option (List ℕ) };

    /// Reads a file to its end.
    fn read(&self, alloc: Global, name: &str) -> io::Result<Vec<u8>>
        ensures { IfOk result (λ text.
            IfSome (holds self.now name.now) (λ known. text.items ≡ known)) };
}

/// The text of the file that is named, or else of standard input.
pub(crate) fn read_text<F: Files, I: Read>(
    alloc: Global,
    files: &F,
    name: Option<&str>,
    input: &mut I,
) -> io::Result<Vec<u8>>
    ensures { IfOk result (λ text. IfSome
        (read_from (F.holds files.now) name.entry (I.remaining input.old))
        (λ known. text.items ≡ known)) }
{
    match name {
        Some(name) => files.read(alloc, name),
        None => {
            let mut text = Vec::new(alloc);
            input.read_to_end(&mut text)?;
            Ok(text)
        }
    }
}
