//! The words of the command line.

ghost use Rattle.std.specs.Prelude.{◌≡◌, ◌⊎◌, IfOk};

use crate::fault::FAULT;
use std::env::Env;
use std::io;
use std::io::{ErrorKind, Write};

/// The status of a bad command line.
const BAD_WORDS: u8 = 2;

/// The words of the command line, the first of them the program's name. `InvalidData` says that a
/// word isn't UTF-8.
pub fn arguments<R: Env + AllocGlobal>(rt: &R) -> io::Result<Vec<String>> {
    let mut words = Vec::new(rt.alloc());
    for word in std::env::args(rt)? {
        words.push(word)?;
    }
    Ok(words)
}

/// Answers the exit status where `arguments` failed so: 2 for a word that isn't UTF-8, of which it
/// writes `bad text` to standard error, and 5 for all else.
pub fn tell_no_words<E: Write>(fault: &io::Error, errors: &mut E) -> io::Result<u8>
    ensures status { IfOk result (λ status. (status ≡ 2) ⊎ (status ≡ 5)) }
{
    if fault.kind() != ErrorKind::InvalidData {
        return Ok(FAULT);
    }
    writeln!(errors, "bad text")?;
    Ok(BAD_WORDS)
}
