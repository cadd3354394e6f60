//! Texts that are written whole, or a beginning of them.

ghost use Rattle.std.specs.Prelude.{◌≡◌, ◌≤◌, length, drop, OnOk, OnErr};
ghost use Rattle.std.specs.Io.KnownBytes.{Appends};
ghost use Rattle.replay.specs.Writing.{AppendsFront};

use std::io;
use std::io::{ErrorKind, Write};

/// Writes a text whole. Where a write fails, a beginning of the text was written; one that was only
/// interrupted is done again.
pub fn write_text<W: Write>(text: &[u8], out: &mut W) -> io::Result<()>
    ensures whole { OnOk result (Appends (W.contents out.old) (W.contents out.new) text.now) }
    ensures cut { OnErr result (AppendsFront (W.contents out.old) (W.contents out.new) text.now) }
{
    let mut left = text;
    'writes: for _ in 0..u64::MAX {
        if left.is_empty() {
            return Ok(());
        }
        match out.write(left) {
            Ok(0) => return Err(io::Error::from(ErrorKind::WriteZero)),
            Ok(count) => left = behind(left, count),
            Err(error) if error.kind() == ErrorKind::Interrupted => {}
            Err(error) => return Err(error),
        }
    }
    Err(io::Error::from(ErrorKind::Interrupted))
}

// What stands behind the first bytes of a text, this many.
fn behind(text: &[u8], len: usize) -> &[u8]
    requires { len ≤ length text.now }
    ensures { result.now ≡ drop len text.now }
{
    &text[len..]
}
