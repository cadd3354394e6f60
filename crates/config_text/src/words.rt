//! Words behind a space.

ghost use Rattle.std.specs.Prelude.{◌≡◌, ◌++◌, ◌∷◌, OnOk};
ghost use Rattle.std.specs.Fmt.{decimal};

use agg_types::NoMemory;
use key_text::{append_number, append_text};

/// Appends a space and a word.
pub(crate) fn append_word(word: &[u8], out: &mut Vec<u8>) -> Result<(), NoMemory>
    ensures { OnOk result (out.new.items ≡ out.old.items ++ 32 ∷ word.now) }
{
    append_text(b" ", out)?;
    append_text(word, out)
}

/// Appends a space and a number.
pub(crate) fn append_figure(number: u64, out: &mut Vec<u8>) -> Result<(), NoMemory>
    ensures { OnOk result (out.new.items ≡ out.old.items ++ 32 ∷ decimal number) }
{
    append_text(b" ", out)?;
    append_number(u128::from(number), out)
}
