//! Pieces of text behind a label.

ghost use Rattle.std.specs.Prelude.{◌≡◌, ◌++◌, length, take, OnOk};
ghost use Rattle.std.specs.Fmt.{decimal};

use agg_types::NoMemory;
use key_text::{append_number, append_text};

/// Appends a label and a text. After `NoMemory` the label may stand behind what was there.
#[inline]
pub fn append_labelled(label: &[u8], text: &[u8], out: &mut Vec<u8>) -> Result<(), NoMemory>
    ensures ok { OnOk result (out.new.items ≡ out.old.items ++ label.now ++ text.now) }
    ensures begins { take (length out.old.items) out.new.items ≡ out.old.items }
{
    append_text(label, out)?;
    append_text(text, out)
}

/// Appends a label and a number. After `NoMemory` the label may stand behind what was there.
#[inline]
pub fn append_counted(label: &[u8], number: u128, out: &mut Vec<u8>) -> Result<(), NoMemory>
    ensures ok { OnOk result (out.new.items ≡ out.old.items ++ label.now ++ decimal number) }
    ensures begins { take (length out.old.items) out.new.items ≡ out.old.items }
{
    append_text(label, out)?;
    append_number(number, out)
}
