//! Names behind an equals sign, as the log and `show peers` write them.

ghost use Rattle.std.specs.Prelude.{◌≡◌, ◌++◌, length, take, OnOk};
ghost use Rattle.std.specs.List.{flat_map, list_all};
ghost use Rattle.answer_text.specs.Names.{escaped, is_bare, name_text, needs_escape};

use agg_types::NoMemory;
use key_text::append_text;

/// Appends a name: in double quotes, with its quotes and backslashes escaped, where it has one of
/// these or an equals sign. A name is of printable bytes.
#[tactic(auto, using(key_text::proofs::Begins::begins_then))]
pub(crate) fn append_name(name: &[u8], out: &mut Vec<u8>) -> Result<(), NoMemory>
    ensures ok { OnOk result (out.new.items ≡ out.old.items ++ name_text name.now) }
    ensures begins { take (length out.old.items) out.new.items ≡ out.old.items }
{
    if are_bare(name) {
        return append_text(name, out);
    }
    append_text(b"\"", out)?;
    append_escaped(name, out)?;
    append_text(b"\"", out)
}

// Whether a name can be taken for nothing else as it is.
fn are_bare(name: &[u8]) -> bool
    ensures { result ≡ list_all is_bare name.now }
{
    for byte in name {
        if !is_bare(*byte) {
            return false;
        }
    }
    true
}

fn append_escaped(name: &[u8], out: &mut Vec<u8>) -> Result<(), NoMemory>
    ensures ok { OnOk result (out.new.items ≡ out.old.items ++ flat_map escaped name.now) }
    ensures begins { take (length out.old.items) out.new.items ≡ out.old.items }
{
    for byte in name {
        append_byte(*byte, out)?;
    }
    Ok(())
}

#[tactic(auto, using(key_text::proofs::Begins::begins_then))]
fn append_byte(byte: u8, out: &mut Vec<u8>) -> Result<(), NoMemory>
    ensures ok { OnOk result (out.new.items ≡ out.old.items ++ escaped byte) }
    ensures begins { take (length out.old.items) out.new.items ≡ out.old.items }
{
    if needs_escape(byte) {
        append_text(b"\\", out)?;
    }
    append_text(&[byte], out)
}

fn is_bare(byte: u8) -> bool
    ensures { result ≡ is_bare byte }
{
    !needs_escape(byte) && byte != b'='
}

// A quote of either kind, or a backslash.
fn needs_escape(byte: u8) -> bool
    ensures { result ≡ needs_escape byte }
{
    byte == b'"' || byte == b'\'' || byte == b'\\'
}
