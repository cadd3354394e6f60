//! Words of a line, and names, as they are told.

ghost use Rattle.std.specs.Prelude.{◌≡◌, ◌++◌, [], map, take, OnOk};
ghost use Rattle.agg_types.specs.Col.{col_name};
ghost use Rattle.show_clear.specs.Explained.{listed, names_text, printed, quoted};

use agg_types::{Col, Named, NoMemory};
use answer_text::append_labelled;
use key_text::append_text;

/// How many bytes of a word are told.
pub(crate) const MOST_QUOTED: usize = 40;

// What stands between names.
const COMMA: &[u8] = b", ";

/// Appends the first bytes of a word in quotes, those that don't print as `?`.
pub(crate) fn append_quoted(word: &[u8], out: &mut Vec<u8>) -> Result<(), NoMemory>
    ensures { OnOk result (out.new.items ≡ out.old.items ++ quoted word.now) }
{
    append_text(b"\"", out)?;
    append_printed(first_bytes(word), out)?;
    append_text(b"\"", out)
}

fn first_bytes(word: &[u8]) -> &[u8]
    ensures { result.now ≡ take MOST_QUOTED word.now }
{
    front_of(word, MOST_QUOTED)
}

// The first bytes, this many or all.
#[tactic(auto, using(crate::proofs::TextsBehind::take_short))]
fn front_of(bytes: &[u8], count: usize) -> &[u8]
    ensures { result.now ≡ take count bytes.now }
{
    if count < bytes.len() {
        &bytes[..count]
    } else {
        bytes
    }
}

fn append_printed(bytes: &[u8], out: &mut Vec<u8>) -> Result<(), NoMemory>
    ensures { OnOk result (out.new.items ≡ out.old.items ++ map printed bytes.now) }
{
    for byte in bytes {
        out.push(printed(*byte))?;
    }
    Ok(())
}

// A byte as it is told.
fn printed(byte: u8) -> u8
    ensures { result ≡ printed byte }
{
    if 32 <= byte && byte <= 126 {
        byte
    } else {
        b'?'
    }
}

/// Appends names behind a label, with commas between them, or that there is none.
pub(crate) fn append_names<T: Named>(
    label: &[u8],
    entries: &[T],
    out: &mut Vec<u8>,
) -> Result<(), NoMemory>
    ensures { OnOk result
        (out.new.items ≡ out.old.items ++ names_text label.now (map T.name_of entries.now)) }
{
    if entries.is_empty() {
        return append_text(b"; there is none", out);
    }
    append_text(label, out)?;
    append_listed(entries, out)
}

fn append_listed<T: Named>(entries: &[T], out: &mut Vec<u8>) -> Result<(), NoMemory>
    ensures { OnOk result
        (out.new.items ≡ out.old.items ++ listed [] (map T.name_of entries.now)) }
{
    let mut before = b"".as_slice();
    for entry in entries {
        append_labelled(before, entry.name(), out)?;
        before = COMMA;
    }
    Ok(())
}

/// Appends the names of columns, with commas between them.
pub(crate) fn append_columns(cols: &[(Col, u32)], out: &mut Vec<u8>) -> Result<(), NoMemory>
    ensures { OnOk result (out.new.items
        ≡ out.old.items ++ listed [] (map (λ col. col_name col.0) cols.now)) }
{
    let mut before = b"".as_slice();
    for col in cols {
        append_labelled(before, col.0.name().as_bytes(), out)?;
        before = COMMA;
    }
    Ok(())
}
