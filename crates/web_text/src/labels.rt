//! Values of labels in Prometheus's text format.

ghost use Rattle.std.specs.Prelude.{◌≡◌, ◌++◌, OnOk};
ghost use Rattle.std.specs.List.{flat_map};
ghost use Rattle.web_text.specs.Labels.{label_byte, label_text};

use agg_types::NoMemory;

/// Appends the text of a label's value, without the quotes around it: a backslash, a quote and a
/// line break are escaped.
pub fn append_label(value: &[u8], out: &mut Vec<u8>) -> Result<(), NoMemory>
    ensures { OnOk result (out.new.items ≡ out.old.items ++ label_text value.now) }
{
    for byte in value {
        append_byte(*byte, out)?;
    }
    Ok(())
}

fn append_byte(byte: u8, out: &mut Vec<u8>) -> Result<(), NoMemory>
    ensures { OnOk result (out.new.items ≡ out.old.items ++ label_byte byte) }
{
    match byte {
        b'\\' => out.extend_from_slice(b"\\\\")?,
        b'"' => out.extend_from_slice(b"\\\"")?,
        b'\n' => out.extend_from_slice(b"\\n")?,
        _ => out.push(byte)?,
    }
    Ok(())
}
