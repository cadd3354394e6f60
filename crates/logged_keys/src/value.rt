//! How a line of the log writes a value.

use std::fmt;

/// A value, quoted where that is needed: so that no value begins a line or a key. Bytes outside
/// printable ASCII are escaped.
#[derive(Clone, Copy)]
pub struct Value<'a>(pub &'a [u8]);

impl<'a> Value<'a> {
    fn is_plain(&self) -> bool {
        let Value(bytes) = *self;
        let is_plain = |byte: &u8| byte.is_ascii_graphic() && !b"\"'\\=".contains(byte);
        !bytes.is_empty() && bytes.iter().all(is_plain)
    }
}

impl<'a> fmt::Display for Value<'a> {
    fn fmt<W: fmt::Write>(&self, f: &mut fmt::Formatter<W>) -> fmt::Result {
        let text = self.0.escape_ascii();
        if self.is_plain() {
            write!(f, "{text}")
        } else {
            write!(f, "\"{text}\"")
        }
    }
}
