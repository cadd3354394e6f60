//! From which files the lines come.

/// A file whose text stands behind others.
#[derive(Clone, Copy, Debug)]
pub struct Origin<'a> {
    /// Its name, as comments have it.
    pub name: &'a str,
    /// How many lines stand before its own.
    pub before: u64,
}
