//! Keys that moved.

/// A key of a pushed table that came into the set or left it: whether it is in the set now.
#[derive(Clone, Copy)]
pub struct Moved<'a> {
    pub key: &'a [u8],
    pub is_in: bool,
}
