//! What is remembered of a source.

use crate::Minute;

/// A source, and the minute in which its lines were told last.
#[derive(Drop)]
pub(crate) struct Flow {
    pub(crate) source: Vec<u8>,
    pub(crate) minute: Minute,
}
