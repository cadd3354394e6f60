//! What a connection calls itself before its hello is accepted.

ghost use Rattle.std.specs.Prelude.{◌≤◌, ◌+◌, ◌*◌};
ghost use Rattle.agg_types.specs.declared.limits.TheConstants.{LONGEST_HELLO_LINE};

use agg_types::limits::LONGEST_HELLO_LINE;
use line_words::next_part;
use worker_frame::split_line;

/// The most bytes that the three lines of a hello have, with an LF each.
const LONGEST_HELLO: usize = 3 * (LONGEST_HELLO_LINE + 1);

/// The first bytes of a connection, as many as a hello may have.
#[derive(Drop)]
pub struct Hello {
    bytes: [u8; LONGEST_HELLO],
    count: usize,
    ghost within: { count ≤ 3 * (LONGEST_HELLO_LINE + 1) },
}

impl Hello {
    /// None yet.
    pub fn new() -> Hello {
        Hello {
            bytes: [0; LONGEST_HELLO],
            count: 0,
        }
    }

    /// Keeps the next bytes, as far as there is room.
    pub fn add(&mut self, piece: &[u8]) {
        let room = &mut self.bytes[self.count..];
        let count = piece.len().min(room.len());
        room[..count].copy_from_slice(&piece[..count]);
        self.count += count;
    }

    /// The name that its second line gives, by which it calls the collector. None where that line
    /// hasn't ended.
    pub fn called(&self) -> Option<&[u8]> {
        let (_, behind) = split_line(&self.bytes[..self.count])?;
        let (line, _) = split_line(behind)?;
        Some(line)
    }

    /// The name that its third line gives: what stands before the first space. None where that line
    /// hasn't ended.
    pub fn name(&self) -> Option<&[u8]> {
        let (_, behind) = split_line(&self.bytes[..self.count])?;
        let (_, behind) = split_line(behind)?;
        let (line, _) = split_line(behind)?;
        Some(next_part(line, b' ').0)
    }
}
