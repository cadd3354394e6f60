//! What the present command of an operator is, by how it begins: a line, or a part of one that `;`
//! ends or begins. HTTP's are whole lines, and a command may have spaces before it.

use crate::http_line::begins_as_http;

/// How many bytes of a line show whether it is HTTP's: as many as the longest method has, with its
/// space.
const HEAD: usize = 8;

/// How commands begin that change the history: their answers take no look.
const CHANGES: [&[u8]; 3] = [b"add ", b"clear ", b"del "];

/// What a line is.
#[derive(Clone, Copy, Debug, PartialEq, Eq)]
pub(crate) enum Line {
    /// HTTP's.
    Http,
    /// A command that changes the history.
    Change,
    /// Any other: what is answered may take a look.
    Question,
}

// What a command is that begins so, behind spaces. It may be HTTP's where it begins its line.
fn line_of(head: &[u8], begins_line: bool) -> Line {
    if begins_line && begins_as_http(head) {
        Line::Http
    } else if CHANGES.iter().any(|word| head.starts_with(word)) {
        Line::Change
    } else {
        Line::Question
    }
}

/// Whether a byte ends a command: each has its own time, and waits for a turn of its own.
pub(crate) fn ends_command(byte: u8) -> bool {
    byte == b'\n' || byte == b';'
}

/// The first bytes of a command that comes in pieces, behind its spaces.
#[derive(Drop)]
pub struct LineHead {
    bytes: [u8; HEAD],
    // how many of them came
    count: usize,
    // whether the first of them is the first byte of its line
    begins_line: bool,
}

impl LineHead {
    /// No byte of a command came.
    pub fn new() -> LineHead {
        LineHead {
            bytes: [0; HEAD],
            count: 0,
            begins_line: true,
        }
    }

    // A piece without the spaces before the command.
    fn skip_spaces<'p>(&mut self, piece: &'p [u8]) -> &'p [u8] {
        let spaces = piece
            .iter()
            .position(|byte| *byte != b' ')
            .unwrap_or(piece.len());
        if spaces > 0 {
            self.begins_line = false;
        }
        piece.get(spaces..).unwrap_or(b"")
    }

    // Keeps the first bytes of what came of the command, behind its spaces.
    fn keep(&mut self, piece: &[u8]) {
        let piece = if self.count == 0 {
            self.skip_spaces(piece)
        } else {
            piece
        };
        let Some(room) = self.bytes.get_mut(self.count..) else {
            return;
        };
        let count = room.len().min(piece.len());
        room[..count].copy_from_slice(&piece[..count]);
        self.count = self.count.saturating_add(count);
    }

    /// A piece of the command came, with no byte behind it: what the command is, where the piece
    /// ends it. Behind the end the next command begins.
    pub fn ends(&mut self, piece: &[u8]) -> Option<Line> {
        self.keep(piece);
        let last = piece.last()?;
        if !ends_command(*last) {
            return None;
        }
        let line = line_of(
            self.bytes.get(..self.count).unwrap_or(b""),
            self.begins_line,
        );
        self.count = 0;
        self.begins_line = *last == b'\n';
        Some(line)
    }
}
