//! How the commands of an admin connection are answered.

ghost use Rattle.std.specs.Prelude.{◌≡◌};
ghost use Rattle.admin_worker.specs.Manners.{closing, first_manner, manner_behind, readers};
ghost use Rattle.admin_worker.specs.Manners.{wants_prompt};

use crate::asked::asks_prompt;
use worker_frame::Door;

/// How the next command of an admin connection is answered.
#[derive(Clone, Copy)]
pub struct Manner {
    /// For whom the answers are where no prompt is wanted.
    pub door: Door,
    /// Whether a prompt is wanted behind each answer. Then answers are for people.
    pub prompts: bool,
    /// Whether the command stands behind a `;`.
    pub behind: bool,
}

impl Manner {
    /// How the first command is answered.
    pub fn new(door: Door) -> Manner
        ensures { result ≡ first_manner door }
    {
        Manner {
            door,
            prompts: false,
            behind: false,
        }
    }

    /// For whom the answer is.
    pub fn readers(self) -> Door
        ensures { result ≡ readers self }
    {
        if self.prompts {
            Door::People
        } else {
            self.door
        }
    }

    // Whether a prompt is wanted behind a command.
    fn wants_prompt(self, line: &[u8]) -> bool
        ensures { result ≡ wants_prompt self line.now }
    {
        if asks_prompt(line) {
            !self.prompts
        } else {
            self.prompts
        }
    }

    /// What stands behind the answer to a command: an empty line, and a prompt where one is wanted.
    pub fn closing(self, line: &[u8]) -> &'static [u8]
        ensures { result.now ≡ closing self line.now }
    {
        if self.wants_prompt(line) {
            b"\n> "
        } else {
            b"\n"
        }
    }

    /// How the command behind this one is answered, which this byte ends.
    pub fn follow(self, line: &[u8], end: u8) -> Manner
        ensures { result ≡ manner_behind self line.now end }
    {
        Manner {
            door: self.door,
            prompts: self.wants_prompt(line),
            behind: end == b';',
        }
    }
}
