//! An admin at work: its lens, its seat, and the part of a line that hasn't ended.

ghost use Rattle.std.specs.Prelude.{◌≡◌, ◌++◌, ℕ, List, [], false, IfOk, IfSome, OnOk};
ghost use Rattle.agg_types.specs.declared.event.What.{What};
ghost use Rattle.hub.specs.History.{Beginning};
ghost use Rattle.hub.specs.Posts.{Follows, SitsDown};
ghost use Rattle.hub.specs.Roll.{MayPost};
ghost use Rattle.admin_worker.specs.Status.{quits};

use crate::answering::{Answered, answer_to};
use crate::asked::is_blank;
use crate::line::Line;
use crate::manner::Manner;
use agg_types::NoMemory;
use hub::{Lens, Pass};
use show_clear::without_returns;
use std::alloc::Global;
use std::net::SocketAddr;
use worker_frame::{Door, Gate, News, Place, Poster};

/// After so many reads in a row that gave nothing an admin connection is over.
const MOST_SILENT: u32 = 20;

/// An admin at work.
#[derive(Drop)]
pub struct AdminWorker {
    pub lens: Lens,
    pub poster: Poster,
    pub line: Line,
    /// How that is answered.
    pub manner: Manner,
    /// How many reads in a row gave nothing.
    pub silent: u32,
    // who sends its lines, where that has an address
    sender: Option<SocketAddr>,
}

impl AdminWorker {
    ghost use Rattle.admin_worker.specs.Commanding.{HasLearned, LooksTo, kept_of};
    ghost use Rattle.admin_worker.specs.Commands.{is_silent};
    ghost use Rattle.admin_worker.specs.Manners.{first_manner};

    /// An admin that has read nothing, at some door.
    pub fn new(
        alloc: Global,
        lens: Lens,
        pass: Pass,
        sender: Option<SocketAddr>,
        door: Door,
    ) -> AdminWorker
        ensures pass { result.poster.pass ≡ pass }
        ensures lens { result.lens ≡ lens }
        ensures line { result.line.bytes.items ≡ [] }
        ensures manner { result.manner ≡ first_manner door }
        ensures learned { (hub : Beginning) → SitsDown pass → Follows hub pass.seen
            → Follows hub lens.seen → HasLearned hub hub pass.seat result [] }
    {
        let poster = Poster::new(pass);
        let line = Line::new(alloc);
        AdminWorker {
            lens,
            poster,
            line,
            manner: Manner::new(door),
            silent: 0,
            sender,
        }
    }

    /// Answers the command that is kept, over a look that has all that was posted and learned. None
    /// where no copy of the book could be entered.
    pub fn look<G: Gate>(&mut self, alloc: Global, gate: &G) -> Result<Option<Answered>, NoMemory>
        ensures poster { self.new.poster ≡ self.old.poster }
        ensures lens { Follows self.old.lens.seen self.new.lens.seen }
        ensures fits { (hub : Beginning) → Follows hub self.old.lens.seen
            → IfOk result (λ o. IfSome o (λ a. IfSome a.change (MayPost hub.config))) }
        ensures looks { (hub since : Beginning) (seat : ℕ) (whats : List What) (line : List ℕ)
            → HasLearned hub since seat self.old whats → self.old.line.bytes.items ≡ kept_of line
            → quits line ≡ false
            → LooksTo self.old.manner hub since seat self.new whats line result }
    {
        let Some(look) = self.lens.look() else {
            return Ok(None);
        };
        let answered = answer_to(alloc, gate, look.book(), self.line.as_slice(), self.manner)?;
        Ok(Some(answered))
    }

    /// Whether the part that is kept is blank and stands behind a `;`: that is no command.
    pub fn is_silent(&self) -> bool
        ensures { result ≡ is_silent self.now.manner.behind self.now.line.bytes.items }
    {
        self.manner.behind && is_blank(self.line.as_slice())
    }

    /// Adds bytes to the part that is kept.
    pub fn keep(&mut self, bytes: &[u8]) -> Result<(), NoMemory>
        ensures poster { self.new.poster ≡ self.old.poster }
        ensures lens { self.new.lens ≡ self.old.lens }
        ensures manner { self.new.manner ≡ self.old.manner }
        ensures keeps { (line : List ℕ) → self.old.line.bytes.items ≡ kept_of line
            → OnOk result (self.new.line.bytes.items ≡ kept_of (line ++ bytes.now)) }
    {
        self.line.add(bytes)
    }

    /// Tells that the command that is kept changed something.
    pub fn tell<G: Gate>(&self, gate: &G) {
        let line = without_returns(self.line.as_slice());
        gate.tell(Place::Admin, News::Changed(self.sender, line));
    }

    /// Notes that a read gave nothing. Whether the connection goes on.
    pub fn wait(&mut self) -> bool
        ensures poster { self.new.poster ≡ self.old.poster }
        ensures lens { self.new.lens ≡ self.old.lens }
        ensures line { self.new.line ≡ self.old.line }
        ensures manner { self.new.manner ≡ self.old.manner }
    {
        self.silent = self.silent.saturating_add(1);
        self.silent < MOST_SILENT
    }

    /// What is left of it once it has ended.
    pub fn into_poster(self) -> Poster
        ensures { result ≡ self.poster }
    {
        let AdminWorker { poster, .. } = self;
        poster
    }
}
