//! Who answers the requests of a connection.

ghost use Rattle.std.specs.Prelude.{◌≡◌, true};
ghost use Rattle.hub.specs.Posts.{Follows};

use crate::asking::{ListFault, entries_of, list_of};
use crate::changing::changes_of;
use crate::checks::{health, query_of, refused_early};
use crate::facts::Facts;
use crate::looks::{Looks, Shared};
use crate::reply::{Kind, Reply};
use agg_types::{Config, NoMemory};
use bytes::Bytes;
use http::{Request, StatusCode};
use http_server::{Response, Service};
use hub::{Lens, Look, Naming};
use show_clear::CommandFault;
use std::alloc::{AllocError, Global};
use std::marker::PhantomData;
use std::sync::{Arc, Wait};
use std::time::Clock;
use thiserror::Error;
use web_lists::summed_up;
use web_page::PAGE;
use web_target::{Question, TargetFault, read};
use web_text::{AskFault, Standing, Summary, figures, overview, peer_list};

/// Why there is no answer of a book.
#[derive(Debug, Drop, Error)]
enum Refusal {
    /// Too many looks are made, or no copy of the book could be entered.
    #[error("too busy")]
    Busy,
    #[error("{0}")]
    List(#[from] ListFault),
}

impl From<NoMemory> for Refusal {
    fn from(refused: NoMemory) -> Refusal {
        Refusal::List(ListFault::from(refused))
    }
}

impl From<AllocError> for Refusal {
    fn from(refused: AllocError) -> Refusal {
        Refusal::from(NoMemory::from(refused))
    }
}

/// Who answers the requests of a connection, by a lens of the hub of this name.
pub struct Clerk<'a, J: Naming, R, C, F> {
    pub rt: &'a R,
    pub alloc: Global,
    /// What tells how long looks take.
    pub clock: &'a C,
    /// The names of hosts that are the collector's.
    pub hosts: &'a [String],
    pub config: &'a Config,
    pub lens: Lens,
    pub looks: &'a Looks<J>,
    pub facts: &'a F,
    pub ghost of: { lens.seen.of ≡ J.book },
}

impl<'a, J: Naming, R, C, F> Drop for Clerk<'a, J, R, C, F> {
    fn drop(self) {
        let Clerk {
            rt: _,
            alloc: _,
            clock: _,
            hosts: _,
            config: _,
            lens: _,
            looks: _,
            facts: _,
        } = self;
    }
}

// A moment of a clock, in µs. One that fails gives 0.
fn micros<C: Clock>(clock: &C) -> u64 {
    match clock.monotonic() {
        Ok(passed) => u64::try_from(passed.as_micros()).unwrap_or(u64::MAX),
        Err(_) => 0,
    }
}

// What is answered to a target that asks for nothing.
fn unread(fault: TargetFault) -> Reply {
    match fault {
        TargetFault::NotFound => Reply::plain(StatusCode::NOT_FOUND, "not found\n"),
        TargetFault::Unknown => {
            Reply::plain(StatusCode::BAD_REQUEST, "the query has an unknown word\n")
        }
        TargetFault::Twice => {
            Reply::plain(StatusCode::BAD_REQUEST, "the query has a word twice\n")
        }
        TargetFault::BadLimit => {
            Reply::plain(
                StatusCode::BAD_REQUEST,
                "limit is a number from 1 to 10000\n",
            )
        }
        TargetFault::BadSince => { Reply::plain(StatusCode::BAD_REQUEST, "since is a number\n") }
        TargetFault::NoMemory => Reply::no_memory(),
    }
}

// A reply with a text that was made.
fn replying(status: StatusCode, kind: Kind, text: Vec<u8>) -> Reply {
    match Bytes::from_vec(text) {
        Err(_) => Reply::no_memory(),
        Ok(body) => Reply { status, kind, body },
    }
}

// A name as a line.
fn line_of(alloc: Global, name: &str) -> Result<Vec<u8>, NoMemory> {
    let mut line = Vec::new(alloc);
    line.extend_from_slice(name.as_bytes())?;
    line.extend_from_slice(b"\n")?;
    Ok(line)
}

// What is answered to conditions that say nothing: the name of their fault.
fn bad_where(alloc: Global, fault: CommandFault) -> Reply {
    match line_of(alloc, fault.name()) {
        Err(_) => Reply::no_memory(),
        Ok(line) => replying(StatusCode::BAD_REQUEST, Kind::Plain, line),
    }
}

// What is answered where there is no answer of a book.
fn refused(alloc: Global, refusal: Refusal) -> Reply {
    match refusal {
        Refusal::Busy => Reply::busy(),
        Refusal::List(ListFault::NoSuch) => Reply::plain(StatusCode::NOT_FOUND, "not found\n"),
        Refusal::List(ListFault::Ask(AskFault::BadKey)) => {
            Reply::plain(StatusCode::BAD_REQUEST, "after is a key of the list\n")
        }
        Refusal::List(ListFault::BadWhere(fault)) => bad_where(alloc, fault),
        Refusal::List(ListFault::Ask(AskFault::NoMemory)) => Reply::no_memory(),
    }
}

// A text that was made, or why there is none.
fn made(alloc: Global, kind: Kind, text: Result<Vec<u8>, Refusal>) -> Reply {
    match text {
        Err(refusal) => refused(alloc, refusal),
        Ok(text) => replying(StatusCode::OK, kind, text),
    }
}

// What a question asks of a look.
fn told_of(alloc: Global, look: &Look<'_>, question: &Question) -> Result<Vec<u8>, ListFault>
    requires { look.now.lens.now.inside ≡ true }
{
    match question {
        Question::Changes { name, since } => changes_of(alloc, look, name.as_slice(), *since),
        _ => list_of(alloc, look.book(), look.receipt().len(), question),
    }
}

impl<'a, J: Naming, R: Wait, C: Clock, F: Facts> Clerk<'a, J, R, C, F> {
    // The list that a question asks of the book, over one look.
    #[tactic(auto, using(crate::proofs::Later::follows_self))]
    fn look(&mut self, question: &Question) -> Result<Vec<u8>, Refusal>
        ensures { Follows self.old.lens.seen self.new.lens.seen }
    {
        let begun = micros(self.clock);
        if !self.looks.allow(self.rt, begun) {
            return Err(Refusal::Busy);
        }
        let list = self.list(question);
        self.looks.spend(self.rt, begun, micros(self.clock));
        list
    }

    #[tactic(auto, using(crate::proofs::Later::follows_self))]
    fn list(&mut self, question: &Question) -> Result<Vec<u8>, Refusal>
        ensures { Follows self.old.lens.seen self.new.lens.seen }
    {
        let Some(look) = self.lens.look() else {
            return Err(Refusal::Busy);
        };
        Ok(told_of(self.alloc, &look, question)?)
    }

    // What a look shows of the whole book, to be shared.
    #[tactic(auto, using(crate::proofs::Later::follows_self))]
    fn look_over(&mut self) -> Result<Shared<J>, Refusal>
        ensures { Follows self.old.lens.seen self.new.lens.seen }
    {
        let begun = micros(self.clock);
        if !self.looks.allow(self.rt, begun) {
            return Err(Refusal::Busy);
        }
        let shared = self.sum_up(begun);
        self.looks.spend(self.rt, begun, micros(self.clock));
        shared
    }

    // The same, of a look that is begun at this moment, in µs.
    #[tactic(auto, using(crate::proofs::Later::follows_self))]
    fn sum_up(&mut self, begun: u64) -> Result<Shared<J>, Refusal>
        ensures { Follows self.old.lens.seen self.new.lens.seen }
    {
        let Some(look) = self.lens.look() else {
            return Err(Refusal::Busy);
        };
        let receipt = look.receipt();
        let looked = self.facts.now();
        let summary = summed_up(self.alloc, look.book(), receipt.len(), looked)?;
        let Ok(summary) = Arc::new(self.alloc, summary) else {
            return Err(Refusal::from(NoMemory));
        };
        let at = micros(self.clock);
        Ok(Shared {
            at,
            took: at.saturating_sub(begun),
            summary,
            receipt,
            hub: PhantomData,
        })
    }

    // The summary that is shared, or a new one. The lens has seen its list then.
    #[tactic(auto, using(crate::proofs::Later::follows_self))]
    fn summary(&mut self) -> Result<Arc<Summary, Global>, Refusal>
        ensures { Follows self.old.lens.seen self.new.lens.seen }
    {
        let mut guard = self.looks.share(self.rt);
        let now = micros(self.clock);
        let shared = &mut *guard;
        if let Some(shared) = shared
            && shared.is_fresh(now, self.lens.len())
        {
            self.lens.learn(&shared.receipt);
            return Ok(Arc::try_clone(&shared.summary)?);
        }
        let mine = self.look_over()?;
        let summary = Arc::try_clone(&mine.summary)?;
        *shared = Some(mine);
        Ok(summary)
    }

    // A text of the shared summary and what else stands.
    #[tactic(auto, using(crate::proofs::Later::follows_self))]
    fn tell(&mut self, question: &Question) -> Result<Vec<u8>, Refusal>
        ensures { Follows self.old.lens.seen self.new.lens.seen }
    {
        let summary = self.summary()?;
        let standing = self.facts.standing()?;
        let text = self.told(question, &summary, &standing)?;
        Ok(text)
    }

    fn told(
        &self,
        question: &Question,
        summary: &Summary,
        standing: &Standing,
    ) -> Result<Vec<u8>, Refusal> {
        match question {
            Question::Metrics => Ok(figures(self.alloc, self.config, summary, standing)?),
            Question::Peers(part) => {
                let entries = entries_of(part);
                let list = peer_list(self.alloc, self.config, summary, standing, entries);
                Ok(list.map_err(ListFault::Ask)?)
            }
            _ => Ok(overview(self.alloc, self.config, summary, standing)?),
        }
    }

    // What is answered to a question over a look.
    #[tactic(auto, using(crate::proofs::Later::follows_self))]
    fn answer_looking(&mut self, question: &Question) -> Reply
        ensures { Follows self.old.lens.seen self.new.lens.seen }
    {
        match question {
            Question::Metrics => made(self.alloc, Kind::Figures, self.tell(question)),
            Question::Overview | Question::Peers(_) => made(
                self.alloc,
                Kind::Json,
                self.tell(question),
            ),
            _ => made(self.alloc, Kind::Json, self.look(question)),
        }
    }

    // What is answered to a question.
    #[tactic(auto, using(crate::proofs::Later::follows_self))]
    fn answer(&mut self, question: &Question) -> Reply
        ensures { Follows self.old.lens.seen self.new.lens.seen }
    {
        match question {
            Question::Page => Reply {
                status: StatusCode::OK,
                kind: Kind::Page,
                body: Bytes::from_static(PAGE.as_bytes()),
            },
            Question::Health => health(self.facts),
            _ => {
                if !self.looks.begin() {
                    return Reply::busy();
                }
                let reply = self.answer_looking(question);
                self.looks.end();
                reply
            }
        }
    }

    // What is answered to a request.
    #[tactic(auto, using(crate::proofs::Later::follows_self))]
    fn reply(&mut self, request: &Request<Bytes>) -> Reply
        ensures { Follows self.old.lens.seen self.new.lens.seen }
    {
        if let Some(reply) = refused_early(self.alloc, self.hosts, request) {
            return reply;
        }
        let path = request.uri().path().as_bytes();
        match read(self.alloc, path, query_of(request)) {
            Err(fault) => unread(fault),
            Ok(question) => self.answer(&question),
        }
    }
}

impl<'a, J: Naming, R: Wait, C: Clock, F: Facts> Service for Clerk<'a, J, R, C, F> {
    ghost use Rattle.hub.specs.Posts.{Follows};

    ghost answers = { λ old request response new. Follows old.lens.seen new.lens.seen };

    // Where an allocation failed the answer says so, or nothing.
    fn call(
        &mut self,
        request: &Request<Bytes>,
        response: &mut Response,
    ) -> Result<(), AllocError> {
        self.reply(request).send(response);
        Ok(())
    }
}
