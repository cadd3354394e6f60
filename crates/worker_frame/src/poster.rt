//! A seat at work: what it posts, and what it leaves.

ghost use Rattle.std.specs.Prelude.{◌≡◌, ℕ, List, [], ◌++◌, IfOk, IfSome, OnOk};
ghost use Rattle.std.specs.List.{All};
ghost use Rattle.agg_types.specs.declared.event.What.{What};
ghost use Rattle.hub.specs.History.{Beginning};
ghost use Rattle.hub.specs.Posts.{Follows, SitsDown};
ghost use Rattle.hub.specs.Roll.{MayPost};

use crate::served::Served;
use agg_types::Whats;
use hub::{Hub, Lens, Naming, Pass, PostFault, Receipt, Ticket};
use std::sync::Wait;

/// A pass, and what its last post at Ok shows.
#[derive(Drop)]
pub struct Poster {
    /// Its seat, and what it has seen.
    pub pass: Pass,
    /// What its last post at Ok shows.
    pub last: Option<Receipt>,
}

impl Poster {
    ghost use Rattle.worker_frame.specs.Told.{AppendsMore, HasTold, IsServed, IsWaiting, TellsMore};

    /// A poster that has posted nothing yet.
    pub fn new(pass: Pass) -> Poster
        ensures pass { result.pass ≡ pass }
        ensures told { (hub : Beginning) → SitsDown pass → Follows hub pass.seen
            → HasTold hub result [] 0 }
    {
        Poster { pass, last: None }
    }

    /// Its seat.
    pub fn seat(&self) -> u64
        ensures { result ≡ self.now.pass.seat }
    {
        self.pass.seat()
    }

    /// Has a lens learn what was posted last, so that it shows no less from then on.
    pub fn show(&self, lens: &mut Lens)
        requires { IfSome self.now.last (λ list. list.of ≡ lens.old.seen.of) }
        ensures kept { Follows lens.old.seen lens.new.seen }
        ensures learned { IfSome self.now.last (λ list. Follows list lens.new.seen) }
    {
        if let Some(receipt) = &self.last {
            lens.learn(receipt);
        }
    }

    /// Posts a batch.
    pub fn post<J: Naming, H: Wait + Drop, R: Wait>(
        &mut self,
        rt: &R,
        hub: &Hub<J, H>,
        whats: Whats,
    ) -> Result<(), PostFault>
        requires pass { self.old.pass.seen.of ≡ hub.now.of }
        requires fits { All (MayPost hub.now.config) whats }
        ensures seat { self.new.pass.seat ≡ self.old.pass.seat }
        ensures of { self.new.pass.seen.of ≡ hub.now.of }
        ensures last { OnOk result (IfSome self.new.last (λ list. list.of ≡ hub.now.of)) }
        ensures told { (whats_before : List What) → HasTold hub.now self.old whats_before 0
            → TellsMore hub.now self.new whats_before whats result }
    {
        match hub.post(rt, &mut self.pass, whats) {
            Ok(receipt) => {
                self.last = Some(receipt);
                Ok(())
            }
            Err(fault) => Err(fault),
        }
    }

    /// Appends a batch, and gives a ticket for its list. What an append is refused with is told as
    /// of a post, once the list that it tells of is shown.
    pub fn append<J: Naming, H: Wait + Drop, R: Wait>(
        &mut self,
        rt: &R,
        hub: &Hub<J, H>,
        whats: Whats,
    ) -> Result<Ticket, PostFault>
        requires pass { self.old.pass.seen.of ≡ hub.now.of }
        requires fits { All (MayPost hub.now.config) whats }
        ensures seat { self.new.pass.seat ≡ self.old.pass.seat }
        ensures of { self.new.pass.seen.of ≡ hub.now.of }
        ensures ticket { IfOk result (λ ticket. ticket.of ≡ hub.now.of) }
        ensures appended { (whats_before : List What) → HasTold hub.now self.old whats_before 0
            → AppendsMore hub.now self.new whats_before whats result }
    {
        match hub.append(rt, &mut self.pass, whats) {
            Ok(ticket) => Ok(ticket),
            Err((fault, whats)) => Err(hub.refuse(rt, &self.pass, fault, whats)),
        }
    }

    /// Takes up the receipt for what was appended.
    pub fn take_up(&mut self, receipt: Receipt)
        requires pass { receipt.of ≡ self.old.pass.seen.of }
        ensures seat { self.new.pass.seat ≡ self.old.pass.seat }
        ensures told { (hub : Beginning) (whats batch : List What)
            → IsWaiting hub self.old whats batch receipt
            → HasTold hub self.new (whats ++ batch) 0 }
    {
        self.pass.see(&receipt);
        self.last = Some(receipt);
    }

    /// A batch that was posted and that both copies of the book have taken, emptied, if there is
    /// one.
    pub fn take_back(&mut self) -> Option<Whats>
        ensures same { self.new ≡ self.old }
        ensures empty { IfSome result (λ whats. whats ≡ []) }
    {
        self.pass.take_back()
    }

    /// Lets go of the batches that it still keeps.
    pub fn forget(&mut self)
        ensures { self.new ≡ self.old }
    {
        self.pass.forget();
    }

    /// Gives the pass back to the hub. Where that is refused the seat stays taken.
    pub fn leave<J: Naming, H: Wait + Drop, R: Wait>(self, rt: &R, hub: &Hub<J, H>) -> Served
        requires pass { self.pass.seen.of ≡ hub.now.of }
        ensures { (whats : List What) (waiting : ℕ) → HasTold hub.now self whats waiting
            → IsServed hub.now self.pass.seat whats waiting result }
    {
        let Poster { pass, last } = self;
        let left = match hub.leave(rt, pass) {
            Ok(left) => left,
            Err(_) => None,
        };
        Served { last, left }
    }
}
