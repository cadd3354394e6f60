//! The hub: one history, a lock that is never held while anybody waits, and lenses that take none.

ghost use Rattle.std.specs.Prelude.{◌≡◌, ◌<◌, ◌≤◌, [], ◌∷◌, ◌↔◌, true, false, IfOk, IfSome};
ghost use Rattle.std.specs.Prelude.{IsTrue, MatchResult};
ghost use Rattle.std.specs.List.{All};
ghost use Rattle.agg_types.specs.Check.{config_faults};
ghost use Rattle.agg_types.specs.Whats.{as_what};
ghost use Rattle.agg_types.specs.declared.event.What.TheVariants.{Leave};
ghost use Rattle.agg_types.specs.declared.limits.TheConstants.{LAST_MOMENT};
ghost use Rattle.fleet_model.specs.Machine.{opened};
ghost use Rattle.hub.specs.Hosting.{IsOpening};
ghost use Rattle.hub.specs.Posts.{Follows, LeaveRefused, PostRefused, PostsAfter, ShowsBatch};
ghost use Rattle.hub.specs.Posts.{IsNotNext, IsRefused, IsReplaced, SitsDown};
ghost use Rattle.hub.specs.Roll.{MayPost};

use crate::desk::Desk;
use crate::faults::{AppendFault, LensFault, PostFault, SeatFault};
use crate::lens::Lens;
use crate::log::{Front, Log};
use crate::looks::Looks;
use crate::naming::Naming;
use crate::pass::Pass;
use crate::progress::Progress;
use crate::receipt::{Receipt, Ticket};
use crate::store::hang;
use agg_types::{Config, LentWhat, NoMemory, What, Whats};
use book::Book;
use std::alloc::Global;
use std::marker::Model;
use std::sync::{Arc, Condvar, Mutex, Wait};

mod rounds;

/// A fleet that was just opened: its log, whose name a `Naming` takes up, and both copies of its
/// book.
pub struct Opening {
    first: Book,
    second: Book,
    config: Config,
    log: Log,
    start: Front,
}

// By hand, as all that this crate gives away: so a crate that drops it proves nothing of its parts.
impl Drop for Opening {
    fn drop(self) {
        let Opening {
            first: _,
            second: _,
            config: _,
            log: _,
            start: _,
        } = self;
    }
}

impl Model for Opening {
    ghost use Rattle.std.specs.Prelude.{◌≡◌, []};
    ghost use Rattle.fleet_model.specs.Machine.{opened};
    ghost use Rattle.hub.specs.History.{Beginning};

    ghost Value = { Beginning };

    ghost view = { λ o. o.start };

    ghost invariant = { λ o. (o.first ≡ opened o.start.config o.start.opening)
        × (o.second ≡ opened o.start.config o.start.opening)
        × (o.config ≡ o.start.config) × (o.log ≡ o.start.of) × (o.start.events ≡ []) };
}

impl Opening {
    /// A fleet of this configuration, at its opening moment, in ms.
    #[tactic(auto, unfolding(fleet_model::specs::Machine::opened))]
    pub fn new(alloc: Global, config: Config, moment: u64) -> Result<Opening, NoMemory>
        requires checked { config_faults config ≡ [] }
        requires in_range { moment ≤ LAST_MOMENT }
        ensures { IfOk result (IsOpening config moment) }
    {
        let first = Book::new(alloc, config.duplicate(alloc)?, moment)?;
        let second = Book::new(alloc, config.duplicate(alloc)?, moment)?;
        let (log, start) = Log::open(&first);
        Ok(Opening {
            first,
            second,
            config,
            log,
            start,
        })
    }

    // Both copies, the configuration, the log and its beginning.
    fn into_parts(self) -> (Book, Book, Config, Log, Front)
        ensures books { (result.0 ≡ opened self.config self.opening)
            × (result.1 ≡ opened self.config self.opening) }
        ensures config { result.2 ≡ self.config }
        ensures log { result.3 ≡ self.of }
        ensures start { (result.4 ≡ self) × (self.events ≡ []) }
    {
        let Opening {
            first,
            second,
            config,
            log,
            start,
        } = self;
        (first, second, config, log, start)
    }
}

/// What threads share. Contracts see the beginning of its history: its log, configuration and
/// opening moment.
pub struct Hub<J: Naming, R: Wait + Drop> {
    alloc: Global,
    config: Config,
    log: Log,
    start: Front,
    desk: Mutex<Desk<J, R>>,
    // Who waits for a round waits here, by whether its number is even or odd.
    even: Condvar,
    odd: Condvar,
    // Which looks the next round would wait for: a hint.
    looks: Arc<Looks, Global>,
}

impl<J: Naming, R: Wait + Drop> Drop for Hub<J, R> {
    fn drop(self) {
        let Hub {
            alloc: _,
            config: _,
            log: _,
            start: _,
            desk: _,
            even: _,
            odd: _,
            looks: _,
        } = self;
    }
}

impl<J: Naming, R: Wait + Drop> Model for Hub<J, R> {
    ghost use Rattle.std.specs.Prelude.{◌≡◌, []};
    ghost use Rattle.hub.specs.History.{Beginning};

    ghost Value = { Beginning };

    ghost view = { λ h. h.start };

    ghost invariant = { λ h. (h.config ≡ h.start.config) × (h.log ≡ h.start.of)
        × (h.start.of ≡ J.book) × (h.start.events ≡ []) };
}

impl<J: Naming, R: Wait + Drop> Hub<J, R> {
    /// A hub with places for so many lenses, 1 to 1,000. Dropping it waits for looks that last.
    ///
    /// It keeps a block of 36 MB that is never written, so that nothing of it is resident, and
    /// gives that up where an allocation fails while a batch is shown. While it can't have it
    /// again, or a showing stands refused, batches are refused with NoMemory; those of moments,
    /// clears and dropped filters alone are not, since they free memory.
    pub fn new(
        alloc: Global,
        own: R,
        opening: Opening,
        places: usize,
    ) -> Result<Hub<J, R>, NoMemory>
        requires named { opening.of ≡ J.book }
        requires places { (0 < places) × (places ≤ 1000) }
        ensures { IfOk result (λ h. h ≡ opening) }
    {
        let Ok(looks) = Arc::new(alloc, Looks::new()) else {
            return Err(NoMemory);
        };
        let (first, second, config, log, start) = opening.into_parts();
        let desk = Desk::new(alloc, own, first, second, start.again(), places)?;
        Ok(Hub {
            alloc,
            config,
            log,
            start,
            desk: Mutex::new(desk),
            even: Condvar::new(),
            odd: Condvar::new(),
            looks,
        })
    }

    /// The configuration that the fleet was opened with. Takes no memory and no lock.
    pub fn config(&self) -> &Config
        ensures { result.now ≡ self.now.config }
    {
        &self.config
    }

    /// Whether a batch may be posted, exactly: each of it fits the configuration, and none is a Sit
    /// or a Leave. Takes no memory and no lock.
    pub fn allows(&self, whats: &Whats) -> bool
        ensures { IsTrue result ↔ All (MayPost self.now.config) whats.now }
    {
        for place in 0..whats.len() {
            if !may_post(&self.config, whats.at(place)) {
                return false;
            }
        }
        true
    }

    // What a pass of this hub has seen is of the hub's fleet.
    fn know<W: Wait>(&self, rt: &W, pass: &Pass)
        requires { pass.now.seen.of ≡ self.now.of }
        ensures { Follows self.now pass.now.seen }
    {
        if !self.start.compare(pass.front()) {
            hang(rt);
        }
    }

    /// Takes a seat. Seats are numbered from 0, each number is given once, and at most `MOST_SEATS`
    /// sit at a time. It waits for no look. Where the last showing was refused it tries that again
    /// first, and answers NoMemory where it is refused again, where a look is in the way of it, or
    /// another thread.
    pub fn seat<W: Wait>(&self, rt: &W) -> Result<Pass, SeatFault>
        ensures { IfOk result (λ p. SitsDown p × Follows self.now p.seen) }
    {
        if !self.catch_up(rt) {
            return Err(SeatFault::NoMemory);
        }
        let mut desk = self.desk.lock(rt);
        let seated = desk.seat(rt, self.alloc, &self.log);
        drop(desk);
        let pass = seated?;
        self.know(rt, &pass);
        Ok(pass)
    }

    /// Adds a batch to the history as one, and shows it. It waits for looks that last: never call
    /// it in a thread that is inside a look.
    pub fn post<W: Wait>(&self, rt: &W, pass: &mut Pass, whats: Whats) -> Result<Receipt, PostFault>
        requires pass { pass.old.seen.of ≡ self.now.of }
        requires fits { All (MayPost self.now.config) whats }
        ensures { MatchResult result (PostsAfter pass.old pass.new whats)
            (PostRefused pass.old pass.new whats) }
    {
        let ticket = match self.append(rt, pass, whats) {
            Ok(ticket) => ticket,
            Err((fault, whats)) => return Err(self.refuse(rt, pass, fault, whats)),
        };
        let Some(receipt) = self.show(rt, ticket) else {
            return Err(PostFault::Pending);
        };
        pass.see(&receipt);
        Ok(receipt)
    }

    /// What a post is refused with that wasn't appended, once the list that it tells of is shown.
    /// It waits for looks that last, as a post does.
    pub fn refuse<W: Wait>(
        &self,
        rt: &W,
        pass: &Pass,
        fault: AppendFault,
        whats: Whats,
    ) -> PostFault
        requires of { pass.now.seen.of ≡ self.now.of }
        requires refused { IsRefused pass.now whats fault }
        ensures { PostRefused pass.now pass.now whats result }
    {
        match fault {
            AppendFault::NoMemory => PostFault::NoMemory(whats),
            AppendFault::Spent => PostFault::Spent,
            AppendFault::NotNext { found, now } => self.refuse_number(rt, pass, whats, found, now),
            AppendFault::Replaced { by, now } => self.refuse_late(rt, pass, whats, by, now),
        }
    }

    fn refuse_number<W: Wait>(
        &self,
        rt: &W,
        pass: &Pass,
        whats: Whats,
        found: u64,
        now: Ticket,
    ) -> PostFault
        requires of { pass.now.seen.of ≡ self.now.of }
        requires not_next { IsNotNext pass.now found now }
        ensures { PostRefused pass.now pass.now whats result }
    {
        let Some(shown) = self.show(rt, now) else {
            return PostFault::NoMemory(whats);
        };
        PostFault::NotNext { found, shown }
    }

    fn refuse_late<W: Wait>(
        &self,
        rt: &W,
        pass: &Pass,
        whats: Whats,
        by: u64,
        now: Ticket,
    ) -> PostFault
        requires of { pass.now.seen.of ≡ self.now.of }
        requires replaced { IsReplaced pass.now whats by now }
        ensures { PostRefused pass.now pass.now whats result }
    {
        let Some(shown) = self.show(rt, now) else {
            return PostFault::NoMemory(whats);
        };
        PostFault::Replaced { by, shown }
    }

    /// A seat leaves for good. None where that is stored and not shown yet. A refusal gives the
    /// pass back.
    pub fn leave<W: Wait>(&self, rt: &W, pass: Pass) -> Result<Option<Receipt>, (Pass, PostFault)>
        requires { pass.seen.of ≡ self.now.of }
        ensures { MatchResult result (λ r. IfSome r (ShowsBatch pass (Leave ∷ [])))
            (λ refused. LeaveRefused pass refused.0 refused.1) }
    {
        let mut desk = self.desk.lock(rt);
        let left = desk.leave(rt, &self.log, pass);
        drop(desk);
        let (pass, found, now) = match left {
            Ok(ticket) => return Ok(self.show(rt, ticket)),
            Err(behind) => behind,
        };
        let Some(shown) = self.show(rt, now) else {
            return Err((pass, PostFault::NoMemory(Whats::new(self.alloc))));
        };
        Err((pass, PostFault::NotNext { found, shown }))
    }

    /// How far showing has come: for a watch that finds a hub that shows nothing any more. It takes
    /// the lock for microseconds, waits for nobody else, and takes no memory.
    pub fn progress<W: Wait>(&self, rt: &W) -> Progress {
        let desk = self.desk.lock(rt);
        desk.progress()
    }

    /// Its history is the one that its name names.
    pub fn has_one_history(&self)
        ensures { self.now.of ≡ J.book }
    {
        let _ = &self.log;
    }

    /// A lens, which has seen nothing yet. It waits for no look, but where no reader is idle and
    /// somebody publishes.
    pub fn lens<W: Wait>(&self, rt: &W) -> Result<Lens, LensFault>
        ensures { IfOk result (λ l. l ≡ record { seen = self.now; inside = false }) }
    {
        for _ in rt.forever() {
            let Ok(looks) = Arc::try_clone(&self.looks) else {
                return Err(LensFault::NoMemory);
            };
            let mut desk = self.desk.lock(rt);
            if let Some(reader) = desk.reader() {
                return Ok(Lens::new(reader, Receipt::first(&self.start), looks));
            }
            if desk.has_press() {
                return Err(LensFault::NoPlace);
            }
            drop(self.bell(desk.round()).wait(rt, desk));
        }
        unreachable!()
    }
}

fn may_post(config: &Config, what: LentWhat<'_>) -> bool
    ensures { IsTrue result ↔ MayPost config.now (as_what what.entry) }
{
    match what {
        LentWhat::Other(What::Sit | What::Leave) => false,
        _ => config.fits_lent(what),
    }
}
