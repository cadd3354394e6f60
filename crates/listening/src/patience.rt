//! When a collector counts as stuck.

ghost use Rattle.std.specs.Prelude.{◌≡◌, ◌≤◌, ◌+◌, min, if◌then◌else◌, ◌∷◌, List, []};
ghost use Rattle.listening.specs.declared.patience.Round.{Round};

use program::Stuck;

/// How long nothing may be shown, no moment be posted or nobody look, in ms.
const LIMIT: u64 = 10_000;

/// How long one showing may be under way, in ms.
const SHOWING_LIMIT: u64 = 60_000;

/// How long a round counts that came too late, in ms, as where the process was stopped.
const ROUND: u64 = 500;

/// How long a round may take that counts for its time, in ms: it is no more than 2 s late.
const LONGEST_ROUND: u64 = 2_500;

/// What is seen of a collector.
#[derive(Clone, Copy, Debug, PartialEq, Eq)]
pub struct Signs {
    /// How often was looked.
    pub looks: u64,
    /// How many events were appended to the history.
    pub appended: u64,
    /// How many of them are shown.
    pub shown: u64,
    /// How many showings were begun.
    pub showings: u64,
    /// Whether one is under way.
    pub is_showing: bool,
    /// The moment that was posted last, in ms, and one. 0 before the first.
    pub moment: u64,
}

/// A round of the watch: what it saw, so many ms after the round before.
#[derive(Clone, Copy, Debug, PartialEq, Eq)]
pub struct Round {
    pub signs: Signs,
    pub passed: u64,
}

impl Round {
    ghost use Rattle.listening.specs.Rounds.{counted};

    // How long it counts, in ms.
    fn counted(&self) -> u64
        ensures value { result ≡ counted self.now }
        ensures few { result ≤ 2500 }
    {
        if self.passed <= LONGEST_ROUND {
            self.passed
        } else {
            ROUND
        }
    }
}

impl Signs {
    ghost use Rattle.listening.specs.Rounds.{
      goes_on,
      is_blind,
      is_one,
      is_under_way,
      nothing,
      stands_still,
      waits,
    };

    // Before the first round.
    pub(crate) fn nothing() -> Signs
        ensures { result ≡ nothing }
    {
        Signs {
            looks: 0,
            appended: 0,
            shown: 0,
            showings: 0,
            is_showing: false,
            moment: 0,
        }
    }

    // Whether one showing was under way at both ends of a round.
    fn is_one(&self, now: &Signs) -> bool
        ensures { result ≡ is_one self.now now.now }
    {
        self.is_showing && now.is_showing && now.showings == self.showings
    }

    // Whether that went on, and nothing was shown.
    fn goes_on(&self, now: &Signs) -> bool
        ensures { result ≡ goes_on self.now now.now }
    {
        self.is_one(now) && now.shown == self.shown
    }

    // Whether something waited to be shown, and nothing was shown.
    fn waits(&self, now: &Signs) -> bool
        ensures { result ≡ waits self.now now.now }
    {
        self.shown < self.appended && now.shown == self.shown
    }

    // Whether a showing is under way that was so before, too, or where none was.
    fn is_under_way(&self, now: &Signs) -> bool
        ensures { result ≡ is_under_way self.now now.now }
    {
        now.is_showing && (!self.is_showing || now.showings == self.showings)
    }
}

// What a time comes to, in ms, of which no more than 60 s are counted.
fn longer(time: u64, goes_on: bool, counted: u64) -> u64
    ensures { result ≡ (if goes_on then min 60000 (time + counted) else 0) }
{
    if goes_on {
        time.saturating_add(counted).min(SHOWING_LIMIT)
    } else {
        0
    }
}

/// How long a collector has shown nothing, posted no moment and wasn't looked at, by the rounds of
/// a watch.
#[derive(Clone, Copy, Debug, PartialEq, Eq)]
pub struct Patience {
    last: Signs,
    under_way: u64,
    unshown: u64,
    unposted: u64,
    unseen: u64,
}

impl Patience {
    ghost use Rattle.listening.specs.Rounds.{IsAfter, judged, verdict};

    /// Before the first round.
    pub fn new() -> Patience
        ensures { IsAfter result [] }
    {
        Patience {
            last: Signs::nothing(),
            under_way: 0,
            unshown: 0,
            unposted: 0,
            unseen: 0,
        }
    }

    /// Takes a round: why the collector is stuck by all rounds so far, if it is.
    pub fn see(&mut self, round: Round) -> Option<Stuck>
        ensures after { (rounds : List Round) → IsAfter self.old rounds
            → IsAfter self.new (round ∷ rounds) }
        ensures verdict { (rounds : List Round) → IsAfter self.old rounds
            → result ≡ verdict (round ∷ rounds) }
    {
        let is_under_way = self.last.is_under_way(&round.signs);
        self.take(round);
        self.judge(is_under_way)
    }

    // Takes a round.
    fn take(&mut self, round: Round)
        ensures { (rounds : List Round) → IsAfter self.old rounds
            → IsAfter self.new (round ∷ rounds) }
    {
        let before = self.last;
        let now = round.signs;
        let counted = round.counted();
        let beside = if before.is_one(&now) { 0 } else { counted };
        self.last = now;
        self.under_way = longer(self.under_way, before.goes_on(&now), counted);
        self.unshown = longer(self.unshown, before.waits(&now), counted);
        self.unposted = longer(self.unposted, now.moment == before.moment, beside);
        self.unseen = longer(self.unseen, now.looks == before.looks, beside);
    }

    // Why the collector is stuck, if it is.
    fn judge(&self, is_under_way: bool) -> Option<Stuck>
        ensures { (rounds : List Round) → IsAfter self.now rounds
            → result ≡ judged is_under_way rounds }
    {
        if is_under_way {
            return if self.under_way >= SHOWING_LIMIT {
                Some(Stuck::Showing)
            } else {
                None
            };
        }
        if self.unseen >= LIMIT {
            Some(Stuck::Unseen)
        } else if self.unshown >= LIMIT {
            Some(Stuck::Unshown)
        } else if self.unposted >= LIMIT {
            Some(Stuck::Unposted)
        } else {
            None
        }
    }
}
