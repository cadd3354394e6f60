//! Minutes, and how many lines are told in them.

ghost use Rattle.std.specs.Prelude.{◌≡◌, ◌<◌};
ghost use Rattle.throttle.specs.Minutes.{fresh, is_on, minute_at, one_more};

/// How long a minute is, in ms.
const LENGTH: u64 = 60_000;

/// A minute: when it began, in ms, and how many lines were told in it.
#[derive(Clone, Copy, Debug)]
pub(crate) struct Minute {
    pub(crate) began: u64,
    pub(crate) told: u64,
}

impl Minute {
    /// A minute that begins.
    pub(crate) fn fresh(now: u64) -> Minute
        ensures { result ≡ fresh now }
    {
        Minute {
            began: now,
            told: 0,
        }
    }

    /// Whether a line was told in it, and it isn't over.
    pub(crate) fn is_on(self, now: u64) -> bool
        ensures { result ≡ is_on self now }
    {
        self.told > 0 && now.saturating_sub(self.began) < LENGTH
    }

    /// The minute of a line at this moment: this one, or one that begins with the line.
    pub(crate) fn at(self, now: u64) -> Minute
        ensures { result ≡ minute_at self now }
    {
        if self.is_on(now) {
            self
        } else {
            Minute::fresh(now)
        }
    }

    /// One more line is told in it.
    pub(crate) fn with_one(self) -> Minute
        requires { self.told < 600 }
        ensures { result ≡ one_more self }
    {
        Minute {
            began: self.began,
            told: self.told + 1,
        }
    }
}
