//! What looks may take of the time.

ghost use Rattle.std.specs.Prelude.{◌≡◌, ℕ, nat_le};
ghost use Rattle.web_door.specs.Looks.{freshness};
ghost use Rattle.web_door.specs.declared.budget.TheConstants.{SECOND};

/// A second, in µs.
pub const SECOND: u64 = 1_000_000;

/// Looks may take a tenth of the time: each is paid for by ten times as long as it took.
pub const TENTH: u64 = 10;

/// For how long, in µs, a look is fresh that took so long.
pub fn freshness(took: u64) -> u64
    ensures { result ≡ freshness took }
{
    let shared = took.saturating_mul(TENTH);
    if shared < SECOND { SECOND } else { shared }
}

/// Up to which moment the looks of all connections are paid for. A look may begin where no more
/// than a second is left to be paid for: so looks may be ahead by a tenth of a second.
#[derive(Clone, Copy, Debug, PartialEq, Eq)]
pub struct Budget {
    paid: u64,
}

impl Budget {
    ghost use Rattle.web_door.specs.Looks.{owed, paid_with};

    /// No look was made.
    pub fn new() -> Budget
        ensures { (now : ℕ) → owed result now ≡ 0 }
    {
        Budget { paid: 0 }
    }

    /// Whether a look may begin at a moment, in µs.
    pub fn allows(&self, now: u64) -> bool
        ensures { result ≡ nat_le (owed self.now now) SECOND }
    {
        self.paid.saturating_sub(now) <= SECOND
    }

    /// A look has ended at a moment, and took so long, both in µs.
    pub fn spend(&mut self, ended: u64, took: u64)
        ensures { self.new.paid ≡ paid_with self.old.paid ended took }
    {
        let price = took.saturating_mul(TENTH);
        self.paid = self.paid.max(ended).saturating_add(price);
    }
}
