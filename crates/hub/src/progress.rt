/// How far showing has come, at a moment under the lock. It is for a watch that finds a hub that
/// shows nothing any more.
///
/// Where `shown` stays below `appended` and doesn't grow, nothing is shown. While `rounds` grows,
/// showings are tried and refused; while it stays and `is_publishing` holds, one is under way.
/// While a look is in the way of one, sessions leave the press, until somebody posts who waits for
/// looks, as the timer does.
#[derive(Clone, Copy, Debug)]
pub struct Progress {
    /// How many events were appended to the history.
    pub appended: u64,
    /// How many events the list has that is shown. Never more than were appended.
    pub shown: u64,
    /// How often the press was taken, so how many showings were begun. It starts anew behind 2^64.
    pub rounds: u64,
    /// Whether the press is away: somebody publishes.
    pub is_publishing: bool,
}
