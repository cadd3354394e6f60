//! What a turn does about one key.

ghost use Rattle.std.specs.Prelude.{◌≡◌, MatchOption, Option};
ghost use Rattle.pushed_keys.specs.Rules.{change_of, is_due, is_held, is_left, is_told, is_written};
ghost use Rattle.pushed_keys.specs.Rules.{put_after, put_again, IsStillFrom, NoneIsStill};

use crate::Pushed;

/// How long before half of its life a key of the set is put again, in ms.
pub const REFRESH_AHEAD: u64 = 250;

/// What a turn writes of a key: that it is in the set, or that it isn't any more.
#[derive(Clone, Copy, PartialEq, Eq)]
pub enum Change {
    Put,
    TakeAway,
}

/// A turn: its moment, in ms, and whether it puts every key of the sets anew.
#[derive(Clone, Copy, PartialEq, Eq)]
pub struct Turn {
    pub now: u64,
    pub anew: bool,
}

/// Whether a key that was put at a moment is told now; both in ms.
pub fn is_told(pushed: &Pushed, now: u64, put: u64) -> bool
    ensures { result ≡ is_told pushed.now now put }
{
    now.saturating_sub(put) < u64::from(pushed.life)
}

/// Whether a key of the set that was put at a moment is due now; both in ms.
fn is_due(pushed: &Pushed, now: u64, put: u64) -> bool
    ensures { result ≡ is_due pushed.now now put }
{
    let life = u64::from(pushed.life);
    let gone = now.saturating_sub(put);
    gone >= life || 2 * (gone + REFRESH_AHEAD) >= life
}

/// Whether a turn puts a key of the set that was last put at this moment, in ms, if ever.
pub fn is_written(pushed: &Pushed, turn: Turn, put: Option<u64>) -> bool
    ensures { result ≡ is_written pushed.now turn put }
{
    match put {
        None => true,
        Some(put) => turn.anew || is_due(pushed, turn.now, put),
    }
}

/// When a key that was put at this moment, and whose mark is kept, was last put, as it stands
/// behind a turn; both in ms.
pub fn put_again(pushed: &Pushed, turn: Turn, is_in: bool, put: u64) -> u64
    ensures { result ≡ put_again pushed.now turn is_in put }
{
    if is_in && is_written(pushed, turn, Some(put)) {
        turn.now
    } else {
        put
    }
}

/// Whether a key that isn't in the set and was put at this moment, in ms, keeps its mark.
pub fn is_held(pushed: &Pushed, turn: Turn, put: u64) -> bool
    ensures { result ≡ is_held pushed.now turn put }
{
    pushed.holds && is_told(pushed, turn.now, put)
}

/// The moment, in ms, from which on a key of the set that was put isn't put anew; none where every
/// key is.
pub fn still_from(pushed: &Pushed, turn: Turn) -> Option<u64>
    ensures { MatchOption result (NoneIsStill pushed.now turn)
        (λ from. IsStillFrom pushed.now turn from) }
{
    let life = u64::from(pushed.life);
    let ahead = 2 * REFRESH_AHEAD;
    if turn.anew || life <= ahead {
        return None;
    }
    Some(turn.now.saturating_sub((life - ahead - 1) / 2))
}

/// Whether a key that isn't in the set was put, and is still told.
fn is_left(pushed: &Pushed, turn: Turn, put: Option<u64>) -> bool
    ensures { result ≡ is_left pushed.now turn put }
{
    match put {
        None => false,
        Some(put) => is_told(pushed, turn.now, put),
    }
}

/// What a turn writes of a key that is in the set or not, and was last put at this moment, in ms,
/// if ever.
#[tactic(auto, unfolding(crate::specs::Rules::change_of))]
pub fn change_of(pushed: &Pushed, turn: Turn, is_in: bool, put: Option<u64>) -> Option<Change>
    ensures { result ≡ change_of pushed.now turn is_in put }
{
    if is_in {
        if is_written(pushed, turn, put) {
            Some(Change::Put)
        } else {
            None
        }
    } else if !pushed.holds && is_left(pushed, turn, put) {
        Some(Change::TakeAway)
    } else {
        None
    }
}

/// When a key was last put, as it stands behind a turn; none where it isn't told any more.
#[tactic(auto, unfolding(crate::specs::Rules::put_after))]
pub fn put_after(pushed: &Pushed, turn: Turn, is_in: bool, put: Option<u64>) -> Option<u64>
    ensures { result ≡ put_after pushed.now turn is_in put }
{
    if is_in {
        if is_written(pushed, turn, put) {
            Some(turn.now)
        } else {
            put
        }
    } else if pushed.holds && is_left(pushed, turn, put) {
        put
    } else {
        None
    }
}
