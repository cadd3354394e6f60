//! The lives of rows.

ghost use Rattle.std.specs.Prelude.{◌≡◌};
ghost use Rattle.session_core.specs.Lives.{life_of, life_said, life_within};

/// The longest life of a row, in ms; a longer one counts as this.
const LONGEST_LIFE: u64 = 4_294_967_295;

/// What a message and its definition say of a row's life, in ms; an expiry of 0 is no end.
#[inline]
fn life_said(expiry: u64, life: Option<u32>) -> Option<u64>
    ensures { result ≡ life_said expiry life }
{
    if expiry == 0 {
        return None;
    }
    match life {
        Some(life) => Some(u64::from(life)),
        None => Some(expiry),
    }
}

/// A life that is at most the longest one of its table, which a row without a life gets.
#[inline]
fn life_within(keep: Option<u64>, life: Option<u64>) -> Option<u64>
    ensures { result ≡ life_within keep life }
{
    match (keep, life) {
        (None, life) => life,
        (Some(keep), None) => Some(keep),
        (Some(keep), Some(life)) => Some(life.min(keep)),
    }
}

/// The life of a row of a table with this longest life, in ms.
#[inline]
pub(crate) fn life_of(keep: Option<u64>, expiry: u64, life: Option<u32>) -> Option<u64>
    ensures { result ≡ life_of keep expiry life }
{
    let life = life_within(keep, life_said(expiry, life))?;
    Some(life.min(LONGEST_LIFE))
}
