//! Parts of lists of keys.

ghost use Rattle.std.specs.Prelude.{◌≡◌};
ghost use Rattle.std.specs.Option.{option_copied};
ghost use Rattle.web_text.specs.Parts.{is_behind};

use agg_types::Key;
use std::cmp::Ordering;

/// Whether a key stands behind another one, or behind none.
pub fn is_behind(after: Option<&Key>, key: &Key) -> bool
    ensures { result ≡ is_behind (option_copied after.entry) key.now }
{
    match after {
        None => true,
        Some(after) => key.cmp(after) == Ordering::Greater,
    }
}
