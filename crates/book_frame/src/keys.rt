//! Keys, as a book goes over them.

ghost use Rattle.std.specs.Prelude.{◌≡◌, map};
ghost use Rattle.std.specs.Bool.{Decides};
ghost use Rattle.fleet_model.specs.Answers.{longer};
ghost use Rattle.book_frame.specs.Distinct.{is_other};

use agg_types::Key;

/// Whether two lists of keys are the same.
pub fn are_same(keys: &[&Key], others: &[&Key]) -> bool
    ensures { Decides result (map (λ key. key.now) keys.now ≡ map (λ key. key.now) others.now) }
{
    keys == others
}

/// Whether a key isn't the last one.
pub fn is_other(last: Option<&Key>, key: &Key) -> bool
    ensures { result ≡ is_other last.entry key.now }
{
    match last {
        None => true,
        Some(last) => *key != *last,
    }
}

/// The longer one of two lives that are left, where none is a life without an end.
pub fn longer(left: Option<u64>, other: Option<u64>) -> Option<u64>
    ensures { result ≡ longer left other }
{
    match left {
        None => None,
        Some(left) => match other {
            None => None,
            Some(other) => Some(left.max(other)),
        },
    }
}
