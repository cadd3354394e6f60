//! The keys of a set and of what was told, side by side.

ghost use Rattle.std.specs.Prelude.{◌≡◌, [], ◌∷◌, length, map, MatchOption};
ghost use Rattle.std.specs.Iterator.{at_most};
ghost use Rattle.std.specs.Map.Iter.{TakesFirst};
ghost use Rattle.pushed_keys.specs.Packed.{lent, marks_of};
ghost use Rattle.pushed_keys.specs.Stands.{in_set, only_told, shown, stands};

use crate::marks::Packed;
use crate::parts::Lent;
use agg_types::Key;
use std::cmp::Ordering;
use std::marker::Model;

/// A key that is in the set or was told: whether the set has it, and the moment, in ms, at which it
/// was last put, if it was.
#[derive(Clone, Copy)]
pub struct Standing<'a> {
    pub key: &'a [u8],
    pub is_in: bool,
    pub put: Option<u64>,
}

/// Lends the keys of a set and of what was told, in the order of their bytes, each once.
///
/// Contracts see the list of what it has left.
#[derive(Drop)]
pub struct Stands<'a> {
    set: &'a [&'a Key],
    marks: Packed<'a>,
}

impl<'a> Model for Stands<'a> {
    ghost use Rattle.std.specs.Prelude.{List, map};
    ghost use Rattle.pushed_keys.specs.Packed.{marks_of};
    ghost use Rattle.pushed_keys.specs.Stands.{Stand, stands};

    ghost Value = { List Stand };

    ghost view = { λ left. stands (map (λ key. key.now) left.set.now) (marks_of left.marks) };
}

impl<'a> Stands<'a> {
    /// The keys of a set and of these marks, both in order.
    pub fn new(set: &'a [&'a Key], marks: Packed<'a>) -> Stands<'a>
        ensures { result ≡ stands (map (λ key. key.now) set.now) (marks_of marks.entry) }
    {
        Stands { set, marks }
    }
}

impl<'a> Iterator for Stands<'a> {
    type Item = Standing<'a>;

    ghost next_gives = { TakesFirst shown };

    ghost remaining = { λ left. at_most (length left) };

    fn next(&mut self) -> Option<Standing<'a>> {
        let (standing, left) = first_standing(self.set, self.marks)?;
        *self = left;
        Some(standing)
    }
}

// The first key of a set and of what was told, and what is left of both behind it.
#[tactic(auto, unfolding(crate::specs::Stands::stands))]
fn first_standing<'a>(set: &'a [&'a Key], marks: Packed<'a>) -> Option<(Standing<'a>, Stands<'a>)>
    ensures { MatchOption result (stands (map (λ key. key.now) set.now) (marks_of marks.entry) ≡ [])
        (λ found. stands (map (λ key. key.now) set.now) (marks_of marks.entry)
        ≡ shown found.0 ∷ found.1) }
{
    let [key, others @ ..] = set else {
        let (mark, rest) = marks.split_first()?;
        return Some((told_alone(mark), Stands::new(set, rest)));
    };
    Some(first_beside(key, others, set, marks))
}

// The first key of a set that has one and of what was told, and what is left of both behind it.
#[inline]
#[tactic(auto, unfolding(crate::specs::Stands::stands))]
fn first_beside<'a>(
    key: &'a Key,
    others: &'a [&'a Key],
    set: &'a [&'a Key],
    marks: Packed<'a>,
) -> (Standing<'a>, Stands<'a>)
    requires { map (λ key. key.now) set.now ≡ key.now ∷ map (λ key. key.now) others.now }
    ensures { stands (key.now ∷ map (λ key. key.now) others.now) (marks_of marks.entry)
        ≡ shown result.0 ∷ result.1 }
{
    let key = key.as_slice();
    let Some((mark, rest)) = marks.split_first() else {
        return (held(key, None), Stands::new(others, marks));
    };
    match key.cmp(&mark.key) {
        Ordering::Less => (held(key, None), Stands::new(others, marks)),
        Ordering::Equal => (held(key, Some(mark.put)), Stands::new(others, rest)),
        Ordering::Greater => (told_alone(mark), Stands::new(set, rest)),
    }
}

// A key of the set.
fn held(key: &[u8], put: Option<u64>) -> Standing<'_>
    ensures { shown result ≡ in_set key.now put }
{
    Standing {
        key,
        is_in: true,
        put,
    }
}

// A key that was told and isn't in the set.
fn told_alone(mark: Lent<'_>) -> Standing<'_>
    ensures { shown result ≡ only_told (lent mark.entry) }
{
    Standing {
        key: mark.key,
        is_in: false,
        put: Some(mark.put),
    }
}
