//! Which batches are taken while memory is short.

ghost use Rattle.std.specs.Prelude.{◌≡◌, ◌↔◌, IsTrue};
ghost use Rattle.std.specs.List.{All};
ghost use Rattle.agg_types.specs.Whats.{as_what};
ghost use Rattle.hub.specs.Freeing.{IsFreeing, frees};

use agg_types::{LentWhat, What, Whats};

/// Whether all of a batch frees memory: moments, clears and dropped filters.
pub fn frees_all(whats: &Whats) -> bool
    ensures { IsTrue result ↔ All IsFreeing whats.now }
{
    for place in 0..whats.len() {
        if !frees(whats.at(place)) {
            return false;
        }
    }
    true
}

fn frees(what: LentWhat<'_>) -> bool
    ensures { result ≡ frees (as_what what.entry) }
{
    matches!(
        what,
        LentWhat::Other(What::Moment(_) | What::Clear { .. } | What::DropFilter(_))
    )
}
