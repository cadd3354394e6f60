//! What is kept of a definition.

ghost use Rattle.std.specs.Prelude.{◌≡◌};
ghost use Rattle.session_core.specs.Tracked.{is_key_of, followed_at, followed_of};

use crate::track::Followed;
use agg_types::{Declared, KeyKind, KeyLength, Shape};
use peers_msg::Definition;
use update_values::layout_of;

fn is_key_of(kind: KeyKind, sent: u64, len: u64) -> bool
    ensures { result ≡ is_key_of kind sent len }
{
    sent == kind.number()
        && match kind.length() {
            KeyLength::Exactly(exact) => len == exact,
            KeyLength::AtMost(_) => true,
        }
}

/// What is kept of a definition, if it is followed: its table's name is configured, and its key is
/// that table's.
#[tactic(auto, unfolding(crate::specs::Tracked::followed_of))]
pub(crate) fn followed_of(tables: &Declared<Shape>, definition: &Definition) -> Option<Followed>
    ensures { result ≡ followed_of tables.now definition.now }
{
    let table = tables.position(definition.name.as_slice())?;
    let shape = tables.get(table)?;
    followed_at(table, definition, shape)
}

#[tactic(auto, unfolding(crate::specs::Tracked::followed_at))]
fn followed_at(table: usize, definition: &Definition, shape: &Shape) -> Option<Followed>
    ensures { result ≡ followed_at table definition.now shape.now }
{
    if !is_key_of(shape.kind, definition.kind, definition.len) {
        return None;
    }
    Some(Followed {
        table,
        expiry: definition.expiry,
        layout: layout_of(definition),
    })
}
