//! The tables that are pushed.

ghost use Rattle.std.specs.Prelude.{◌≡◌, IfOk};
ghost use Rattle.std.specs.Option.{option_copied};
ghost use Rattle.pushed_keys.specs.Pushes.{kind_of, life_of, pushed_as, pushed_of, table_named};

use agg_types::limits::HOLD_END;
use agg_types::{Config, Items, KeyKind, Name, NoMemory, Push, Shape};
use std::alloc::Global;

/// The life of a key that is put in a table without a hold, in ms.
pub const UNHELD_LIFE: u32 = 10_000;

/// A pushed table: a standing filter's name, the kind of its keys, and how it is told.
pub struct Pushed {
    /// The filter's name, which is the table's in the proxy too.
    pub name: Name,
    /// The kind of the keys of the filter's table.
    pub kind: KeyKind,
    /// The life of a key that is put, in ms.
    pub life: u32,
    /// Whether a key that left the set is left to its life, in place of being taken away.
    pub holds: bool,
}

// By hand, so that a crate that drops it proves nothing of its parts.
impl Drop for Pushed {
    fn drop(self) {
        let Pushed {
            name: _,
            kind: _,
            life: _,
            holds: _,
        } = self;
    }
}

/// The tables that a configuration pushes, in the order of their lines.
///
/// The kind of the keys is that of the table of the filter with the name.
#[tactic(auto, unfolding(crate::specs::Pushes::pushed_of))]
pub fn pushed_of(alloc: Global, config: &Config) -> Result<Items<Pushed>, NoMemory>
    ensures { IfOk result (λ pushed. pushed ≡ pushed_of config.now) }
{
    let mut pushed = Vec::new(alloc);
    for push in config.pushes.as_slice() {
        pushed.push(pushed_as(alloc, config, push)?)?;
    }
    Ok(Items::from_vec(pushed))
}

fn pushed_as(alloc: Global, config: &Config, push: &Push) -> Result<Pushed, NoMemory>
    ensures { IfOk result (λ pushed. pushed ≡ pushed_as config.now push.now) }
{
    Ok(Pushed {
        name: push.name.duplicate(alloc)?,
        kind: kind_of(config, push.name.as_slice()),
        life: life_of(push.hold),
        holds: push.hold.is_some(),
    })
}

fn life_of(hold: Option<u64>) -> u32
    ensures { result ≡ life_of hold }
{
    match hold {
        None => UNHELD_LIFE,
        Some(hold) => hold.min(HOLD_END) as u32,
    }
}

// The kind of the keys that a filter has, by its name.
fn kind_of(config: &Config, name: &[u8]) -> KeyKind
    ensures { result ≡ kind_of config.now name.now }
{
    match shape_named(config, name) {
        None => KeyKind::Ip,
        Some(shape) => shape.kind,
    }
}

// The table of the filter with a name.
fn shape_named<'a>(config: &'a Config, name: &[u8]) -> Option<&'a Shape>
    ensures { option_copied result ≡ table_named config.now name.now }
{
    let place = config.filters.position(name)?;
    let filter = config.filters.get(place)?;
    config.tables.get(filter.table)
}
