//! What test programs share: configurations by their text, a hello, keys and events, a
//! source and a writer that fail.
//!
//! A program writes the fleet that it runs as an operator would, and not as a literal of the types:
//! so it reads like the documents, and stays as it is when the types change.
#![tactic(auto)]

ghost use Rattle.agg_types.specs.Check.{config_faults};
ghost use Rattle.std.specs.Prelude.{◌≡◌, [], IfOk};

mod memory;

use agg_types::{Cell, Cells, Config, Key, NoMemory, What, Whats};
use anyhow::Result;
pub use memory::{Full, Torn};
use std::alloc::Global;

/// The collector `agg` of the proxies `lb1` and `lb2`, with a table of a count by address.
pub const TWO_PROXIES: &[u8] =
    b"name agg\npeer lb1\npeer lb2\ntable t type ip size 1000 store gpc0\n";

/// The hello of the proxy `lb1` to the collector `agg`.
pub const HELLO: &[u8] = b"HAProxyS 2.1\nagg\nlb1 100 1\n";

/// The configuration that a text writes.
pub fn config(alloc: Global, text: &[u8]) -> Result<Config>
    ensures { IfOk result (λ config. config_faults config ≡ []) }
{
    match agg_config::read(alloc, text) {
        Ok(config) => Ok(config),
        Err(fault) => Err(fault.cause.into()),
    }
}

/// The address of a number: 0 is 0.0.0.0.
pub fn address(alloc: Global, number: u32) -> Result<Key, NoMemory> {
    Key::copy(alloc, &number.to_be_bytes())
}

/// A peer puts a count of an address into the first table.
pub fn put(alloc: Global, peer: usize, number: u32, count: u64) -> Result<What, NoMemory> {
    Ok(What::Put {
        peer,
        table: 0,
        key: address(alloc, number)?,
        life: None,
        cells: Cells::copy(alloc, &[Cell::Count(count)])?,
    })
}

/// A batch of one event.
pub fn alone(alloc: Global, what: What) -> Result<Whats, NoMemory> {
    Whats::alone(alloc, what)
}
