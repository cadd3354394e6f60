//! The configuration of a collector, from a proxy's haproxy.cfg.
//!
//! For the program's `import`. It reads what HAProxy's Configuration Manual calls `peers` sections
//! and `stick-table` lines, and nothing else of the file. What one line says is found in
//! `haproxy_cfg`; here the lines are walked, and a configuration is written, with comments on what
//! it leaves out and on what may be added.
//!
//! `import` promises two things of the text that it gives. The collector reads it without a fault,
//! and what it then has is exactly `imported`, a definition in specs/. That is the peers and tables
//! of the file, in its order, with HAProxy's lengths and periods and with room for more rows. So a
//! table is neither lost nor made up, and a collector whose name is given has each other peer as a
//! proxy. No clause says what its comments tell, nor that there is
//! memory.
#![tactic(auto)]

mod arrays;
mod columns;
mod fleets;
mod found;
mod notes;
mod origins;
mod page;
mod pushes;
mod reasons;
mod same;
mod sizes;
mod text;
mod whole;

pub use origins::Origin;
pub use whole::{ImportFault, import};
