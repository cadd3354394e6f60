//! Commands of an admin connection, and their answers: `serve_admin`.
//!
//! `serve` runs one in a thread for each of four connections at once. What commands say and are
//! answered stands in `show_clear`, the texts of configurations in `config_text`, and what an admin
//! stands on in `worker_frame`.
//!
//! Promised: what is read is taken apart into commands, each with the LF or `;` that ends it.
//! Exactly the changes that they ask for are posted, in their order. It answers each over a book
//! that shows those before it, for programs or for people (`Door`), as those before it asked for:
//! `prompt` turns whether answers are for people, with a prompt behind each. It answers a change
//! only once that was posted.
//!
//! No clause says what a gate tells of the collector itself (`Gate::status`).
#![tactic(auto)]

mod admin;
mod answering;
mod asked;
mod faults;
mod framing;
mod line;
mod manner;
mod obeying;
mod worker;

pub use admin::serve_admin;
pub use asked::Asked;
