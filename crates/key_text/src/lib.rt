//! The texts of keys, for answers that print them and commands that name them.
//!
//! A key's text is appended to bytes that are there already, with no text of its own in between;
//! what is read is the key that its text was printed from (`laws::printed_key_is_read`). The forms
//! are this project's own, close to those of HAProxy's `show table` (Management Guide).
#![tactic(auto)]

mod ipv6;
pub mod laws;
mod parts;
mod printing;
mod reading;

pub use printing::{append_key, append_number, append_text};
pub use reading::read_key;
