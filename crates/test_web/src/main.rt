//! Runs the examples of the libraries' important calls, and then what is answered over HTTP, all in
//! memory, and prints what they answer.
#![tactic(auto)]

mod examples;
mod web;

use anyhow::Result;

fn main(rt: HostRuntime) -> Result<()> {
    examples::run(&rt, rt.alloc())?;
    web::run(&rt, rt.alloc())
}
