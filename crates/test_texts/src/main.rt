//! Reads what people write to a collector and to set one up, and prints what it says.
//!
//! Each line of data/commands, asked of the fleet of data/fleet: what is answered. Each
//! configuration of data/configurations: what it declares, or its first faulty line and what
//! explains it. Each of data/written: its text, which is read and written again. Each haproxy.cfg
//! of data/haproxy_files: the configuration that it gives. Each command line on standard input:
//! what it asks for, or the text and the exit status of one that asks for no job; then the
//! program's own, with whose status it ends.
//!
//! What is read is read once more where an allocation failed.
#![tactic(auto)]

mod command_lines;
mod commands;
mod configurations;
mod imports;
mod rows;
mod written;

use rows::Kind;
use std::process::ExitCode;

fn main(rt: HostRuntime) -> anyhow::Result<ExitCode> {
    commands::run(&rt)?;
    rows::run(&rt, "configurations", Kind::Configuration)?;
    rows::run(&rt, "written", Kind::Written)?;
    rows::run(&rt, "haproxy_files", Kind::Haproxy)?;
    command_lines::run(&rt)
}
