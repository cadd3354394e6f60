//! The collector's programs.
//!
//! `aggregator replay` reads a script on standard input and prints its results. `aggregator check`
//! reads a configuration and says what is wrong with it, and `aggregator import` prints one for a
//! haproxy.cfg. `aggregator listen` reads one, and collects what proxies send.
#![tactic(auto)]

use listening::Disk;
use std::process::ExitCode;

fn main(rt: HostRuntime) -> ExitCode {
    let files = Disk { rt };
    ExitCode::from(listening::run(&rt, &rt, &files, &mut rt.stderr()))
}
