//! Why nothing is collected, or no longer.

ghost use Rattle.std.specs.Prelude.{◌≡◌, ℕ, List, IfOk, OnOk};
ghost use Rattle.std.specs.Io.KnownBytes.{Appends};
ghost use Rattle.program.specs.Faults.{IsTextOf, stuck_reason};

use std::alloc::Global;
use std::io;
use std::io::Write;
use std::net::SocketAddr;

/// The status of a fault of memory, reading, writing or sockets.
pub const FAULT: u8 = 5;

/// What doesn't go on in a collector that ends itself.
#[derive(Clone, Copy, Debug, PartialEq, Eq)]
pub enum Stuck {
    /// One showing is under way and doesn't end.
    Showing,
    /// Something was appended to the history, and nothing is shown.
    Unshown,
    /// The clock posts no moment.
    Unposted,
    /// Nobody gets to look at how far showing has come.
    Unseen,
}

impl Stuck {
    /// What doesn't go on, in words.
    pub fn reason(self) -> &'static str
        ensures { result.now ≡ stuck_reason self }
    {
        match self {
            Stuck::Showing => "one showing has been under way for 60 s",
            Stuck::Unshown => "nothing that came was shown for 10 s",
            Stuck::Unposted => "the clock posted no moment for 10 s",
            Stuck::Unseen => "the history was locked for 10 s",
        }
    }
}

/// Why nothing is collected, or no longer.
#[derive(Debug, Drop)]
pub enum Fault {
    /// The configuration can't be read.
    Unread(io::Error),
    /// Nobody can connect at this address.
    Address(SocketAddr, io::Error),
    /// Nobody can connect by a socket of this path.
    Path(String, io::Error),
    /// The clock failed, or standard output.
    Start(io::Error),
    /// An allocation failed.
    NoMemory,
    /// The listener of the proxies has failed for good.
    Closed(io::Error),
    /// Something doesn't go on without which nobody is served.
    Stuck(Stuck),
}

/// Tells a fault on standard error, in a line, and answers the exit status. A fault of the system
/// stands there with the system's reason.
pub fn tell<E: Write>(alloc: Global, fault: &Fault, errors: &mut E) -> io::Result<u8>
    ensures status { IfOk result (λ status. status ≡ 5) }
    ensures text { OnOk result ((text : List ℕ) × IsTextOf fault.now text
        × Appends (E.contents errors.old) (E.contents errors.new) text) }
{
    match fault {
        Fault::Unread(error) => {
            let reason = format!(in alloc; "{error}")?;
            writeln!(errors, "cannot read the configuration: {reason}")?;
        }
        Fault::Address(address, error) => {
            let reason = format!(in alloc; "{error}")?;
            writeln!(errors, "cannot listen at {address}: {reason}")?;
        }
        Fault::Path(path, error) => {
            let reason = format!(in alloc; "{error}")?;
            writeln!(errors, "cannot listen at {path}: {reason}")?;
        }
        Fault::Start(error) => {
            let reason = format!(in alloc; "{error}")?;
            writeln!(errors, "cannot start: {reason}")?;
        }
        Fault::NoMemory => writeln!(errors, "out of memory")?,
        Fault::Closed(error) => {
            let reason = format!(in alloc; "{error}")?;
            writeln!(errors, "proxies can connect no more: {reason}")?;
        }
        Fault::Stuck(stuck) => {
            let reason = stuck.reason();
            writeln!(errors, "stuck: {reason}")?;
        }
    }
    Ok(FAULT)
}
