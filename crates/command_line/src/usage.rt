ghost use Rattle.std.specs.Prelude.{◌≡◌, ◌≢◌, IfSome, OnOk};
ghost use Rattle.std.specs.Io.KnownBytes.{Appends, Keeps};
ghost use Rattle.command_line.specs.Status.{IsUsageOf, IsWant, place_fault, status_of, text_of};

use agg_types::NoMemory;
use clap::Error;
use clap::error::ErrorKind;
use std::io::Write;
use std::{fmt, io};

/// An option of `listen` that says where, or for whom, is to be listened.
#[derive(Clone, Copy, Debug, PartialEq, Eq)]
pub enum PlaceOption {
    Peers,
    Admin,
    AdminSocket,
    Http,
    From,
}

impl PlaceOption {
    // What is told where it says none.
    fn fault(self) -> &'static str
        ensures { result.now ≡ place_fault self }
    {
        match self {
            PlaceOption::Peers => "bad address of --peers\n",
            PlaceOption::Admin => "bad address of --admin\n",
            PlaceOption::AdminSocket => "bad path of --admin-socket\n",
            PlaceOption::Http => "bad address of --http\n",
            PlaceOption::From => "bad network of --from\n",
        }
    }
}

/// Why a command line asks for no job.
#[derive(Debug, Drop)]
pub enum Usage {
    /// It asks for help, or its words aren't those of the program: what `clap` says of it.
    Words(Error),
    /// The option names no address, no path or no network.
    BadAddress(PlaceOption),
    /// Neither `--admin` nor `--admin-socket` is there.
    NoAdmin,
    /// `--unknown-peers` says neither `refuse` nor `wait`.
    BadUnknownPeers,
    /// `--http-host` says no name of a host.
    BadHost,
    /// `check` has a file both behind `--config` and as a word.
    TwoFiles,
    /// An allocation failed.
    NoMemory,
}

impl Usage {
    /// The exit status: 0 where help was asked for, 2 for a bad command line, and 5 where an
    /// allocation failed.
    pub fn status(&self) -> u8
        ensures { result ≡ status_of self.now }
    {
        match self {
            Usage::Words(error) if error.use_stderr() => 2,
            Usage::Words(_) => 0,
            Usage::BadAddress(_) | Usage::NoAdmin => 2,
            Usage::BadUnknownPeers | Usage::BadHost | Usage::TwoFiles => 2,
            Usage::NoMemory => 5,
        }
    }

    /// Writes the text: help to standard output alone, what is wrong to standard error alone.
    pub fn print<O: Write, E: Write>(&self, output: &mut O, errors: &mut E) -> io::Result<()>
        ensures mistake { status_of self.now ≢ 0
            → Keeps (O.contents output.old) (O.contents output.new) }
        ensures help { status_of self.now ≡ 0
            → Keeps (E.contents errors.old) (E.contents errors.new) }
        ensures text { OnOk result (IfSome (text_of self.now)
            (Appends (E.contents errors.old) (E.contents errors.new))) }
    {
        if self.status() == 0 {
            write!(output, "{self}")?;
            output.flush()
        } else {
            write!(errors, "{self}")
        }
    }
}

/// The text for who typed the line, with its LF; empty where an allocation failed.
impl fmt::Display for Usage {
    ghost output = { text_of };

    fn fmt<W: fmt::Write>(&self, f: &mut fmt::Formatter<W>) -> fmt::Result {
        match self {
            Usage::Words(error) => fmt::Display::fmt(error, f),
            Usage::BadAddress(option) => f.write_str(option.fault()),
            Usage::NoAdmin => f.write_str("neither --admin nor --admin-socket\n"),
            Usage::BadUnknownPeers => f.write_str("bad --unknown-peers: refuse or wait\n"),
            Usage::BadHost => f.write_str("bad --http-host\n"),
            Usage::TwoFiles => f.write_str("both --config and a file\n"),
            Usage::NoMemory => Ok(()),
        }
    }
}

impl From<Error> for Usage {
    ghost from_gives = { IsUsageOf };

    fn from(error: Error) -> Usage {
        if error.kind() == ErrorKind::OutOfMemory {
            Usage::NoMemory
        } else {
            Usage::Words(error)
        }
    }
}

impl From<NoMemory> for Usage {
    ghost from_gives = { λ _. IsWant };

    fn from(_: NoMemory) -> Usage {
        Usage::NoMemory
    }
}
