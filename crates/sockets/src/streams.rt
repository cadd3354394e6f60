//! Connections, however they come.

ghost use Rattle.std.specs.Io.{ReadsAtMost, WritesAtMost};

use serve::Door;
use std::io;
use std::io::{ErrorKind, Read, Write};
use std::net::{Shutdown, TcpStream};
use std::os::unix::net::UnixStream;
use std::sync::atomic::{AtomicU64, Ordering};
use std::time::Duration;

/// How a connection comes.
#[derive(Drop)]
enum Way {
    Tcp(TcpStream),
    Unix(UnixStream),
}

/// A connection over TCP, or by a socket of this machine.
#[derive(Drop)]
pub struct Stream {
    way: Way,
    // 1 once a read or a write found that the other side reset it
    reset: AtomicU64,
}

impl Stream {
    /// A connection over TCP.
    pub fn tcp(stream: TcpStream) -> Stream {
        Stream {
            way: Way::Tcp(stream),
            reset: AtomicU64::new(0),
        }
    }

    /// A connection by a socket of this machine.
    pub fn unix(stream: UnixStream) -> Stream {
        Stream {
            way: Way::Unix(stream),
            reset: AtomicU64::new(0),
        }
    }

    /// Reads once.
    pub fn read(&self, buffer: &mut [u8]) -> io::Result<usize>
        ensures { ReadsAtMost result buffer.new }
    {
        let came = match &self.way {
            Way::Tcp(stream) => {
                let mut reader = stream;
                reader.read(buffer)
            }
            Way::Unix(stream) => {
                let mut reader = stream;
                reader.read(buffer)
            }
        };
        self.note(&came);
        came
    }

    /// Writes once.
    pub fn write(&self, bytes: &[u8]) -> io::Result<usize>
        ensures { WritesAtMost result bytes.now }
    {
        let written = match &self.way {
            Way::Tcp(stream) => {
                let mut writer = stream;
                writer.write(bytes)
            }
            Way::Unix(stream) => {
                let mut writer = stream;
                writer.write(bytes)
            }
        };
        self.note(&written);
        written
    }

    // Takes note of what a read or a write came to.
    fn note(&self, came: &io::Result<usize>) {
        if let Err(fault) = came
            && fault.kind() == ErrorKind::ConnectionReset
        {
            self.reset.store(1, Ordering::SeqCst);
        }
    }

    /// Whether a read or a write found that the other side reset the connection.
    pub fn was_reset(&self) -> bool {
        self.reset.load(Ordering::SeqCst) != 0
    }

    /// Who reads what an operator is answered: people come by the socket of this machine, programs
    /// over TCP.
    pub fn door(&self) -> Door {
        match &self.way {
            Way::Tcp(_) => Door::Programs,
            Way::Unix(_) => Door::People,
        }
    }

    /// What is sent leaves at once from now on. By a socket it always does.
    pub fn send_at_once(&self) -> io::Result<()> {
        match &self.way {
            Way::Tcp(stream) => stream.set_nodelay(true),
            Way::Unix(_) => Ok(()),
        }
    }

    /// A read waits no longer than this.
    pub fn set_read_timeout(&self, limit: Duration) -> io::Result<()> {
        match &self.way {
            Way::Tcp(stream) => stream.set_read_timeout(Some(limit)),
            Way::Unix(stream) => stream.set_read_timeout(Some(limit)),
        }
    }

    /// A write waits no longer than this.
    pub fn set_write_timeout(&self, limit: Duration) -> io::Result<()> {
        match &self.way {
            Way::Tcp(stream) => stream.set_write_timeout(Some(limit)),
            Way::Unix(stream) => stream.set_write_timeout(Some(limit)),
        }
    }

    /// Ends the connection. Whoever reads or writes it then ends too.
    pub fn end(&self) {
        let _ = match &self.way {
            Way::Tcp(stream) => stream.shutdown(Shutdown::Both),
            Way::Unix(stream) => stream.shutdown(Shutdown::Both),
        };
    }
}
