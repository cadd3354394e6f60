//! What stands between workers and their turns.

use crate::served::Cause;
use crate::status::Status;
use agg_types::{Key, NoMemory};
use book::Book;
use peers_msg::Definition;
use std::net::SocketAddr;

/// Who comes to a gate.
#[derive(Clone, Copy, Debug, PartialEq, Eq)]
pub enum Place {
    /// A session, with its seat if it has one.
    Session(Option<u64>),
    /// An admin.
    Admin,
    /// The timer.
    Timer,
}

/// What is told of a connection.
#[derive(Clone, Copy)]
pub enum News<'a> {
    /// A peer's hello was accepted. The peer goes by its place in the configuration.
    Came(usize),
    /// A peer's session posted a batch with so many updates; the first batch may have none. The
    /// peer goes by its place in the configuration.
    Posted(usize, u64),
    /// A peer's session defined a table, whether it is followed or not.
    Defined(usize, &'a Definition),
    /// So many updates of a followed table came from a peer's session since that was told last. The
    /// table goes by its place in the configuration, as the peer does.
    Taught(usize, usize, Taught),
    /// A peer's session taught rows of these keys of a followed table, which the peer had learned
    /// from others. They are those of the first 1,000 such updates of the session and the table, or
    /// of fewer where the keys have more than 64 KB, each update's told once. The table goes by its
    /// place in the configuration, as the peer does.
    Learned(usize, usize, &'a [Key]),
    /// All that a peer was to be told was written: so many keys of a pushed table are told now. The
    /// table goes by the place of its line among those that push. Told behind the session's first
    /// turn, and whenever the number is another.
    Told(usize, usize, u64),
    /// A command of an admin changed something, and that is shown: it is answered `ok` next. Who
    /// sent it, where that has an address, and its line without its end. The sender chose these
    /// bytes.
    Changed(Option<SocketAddr>, &'a [u8]),
    /// The connection of a session is over.
    Gone(Gone<'a>),
    /// A timer's moment was posted, and is shown.
    Ticked,
    /// A worker has a seat from now on.
    Sat,
    /// A worker gave its seat back.
    Left,
    /// A connection was closed before it was served, for want of a thread, a seat or a lens. Who
    /// sends its bytes, where that has an address.
    TurnedAway(Option<SocketAddr>),
}

/// How many updates of a table came.
#[derive(Clone, Copy, Debug, PartialEq, Eq)]
pub struct Taught {
    /// Those with an id below 2^31: rows of the sender's own.
    pub own: u64,
    /// Those with an id from 2^31 on: rows that the sender learned from others.
    pub learned: u64,
}

/// A connection of a session that is over.
#[derive(Clone, Copy)]
pub struct Gone<'a> {
    /// Who sent its bytes, where that has an address.
    pub sender: Option<SocketAddr>,
    /// Its peer, by its place in the configuration, if its hello was accepted.
    pub peer: Option<usize>,
    /// The name that its hello gave, if it wasn't accepted and was read so far. The sender chose
    /// these bytes.
    pub name: Option<&'a [u8]>,
    /// The name by which its hello called the collector, if it wasn't accepted and was read so far.
    /// The sender chose these bytes.
    pub called: Option<&'a [u8]>,
    /// How many updates it sent that were posted.
    pub updates: u64,
    /// Why it ended, where it didn't end by itself.
    pub cause: Option<&'a Cause>,
}

/// What each worker passes at each turn. A program's gate lets all pass, a test's makes workers
/// wait for one another.
pub trait Gate {
    /// A worker is about to treat what it read, or a timer to post.
    fn turn(&self, place: Place);

    /// Whether the worker is to end, as at the end of its source. Asked before each read, and
    /// before each post of a timer.
    fn stop(&self) -> bool;

    /// What happened at a place: who came and who went, once each; what was posted, defined and
    /// changed in between; and which connections weren't served.
    fn tell(&self, _place: Place, _news: News<'_>) {}

    /// All that a peer's session had to tell of the pushed tables is written. It comes at each read
    /// at which that is so. The peer goes by its place in the configuration.
    fn told_all(&self, _place: Place, _peer: usize) {}

    /// Appends the answer to what an admin asks of the collector itself, each line with its LF and
    /// none empty. The book is the one of the admin's look, in which nothing may be posted.
    ///
    /// No clause says what it tells. After `NoMemory` the connection is over.
    fn status(&self, _book: &Book, _status: Status, _out: &mut Vec<u8>) -> Result<(), NoMemory> {
        Ok(())
    }
}
