//! What operators ask of the collector itself.

ghost use Rattle.std.specs.Prelude.{◌≡◌, []};
ghost use Rattle.agg_types.specs.Check.{config_faults};

use crate::scene::Still;
use agg_types::Config;
use book::Book;
use collector_log::Notes;
use peers_msg::{Feed, Message};
use serve::{Gate, News, Place, Status, Taught};
use std::io;
use std::io::Write;
use std::sync::Wait;

/// Where the first peer's session is.
pub const SESSION: Place = Place::Session(Some(1));

/// Where an older one of it was.
const OLDER: Place = Place::Session(Some(2));

/// Definitions of tables: two that fit, of which one has another period; a name with a slash, and
/// one that nobody knows. Then the same, and one that fits, with columns that aren't kept; keys of
/// another type, and of another length; a pushed filter's. What fits comes twice. Last come two
/// names that are quoted, and one that isn't followed on purpose.
const DEFINITIONS: [&[u8]; 14] = [
    b"\x0a\x82\x11\x01\x07clients\x04\x04\xf4\x31\x00\x0a\xf0\x62",
    b"\x0a\x82\x11\x01\x07clients\x04\x04\xf4\x31\x00\x0a\xf0\x62",
    b"\x0a\x82\x0b\x02\x05names\x07\x08\x04\x00",
    b"\x0a\x82\x0e\x03\x08/clients\x04\x04\x04\x00",
    b"\x0a\x82\x0c\x04\x06others\x04\x04\x04\x00",
    b"\x0a\x82\x10\x04\x06others\x04\x04\xf4\xf1\xfe\xfe\x01\x00",
    b"\x0a\x82\x0f\x02\x05names\x07\x08\xf4\xf1\xfe\xfe\x01\x00",
    b"\x0a\x82\x0f\x02\x05names\x07\x08\xf4\xf1\xfe\xfe\x01\x00",
    b"\x0a\x82\x0b\x05\x05names\x06\x08\x04\x00",
    b"\x0a\x82\x0b\x06\x05names\x07\x10\x04\x00",
    b"\x0a\x82\x09\x07\x03hot\x04\x04\x04\x00",
    b"\x0a\x82\x0b\x08\x05a b=c\x04\x04\x04\x00",
    b"\x0a\x82\x0a\x09\x04d\"\n\xff\x04\x04\x04\x00",
    b"\x0a\x82\x0b\x0a\x05cache\x04\x04\x04\x00",
];

/// Definitions of tables that are followed, with the types 0, 1, 4, 19, 22, 23, 27 and 40, of which
/// 23 has one element; with 10 alone and without its period; and with 23, 25 and 26, of which 23
/// has no number of elements.
const OTHERS: [&[u8]; 3] = [
    b"\x0a\x82\x17\x01\x07clients\x04\x04\xf3\xf2\xfe\xb0\x83\xff\x00\x00\x16\x02\x17\x01",
    b"\x0a\x82\x0e\x01\x07clients\x04\x04\xf0\x31\x00",
    b"\x0a\x82\x15\x02\x08glitches\x04\x04\xf0\xf1\xfe\x9e\x02\x00\x1a\xf8\x2f",
];

// Tells of what a peer defines.
fn define_for<R: Print + Wait + AllocGlobal>(
    rt: &R,
    notes: &Notes<'_, Still<R>>,
    peer: usize,
    definitions: &[&[u8]],
) -> io::Result<()> {
    for bytes in definitions {
        let mut feed = Feed::new(rt.alloc());
        match feed.feed(bytes) {
            Ok(messages) => {
                if let Some(Message::Define(definition)) = messages.into_vec().pop() {
                    notes.tell(SESSION, News::Defined(peer, &definition));
                } else {
                    println!(rt; "no definition")?;
                }
            }
            Err(_) => println!(rt; "no message")?,
        }
    }
    Ok(())
}

/// Tells of what the first peer defines on a first connection and on the next one, and of what the
/// second one does.
pub fn define<R: Print + Wait + AllocGlobal>(
    rt: &R,
    notes: &Notes<'_, Still<R>>,
) -> io::Result<()> {
    define_for(rt, notes, 0, &DEFINITIONS[..1])?;
    notes.tell(SESSION, News::Came(0));
    define_for(rt, notes, 0, &DEFINITIONS)?;
    define_for(rt, notes, 1, &OTHERS)
}

/// Prints what operators are answered.
pub fn show<R: Print + Wait + AllocGlobal>(
    rt: &R,
    notes: &Notes<'_, Still<R>>,
    config: Config,
) -> io::Result<()>
    requires { config_faults config ≡ [] }
{
    let Ok(book) = Book::new(rt.alloc(), config, 42) else {
        return println!(rt; "no book");
    };
    notes.tell(Place::Timer, News::Sat);
    notes.tell(SESSION, News::Posted(0, 0));
    notes.tell(SESSION, News::Posted(0, 812));
    let (own, learned) = (700, 12);
    notes.tell(SESSION, News::Taught(0, 0, Taught { own, learned }));
    notes.tell(
        SESSION,
        News::Taught(
            0,
            1,
            Taught {
                own: 97,
                learned: 3,
            },
        ),
    );
    notes.tell(SESSION, News::Told(0, 0, 2));
    notes.tell(OLDER, News::Told(0, 0, 9));
    for status in [
        Status::Help,
        Status::Info,
        Status::Peers,
        Status::Tables(0),
        Status::Tables(1),
    ] {
        let mut answer = Vec::new(rt.alloc());
        match notes.status(&book, status, &mut answer) {
            Ok(()) => println!(rt; "-- {status:?}")?,
            Err(_) => println!(rt; "out of memory")?,
        }
        io::writer(rt).write_all(answer.as_slice())?;
    }
    Ok(())
}
