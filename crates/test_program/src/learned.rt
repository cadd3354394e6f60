//! What the log says of rows that several peers teach.

ghost use Rattle.std.specs.Prelude.{◌≡◌, []};
ghost use Rattle.agg_types.specs.Check.{config_faults};

use crate::scene::Still;
use agg_types::{Cell, Cells, Config, Key, NoMemory, What};
use book::Book;
use collector_log::{Board, Notes, note_learned};
use journal::{Heading, Journal};
use serve::Taught;
use std::alloc::Global;
use std::io;
use std::sync::Wait;

/// Three peers, of which one has a name that is quoted, and a table of them all.
const CONFIGURATION: &[u8] = b"name agg\npeer lb1\npeer lb2\npeer a=b\n\
table clients type integer size 2000 store gpc0,http_req_rate(10000)\n";

/// What a peer's session taught: so many updates of own rows and of learned ones, and the keys of
/// so many of the latter. The peer's rows: so many, each with this count and this rate.
#[derive(Clone, Copy)]
struct Lesson {
    own: u64,
    learned: u64,
    keys: u16,
    rows: u16,
    count: u64,
    rate: u32,
}

/// What a session taught: own, learned, and their keys; the peer's rows, each with a count and a
/// rate.
macro_rules! lesson {
    ($own:expr, $learned:expr, $keys:expr, $rows:expr, $count:expr, $rate:expr) => {
        Lesson {
            own: $own,
            learned: $learned,
            keys: $keys,
            rows: $rows,
            count: $count,
            rate: $rate,
        }
    };
}

/// Of a peer that never came.
const NONE: Lesson = lesson!(0, 0, 0, 0, 0, 0);

/// Scenes, each with what the sessions of all peers taught.
const SCENES: [(&str, [Lesson; 3]); 12] = [
    (
        "a mesh of two",
        [
            lesson!(2, 12, 12, 12, 5, 0),
            lesson!(3, 13, 12, 12, 5, 0),
            NONE,
        ],
    ),
    (
        "a mesh of two of three",
        [
            lesson!(0, 12, 12, 12, 5, 7),
            lesson!(0, 12, 12, 12, 6, 7),
            lesson!(0, 12, 12, 12, 6, 7),
        ],
    ),
    (
        "a reload, beside a peer that holds the same",
        [
            lesson!(0, 12, 12, 12, 5, 0),
            lesson!(12, 0, 0, 12, 5, 0),
            NONE,
        ],
    ),
    (
        "as many own rows",
        [
            lesson!(0, 12, 12, 12, 5, 0),
            lesson!(12, 12, 12, 12, 5, 0),
            NONE,
        ],
    ),
    (
        "other counts",
        [
            lesson!(0, 12, 12, 12, 5, 0),
            lesson!(0, 12, 12, 12, 6, 0),
            NONE,
        ],
    ),
    (
        "other rates",
        [
            lesson!(0, 12, 12, 12, 5, 7),
            lesson!(0, 12, 12, 12, 5, 8),
            NONE,
        ],
    ),
    (
        "ten rows alike",
        [
            lesson!(0, 12, 12, 12, 5, 0),
            lesson!(0, 12, 12, 10, 5, 0),
            NONE,
        ],
    ),
    (
        "nine rows alike",
        [
            lesson!(0, 12, 12, 12, 5, 0),
            lesson!(0, 12, 12, 9, 5, 0),
            NONE,
        ],
    ),
    (
        "numbers up to 3",
        [
            lesson!(0, 12, 12, 12, 3, 3),
            lesson!(0, 12, 12, 12, 3, 3),
            NONE,
        ],
    ),
    (
        "a rate above 3",
        [
            lesson!(0, 12, 12, 12, 3, 4),
            lesson!(0, 12, 12, 12, 3, 4),
            NONE,
        ],
    ),
    (
        "ten rows of a sample of 1,000",
        [
            lesson!(0, 5000, 1001, 10, 5, 0),
            lesson!(0, 5000, 1001, 10, 5, 0),
            NONE,
        ],
    ),
    (
        "nine rows of a sample of 1,000",
        [
            lesson!(0, 5000, 1001, 9, 5, 0),
            lesson!(0, 5000, 1001, 9, 5, 0),
            NONE,
        ],
    ),
];

/// How often the book is looked at: more often than there are pairs.
const LOOKS: u64 = 8;

// The key of a number.
fn key(alloc: Global, number: u16) -> Result<Key, NoMemory> {
    let [high, low] = number.to_be_bytes();
    Key::copy(alloc, &[0, 0, high, low])
}

// A book whose only seat is the session of all peers.
fn opened(alloc: Global, config: Config) -> Result<Book, NoMemory>
    requires { config_faults config ≡ [] }
{
    let mut book = Book::new(alloc, config, 0)?;
    let events = [What::Sit, What::Open(0), What::Open(1), What::Open(2)];
    for (number, what) in events.iter().enumerate() {
        book.apply(0, number as u64, what)?;
    }
    Ok(book)
}

// A peer's row is put.
fn put(
    alloc: Global,
    book: &mut Book,
    peer: usize,
    number: u16,
    lesson: Lesson,
) -> Result<(), NoMemory> {
    let rate = Cell::Rate {
        elapsed: 0,
        cur: lesson.rate,
        prev: 0,
    };
    let what = What::Put {
        peer,
        table: 0,
        key: key(alloc, number)?,
        life: None,
        cells: Cells::copy(alloc, &[Cell::Count(lesson.count), rate])?,
    };
    let next = book.next_seq(0).unwrap_or(0);
    book.apply(0, next, &what)
}

// A peer's session with this seat begins, and teaches.
fn teach<R: Wait>(
    rt: &R,
    alloc: Global,
    board: &Board,
    peer: usize,
    seat: u64,
    lesson: Lesson,
) -> Result<(), NoMemory> {
    board.come(rt, peer, Some(seat), None, 0);
    let (own, learned) = (lesson.own, lesson.learned);
    board.teach(rt, peer, Some(seat), 0, Taught { own, learned });
    for number in 0..lesson.keys {
        let keys = [key(alloc, number)?];
        board.hear(rt, peer, Some(seat), 0, &keys);
    }
    Ok(())
}

// The book is looked at again and again.
fn look<R: Print + Wait>(notes: &Notes<'_, Still<R>>, board: &Board, book: &Book) {
    let journal = Journal::new(notes.alloc, Heading::Time);
    for _ in 0..LOOKS {
        note_learned(&notes.rt, &journal, board, book);
    }
    journal.write_out(&notes.rt);
}

// A scene. Then the first peer's newer session teaches the same, an older one of it teaches more,
// and it is over.
fn play<R: Print + Wait>(
    notes: &Notes<'_, Still<R>>,
    book: &mut Book,
    lessons: &[Lesson],
) -> Result<(), NoMemory> {
    let rt = &notes.rt;
    let alloc = notes.alloc;
    let board = Board::new(alloc, 3, 0)?;
    for (peer, lesson) in lessons.iter().enumerate() {
        for number in 0..lesson.rows {
            put(alloc, book, peer, number, *lesson)?;
        }
        teach(rt, alloc, &board, peer, 1, *lesson)?;
    }
    look(notes, &board, book);
    let _ = println!(rt.rt; "-- behind a new session");
    if let Some(first) = lessons.first() {
        teach(rt, alloc, &board, 0, 2, *first)?;
    }
    let (own, learned) = (100_000, 0);
    board.teach(rt, 0, Some(1), 0, Taught { own, learned });
    look(notes, &board, book);
    board.go(rt, 0, Some(2), 0);
    look(notes, &board, book);
    Ok(())
}

// A scene, over a book of its own.
fn show_scene<R: Print + Wait>(
    notes: &Notes<'_, Still<R>>,
    title: &str,
    lessons: &[Lesson],
) -> io::Result<()> {
    let rt = &notes.rt.rt;
    println!(rt; "-- {title}")?;
    let Ok(config) = agg_config::read(notes.alloc, CONFIGURATION) else {
        return println!(rt; "no configuration");
    };
    let Ok(mut book) = opened(notes.alloc, config) else {
        return println!(rt; "no book");
    };
    if play(notes, &mut book, lessons).is_err() {
        return println!(rt; "out of memory");
    }
    Ok(())
}

/// Prints what is told of rows that several peers teach.
pub fn show<R: Print + Wait>(notes: &Notes<'_, Still<R>>) -> io::Result<()> {
    println!(notes.rt.rt; "== rows learned from others")?;
    for (title, lessons) in SCENES {
        show_scene(notes, title, &lessons)?;
    }
    Ok(())
}
