//! What peers send in each row.

use crate::bytes::{
    AT_ONCE, BEAT, DEFINE_FIVE, DEFINE_SEVEN, ERROR, FINISHED, HELLO, NO_FIELD, OTHER_HELLO,
    PARTIAL, RESYNC, SIX, TOO_LONG, TWO,
};
use crate::memory::Step;

/// A peer's hello, an update in the next piece and another one.
pub const TALK: [Step; 3] = [
    Step::Bytes(HELLO),
    Step::Bytes(DEFINE_FIVE),
    Step::Bytes(SIX),
];

/// Another peer's.
pub const OTHER_TALK: [Step; 2] = [Step::Bytes(OTHER_HELLO), Step::Bytes(DEFINE_SEVEN)];

/// A line that is no hello.
pub const NO_HELLO: [Step; 1] = [Step::Bytes(b"Foo 2.1\n")];

/// What each session sends, and what it shows.
pub const SESSIONS: [(&str, &[Step]); 21] = [
    ("a right hello", &[Step::Bytes(HELLO)]),
    ("no hello", &NO_HELLO),
    ("another version", &[Step::Bytes(b"HAProxyS 3.0\n")]),
    ("another receiver", &[Step::Bytes(b"HAProxyS 2.1\nother\n")]),
    (
        "an unknown sender",
        &[Step::Bytes(b"HAProxyS 2.1\nagg\nlb9 1 1\n")],
    ),
    ("half a hello", &[Step::Bytes(b"HAProxyS 2.1\nag")]),
    ("two updates", &TALK),
    ("all in one piece", &[Step::Bytes(AT_ONCE)]),
    (
        "a resync request and its end",
        &[Step::Bytes(HELLO), Step::Bytes(RESYNC)],
    ),
    (
        "silence for 2,999 ms",
        &[Step::Bytes(HELLO), Step::Silent(2999)],
    ),
    (
        "silence for 3,000 ms, and on to 4,999",
        &[Step::Bytes(HELLO), Step::Silent(3000), Step::Silent(4999)],
    ),
    (
        "silence for 5,000 ms",
        &[
            Step::Bytes(HELLO),
            Step::Silent(3000),
            Step::Silent(5000),
            Step::Bytes(DEFINE_FIVE),
        ],
    ),
    (
        "an update that is posted for 6,000 ms, and another one",
        &[
            Step::Bytes(HELLO),
            Step::Lasting(DEFINE_FIVE, 6000),
            Step::Bytes(SIX),
        ],
    ),
    (
        "too long a message",
        &[Step::Bytes(HELLO), Step::Bytes(TOO_LONG), Step::Bytes(SIX)],
    ),
    (
        "an update, and then a definition of nothing",
        &[
            Step::Bytes(HELLO),
            Step::Bytes(DEFINE_FIVE),
            Step::Bytes(NO_FIELD),
            Step::Bytes(SIX),
        ],
    ),
    (
        "an update, and then the peer's error",
        &[
            Step::Bytes(HELLO),
            Step::Bytes(DEFINE_FIVE),
            Step::Bytes(ERROR),
            Step::Bytes(SIX),
        ],
    ),
    (
        "a resync in part, and silence for 1,999 ms",
        &[Step::Bytes(HELLO), Step::Bytes(PARTIAL), Step::Silent(1999)],
    ),
    (
        "a resync in part, and silence for 2,000 ms",
        &[Step::Bytes(HELLO), Step::Bytes(PARTIAL), Step::Silent(2000)],
    ),
    (
        "a resync in part, another one 1,000 ms behind it, and 1,999 ms more",
        &[
            Step::Bytes(HELLO),
            Step::Bytes(PARTIAL),
            Step::Silent(1000),
            Step::Bytes(PARTIAL),
            Step::Silent(2999),
        ],
    ),
    (
        "a resync in part, a whole one, one in part, and silence for 2,999 ms",
        &[
            Step::Bytes(HELLO),
            Step::Bytes(PARTIAL),
            Step::Bytes(FINISHED),
            Step::Bytes(PARTIAL),
            Step::Silent(2999),
        ],
    ),
    ("resyncs in part, until one is whole", &ASKED_AGAIN),
];

/// A peer that sends its rows in part twice, and is asked again 2 s and then 5 s behind that. Once
/// it sent all it isn't asked any more.
const ASKED_AGAIN: [Step; 12] = [
    Step::Bytes(HELLO),
    Step::Bytes(PARTIAL),
    Step::Silent(1999),
    Step::Silent(2000),
    Step::Bytes(PARTIAL),
    Step::Silent(4999),
    Step::Bytes(BEAT),
    Step::Silent(5000),
    Step::Silent(6999),
    Step::Silent(7000),
    Step::Bytes(FINISHED),
    Step::Silent(9999),
];

/// A peer whose address comes into a filter's set and leaves it, and that asks for a resync in
/// between. A turn is made at the hello, and then where 50 ms have gone by.
pub const TOLD: [Step; 9] = [
    Step::Bytes(HELLO),
    Step::Bytes(DEFINE_FIVE),
    Step::Bytes(SIX),
    Step::Silent(49),
    Step::Silent(50),
    Step::Bytes(RESYNC),
    Step::Silent(100),
    Step::Bytes(TWO),
    Step::Silent(150),
];

/// A session that is told all at its first turn.
pub const TOLD_AT_ONCE: [Step; 2] = [Step::Bytes(HELLO), Step::Silent(1)];

/// What is pushed, and how many writes of a session of it work.
pub const TELLINGS: [(&str, &[u8], u64); 5] = [
    ("a filter is pushed", PUSHED, 1000),
    ("a filter is pushed with a hold", HELD, 1000),
    ("write 2 fails, that of the first telling", PUSHED, 1),
    ("write 5 fails, that of a key", PUSHED, 4),
    ("write 9 fails, that of a key that left", PUSHED, 8),
];

/// A fleet of two proxies that are told a filter's keys.
pub const PUSHED: &[u8] = b"name agg\npeer lb1\npeer lb2\ntable t type ip size 1000 store gpc0\n\
    filter f t data.gpc0 ge 6\npush f\n";

/// The same, where a key that left the set is left to its life.
pub const HELD: &[u8] = b"name agg\npeer lb1\npeer lb2\ntable t type ip size 1000 store gpc0\n\
    filter f t data.gpc0 ge 6\npush f hold 2000\n";

/// A line of more than 4,096 bytes, that ends.
const LONG: [u8; 5000] = [b'x'; 5000];

/// What fills a line of `show table` up to 4,096 bytes.
const SPACES: [u8; 4086] = [b' '; 4086];

/// More CRs than a line may have bytes.
const RETURNS: [u8; 5000] = [b'\r'; 5000];

/// What an admin sends behind the sessions of both peers.
pub const ADMINS: [(&str, &[Step]); 30] = [
    (
        "two commands in one piece",
        &[Step::Bytes(b"show table\nshow table t\n")],
    ),
    (
        "two commands in three pieces",
        &[
            Step::Bytes(b"show ta"),
            Step::Bytes(b"ble\nsh"),
            Step::Bytes(b"ow table t\n"),
        ],
    ),
    (
        "a command that hasn't ended",
        &[Step::Bytes(b"show table\nclear table t")],
    ),
    (
        "a clear",
        &[Step::Bytes(b"clear table t key 10.0.0.1\nshow table t\n")],
    ),
    (
        "a filter",
        &[Step::Bytes(b"add filter f t data.gpc0 ge 13\nshow filter f\nadd filter f t x\n")],
    ),
    (
        "a filter, a clear behind it",
        &[
            Step::Bytes(b"add filter f t data.gpc0 ge 13\nclear table t\n"),
            Step::Bytes(b"show filter f\n"),
        ],
    ),
    ("no commands", &[Step::Bytes(b"\nx\n\r\nshow table x\n")]),
    (
        "what the gate tells",
        &[Step::Bytes(b"help\n show  info\r\nshow peers\nshow peers lb1\nshow peers lb2\n")],
    ),
    (
        "what is configured, with a filter that was added",
        &[Step::Bytes(b"show config\nadd filter f t data.gpc0 ge 13\nshow filters\nshow ranks\n")],
    ),
    (
        "an unknown peer, and words that are one too many",
        &[Step::Bytes(b"show peers lb9\nshow peers lb1 x\nhelp x\nshow info x\nquit x\nshow\n")],
    ),
    (
        "a line behind one that quits",
        &[Step::Bytes(b"show table\nquit\r\nshow table\n")],
    ),
    (
        "pieces of a line that quits",
        &[
            Step::Bytes(b"qu"),
            Step::Bytes(b"it"),
            Step::Bytes(b"\n"),
            SHOW,
        ],
    ),
    (
        "a line behind one that exits",
        &[Step::Bytes(b"show table\nexit\r\nshow table\n")],
    ),
    (
        "filters and ranks, without a name and with one",
        &[Step::Bytes(
            b"add filter f t data.gpc0 ge 13\nshow filter\nshow filter f\nshow rank\nshow rank x\n",
        )],
    ),
    (
        "several commands on a line",
        &[Step::Bytes(b"show table t;clear table t ; show table t\nshow table\n")],
    ),
    (
        "blank parts of lines",
        &[Step::Bytes(b"show table;\nshow table; \r;;  \r\n;\n ;show table\n\n")],
    ),
    (
        "pieces that end beside a ;",
        &[
            Step::Bytes(b"show table"),
            Step::Bytes(b";"),
            Step::Bytes(b"show ta"),
            Step::Bytes(b"ble;"),
            Step::Bytes(b" \n"),
            Step::Bytes(b"show table;qu"),
            Step::Bytes(b"it;show table\n"),
        ],
    ),
    (
        "4,096 bytes and more in parts of a line",
        &[
            Step::Bytes(b"show table"),
            Step::Bytes(&SPACES),
            Step::Bytes(b";show table"),
            Step::Bytes(&SPACES),
            Step::Bytes(b" ;"),
            Step::Bytes(&SPACES),
            Step::Bytes(b"           ;show table\n"),
        ],
    ),
    (
        "no commands on a line, and a part of it that exits",
        &[Step::Bytes(b"x;exit x; show;quit x\nexit ;show table\n")],
    ),
    (
        "a change in a line that hasn't ended",
        &[
            Step::Bytes(b"clear table t;show table;clear"),
            Step::Bytes(b" table x"),
        ],
    ),
    (
        "a prompt, and none any more",
        &[Step::Bytes(b"x\nprompt x\nprompt\nx\nshow table x; ;show table\nprompt;x\n")],
    ),
    (
        "a prompt in pieces, a change behind it, and a part that quits",
        &[
            Step::Bytes(b"pro"),
            Step::Bytes(b"mpt\r\nclear"),
            Step::Bytes(b" table t;show table t\nquit;x\n"),
        ],
    ),
    ("a CR before its LF", &[Step::Bytes(b"show table\r\n")]),
    (
        "several CRs before its LF",
        &[Step::Bytes(b"show table\r\r\r\n")],
    ),
    (
        "4,096 bytes, and 5,000 CRs before its LF",
        &[
            Step::Bytes(b"show table"),
            Step::Bytes(&SPACES),
            Step::Bytes(&RETURNS),
            Step::Bytes(b"\n"),
        ],
    ),
    (
        "4,097 bytes, and CRs before its LF",
        &[
            Step::Bytes(b"show table"),
            Step::Bytes(&SPACES),
            Step::Bytes(b" \r\r\n"),
        ],
    ),
    (
        "a byte behind 5,000 CRs",
        &[
            Step::Bytes(b"show table"),
            Step::Bytes(&RETURNS),
            Step::Bytes(b"\r \r\nshow table\n"),
        ],
    ),
    (
        "a long line",
        &[Step::Bytes(&LONG), Step::Bytes(b"\nshow table\n")],
    ),
    ("19 reads of nothing before a command", &NINETEEN),
    ("20 reads of nothing before a command", &TWENTY),
];

/// What an admin sends behind the sessions of both peers, where people read the answers.
pub const PEOPLE: [(&str, &[Step]); 8] = [
    (
        "no command, for people",
        &[Step::Bytes(
            b"\n  shw table\r\nshow\nshow tabel\nadd\nhelp x\nshow info x\nclear table\n",
        )],
    ),
    (
        "no such name, for people",
        &[Step::Bytes(
            b"show table x\nclear table x\nshow filter x\nshow next x\nshow rank x\n\
            add filter f x data.gpc0 ge 1\ndel filter x\nshow peers lb9\n",
        )],
    ),
    (
        "conditions and keys, for people",
        &[Step::Bytes(
            b"show table t dta.gpc0 ge 1\nshow table t data.gpc0 ge 1 data.gpc1 ge 1\n\
            show table t data.gpc0 gtt 1\nadd filter f t data.gpc0 ge 1 data.gpc0 le 1x\n\
            clear table t key 10.0.0.1.2\nshow table t data.gpc0 ge\n",
        )],
    ),
    (
        "a filter, for people",
        &[Step::Bytes(
            b"add filter f t data.gpc0 ge 13\nadd filter f t data.gpc0 ge 1\nadd filter \xe9 t\n\
            show filter g\nshow next f\nshow filter f\n",
        )],
    ),
    (
        "several commands on a line, for people",
        &[Step::Bytes(b"shw;show tabel;\n")],
    ),
    (
        "a prompt, and none any more, for people",
        &[Step::Bytes(b" prompt\nshw\nprompt \nshw\n")],
    ),
    (
        "a word that is long and doesn't print, for people",
        &[Step::Bytes(b"\x1b[31m\"\t0123456789012345678901234567890123456789\n")],
    ),
    (
        "a long line, for people",
        &[Step::Bytes(&LONG), Step::Bytes(b"\nshow table\n")],
    ),
];

const NOTHING: Step = Step::Silent(0);

const SHOW: Step = Step::Bytes(b"show table\n");

const NINETEEN: [Step; 20] = [
    NOTHING, NOTHING, NOTHING, NOTHING, NOTHING, NOTHING, NOTHING, NOTHING, NOTHING, NOTHING,
    NOTHING, NOTHING, NOTHING, NOTHING, NOTHING, NOTHING, NOTHING, NOTHING, NOTHING, SHOW,
];

const TWENTY: [Step; 21] = [
    NOTHING, NOTHING, NOTHING, NOTHING, NOTHING, NOTHING, NOTHING, NOTHING, NOTHING, NOTHING,
    NOTHING, NOTHING, NOTHING, NOTHING, NOTHING, NOTHING, NOTHING, NOTHING, NOTHING, NOTHING, SHOW,
];

/// The reads that work before one fails.
pub const READS: [(&str, u64); 4] = [
    ("read 1 fails", 0),
    ("read 2 fails", 1),
    ("read 3 fails", 2),
    ("read 4 fails", 3),
];

/// The looks that find a gate open before one finds it closed.
pub const LOOKS: [(&str, u64); 4] = [
    ("the gate is closed at look 1", 0),
    ("the gate is closed at look 2", 1),
    ("the gate is closed at look 3", 2),
    ("the gate is closed at look 4", 3),
];

/// The writes that work before one fails.
pub const WRITES: [(&str, u64); 8] = [
    ("write 1 fails", 0),
    ("write 2 fails", 1),
    ("write 3 fails", 2),
    ("write 4 fails", 3),
    ("write 5 fails", 4),
    ("write 6 fails", 5),
    ("write 7 fails", 6),
    ("write 8 fails", 7),
];

/// What an admin sends whose reads and writes fail, or whose gate closes.
pub const COMMANDS: [Step; 3] = [
    Step::Bytes(b"show table\n"),
    Step::Bytes(b"clear table t\nshow ta"),
    Step::Bytes(b"ble\n"),
];
