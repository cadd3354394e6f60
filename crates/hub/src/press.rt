//! The right to publish. Whoever has the press shows readers what it took, and holds no lock.

ghost use Rattle.std.specs.Prelude.{◌≡◌, ◌<◌, ◌≤◌, ◌^◌, ◌++◌, [], drop, true, if◌then◌else◌};
ghost use Rattle.std.specs.Prelude.{length, IfOk, IfSome, MatchBool, MatchOption};
ghost use Rattle.std.specs.VecDeque.{deque_len, deque_capacity};
ghost use Rattle.agg_types.specs.declared.limits.TheConstants.{MOST_SEATS};
ghost use Rattle.left_right.specs.Sides.{view};
ghost use Rattle.fleet_model.specs.Machine.{opened};
ghost use Rattle.hub.specs.Copied.{all_taken, whole};
ghost use Rattle.hub.specs.Kept.{IsTold};

use crate::copies::{Logged, Note, Shown};
use crate::hand::{Hand, HubWriter, hand_over, show};
use crate::idle::Idle;
use crate::log::Front;
use crate::naming::Naming;
use crate::receipt::Showing;
use crate::reserve::Reserve;
use agg_types::{MOST_SEATS, NoMemory};
use book::Book;
use left_right::writer::Writer;
use std::alloc::Global;
use std::collections::VecDeque;
use std::marker::{Model, PhantomData};
use std::mem;
use std::sync::Wait;

/// The writer of both copies, and what was taken for it. Contracts see the list that was taken, and
/// the copy that is shown.
#[derive(Drop)]
pub struct Press<J: Naming, R: Wait + Drop> {
    hand: Hand<R>,
    // What was taken and not yet handed to the writer. It has room for a Leave of each seat, and as
    // much again for what frees memory.
    queue: VecDeque<Logged>,
    taken: Front,
    reserve: Reserve,
    of: PhantomData<J>,
}

impl<J: Naming, R: Wait + Drop> Model for Press<J, R> {
    ghost use Rattle.std.specs.Prelude.{◌≤◌, drop};
    ghost use Rattle.std.specs.VecDeque.{deque_capacity};
    ghost use Rattle.agg_types.specs.declared.limits.TheConstants.{MOST_SEATS};
    ghost use Rattle.left_right.specs.Sides.{view as view_of};
    ghost use Rattle.hub.specs.Kept.{IsPressed, Pressed};

    ghost Value = { Pressed };

    ghost view = { λ p. record { taken = p.taken; shown = p.hand.writer.desk.shown.value.copied } };

    ghost invariant = { λ p. IsPressed J.book p.hand.writer.desk.shown.value.copied
        (view_of p.hand.writer.desk.place) (drop p.hand.writer.behind p.hand.writer.log.items)
        p.queue.items p.taken × (MOST_SEATS ≤ deque_capacity p.queue) };
}

impl<J: Naming, R: Wait + Drop> Press<J, R> {
    /// The list that was taken.
    pub fn taken(&self) -> &Front
        ensures taken { result.now ≡ self.now.taken }
        ensures named { result.now.of ≡ J.book }
    {
        &self.taken
    }

    /// What is shown.
    pub fn showing(&self) -> Showing
        ensures shown { result ≡ self.now.shown.at }
        ensures named { result.of ≡ J.book }
    {
        Showing::of(&self.hand.writer)
    }

    /// Takes over what was appended behind the list that was taken, and gives an empty queue for
    /// it; not where something is left of a showing that was refused.
    pub fn take_in(&mut self, queue: &mut VecDeque<Logged>, front: &Front) -> bool
        requires named { front.now.of ≡ J.book }
        requires brings { all_taken (whole self.old.taken) queue.old.items ≡ whole front.now }
        requires room { MOST_SEATS ≤ deque_capacity queue.old }
        ensures shown { self.new.shown ≡ self.old.shown }
        ensures taken { MatchBool result (self.new.taken ≡ front.now)
            (self.new.taken ≡ self.old.taken) }
        ensures queue { MatchBool result ((queue.new.items ≡ []) × (deque_len queue.new ≡ 0))
            (queue.new ≡ queue.old) }
        ensures room { MOST_SEATS ≤ deque_capacity queue.new }
    {
        if !self.queue.is_empty() {
            return false;
        }
        mem::swap(&mut self.queue, queue);
        self.taken = front.again();
        true
    }

    /// Shows readers all that was taken, if there is memory for it. Where there is none it gives up
    /// the reserve and tries once more. Once all is shown it takes the reserve again if that can be
    /// had. It waits for those that are still inside the copy that isn't shown.
    pub fn show_all<W: Wait>(self, rt: &W) -> (Press<J, R>, bool)
        ensures taken { result.0.taken ≡ self.taken }
        ensures shown { result.0.shown ≡ (if result.1 then whole self.taken else self.shown) }
    {
        let (press, showed) = self.try_twice(rt);
        if !showed {
            return (press, false);
        }
        (press.with_reserve(), true)
    }

    fn try_twice<W: Wait>(self, rt: &W) -> (Press<J, R>, bool)
        ensures taken { result.0.taken ≡ self.taken }
        ensures shown { result.0.shown ≡ (if result.1 then whole self.taken else self.shown) }
    {
        let (press, showed) = self.publish(rt);
        if showed || !press.has_reserve() {
            return (press, showed);
        }
        press.without_reserve().publish(rt)
    }

    // Gives up the reserve.
    fn without_reserve(self) -> Press<J, R>
        ensures { result ≡ self }
    {
        let mut press = self;
        let rows = press.rows();
        press.reserve.give_up(rows);
        press
    }

    // Takes the reserve again where it was given up, if it can be had.
    fn with_reserve(self) -> Press<J, R>
        ensures { result ≡ self }
    {
        let mut press = self;
        if !press.reserve.is_due() {
            return press;
        }
        let rows = press.rows();
        press.reserve.take_again(rows);
        press
    }

    /// Whether it has the reserve. While it hasn't memory is short.
    pub fn has_reserve(&self) -> bool {
        self.reserve.is_had()
    }

    // How many rows are shown, over all tables and peers.
    fn rows(&self) -> u64 {
        let shown = self.hand.writer.published();
        if shown.has_part() {
            return 0;
        }
        count_rows(shown.book())
    }

    /// Shows readers all that was taken, if there is memory for it.
    pub fn publish<W: Wait>(self, rt: &W) -> (Press<J, R>, bool)
        ensures taken { result.0.taken ≡ self.taken }
        ensures shown { result.0.shown ≡ (if result.1 then whole self.taken else self.shown) }
    {
        let Press {
            hand,
            mut queue,
            taken,
            reserve,
            of: _,
        } = self;
        let (mut writer, own) = hand.open();
        if !hand_over(&mut writer, &mut queue) {
            let press = Press {
                hand: Hand { writer, own },
                queue,
                taken,
                reserve,
                of: PhantomData,
            };
            return (press, false);
        }
        let (writer, shown) = show(rt, writer, &taken);
        let hand = Hand { writer, own };
        match shown {
            Ok(()) => {
                let press = Press {
                    hand,
                    queue,
                    taken,
                    reserve,
                    of: PhantomData,
                };
                (press, true)
            }
            Err(_) => {
                let press = Press {
                    hand,
                    queue,
                    taken,
                    reserve,
                    of: PhantomData,
                };
                (press, false)
            }
        }
    }

    /// A new reader, which was told which log it reads; none where all places were found taken.
    pub fn reader(self) -> (Press<J, R>, Option<Idle<J>>)
        ensures { result.0 ≡ self }
    {
        let Press {
            hand,
            queue,
            taken,
            reserve,
            of: _,
        } = self;
        let (mut writer, own) = hand.open();
        let Ok(mut reader) = writer.factory().reader() else {
            let press = Press {
                hand: Hand { writer, own },
                queue,
                taken,
                reserve,
                of: PhantomData,
            };
            return (press, None);
        };
        let note = writer.tell::<Note>();
        reader.learn::<Note>(note);
        let idle = Idle::new(reader);
        let press = Press {
            hand: Hand { writer, own },
            queue,
            taken,
            reserve,
            of: PhantomData,
        };
        (press, Some(idle))
    }

    /// The press of a fleet that was just opened, with room for so many readers.
    pub fn new(
        alloc: Global,
        own: R,
        first: Book,
        second: Book,
        front: Front,
        places: usize,
    ) -> Result<Press<J, R>, NoMemory>
        requires named { front.of ≡ J.book }
        requires empty { front.events ≡ [] }
        requires opened { (first ≡ opened front.config front.opening)
            × (second ≡ opened front.config front.opening) }
        requires places { (0 < places) × (places < 2 ^ 32) }
        ensures { IfOk result (λ p. (p.taken ≡ front) × (p.shown ≡ whole front)) }
    {
        let queue = VecDeque::with_capacity(alloc, 2 * MOST_SEATS)?;
        let reserve = Reserve::whole(alloc)?;
        let first = Shown::new(alloc, first, front.again());
        let second = Shown::new(alloc, second, front.again());
        let writer: HubWriter = Writer::new(alloc, first, second, places)?;
        let (writer, shown) = show(&own, writer, &front);
        match shown {
            Ok(()) => Ok(Press {
                hand: Hand { writer, own },
                queue,
                taken: front,
                reserve,
                of: PhantomData,
            }),
            Err(_) => {
                writer.take(&own);
                Err(NoMemory)
            }
        }
    }
}

// How many rows a book has, over all tables and peers.
fn count_rows(book: &Book) -> u64 {
    let mut rows = 0u64;
    for table in 0..book.config().tables.len() {
        rows = rows.saturating_add(count_table(book, table));
    }
    rows
}

// How many rows a book has of a table, over all peers.
fn count_table(book: &Book, table: usize) -> u64
    requires table_in { table < length book.now.config.tables }
{
    let mut rows = 0u64;
    for peer in 0..book.config().peers.len() {
        rows = rows.saturating_add(book.rows_held(table, peer));
    }
    rows
}
