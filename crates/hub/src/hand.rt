//! The side of the two copies that writes.

ghost use Rattle.std.specs.Prelude.{◌≡◌, ◌++◌, drop, true, [], Some, MatchResult};
ghost use Rattle.std.specs.VecDeque.{deque_capacity};
ghost use Rattle.left_right.specs.Sides.{view};
ghost use Rattle.hub.specs.Copied.{all_taken, whole};

use crate::copies::{Logged, Published, Shown, Sight};
use crate::log::Front;
use left_right::reader::{Reader, Reading};
use left_right::writer::Writer;
use std::alloc::AllocError;
use std::collections::VecDeque;
use std::sync::Wait;

/// The side of the two copies that writes, with what it hands them.
pub type HubWriter = Writer<Shown, Logged, Option<Front>, Published>;

/// A side that looks at the copy that is shown.
pub type HubReader = Reader<Shown, Option<Front>, Published>;

/// A copy that a reader entered, so one that was shown then.
pub type HubReading = Reading<Shown, Option<Front>, Published>;

/// A writer with the handle by which its drop waits for readers.
pub struct Hand<R: Wait + Drop> {
    pub writer: HubWriter,
    pub own: R,
}

impl<R: Wait + Drop> Drop for Hand<R> {
    fn drop(self) {
        let Hand { writer, own } = self;
        writer.take(&own);
    }
}

impl<R: Wait + Drop> Hand<R> {
    /// The writer, and its handle.
    pub fn open(self) -> (HubWriter, R)
        ensures { result.0 ≡ self.writer }
    {
        let Hand { writer, own } = self;
        (writer, own)
    }
}

/// Hands events to the writer, in order, and says whether it took all.
pub fn hand_over(writer: &mut HubWriter, queue: &mut VecDeque<Logged>) -> bool
    ensures desk { writer.new.desk ≡ writer.old.desk }
    ensures kept { drop writer.new.behind writer.new.log.items ++ queue.new.items
        ≡ drop writer.old.behind writer.old.log.items ++ queue.old.items }
    ensures done { result ≡ true → queue.new.items ≡ [] }
    ensures room { deque_capacity queue.new ≡ deque_capacity queue.old }
{
    while let Some(op) = queue.pop_front() {
        if let Err(op) = writer.append(op) {
            queue.push_front_reserved(op);
            return false;
        }
    }
    true
}

/// Shows readers a copy that has taken all that this beginning has.
pub fn show<W: Wait>(
    rt: &W,
    writer: HubWriter,
    front: &Front,
) -> (HubWriter, Result<(), AllocError>)
    requires brings { all_taken writer.desk.shown.value.copied (drop writer.behind writer.log.items)
        ≡ whole front.now }
    requires named { writer.desk.shown.value.copied.at.of ≡ front.now.of }
    ensures { MatchResult result.1
        (λ _. (result.0.desk.shown.value.copied ≡ whole front.now)
        × (drop result.0.behind result.0.log.items ≡ [])
        × (view result.0.desk.place ≡ Some front.now))
        (λ _. (result.0.desk.shown.value.copied ≡ writer.desk.shown.value.copied)
        × (drop result.0.behind result.0.log.items ≡ drop writer.behind writer.log.items)
        × (view result.0.desk.place ≡ view writer.desk.place)) }
{
    writer.publish_as::<Sight, W>(rt)
}
