use crate::receipt::{Receipt, Ticket};

/// What waiting for a ticket ended with.
#[derive(Drop)]
pub enum Await {
    /// Its list is shown.
    Shown(Receipt),
    /// The time was up; the ticket comes back.
    NotYet(Ticket),
    /// There was no memory to show it. It stands in the history, and is shown before any later
    /// batch.
    Pending,
}
