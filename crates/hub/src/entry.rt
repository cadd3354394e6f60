use agg_types::{Config, Event, Items};

/// An entry of the log: first how the fleet was opened, then what happened, one event or as many as
/// a seat posted as one. No value of it is made.
pub enum Entry {
    Opened { config: Config, moment: u64 },
    Happened(Items<Event>),
}
