use agg_types::NoMemory;
use web_text::Standing;

/// What a clerk is told of its collector.
pub trait Facts {
    /// The time since the start, in ms.
    fn now(&self) -> u64;

    /// Whether the collector works: its clock went on lately, and what it posted was shown.
    fn is_well(&self) -> bool;

    /// Whether the collector ends, so that its connections are to.
    fn has_ended(&self) -> bool;

    /// What stands of it beside the book.
    fn standing(&self) -> Result<Standing, NoMemory>;
}
