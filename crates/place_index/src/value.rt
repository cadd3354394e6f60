use std::alloc::Global;

/// What an index asks of its values: one that stands in an empty place and keeps a number there.
///
/// It may be like any other value: no clause rests on it, or on the number. With another number
/// the index takes new places though there are empty ones.
pub trait PlaceValue: Drop {
    /// A value for an empty place, which keeps a number. Takes no memory.
    fn blank(alloc: Global, number: usize) -> Self;

    /// The number that a value keeps which was made for an empty place. Of others any will do.
    fn number(&self) -> usize;
}

impl PlaceValue for u32 {
    #[inline]
    fn blank(_alloc: Global, number: usize) -> u32 {
        number.min(u32::MAX as usize) as u32
    }

    #[inline]
    fn number(&self) -> usize {
        *self as usize
    }
}

impl PlaceValue for u64 {
    #[inline]
    fn blank(_alloc: Global, number: usize) -> u64 {
        number as u64
    }

    #[inline]
    fn number(&self) -> usize {
        *self as usize
    }
}
