/// A hint at where the rows of a key lie in `Rows`: it saves a search where it fits.
///
/// No answer depends on it. One that another `Rows` gave, which was changed in the same way, fits
/// here too.
#[derive(Clone, Copy, Debug, PartialEq, Eq)]
pub struct Spot {
    pub(crate) slot: u32,
}

impl Spot {
    // The spot in a place. Beyond the last number it names another one, which fits no key then.
    pub(crate) fn new(at: usize) -> Spot {
        Spot {
            slot: u32::try_from(at).unwrap_or(u32::MAX),
        }
    }

    /// The number of the place.
    pub fn place(self) -> usize {
        self.slot as usize
    }
}
