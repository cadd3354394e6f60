//! The least of the moments at which keys were put.

ghost use Rattle.std.specs.Prelude.{◌≡◌};
ghost use Rattle.pushed_keys.specs.Packed.{least_with, lesser};

/// The least moment, in ms, at which a key of the set was put, and the least of the other keys;
/// none where there is no such key.
#[derive(Clone, Copy)]
pub struct Least {
    pub of_set: Option<u64>,
    pub of_left: Option<u64>,
}

impl Least {
    /// Of no keys.
    pub const NONE: Least = Least {
        of_set: None,
        of_left: None,
    };

    /// With one key more.
    #[inline]
    pub fn with(self, is_in: bool, put: u64) -> Least
        ensures { result ≡ least_with self is_in put }
    {
        if is_in {
            Least {
                of_set: Some(lesser(self.of_set, put)),
                of_left: self.of_left,
            }
        } else {
            Least {
                of_set: self.of_set,
                of_left: Some(lesser(self.of_left, put)),
            }
        }
    }
}

// The lesser of two moments, where there was one before.
#[inline]
fn lesser(least: Option<u64>, put: u64) -> u64
    ensures { result ≡ lesser least put }
{
    match least {
        None => put,
        Some(least) => least.min(put),
    }
}
