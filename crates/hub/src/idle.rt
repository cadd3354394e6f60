//! Readers that wait to be lent.

ghost use Rattle.std.specs.Prelude.{◌≡◌};
ghost use Rattle.left_right.specs.Sides.{view};
ghost use Rattle.hub.specs.Kept.{IsTold};

use crate::hand::HubReader;
use crate::naming::Naming;
use std::marker::{Model, PhantomData};

/// A reader that was told which log it reads. Contracts see what it was told.
#[derive(Drop)]
pub struct Idle<J: Naming> {
    reader: HubReader,
    of: PhantomData<J>,
}

impl<J: Naming> Model for Idle<J> {
    ghost use Rattle.std.specs.Prelude.{Option};
    ghost use Rattle.left_right.specs.Sides.{view as view_of};
    ghost use Rattle.hub.specs.History.{Beginning};
    ghost use Rattle.hub.specs.Kept.{IsTold};

    ghost Value = { Option Beginning };

    ghost view = { λ i. view_of i.reader.place };

    ghost invariant = { λ i. IsTold J.book (view_of i.reader.place) };
}

impl<J: Naming> Idle<J> {
    /// Nobody has this reader.
    pub fn new(reader: HubReader) -> Idle<J>
        requires { IsTold J.book (view reader.place) }
    {
        Idle {
            reader,
            of: PhantomData,
        }
    }

    /// The reader.
    pub fn lend(self) -> HubReader
        ensures { IsTold J.book (view result.place) }
    {
        let Idle { reader, of: _ } = self;
        reader
    }
}
