ghost use Rattle.std.specs.Prelude.{◌≡◌};
ghost use Rattle.replay.specs.Status.{status_of};

/// How a replay ends. Its number is the exit status.
#[derive(Clone, Copy, Debug, PartialEq, Eq)]
pub enum Ending {
    /// Each line was done.
    Done,
    /// The configuration is faulty.
    BadConfiguration,
    /// A line of the script is faulty.
    BadScript,
    /// Memory or numbers were wanted.
    Failed,
}

impl Ending {
    /// The exit status.
    pub fn status(self) -> u8
        ensures { result ≡ status_of self }
    {
        match self {
            Ending::Done => 0,
            Ending::BadConfiguration => 3,
            Ending::BadScript => 4,
            Ending::Failed => 5,
        }
    }
}
