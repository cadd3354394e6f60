//! Why a line of an admin fails, where it can't fail for every cause.

ghost use Rattle.std.specs.Prelude.{◌≡◌};

use hub::PostFault;
use thiserror::Error;
use worker_frame::{Cause, WriteFailed};

/// Why an admin ends at a line.
#[derive(Debug, Drop, Error)]
pub enum LineFault {
    /// A write failed.
    #[error("write failed")]
    Write,
    /// A post was refused, or an allocation of the admin's own failed (no memory for no
    /// events).
    #[error("{0}")]
    Post(PostFault),
    /// No copy of the book could be entered.
    #[error("no copy to read")]
    Look,
}

impl From<PostFault> for LineFault {
    ghost use Rattle.admin_worker.specs.declared.faults.LineFault.TheVariants.{Post};

    ghost from_gives = { λ refusal fault. fault ≡ Post refusal };

    fn from(refusal: PostFault) -> LineFault {
        LineFault::Post(refusal)
    }
}

impl From<WriteFailed> for LineFault {
    ghost use Rattle.admin_worker.specs.declared.faults.LineFault.TheVariants.{Write};

    ghost from_gives = { λ _ fault. fault ≡ Write };

    fn from(_failed: WriteFailed) -> LineFault {
        LineFault::Write
    }
}

impl From<LineFault> for Cause {
    ghost use Rattle.admin_worker.specs.Faults.{cause_of_line};

    ghost from_gives = { λ fault cause. cause ≡ cause_of_line fault };

    fn from(fault: LineFault) -> Cause {
        match fault {
            LineFault::Write => Cause::Write,
            LineFault::Post(refusal) => Cause::Post(refusal),
            LineFault::Look => Cause::Look,
        }
    }
}
