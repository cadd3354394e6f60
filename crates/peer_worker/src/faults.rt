//! Why a step of a session fails, where it can't fail for every cause.

ghost use Rattle.std.specs.Prelude.{◌≡◌};

use hub::PostFault;
use session_core::SessionCause;
use thiserror::Error;
use worker_frame::{Cause, WriteFailed};

/// Why a batch wasn't posted, or its answer wasn't written whole.
#[derive(Debug, Drop, Error)]
pub enum AnswerFault {
    /// A write of the answer failed.
    #[error("write failed")]
    Write,
    /// The post was refused.
    #[error("{0}")]
    Post(PostFault),
    /// A write of a signal failed while the batch waited. It was shown then.
    #[error("write of a signal failed")]
    Signal,
}

impl From<PostFault> for AnswerFault {
    ghost use Rattle.peer_worker.specs.declared.faults.AnswerFault.TheVariants.{Post};

    ghost from_gives = { λ refusal fault. fault ≡ Post refusal };

    fn from(refusal: PostFault) -> AnswerFault {
        AnswerFault::Post(refusal)
    }
}

impl From<WriteFailed> for AnswerFault {
    ghost use Rattle.peer_worker.specs.declared.faults.AnswerFault.TheVariants.{Write};

    ghost from_gives = { λ _ fault. fault ≡ Write };

    fn from(_failed: WriteFailed) -> AnswerFault {
        AnswerFault::Write
    }
}

/// Why a session ends at a piece, or at a read that gave nothing.
#[derive(Debug, Drop, Error)]
pub enum TurnFault {
    /// A write failed.
    #[error("write failed")]
    Write,
    /// A post was refused.
    #[error("{0}")]
    Post(PostFault),
    /// The session's stream ended it, it was silent for too long, or an allocation of its own
    /// failed.
    #[error("{0}")]
    Session(SessionCause),
}

impl From<WriteFailed> for TurnFault {
    ghost use Rattle.peer_worker.specs.declared.faults.TurnFault.TheVariants.{Write};

    ghost from_gives = { λ _ fault. fault ≡ Write };

    fn from(_failed: WriteFailed) -> TurnFault {
        TurnFault::Write
    }
}

impl From<AnswerFault> for TurnFault {
    ghost use Rattle.peer_worker.specs.Faults.{turn_fault_of};

    ghost from_gives = { λ unanswered fault. fault ≡ turn_fault_of unanswered };

    fn from(unanswered: AnswerFault) -> TurnFault {
        match unanswered {
            AnswerFault::Write => TurnFault::Write,
            AnswerFault::Post(refusal) => TurnFault::Post(refusal),
            AnswerFault::Signal => TurnFault::Write,
        }
    }
}

impl From<TurnFault> for Cause {
    ghost use Rattle.peer_worker.specs.Faults.{cause_of_turn};

    ghost from_gives = { λ fault cause. cause ≡ cause_of_turn fault };

    fn from(fault: TurnFault) -> Cause {
        match fault {
            TurnFault::Write => Cause::Write,
            TurnFault::Post(refusal) => Cause::Post(refusal),
            TurnFault::Session(cause) => Cause::Session(cause),
        }
    }
}
