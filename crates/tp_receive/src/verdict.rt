//! What an answer on a change says of it.

ghost use Rattle.std.specs.Prelude.{◌≡◌, Option, IfOk, IfErr};
ghost use Rattle.tp_receive.specs.Common.{GraphError, MatchesCause};
ghost use Rattle.tp_receive.specs.GivesVerdict.{GivesVerdict, IsEntry};

use crate::error::ReceiveError;
use tp_graph::GraphError;

/// What a change meets.
#[derive(Clone, Copy, Debug)]
pub(crate) enum Verdict {
    /// It can enter.
    Enters,
    /// A dependency isn't there.
    Waits,
    /// It can't enter, whatever comes later.
    Refused(GraphError),
}

/// What an answer says of the change, or that memory was refused.
pub(crate) fn judge(answer: Result<(), GraphError>) -> Result<Verdict, ReceiveError>
    ensures ok { (o : Option GraphError) → MatchesCause answer o → IfOk result (λ v. GivesVerdict v o) }
    ensures entry { IfOk result (λ v. IsEntry v answer) }
    ensures err { IfErr result (λ e. e ≡ ReceiveError.OutOfMemory) }
{
    match answer {
        Ok(()) => Ok(Verdict::Enters),
        Err(GraphError::MissingDeps) => Ok(Verdict::Waits),
        Err(GraphError::Known) => Ok(Verdict::Refused(GraphError::Known)),
        Err(GraphError::BadSeq) => Ok(Verdict::Refused(GraphError::BadSeq)),
        Err(GraphError::BadStart) => Ok(Verdict::Refused(GraphError::BadStart)),
        Err(GraphError::BadReference) => Ok(Verdict::Refused(GraphError::BadReference)),
        Err(GraphError::SeqClash) => Ok(Verdict::Refused(GraphError::SeqClash)),
        Err(GraphError::UnknownHead) => Ok(Verdict::Refused(GraphError::UnknownHead)),
        Err(GraphError::Full) => Ok(Verdict::Refused(GraphError::Full)),
        Err(GraphError::OutOfMemory) => Err(ReceiveError::OutOfMemory),
    }
}
