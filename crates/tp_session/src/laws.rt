//! Laws of sessions, each as a function that does nothing and whose contract is the law.

ghost use Rattle.std.specs.Prelude.{◌≡◌, false, Result, Ok, Err, IsTrue};
ghost use Rattle.tp_frame.specs.declared.frame.Frame.{Frame as FrameOf};
ghost use Rattle.tp_session.specs.declared.session.Phase.TheVariants.{SaidDone, Over};
ghost use Rattle.tp_session.specs.declared.turn.Turn.{Turn as TurnOf};
ghost use Rattle.tp_session.specs.declared.turn.Ended.{Ended as EndedOf};
ghost use Rattle.tp_session.specs.Laws.{SaysNoMore, is_over};
ghost use Rattle.tp_session.specs.NetError.{refusal_of};
ghost use Rattle.tp_session.specs.SessionState.{SessionState};
ghost use Rattle.tp_session.specs.SessionStep.{SessionStep};

use crate::host::Host;

/// Once a side has said done, the next frame ends the session, whatever it is: the host isn't asked, and nothing but a
/// refusal is sent. So done is said once, and after it no message.
pub fn done_is_said_last<H: Host>()
    ensures { (a b : SessionState × H.Seen) (f : FrameOf) (answer : Result TurnOf EndedOf)
        → a.0.phase ≡ SaidDone → SessionStep H.steps a f answer b
        → (b.0.phase ≡ Over) × (b.1 ≡ a.1) × SaysNoMore answer }
{}

/// Whatever frame comes, a side keeps its role and its document.
pub fn role_and_document_stay<H: Host>()
    ensures { (a b : SessionState × H.Seen) (f : FrameOf) (answer : Result TurnOf EndedOf)
        → SessionStep H.steps a f answer b → (b.0.role ≡ a.0.role) × (b.0.id ≡ a.0.id) }
{}

/// A turn says whether the session has ended, and an error ends it.
pub fn the_end_is_reported<H: Host>()
    ensures turn { (a b : SessionState × H.Seen) (f : FrameOf) (turn : TurnOf)
        → SessionStep H.steps a f (Ok turn) b → turn.ended ≡ is_over b.0.phase }
    ensures error { (a b : SessionState × H.Seen) (f : FrameOf) (ended : EndedOf)
        → SessionStep H.steps a f (Err ended) b → IsTrue (is_over b.0.phase) }
{}

/// With each error comes the refusal that is due for it, unless the session had ended before.
#[tactic(auto, using(crate::proofs::StepFacts::is_due))]
pub fn the_refusal_is_due<H: Host>()
    ensures { (a b : SessionState × H.Seen) (f : FrameOf) (ended : EndedOf)
        → is_over a.0.phase ≡ false → SessionStep H.steps a f (Err ended) b
        → ended.send ≡ refusal_of ended.error }
{}
