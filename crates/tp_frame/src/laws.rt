//! Laws of frames and streams, each as a function that does nothing and whose contract is the law.
//!
//! By the contracts of [`Framer`](crate::Framer), [`PartFramer`](crate::PartFramer) and
//! [`write_frame`](crate::write_frame) they are laws of what these give: each call of a framer is one step of
//! [`frames_of_any_run`], and of a framer of parts one of [`parts_of_any_run`], or changes nothing.

ghost use Rattle.std.specs.Prelude.{◌≡◌, ◌↔◌, ℕ, ◌<◌, List, [], ◌++◌, length, slice_index, Option, None, Result, Ok, Err};
ghost use Rattle.tp_list.specs.Traces.{Trace};
ghost use Rattle.tp_frame.specs.declared.error.FrameError.{FrameError};
ghost use Rattle.tp_frame.specs.declared.frame.Frame.{Frame};
ghost use Rattle.tp_frame.specs.declared.parts.Part.{Part};
ghost use Rattle.tp_frame.specs.Frame.{frame_spelling, IsFrame};
ghost use Rattle.tp_frame.specs.PartState.{PartState};
ghost use Rattle.tp_frame.specs.Parts.{PartsBefore, at_first, with_more, PartAnswers, Parts, PartStep, all_fed, all_given, PartsLead};
ghost use Rattle.tp_frame.specs.Reading.{frame_at, IsUnfinishedFrame, ShowsFault};
ghost use Rattle.tp_frame.specs.Stream.{BeginsWith, Frames, Step, fed_in, given_in, Makes};

/// Whatever the cuts of the stream: where all bytes fed are held or were given, the frames given are those that the
/// stream begins with, in order. Once the bytes held are no whole frame and show no fault, as where `next` answered
/// `None`, they are all frames of the stream.
pub fn frames_of_any_run()
    ensures so_far { (steps : List Step) (held : List ℕ) →
        ((i : ℕ) → slice_index (fed_in steps) i < 256) → Trace Makes [] steps held
        → BeginsWith (fed_in steps) (given_in steps) held }
    ensures all { (steps : List Step) (held : List ℕ) →
        ((i : ℕ) → slice_index (fed_in steps) i < 256) → Trace Makes [] steps held → IsUnfinishedFrame held
        → Frames (fed_in steps) (given_in steps) held }
{}

/// No bytes are two lists of frames.
pub fn one_reading()
    ensures { (bytes : List ℕ) (frames others : List Frame) (rest tail : List ℕ)
        → Frames bytes frames rest → Frames bytes others tail → (frames ≡ others) × (rest ≡ tail) }
{}

/// What begins with a frame is read as that frame, and nothing else is read.
pub fn frames_alone_are_read()
    ensures { (bytes : List ℕ) (f : Frame) (rest : List ℕ) → ((i : ℕ) → slice_index bytes i < 256)
        → (frame_at bytes ≡ Ok (f, rest)) ↔ (IsFrame f × (bytes ≡ frame_spelling f ++ rest)) }
{}

/// What a frame begins with is less than a whole frame and shows no fault, however little of it there is.
pub fn a_part_waits()
    ensures { (f : Frame) (begin more : List ℕ) → ((i : ℕ) → slice_index begin i < 256) → IsFrame f
        → frame_spelling f ≡ begin ++ more → 0 < length more → IsUnfinishedFrame begin }
{}

/// A fault stays, whatever follows, and no frame begins with it.
pub fn a_fault_stays()
    ensures stays { (bytes more : List ℕ) (e : FrameError) → ((i : ℕ) → slice_index bytes i < 256)
        → ShowsFault bytes e → ShowsFault (bytes ++ more) e }
    ensures barred { (bytes more : List ℕ) (e : FrameError) (f : Frame) (rest : List ℕ)
        → ((i : ℕ) → slice_index bytes i < 256) → ShowsFault bytes e → IsFrame f
        → bytes ++ more ≡ frame_spelling f ++ rest → ⊥ }
{}

/// Whatever the cuts of the stream: the parts given, with the pieces of each sync frame joined, are the frames that the
/// stream begins with, followed by the sync frame that hasn't ended. Where `next` answered `None` they are all frames of
/// the stream.
pub fn parts_of_any_run()
    ensures so_far { (steps : List PartStep) (led : PartsBefore) →
        ((i : ℕ) → slice_index (all_fed steps) i < 256) → PartsLead at_first steps led
        → (frames : List Frame) × Parts (all_given steps) frames led.opened
        × BeginsWith (all_fed steps) frames led.came }
    ensures all { (steps : List PartStep) (led : PartsBefore) →
        ((i : ℕ) → slice_index (all_fed steps) i < 256) → PartsLead at_first steps led → IsUnfinishedFrame led.came
        → (frames : List Frame) × Parts (all_given steps) frames led.opened
        × Frames (all_fed steps) frames led.came }
{}

/// A fault that was answered is answered by every later `next`, whatever is fed.
pub fn a_refusal_is_answered_again()
    ensures { (led : PartsBefore) (more : List ℕ) (e : FrameError) (answer : Result (Option Part) FrameError)
        (s : PartState) → ((i : ℕ) → slice_index led.came i < 256) → led.opened ≡ None
        → ShowsFault led.came e → PartAnswers (with_more led more) answer s → answer ≡ Err e }
{}
