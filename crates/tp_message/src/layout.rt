//! Laws of the layout of messages, each as a function that does nothing and whose contract is the law.

ghost use Rattle.std.specs.Prelude.{◌≡◌, ◌↔◌, ◌⊎◌, ℕ, ◌<◌, List, ◌++◌, slice_index, Ok, Err};
ghost use Rattle.tp_message.specs.declared.error.SyncError.{SyncError as Refusal};
ghost use Rattle.tp_message.specs.declared.error.SyncError.TheVariants.{BadChange, BadMessage};
ghost use Rattle.tp_message.specs.Message.{MessageParts, IsMessage};
ghost use Rattle.tp_message.specs.Reading.{message_at};
ghost use Rattle.tp_message.specs.Spelling.{message_spelling};

/// No bytes spell two messages.
pub fn one_spelling()
    ensures { (m n : MessageParts) → IsMessage m → IsMessage n
        → message_spelling m ≡ message_spelling n → m ≡ n }
{}

/// Bytes decode exactly where they spell a message, and as that message.
pub fn spelled_messages_alone_decode()
    ensures { (bytes : List ℕ) (m : MessageParts) → ((i : ℕ) → slice_index bytes i < 256)
        → (message_at bytes ≡ Ok m) ↔ (IsMessage m × (bytes ≡ message_spelling m)) }
{}

/// Where bytes are refused since those of a change are no change's, all longer bytes are refused for the same reason,
/// and no message begins with them.
pub fn a_bad_change_stays()
    ensures stays { (bytes more : List ℕ) → ((i : ℕ) → slice_index bytes i < 256)
        → message_at bytes ≡ Err BadChange → message_at (bytes ++ more) ≡ Err BadChange }
    ensures barred { (bytes more : List ℕ) (m : MessageParts)
        → ((i : ℕ) → slice_index bytes i < 256) → message_at bytes ≡ Err BadChange → IsMessage m
        → bytes ++ more ≡ message_spelling m → ⊥ }
{}

/// Bytes that are no message are refused as `BadMessage` or as `BadChange` alone.
pub fn two_faults_alone()
    ensures { (bytes : List ℕ) (e : Refusal) → message_at bytes ≡ Err e
        → (e ≡ BadMessage) ⊎ (e ≡ BadChange) }
{}
