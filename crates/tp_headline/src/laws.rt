//! The laws of a world, as functions without a body: what each says is its contract.

ghost use Rattle.std.specs.Prelude.{◌≡◌, ◌⊎◌, ℕ, Bool, List, [], ◌∷◌, ◌++◌, length, false, Some, IsTrue};
ghost use Rattle.tp_list.specs.Members.{In};
ghost use Rattle.tp_opid.specs.declared.actor.Actor.{Actor};
ghost use Rattle.tp_opid.specs.declared.doc_id.DocId.{DocId};
ghost use Rattle.tp_layout.specs.declared.parts.ChangeParts.{ChangeParts};
ghost use Rattle.tp_change.specs.ChangeHash.{hash_of};
ghost use Rattle.tp_journal.specs.Journal.{no_device};
ghost use Rattle.tp_recovery.specs.Layout.{IsDocId};
ghost use Rattle.tp_history.specs.Heads.{heads};
ghost use Rattle.tp_history.specs.Named.{has, has_all};
ghost use Rattle.tp_receive.specs.Receiving.{IsPrefixOf};
ghost use Rattle.tp_peer.specs.Laws.{changes_in};
ghost use Rattle.tp_peer.specs.declared.error.PeerError.TheVariants.{JournalFailed};
ghost use Rattle.tp_peer.specs.PeerState.{PeerState, opened_peer};
ghost use Rattle.tp_peer.specs.Links.{known_of};
ghost use Rattle.tp_peer.specs.PeerStep as peer;
ghost use Rattle.tp_peer.specs.Taking.{Report};
ghost use Rattle.tp_sync.specs.Due.{is_truncated};
ghost use Rattle.tp_headline.specs.Arriving.{HoldsAll, HoldsReady};
ghost use Rattle.tp_headline.specs.Call as call;
ghost use Rattle.tp_headline.specs.WorldInvariant.{WorldInvariant, IsMessageOf};
ghost use Rattle.tp_headline.specs.Crashing.{KeepsWhole, MakesUnanswered, MakesWhole};
ghost use Rattle.tp_headline.specs.Devices.{SpendsFuse};
ghost use Rattle.tp_headline.specs.Event.{Event, Call, Crash, Start};
ghost use Rattle.tp_headline.specs.Follows.{Follows, IsMoment};
ghost use Rattle.tp_headline.specs.Happening.{Next};
ghost use Rattle.tp_headline.specs.Headline.{Act, ActSteps, Headline, Lasts, Lists, no_lists};
ghost use Rattle.tp_headline.specs.Refining.{AreActs, IsOneAct};
ghost use Rattle.tp_headline.specs.Reply.{Answered, Peer, EventReply, Wire};
ghost use Rattle.tp_headline.specs.Refusing.{IsEditAt, IsOpen, MayHappen};
ghost use Rattle.tp_headline.specs.Running.{GoesOn, GoesOnWith, Run};
ghost use Rattle.tp_headline.specs.World.{WireEntry, World, HasEntry, HasPeer, beginning, lists_of, with_made, with_new_peer, with_peer, with_used};

/// The headline: whatever acts happen to peers that are lists of changes, one list holds every element ever inserted, each
/// once; every text that any peer ever read is that list kept to the elements that its seen changes insert and don't delete;
/// and two reads under equal heads are equal. And what a peer has or showed it has and shows for ever.
pub fn lists_agree()
    ensures headline { (acts : List Act) (s : Lists) → ActSteps no_lists acts s → Headline s }
    ensures lasts { (acts : List Act) (s : Lists) → ActSteps no_lists acts s → Lasts s }
{}

/// Peers are lists: a world in which nothing happened is one with no list; each event is one act, refused ones too, that
/// of its reply; and what goes on is as many acts.
pub fn peers_are_lists()
    ensures begins { (id : DocId) → lists_of (beginning id) ≡ no_lists }
    ensures event { (w : World) (e : Event) (reply : EventReply) (w' : World) → WorldInvariant w
        → Next w e reply w' → IsOneAct w e reply w' }
    ensures runs { (w : World) (events : List (Event × EventReply)) (w' : World) → WorldInvariant w
        → GoesOn w events w' → AreActs w (length events) w' }
{}

/// The headline of every run: its acts are those of a world of lists.
pub fn headline()
    ensures { (id : DocId) (events : List (Event × EventReply)) (w : World) → IsDocId id
        → Run id events w → Headline (lists_of w) }
{}

/// After every run, and whatever happens from then on, crashes and restarts among it: each peer's list only grows; what
/// a peer answered or showed it shows for ever; what a read saw has all that it depends on; and what happens are acts.
pub fn what_was_shown_lasts()
    ensures { (id : DocId) (events : List (Event × EventReply)) (w : World) → IsDocId id
        → Run id events w → Follows w }
{}

/// Every world that a run reaches is carried: what was made is sound, and each peer, each journal, each entry of the
/// wire and each read is as it should be. Of a world that is carried the headline holds, and what follows.
pub fn a_run_is_carried()
    ensures begins { (id : DocId) → IsDocId id → WorldInvariant (beginning id) }
    ensures goes_on { (w : World) (e : Event) (reply : EventReply) (w' : World) → WorldInvariant w
        → Next w e reply w' → WorldInvariant w' }
    ensures runs { (id : DocId) (events : List (Event × EventReply)) (w : World)
        → IsDocId id → Run id events w → WorldInvariant w }
    ensures promises { (w : World) → WorldInvariant w → Headline (lists_of w) × Follows w }
{}

/// After every run each entry of the wire is a message, and each change that it carries was made: so no delivery of an
/// entry brings a change that nobody made, whatever happened to the peer that sent it.
pub fn the_wire_carries_what_was_made()
    ensures { (id : DocId) (events : List (Event × EventReply)) (w : World) → IsDocId id
        → Run id events w → (e : WireEntry) → In e w.wire → IsMessageOf w.made e.bytes }
{}

/// Runs one after another are a run, and a run passes a moment after each of its events: what is promised of all runs
/// is promised of every moment, from a world that is carried on.
pub fn runs_part_by_part()
    ensures join { (events more : List (Event × EventReply)) (w m w' : World) → GoesOn w events m
        → GoesOn m more w' → GoesOn w (events ++ more) w' }
    ensures split { (events more : List (Event × EventReply)) (w w' : World)
        → GoesOn w (events ++ more) w' → (m : World) × GoesOn w events m × GoesOn m more w' }
    ensures moments { (w : World) (events : List Event) (replies : List EventReply) (w' : World)
        (k : ℕ) → WorldInvariant w → GoesOnWith w events replies w' → IsMoment w events replies w' k }
{}

/// The change of an edit wasn't made before: one that was and has its hash is another.
pub fn an_edit_is_new()
    ensures { (w : World) (n : ℕ) (made : peer.Call) (c : ChangeParts) → WorldInvariant w
        → IsEditAt w n made c → In c w.made → ⊥ }
{}

/// A crash within an edit makes nothing, or the edit's change, though no reply came: then its record was kept whole, and
/// the peer that came back has it. Within another call it makes nothing.
pub fn a_crash_within_an_edit()
    ensures { (w : World) (n : ℕ) (made : peer.Call) (kept : ℕ) (actor : Actor) (reply : EventReply)
        (w' : World) → WorldInvariant w
        → Next w (Crash n (Some (call.Alone made)) kept actor) reply w'
        → (w'.made ≡ w.made) ⊎ MakesWhole w w' n made kept }
{}

/// An edit in which the device failed makes nothing, or the edit's change, though it was refused: then the journal of the
/// peer, which has stopped, recovers to it. So the peer has it after its next crash.
pub fn a_failure_within_an_edit()
    ensures { (w : World) (n : ℕ) (made : peer.Call) (w' : World) → WorldInvariant w
        → Next w (Call n (call.Alone made)) (Answered (peer.Refused JournalFailed)) w'
        → (w'.made ≡ w.made) ⊎ MakesUnanswered w w' n made }
{}

/// A device fails only where it was set to: where a call on a peer answered `JournalFailed`, its next append was to fail, and
/// that ended the setting. So did the appends of a call that entered changes. Every other call leaves the device as it was.
pub fn a_device_fails_where_it_was_set_to()
    ensures { (w : World) (n : ℕ) (named : call.EventCall) (reply : EventReply) (w' : World)
        (p p' : PeerState) → WorldInvariant w → HasPeer w n p → HasPeer w' n p'
        → Next w (Call n named) reply w' → SpendsFuse p reply p' }
{}

/// Where a peer crashed within a call, some of the changes that the call may enter had entered by then, as those that
/// waited and came by a merge, a delivery or bytes of any origin; and the peer comes back with what it had before and,
/// after it, just those of them whose records are whole.
pub fn a_crash_while_receiving()
    ensures { (w : World) (n : ℕ) (during : call.EventCall) (kept : ℕ) (actor : Actor) (reply : EventReply)
        (w' : World) → WorldInvariant w → Next w (Crash n (Some during) kept actor) reply w'
        → (w' ≡ w) ⊎ KeepsWhole w w' n during kept }
{}

/// A peer may join under an actor that wasn't named, and an edit may happen whose change has a new hash: it enters and
/// counts as made. A running peer may be asked for a message to any peer, also to one that has stopped. Any entry of the
/// wire may be delivered to any running peer, and so may bytes that are no message.
pub fn what_may_happen()
    ensures start { (w : World) (actor : Actor) → (In actor w.used → ⊥)
        → Next w (Start actor) (Peer (length w.peers))
        (with_used (with_new_peer w (opened_peer w.id actor [] no_device)) actor) }
    ensures edit { (w : World) (n : ℕ) (made : peer.Call) (c : ChangeParts) → WorldInvariant w
        → (e : IsEditAt w n made c) → has w.made (hash_of c) ≡ false
        → Next w (Call n (call.Alone made)) (Answered (peer.Made (Some (hash_of c))))
        (with_made (with_peer w n (peer.peer_with_change e.peer c)) (c ∷ [])) }
    ensures messages { (w : World) (n : ℕ) (p : PeerState) (named : call.EventCall) → HasPeer w n p
        → p.stopped ≡ false → IsOpen w named → MayHappen w (Call n named) }
{}

/// Once a merge was answered, the peer that took holds every change that the other one holds, where it has a place left.
pub fn a_merge_brings_all()
    ensures { (w : World) (into from : ℕ) (report : Report) (w' : World) (other : PeerState)
        → WorldInvariant w → HasPeer w from other
        → Next w (Call into (call.Merge from)) (Answered (peer.Merged report)) w'
        → HoldsAll w' into other.applied }
{}

/// Once a delivery was answered, the peer holds each change that came whose dependencies it holds, where it has a place
/// left: of what was made nothing that is ready stays out.
pub fn a_delivery_brings_what_is_ready()
    ensures { (w : World) (n to : ℕ) (report : Report) (same_heads : Bool) (w' : World)
        (e : WireEntry) → WorldInvariant w → HasEntry w n e
        → Next w (Call to (call.Deliver n)) (Answered (peer.Received report same_heads)) w'
        → HoldsReady w' to (changes_in e.bytes) }
{}

/// A message brings all, where the other peer had declared to the sender what it held, and holds what the sender thinks
/// it knows, and the message leaves out nothing that is due. However late it is then delivered there, and whatever
/// happens in between: once the delivery was answered, the other peer holds every change that the sender held when it
/// made the message, where it has a place left.
pub fn a_message_brings_all()
    ensures { (w : World) (from to n : ℕ) (p q : PeerState) (D : List ChangeParts) (m : World)
        (events : List (Event × EventReply)) (v : World) (report : Report)
        (same_heads : Bool) (w' : World) → WorldInvariant w → HasPeer w from p → HasPeer w to q
        → IsPrefixOf D q.applied → (known_of p.links to).theirs ≡ Some (heads D)
        → IsTrue (has_all D (known_of p.links to).known)
        → is_truncated p.applied (known_of p.links to) ≡ false
        → Next w (Call from (call.Alone (peer.Generate to))) (Wire n) m → GoesOn m events v
        → Next v (Call to (call.Deliver n)) (Answered (peer.Received report same_heads)) w'
        → HoldsAll w' to p.applied }
{}
