//! What is printed of a refusal: of what a layer below refused, the innermost refusal's name.

ghost use Rattle.std.specs.Prelude.{◌≡◌};
ghost use Rattle.tp_simulate.specs.Names.{name_of_bytes, name_of_document, name_of_graph, name_of_peer, name_of_sync, name_of_world};

use tp_document::DocError;
use tp_graph::GraphError;
use tp_headline::WorldError;
use tp_peer::PeerError;
use tp_store::StoreError;
use tp_sync::SyncError;

// The name of a graph's refusal.
fn graph_name(error: GraphError) -> &'static str
    ensures { result.now ≡ name_of_graph error }
{
    match error {
        GraphError::Known => "Known",
        GraphError::MissingDeps => "MissingDeps",
        GraphError::BadSeq => "BadSeq",
        GraphError::BadStart => "BadStart",
        GraphError::BadReference => "BadReference",
        GraphError::SeqClash => "SeqClash",
        GraphError::UnknownHead => "UnknownHead",
        GraphError::Full => "Full",
        GraphError::OutOfMemory => "OutOfMemory",
    }
}

/// The name of a document's refusal.
pub fn document_name(error: DocError) -> &'static str
    ensures { result.now ≡ name_of_document error }
{
    match error {
        DocError::OutOfRange => "OutOfRange",
        DocError::CounterLimit => "CounterLimit",
        DocError::TooManyOps => "TooManyOps",
        DocError::TooManyHeads => "TooManyHeads",
        DocError::UnknownHead => "UnknownHead",
        DocError::UnknownElement => "UnknownElement",
        DocError::PendingFull => "PendingFull",
        DocError::HashTaken => "HashTaken",
        DocError::OutOfMemory => "OutOfMemory",
        DocError::OtherDocument => "OtherDocument",
        DocError::TooLong => "TooLong",
        DocError::Full => "Full",
        DocError::NotKept => "NotKept",
    }
}

/// The name of the innermost refusal of a saved file's or a journal's bytes.
pub fn bytes_name(error: StoreError) -> &'static str
    ensures { result.now ≡ name_of_bytes error }
{
    match error {
        StoreError::BadMagic => "BadMagic",
        StoreError::Truncated => "Truncated",
        StoreError::BadDigest => "BadDigest",
        StoreError::Damaged { .. } => "Damaged",
        StoreError::Refused(error) => graph_name(error),
        StoreError::Io => "Io",
        StoreError::OutOfMemory => "OutOfMemory",
        StoreError::NoHeader => "NoHeader",
    }
}

// The name of the refusal of an exchange.
fn sync_name(error: SyncError) -> &'static str
    ensures { result.now ≡ name_of_sync error }
{
    match error {
        SyncError::BadMessage => "BadMessage",
        SyncError::BadChange => "BadChange",
        SyncError::TooManyHeads => "TooManyHeads",
        SyncError::PendingFull => "PendingFull",
        SyncError::OutOfMemory => "OutOfMemory",
        SyncError::OtherDocument => "OtherDocument",
        SyncError::NotKept => "NotKept",
    }
}

/// The name of the innermost refusal of a peer's.
pub fn peer_name(error: PeerError) -> &'static str
    ensures { result.now ≡ name_of_peer error }
{
    match error {
        PeerError::ActorInUse => "ActorInUse",
        PeerError::JournalFailed => "JournalFailed",
        PeerError::Stopped => "Stopped",
        PeerError::TooManyLinks => "TooManyLinks",
        PeerError::JournalNotEmpty => "JournalNotEmpty",
        PeerError::Doc(error) => document_name(error),
        PeerError::Sync(error) => sync_name(error),
        PeerError::Store(error) => bytes_name(error),
        PeerError::OutOfMemory => "OutOfMemory",
    }
}

/// The name of a world's refusal.
pub(crate) fn world_name(error: WorldError) -> &'static str
    ensures { result.now ≡ name_of_world error }
{
    match error {
        WorldError::NoPeer => "NoPeer",
        WorldError::ActorUsed => "ActorUsed",
        WorldError::ForeignChange => "ForeignChange",
        WorldError::HashClash => "HashClash",
        WorldError::Stopped => "Stopped",
        WorldError::NoEntry => "NoEntry",
        WorldError::OutOfMemory => "OutOfMemory",
    }
}
