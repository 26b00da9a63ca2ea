//! The command `session`.

ghost use Rattle.std.specs.Prelude.{◌≡◌, ◌⊎◌, IfErr, IfOk, None, Ok, OnErr, OnOk};
ghost use Rattle.std.specs.Io.KnownBytes.{Keeps};
ghost use Rattle.tp_net.specs.Sessions.{AttemptsSessionAlone};
ghost use Rattle.tp_disk.specs.Opening.{CutsFile, MayCutFile};
ghost use Rattle.tp_report.specs.JobError.{io_failure};
ghost use Rattle.tp_online.specs.Network.{AreFrames};
ghost use Rattle.tp_report.specs.Telling.{GrowsBy};
ghost use Rattle.tp_online.specs.Sessions.{HasMet};

use crate::listening::open_peer;
use crate::serving::Met;
use std::alloc::Global;
use std::io::{Read, Write};
use tp_disk::{Disk, draw_actor};
use tp_journal::Journal;
use tp_net::hold_alone;
use tp_peer::Peer;
use tp_report::JobError;
use tp_session::Role;

// Holds one session of the peer over the reader and the writer: how many changes entered.
fn meet_over<I: Read, O: Write, J: Journal>(
    alloc: Global,
    input: &mut I,
    out: &mut O,
    role: Role,
    peer: &mut Peer<J>,
) -> Result<u64, JobError>
    ensures meets { IfOk result (λ n. AttemptsSessionAlone role peer.old (Ok n) peer.new) }
    ensures frames { OnOk result (GrowsBy AreFrames (O.contents out.old) (O.contents out.new)) }
    ensures part { IfErr result
        (λ e. (e ≡ io_failure) ⊎ GrowsBy AreFrames (O.contents out.old) (O.contents out.new)) }
{
    match hold_alone(alloc, input, out, role, peer) {
        Ok(applied) => Ok(applied),
        Err(error) => Err(JobError::from(error)),
    }
}

/// Holds one session over the reader and the writer, as the client or as the server, of the peer that is opened on the journal
/// at the path. The peer is given back.
pub fn session_file<R: Disk + AllocGlobal, I: Read, O: Write>(
    rt: &R,
    file: &str,
    role: Role,
    key: Option<[u8; 32]>,
    wait: u64,
    input: &mut I,
    out: &mut O,
    cut: &mut Option<u64>,
) -> Result<Met<R::File>, JobError>
    requires { cut.old ≡ None }
    ensures cuts { OnOk result (CutsFile (R.saw rt.now) file.now cut.new) }
    ensures may_cut { OnErr result (MayCutFile (R.saw rt.now) file.now cut.new) }
    ensures met { IfOk result
        (λ met. HasMet (R.saw rt.now) file.now key role met.applied met.peer) }
    ensures frames { OnOk result (GrowsBy AreFrames (O.contents out.old) (O.contents out.new)) }
    ensures part { IfErr result (λ e. Keeps (O.contents out.old) (O.contents out.new)
        ⊎ ((e ≡ io_failure) ⊎ GrowsBy AreFrames (O.contents out.old) (O.contents out.new))) }
{
    let actor = draw_actor(rt, key)?;
    let mut peer = open_peer(rt, file, actor, wait, cut)?;
    match meet_over(rt.alloc(), input, out, role, &mut peer) {
        Ok(applied) => Ok(Met { peer, applied }),
        Err(error) => {
            drop(peer);
            Err(error)
        }
    }
}
