//! The state file: its bytes, written and read.
#![tactic(auto, unfolding(tp_codec::specs::Reading::or_fail, tp_codec::specs::Reading::found_or, tp_codec::specs::Reading::and_then, tp_codec::specs::Reading::and_next, tp_codec::specs::Reading::give, tp_codec::specs::Reading::require, tp_codec::specs::Reading::pass_or_fail, crate::specs::StateFile::wrapped_at, crate::specs::StateFile::magic_at, crate::specs::StateFile::fields_at, crate::specs::StateFile::state_at, crate::specs::StateFile::end_of_state, crate::specs::StateFile::state_bytes))]

ghost use Rattle.std.specs.Prelude.{◌≡◌, ◌++◌, IfOk, Ok, OnOk};
ghost use Rattle.tp_codec.specs.Gives.{Gives};
ghost use Rattle.tp_mirror.specs.declared.state.State.{State as States};
ghost use Rattle.tp_mirror.specs.declared.state_error.StateError.TheVariants.{OutOfMemory};
ghost use Rattle.tp_mirror.specs.StateFile.{StateIsTyped, fields_at, magic_at, state_at, state_bytes};

use crate::encoding::{
    are_typed, author_is_typed, author_of, bytes_16_of, flag_of_byte, list_of, put_author,
    put_flag, put_list, put_u64, u64_of,
};
use crate::entries::Entries;
use crate::state::State;
use crate::state_error::StateError;
use std::alloc::{AllocError, Global};
use tp_codec::Reader;
use tp_list::array_len;
use tp_opid::DocId;

/// The first 8 bytes of a state file as a number: `RGAMIRR1`.
pub const MAGIC: u64 = 0x5247_414d_4952_5231;

fn magic_of(reader: &mut Reader<'_>) -> Result<(), StateError>
    ensures { Gives OutOfMemory (λ _. (tt, reader.new)) result (magic_at reader.old) }
{
    let magic = u64_of(reader)?;
    if magic != MAGIC {
        return Err(StateError::BadMagic);
    }
    Ok(())
}

fn state_of(alloc: Global, reader: &mut Reader<'_>) -> Result<State, StateError>
    ensures { Gives OutOfMemory (λ s. (s, reader.new)) result (fields_at reader.old) }
{
    magic_of(reader)?;
    let document = DocId(bytes_16_of(reader)?);
    let author = author_of(reader)?;
    let is_away = flag_of_byte(reader)?;
    let begun = u64_of(reader)?;
    let texts = list_of(alloc, reader)?;
    let moved = list_of(alloc, reader)?;
    Ok(State {
        document,
        author,
        is_away,
        begun,
        texts: Entries::new(texts),
        moved: Entries::new(moved),
    })
}

// The state that the bytes are.
fn whole_state_of(alloc: Global, bytes: &[u8]) -> Result<State, StateError>
    ensures { Gives OutOfMemory (λ s. s) result (state_at bytes.now) }
{
    let mut reader = Reader::new(bytes);
    let state = state_of(alloc, &mut reader)?;
    if !reader.is_empty() {
        return Err(StateError::Trailing);
    }
    Ok(state)
}

fn put_state(out: &mut Vec<u8>, state: &State) -> Result<(), AllocError>
    ensures { OnOk result (out.new.items ≡ out.old.items ++ state_bytes state.now) }
{
    put_u64(out, MAGIC)?;
    out.extend_from_slice(&state.document.0)?;
    put_author(out, &state.author)?;
    put_flag(out, state.is_away)?;
    put_u64(out, state.begun)?;
    put_list(out, state.texts.as_slice())?;
    put_list(out, state.moved.as_slice())
}

// What the types of a state's fields say.
fn state_is_typed(state: &State)
    ensures { StateIsTyped state.now }
{
    let _bytes = array_len(state.document.0);
    author_is_typed(&state.author);
    let _begun = state.begun;
    are_typed(state.texts.as_slice());
    are_typed(state.moved.as_slice());
}

impl State {
    /// The bytes of the state file, as docs/FORMATS.md lays them out. [`decode`](State::decode) reads the same state
    /// from them. The only refusal is of memory.
    pub fn encode(&self, alloc: Global) -> Result<Vec<u8>, AllocError>
        ensures bytes { IfOk result (λ v. v.items ≡ state_bytes self.now) }
        ensures typed { StateIsTyped self.now }
    {
        state_is_typed(self);
        let mut out = Vec::new(alloc);
        put_state(&mut out, self)?;
        Ok(out)
    }

    /// The state that the bytes are, all of them. One pass.
    ///
    /// Refuses with the first fault from the start: `BadMagic`, `Truncated` where a field isn't whole, `BadFlag`, and
    /// `Trailing` where bytes are left; and with `OutOfMemory` where a growth was refused.
    pub fn decode(alloc: Global, bytes: &[u8]) -> Result<State, StateError>
        ensures found { IfOk result (λ s. StateIsTyped s × (bytes.now ≡ state_bytes s)) }
        ensures only { (s : States) → StateIsTyped s → bytes.now ≡ state_bytes s
            → Gives OutOfMemory (λ t. t) result (Ok s) }
        ensures exact { Gives OutOfMemory (λ s. s) result (state_at bytes.now) }
    {
        whole_state_of(alloc, bytes)
    }
}
