//! The generator of random numbers, and what is drawn from it.

ghost use Rattle.std.specs.Prelude.{◌≡◌, IfOk, IfSome};
ghost use Rattle.tp_disk.specs.Keys.{IsDrawn, IsKeyed, after_draw, drawn_actor};

use crate::files::Disk;
use rand_chacha::ChaCha20Rng;
use rand_core::SeedableRng;
use std::io::Read;
use tp_commands::CommandError;
use tp_opid::Actor;
use tp_peer::fresh_actor;

// 32 bytes that nobody can guess.
fn random_key<D: Disk>(rt: &D) -> Result<[u8; 32], CommandError> {
    let mut key = [0; 32];
    let mut source = rt.open("/dev/urandom")?;
    source.read_exact(&mut key)?;
    Ok(key)
}

/// The key, or 32 bytes that nobody can guess where none is given.
pub fn key_or_random<D: Disk>(rt: &D, key: Option<[u8; 32]>) -> Result<[u8; 32], CommandError>
    ensures { IfOk result (λ chosen. IfSome key (λ given. chosen ≡ given)) }
{
    match key {
        Some(key) => Ok(key),
        None => random_key(rt),
    }
}

/// A generator of random numbers with the key, or with one that nobody can guess where none is given.
pub fn generator<D: Disk>(rt: &D, key: Option<[u8; 32]>) -> Result<ChaCha20Rng, CommandError>
    ensures { IfOk result (IsKeyed key) }
{
    Ok(ChaCha20Rng::from_seed(key_or_random(rt, key)?))
}

/// An actor that is drawn from the generator.
#[tactic(auto, unfolding(crate::specs::Keys::drawn_actor, crate::specs::Keys::after_draw))]
pub fn draw(generator: &mut ChaCha20Rng) -> Actor
    ensures actor { result ≡ drawn_actor generator.old }
    ensures after { generator.new ≡ after_draw generator.old }
{
    fresh_actor(generator)
}

/// An actor that is drawn from the generator with the key, or with one that nobody can guess where none is given.
pub fn draw_actor<D: Disk>(rt: &D, key: Option<[u8; 32]>) -> Result<Actor, CommandError>
    ensures { IfOk result (IsDrawn key) }
{
    Ok(draw(&mut generator(rt, key)?))
}
