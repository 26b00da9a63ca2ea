//! Actors: whether changes have one, and how a fresh one is drawn.

ghost use Rattle.std.specs.Prelude.{◌≡◌};
ghost use Rattle.tp_peer.specs.Actors as actors;

use rand_chacha::ChaCha20Rng;
use rand_core::utils::NextWord;
use tp_change::Change;
use tp_opid::Actor;

/// Whether one of the changes is the actor's. One pass over them.
pub(crate) fn has_actor(changes: &[Change], actor: &Actor) -> bool
    ensures { result ≡ actors.has_actor changes.now actor.now }
{
    for change in changes {
        if change.actor().is(actor) {
            return true;
        }
    }
    false
}

// The bytes of the generator's next word, the greatest first.
fn next_bytes(generator: &mut ChaCha20Rng) -> [u8; 4]
    ensures bytes { result ≡ actors.word_bytes generator.old }
    ensures after { generator.new ≡ actors.after_word generator.old }
{
    generator.next_word().to_be_bytes()
}

/// An actor drawn from the generator: its next four words, each with its greatest byte first. Two that are drawn from
/// one generator differ but for chance.
pub fn fresh_actor(generator: &mut ChaCha20Rng) -> Actor
    ensures actor { result ≡ actors.fresh_actor_of generator.old }
    ensures after { generator.new
        ≡ actors.after_word (actors.after_word
        (actors.after_word (actors.after_word generator.old))) }
{
    let [a, b, c, d] = next_bytes(generator);
    let [e, f, g, h] = next_bytes(generator);
    let [i, j, k, l] = next_bytes(generator);
    let [m, n, o, p] = next_bytes(generator);
    Actor([a, b, c, d, e, f, g, h, i, j, k, l, m, n, o, p])
}
