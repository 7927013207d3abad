// A node's draws, by ChaCha20.
ghost use Rattle.std.specs.Prelude.{◌≡◌, ◌<◌, ◌*◌, ◌+◌, ◌^◌};
ghost use Rattle.serve_policy.specs.Draws.{first_draws, next_draw};

use rand_chacha::ChaCha20Rng;
use rand_core::SeedableRng;
use rand_core::utils::NextWord;
use std::marker::Model;
use wamp_ids::Id;

/// The draws of a node in one boot: ids for sessions and publications, out of a stream that no other node or boot has. A clause sees the key, the
/// number of the stream, and the position of the next word.
#[derive(Drop)]
pub struct Draws {
    words: ChaCha20Rng,
}

impl Model for Draws {
    ghost use Rattle.rand_chacha.specs.ChaCha.{ChaCha};

    ghost Value = { ChaCha };

    ghost view = { λ draws. draws.words };
}

impl Draws {
    /// Returns the draws of a node in a boot under a key: words of ChaCha20 with the key's eight octets, high first, and 24 zero octets as its
    /// key, from the start of the stream with the number `8 * boot + node` (modulo 2^64, which no boot below 2^48 reaches). Does not allocate.
    pub fn new(key: u64, node: u8, boot: u64) -> Draws
        ensures value { result ≡ first_draws key node boot }
        ensures stream { boot < 2 ^ 48 → node < 8 → result.stream ≡ 8 * boot + node }
    {
        let [a, b, c, d, e, f, g, h] = key.to_be_bytes();
        let mut words = ChaCha20Rng::from_seed([
            a, b, c, d, e, f, g, h, 0, 0, 0, 0, 0, 0, 0, 0, 0, 0, 0, 0, 0, 0, 0, 0, 0, 0, 0, 0, 0,
            0, 0, 0,
        ]);
        words.set_stream(boot.wrapping_mul(8).wrapping_add(u64::from(node)));
        Draws { words }
    }

    /// Returns the next draw: the low 53 bits of the next two words of the stream, the first one high, plus 1. Does not allocate.
    pub fn next(&mut self) -> Id
        ensures { (result, self.new) ≡ next_draw self.old }
    {
        let high = self.words.next_word();
        let low = self.words.next_word();
        let number = (u64::from(high) << 32 | u64::from(low)) % (1 << 53) + 1;
        match Id::new(number) {
            Some(id) => id,
            None => unreachable!(),
        }
    }
}
