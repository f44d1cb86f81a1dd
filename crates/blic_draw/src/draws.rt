// The draws of a seed.
ghost use Rattle.std.specs.Prelude.{◌≡◌, ◌<◌, ◌≤◌, ◌+◌, ◌^◌};
ghost use Rattle.blic_draw.specs.Draws.{draw_at, element_of as element_of_bits};

use blic_field::Fe;
use rand_chacha::ChaCha20Rng;
use rand_core::SeedableRng;
use rand_core::utils::NextWord;
use std::marker::Model;

/// The draws of a seed of 32 bytes, one after another. Draw t is made of words 2t and 2t+1 of the key
/// stream of ChaCha20 (RFC 8439, with a 64-bit counter; stream 0): of the 64 bits whose low half is
/// the first word, the lowest 61 are the element, and all ones are 0. So 0 comes from two patterns,
/// every other element from one.
#[derive(Drop)]
pub struct Draws {
    seed: [u8; 32],
    place: u64,
    words: ChaCha20Rng,
}

impl Model for Draws {
    ghost use Rattle.std.specs.Prelude.{◌≡◌, ◌<◌, ◌≤◌, ◌*◌, ◌^◌};
    ghost use Rattle.rand_chacha.specs.ChaCha.{key_of};
    ghost use Rattle.blic_draw.specs.Draws.{DrawsFrom};

    ghost Value = { DrawsFrom };

    ghost view = { λ d. record { seed = d.seed; place = d.place } };

    ghost invariant = { λ d. (d.words ≡ record { key = key_of d.seed; stream = 0; word_pos = 2 * d.place }) × (d.place ≤ 2 ^ 62) };
}

impl Draws {
    /// The draws of a seed from draw 0 on.
    pub fn new(seed: [u8; 32]) -> Draws
        ensures { result ≡ record { seed = seed; place = 0 } }
    {
        Draws::at(seed, 0)
    }

    /// The draws of a seed from draw `place` on, which is at most 2^62.
    pub fn at(seed: [u8; 32], place: u64) -> Draws
        requires { place ≤ 2 ^ 62 }
        ensures { result ≡ record { seed = seed; place = place } }
    {
        let mut words = ChaCha20Rng::from_seed(seed);
        words.set_word_pos(2 * u128::from(place));
        Draws { seed, place, words }
    }

    /// The next draw, whose number is below 2^62.
    pub fn next(&mut self) -> Fe
        requires { self.old.place < 2 ^ 62 }
        ensures draw { result ≡ draw_at self.old.seed self.old.place }
        ensures place { self.new ≡ record self.old { place = self.old.place + 1 } }
    {
        let low = u64::from(self.words.next_word());
        let high = u64::from(self.words.next_word());
        self.place += 1;
        element_of((low + 4294967296 * high) % 2305843009213693952)
    }

    /// The number of the next draw.
    pub fn place(&self) -> u64
        ensures { result ≡ self.now.place }
    {
        self.place
    }
}

// 61 bits as an element.
fn element_of(bits: u64) -> Fe
    requires { bits < 2 ^ 61 }
    ensures { result ≡ element_of_bits bits }
{
    match Fe::from_u64(bits) {
        Some(element) => element,
        None => Fe::ZERO,
    }
}
