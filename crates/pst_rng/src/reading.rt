ghost use Rattle.std.specs.Prelude.{◌≡◌, ◌+◌, ◌-◌, ◌^◌, ◌<◌};
ghost use Rattle.pst_rng.specs.Words.{generator_at, word_of};

use rand_core::SeedableRng;
use rand_core::utils::NextWord;
use rand_pcg::Pcg64;
use std::marker::Model;

/// Returns the word of `seed` at `place`, counted from 0: the one after `place` others of the
/// `Pcg64` that `seed_from_u64(seed)` makes. It takes a logarithmic number of steps.
pub fn word(seed: u64, place: u64) -> u64
    ensures { result ≡ word_of seed place }
{
    generator_at(seed, place).next_word()
}

// The generator of the seed, after `place` words.
fn generator_at(seed: u64, place: u64) -> Pcg64
    ensures { result ≡ generator_at seed place }
{
    let mut generator = Pcg64::seed_from_u64(seed);
    generator.advance(u128::from(place));
    generator
}

/// The words of one seed, read one place after another, each in one step.
#[derive(Debug, Drop)]
pub struct Words {
    generator: Pcg64,
    seed: u64,
    place: u64,
}

impl Model for Words {
    ghost use Rattle.std.specs.Prelude.{◌≡◌};
    ghost use Rattle.pst_rng.specs.Reader.{Reader};
    ghost use Rattle.pst_rng.specs.Words.{generator_at};

    ghost Value = { Reader };

    ghost view = { λ words. record { seed = words.seed; place = words.place } };

    ghost invariant = { λ words. words.generator ≡ generator_at words.seed words.place };
}

impl Words {
    /// Makes a reader of the words of `seed` whose next word is the one at `place`.
    pub fn new(seed: u64, place: u64) -> Self
        ensures { result ≡ record { seed = seed; place = place } }
    {
        Words {
            generator: generator_at(seed, place),
            seed,
            place,
        }
    }

    /// The place of the next word.
    pub fn place(&self) -> u64
        ensures { result ≡ self.now.place }
    {
        self.place
    }

    /// Returns the word at the reader's place, and moves on by one place.
    pub fn next_word(&mut self) -> u64
        requires { self.old.place < 2 ^ 64 - 1 }
        ensures word { result ≡ word_of self.old.seed self.old.place }
        ensures moved { self.new ≡ record self.old { place = self.old.place + 1 } }
    {
        self.place += 1;
        self.generator.next_word()
    }
}
