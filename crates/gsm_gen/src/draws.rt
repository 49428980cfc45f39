// Numbers drawn by the words of a seed.
ghost use Rattle.std.specs.Prelude.{ℕ, ◌≡◌, ◌+◌, ◌<◌, ◌≤◌, ◌^◌};
ghost use Rattle.gsm_gen.specs.Words.{drawn};
ghost use Rattle.gsm_gen.specs.Draws.{HasTaken};

use rand_core::SeedableRng;
use rand_core::utils::NextWord;
use rand_xoshiro::SplitMix64;

/// The words of a seed, each taken once.
#[derive(Drop)]
pub struct Draws {
    generator: SplitMix64,
}

impl Draws {
    /// The words of a seed from the first on.
    pub fn of_seed(seed: u64) -> Draws
        ensures { HasTaken result seed 0 }
    {
        Draws {
            generator: SplitMix64::seed_from_u64(seed),
        }
    }

    /// A number below `among`: the remainder of the next word.
    pub fn draw(&mut self, among: u32) -> u32
        requires { 1 ≤ among }
        ensures below { result < among }
        ensures value { (seed taken : ℕ) → HasTaken self.old seed taken → result ≡ drawn seed taken among }
        ensures next { (seed taken : ℕ) → HasTaken self.old seed taken → HasTaken self.new seed (taken + 1) }
    {
        let word: u64 = self.generator.next_word();
        (word % u64::from(among)) as u32
    }
}
