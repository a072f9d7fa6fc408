// The generator of loads (document 02, CR 6): numbers drawn one after the other, the same for everyone who starts from the same seed. Shifts and
// xors only, so that a team that has no use for this library can make the same draws in any language.
#![tactic(auto)]

ghost use Rattle.std.specs.Prelude.{◌≡◌, ◌≢◌, ℕ};
ghost use Rattle.load_draws.specs.Draw.{default_seed, next, seeded_by, drawn_after};

use refusals::Refusal;

// Where the draws stand: the seed, and after a draw what was drawn (document 02's s). From 0 every draw would be 0, so no seed is 0, and
// then no draw is.
#[derive(Clone, Copy, Debug, PartialEq, Eq)]
pub struct Generator {
    pub state: u64,
}

impl Generator {
    // The seed where none is asked for.
    pub const DEFAULT_SEED: u64 = 1;

    // The start from the default seed.
    pub fn new() -> Generator
        ensures { result ≡ record { state = default_seed } }
    {
        Generator {
            state: Generator::DEFAULT_SEED,
        }
    }

    // The start from a seed. Refusal 20 for 0.
    #[tactic(auto, unfolding(crate::specs::Draw::seeded_by))]
    pub fn seeded(seed: u64) -> Result<Generator, Refusal>
        ensures { result ≡ seeded_by seed }
    {
        if seed == 0 {
            return Err(Refusal::Load);
        }
        Ok(Generator { state: seed })
    }

    // The next draw, which is the state of the generator that comes back. A shift upward drops what leaves the 64 bits, which is the
    // remainder modulo 2^64.
    pub fn next(self) -> Generator
        ensures value { result ≡ record { state = next self.state } }
        ensures some { self.state ≢ 0 → result.state ≢ 0 }
    {
        let mut state = self.state;
        state ^= state << 13;
        state ^= state >> 7;
        state ^= state << 17;
        Generator { state }
    }
}

// The draw after s, for callers who hold the seed, and then what was drawn, as a plain number: the start seeded with s, and its next draw. Refusal
// 20 for 0, which no draw is.
#[tactic(auto, unfolding(crate::specs::Draw::seeded_by, crate::specs::Draw::drawn_after))]
pub fn next_draw(s: u64) -> Result<u64, Refusal>
    ensures value { result ≡ drawn_after s }
    ensures some { (n : ℕ) → result ≡ Ok n → n ≢ 0 }
{
    Ok(Generator::seeded(s)?.next().state)
}
