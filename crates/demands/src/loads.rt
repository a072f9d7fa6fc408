// Request 6, loads that everyone can make again (`demand_statements/specs/Loaded`), and demand 1 for its calls.
ghost use Rattle.std.specs.Prelude.{◌≡◌, take};
ghost use Rattle.demand_statements.specs.Loaded.{Draws, DrawsOn, Loads, Loaded, LoadChecked};

use corbastrigo::loads::{corbastrigo_load, corbastrigo_next_draw};
use corbastrigo::maps::corbastrigo_sanity_check;

// A draw.
pub fn drawn(s: u64, draw: &mut u64) -> u8
    ensures { Draws s result draw.old draw.new }
{
    corbastrigo_next_draw(s, draw)
}

// A draw, and another from what was drawn: only a seed of 0 is refused.
pub fn drawn_on(seed: u64, draw: &mut u64) -> u8
    ensures { DrawsOn seed result draw.new }
{
    let refused = corbastrigo_next_draw(seed, draw);
    if refused != 0 {
        return refused;
    }
    corbastrigo_next_draw(*draw, draw)
}

// A load. What is said of it is said of the bytes written.
pub fn loaded(seed: u64, pairs: usize, out: &mut [u8], written: &mut usize) -> u8
    ensures loaded { result ≡ 0 → Loaded seed pairs (take written.new out.new) }
    ensures refused { Loads seed pairs out.old out.new result written.old written.new }
{
    corbastrigo_load(seed, pairs, out, written)
}

// A load that is checked as any map is, at 128 address bits.
pub fn load_checked(seed: u64, pairs: usize, out: &mut [u8], count: &mut u32, depth: &mut u8) -> u8
    ensures { LoadChecked seed pairs out.old result count.new depth.new }
{
    let mut written: usize = 0;
    let refused = corbastrigo_load(seed, pairs, out, &mut written);
    if refused != 0 {
        return refused;
    }
    corbastrigo_sanity_check(&out[..written], count, depth)
}
