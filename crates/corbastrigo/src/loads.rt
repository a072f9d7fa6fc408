// Loads, and the draws that they are made of (document 02, CR 6), so that a team in C or Rust makes the same maps again, and others of its own.
ghost use Rattle.std.specs.Prelude.{◌≡◌, ◌≢◌, ◌∷◌, [], take};
ghost use Rattle.load_draws.specs.Draw.{drawn_after};
ghost use Rattle.asmap_load.specs.Load.{load_of};
ghost use Rattle.asmap_load.specs.Promise.{Passes};
ghost use Rattle.answer_outcome.specs.Outcome.{Hands};
ghost use Rattle.answer_draws.specs.Draws.{number_drawn};
ghost use Rattle.answer_bytes.specs.Bytes.{Writes};

use answer_bytes::hand_bytes;
use answer_draws::hand_draw;

// The draw after s, which is the seed at first and then what was drawn. Refusal 20 for 0, which no draw is.
pub fn corbastrigo_next_draw(s: u64, draw: &mut u64) -> u8
    ensures hands { Hands (number_drawn (drawn_after s)) result (draw.old ∷ []) (draw.new ∷ []) }
    ensures some { result ≡ 0 → draw.new ≢ 0 }
{
    hand_draw(load_draws::next_draw(s), draw)
}

// Writes the load of so many pairs from a seed: a map that the check accepts over every number of address bits from `pairs` on. Refusals 20 for a
// seed of 0 or more than 128 pairs, then 14.
pub fn corbastrigo_load(seed: u64, pairs: usize, out: &mut [u8], written: &mut usize) -> u8
    ensures writes { Writes (load_of seed pairs) out.old out.new result (written.old ∷ []) (written.new ∷ []) }
    ensures passes { result ≡ 0 → Passes seed pairs (take written.new out.new) }
{
    hand_bytes(asmap_load::load(seed, pairs, out), written)
}
