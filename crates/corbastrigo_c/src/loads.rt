// The exports of `corbastrigo: loads` for C: each says again what the call of the library says, and calls it.
ghost use Rattle.std.specs.Prelude.{◌≡◌, ◌≢◌, ◌∷◌, [], take};
ghost use Rattle.load_draws.specs.Draw.{drawn_after};
ghost use Rattle.asmap_load.specs.Load.{load_of};
ghost use Rattle.asmap_load.specs.Promise.{Passes};
ghost use Rattle.answer_outcome.specs.Outcome.{Hands};
ghost use Rattle.answer_draws.specs.Draws.{number_drawn};
ghost use Rattle.answer_bytes.specs.Bytes.{Writes};

#[unsafe(no_mangle)]
pub extern "C" fn corbastrigo_next_draw(s: u64, draw: &mut u64) -> u8
    ensures hands { Hands (number_drawn (drawn_after s)) result (draw.old ∷ []) (draw.new ∷ []) }
    ensures some { result ≡ 0 → draw.new ≢ 0 }
{
    corbastrigo::loads::corbastrigo_next_draw(s, draw)
}

#[unsafe(no_mangle)]
pub extern "C" fn corbastrigo_load(
    seed: u64,
    pairs: usize,
    out: &mut [u8],
    written: &mut usize,
) -> u8
    ensures writes { Writes (load_of seed pairs) out.old out.new result (written.old ∷ []) (written.new ∷ []) }
    ensures passes { result ≡ 0 → Passes seed pairs (take written.new out.new) }
{
    corbastrigo::loads::corbastrigo_load(seed, pairs, out, written)
}
