// The exports of `corbastrigo: builds` for C: each says again what the call of the library says, and calls it.
ghost use Rattle.std.specs.Prelude.{◌≡◌, ◌∷◌, [], take};
ghost use Rattle.asmap_build.specs.Build.{build_at};
ghost use Rattle.asmap_build.specs.Promise.{Builds};
ghost use Rattle.answer_bytes.specs.Bytes.{Writes};

#[unsafe(no_mangle)]
pub extern "C" fn corbastrigo_build(
    records: &[u8],
    given: u32,
    width: u32,
    out: &mut [u8],
    written: &mut usize,
) -> u8
    ensures writes { Writes (build_at records.now given width) out.old out.new result (written.old ∷ []) (written.new ∷ []) }
    ensures builds { result ≡ 0 → Builds records.now given width (take written.new out.new) }
{
    corbastrigo::builds::corbastrigo_build(records, given, width, out, written)
}
