// A map built from prefixes (document 02, CR 8), so that an operator puts single prefixes of a listing back and has a map again.
ghost use Rattle.std.specs.Prelude.{◌≡◌, ◌∷◌, [], take};
ghost use Rattle.asmap_build.specs.Build.{build_at};
ghost use Rattle.asmap_build.specs.Promise.{Builds};
ghost use Rattle.answer_bytes.specs.Bytes.{Writes};

use answer_bytes::hand_bytes;

// Builds the map of a list of prefixes, records of 24 bytes that rise and do not overlap, with a number for all other addresses, at a width. Refusals:
// 18; 21 for the records' length; for the first wrong record 21 for its prefix or 22 for its number; 22 for the given number; 1; 14.
pub fn corbastrigo_build(
    records: &[u8],
    given: u32,
    width: u32,
    out: &mut [u8],
    written: &mut usize,
) -> u8
    ensures writes { Writes (build_at records.now given width) out.old out.new result (written.old ∷ []) (written.new ∷ []) }
    ensures builds { result ≡ 0 → Builds records.now given width (take written.new out.new) }
{
    hand_bytes(asmap_build::build(records, given, width, out), written)
}
