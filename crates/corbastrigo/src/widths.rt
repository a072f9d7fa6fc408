// The calls on maps at a width (document 02, CR 3): check, walk, unpack, listing and comparison over 32 address bits, as addresses of four bytes
// have, or over 128. Each is its namesake in `maps` with a width, which it refuses with 18, before all else, where it is neither; at 128 both
// answer alike. The width has four bytes: one byte would cut 288 to 32.
#![tactic(auto, using(answers::proofs::Promised::writes, answers::proofs::Promised::finds, answers::proofs::NeverZeroMaps::count_handed, answers::proofs::NeverZeroMaps::stop_handed))]

ghost use Rattle.std.specs.Prelude.{◌∷◌, []};
ghost use Rattle.asmap_check.specs.Check.{check_at, stopped_at};
ghost use Rattle.asmap_walk.specs.Interpret.{interpret_at};
ghost use Rattle.asmap_records.specs.Unpack.{unpack_at};
ghost use Rattle.asmap_list.specs.List.{list_at, needed_at};
ghost use Rattle.asmap_list.specs.Promise.{Covers};
ghost use Rattle.asmap_compare.specs.Compare.{comparison_at, compare_at};
ghost use Rattle.asmap_compare.specs.Promise.{Compares};
ghost use Rattle.answer_outcome.specs.Outcome.{Hands};
ghost use Rattle.answer_maps.specs.Maps.{map_checked, check_stopped, walk_made};
ghost use Rattle.answer_bytes.specs.Bytes.{byte_count, Writes, Finds};
ghost use Rattle.answers.specs.Promise.{Demand3At, CoreVerdictAt, CoreNumberAt};

use answer_bytes::hand_bytes;
use answer_maps::{hand_stop, hand_verdict, hand_walk};

// Checks a map over the width's address bits. Refusals 18, then 1 to 10 and 19.
pub fn corbastrigo_sanity_check_bits(map: &[u8], width: u32, count: &mut u32, depth: &mut u8) -> u8
    ensures hands { Hands (map_checked (check_at map.now width)) result (count.old ∷ depth.old ∷ []) (count.new ∷ depth.new ∷ []) }
    ensures core { CoreVerdictAt map.now width result }
{
    hand_verdict(asmap_check::sanity_check_bits(map, width), count, depth)
}

// Says where the check over the width's address bits stops, and why. Refusals 18, then 1.
pub fn corbastrigo_sanity_check_stop_bits(
    map: &[u8],
    width: u32,
    reason: &mut u8,
    place: &mut usize,
) -> u8
    ensures { Hands (check_stopped (stopped_at map.now width)) result (reason.old ∷ place.old ∷ []) (reason.new ∷ place.new ∷ []) }
{
    hand_stop(
        asmap_check::sanity_check_stop_bits(map, width),
        reason,
        place,
    )
}

// Walks any map by an address of as many bits as the width says: 4 bytes at 32, 16 at 128. Refusals 18, 11, 1. No walk of a map that the check accepts
// at this width aborts.
pub fn corbastrigo_interpret_bits(
    map: &[u8],
    address: &[u8],
    width: u32,
    kind: &mut u8,
    number: &mut u32,
    count: &mut u32,
    bits: &mut u8,
) -> u8
    ensures hands { Hands (walk_made (interpret_at map.now address.now width)) result (kind.old ∷ number.old ∷ count.old ∷ bits.old ∷ []) (kind.new ∷ number.new ∷ count.new ∷ bits.new ∷ []) }
    ensures demand3 { Demand3At map.now address.now width result kind.new number.new count.new bits.new }
    ensures core { CoreNumberAt map.now address.now width number.new }
{
    hand_walk(
        asmap_walk::interpret_bits(map, address, width),
        kind,
        number,
        count,
        bits,
    )
}

// Unpacks a map that the check accepts at the width. Refusals 18, the check's, 14.
pub fn corbastrigo_unpack_bits(map: &[u8], width: u32, out: &mut [u8], written: &mut usize) -> u8
    ensures { Writes (unpack_at map.now width) out.old out.new result (written.old ∷ []) (written.new ∷ []) }
{
    hand_bytes(asmap_unpack::unpack_bits(map, width, out), written)
}

// Lists every prefix that a map tells apart, of a map that the check accepts at the width. At 32 an address stands in the first 4 of a record's 16
// bytes, with zeros behind. Refusals 18, the check's, 14.
pub fn corbastrigo_list_bits(map: &[u8], width: u32, out: &mut [u8], written: &mut usize) -> u8
    ensures writes { Writes (list_at map.now width) out.old out.new result (written.old ∷ []) (written.new ∷ []) }
    ensures covers { Covers map.now width }
{
    hand_bytes(asmap_list::list_bits(map, width, out), written)
}

// Says how many bytes that listing needs. Refusals 18, the check's.
pub fn corbastrigo_list_bytes_bits(map: &[u8], width: u32, bytes: &mut usize) -> u8
    ensures { Hands (byte_count (needed_at map.now width)) result (bytes.old ∷ []) (bytes.new ∷ []) }
{
    hand_bytes(asmap_list::list_bytes_bits(map, width), bytes)
}

// Compares two maps that the check accepts at the width, for every address of so many bits. Refusals 18, the old map's check, the new map's with 100
// more, 14.
pub fn corbastrigo_compare_bits(
    old_map: &[u8],
    new_map: &[u8],
    width: u32,
    out: &mut [u8],
    written: &mut usize,
) -> u8
    ensures writes { Writes (compare_at old_map.now new_map.now width) out.old out.new result (written.old ∷ []) (written.new ∷ []) }
    ensures compares { Compares old_map.now new_map.now width }
{
    hand_bytes(
        asmap_compare::compare_bits(old_map, new_map, width, out),
        written,
    )
}

// Says how many bytes that comparison needs, and in 16 bytes the first address that differs. Refusals as above.
pub fn corbastrigo_compare_bytes_bits(
    old_map: &[u8],
    new_map: &[u8],
    width: u32,
    first: &mut [u8],
    bytes: &mut usize,
) -> u8
    ensures finds { Finds (comparison_at old_map.now new_map.now width) first.old first.new result (bytes.old ∷ []) (bytes.new ∷ []) }
    ensures compares { Compares old_map.now new_map.now width }
{
    hand_bytes(
        asmap_compare::compare_bytes_bits(old_map, new_map, width, first),
        bytes,
    )
}
