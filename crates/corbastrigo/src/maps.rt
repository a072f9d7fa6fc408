// Check, walk, unpack and pack (document 01, Check, Walk, Unpack and pack); the listing (document 02, CR 1); two maps compared.
#![tactic(auto, using(answers::proofs::Promised::writes, answers::proofs::Promised::finds, answers::proofs::NeverZeroMaps::count_handed))]

ghost use Rattle.std.specs.Prelude.{◌∷◌, []};
ghost use Rattle.asmap_check.specs.Check.{check_of, stopped_of};
ghost use Rattle.asmap_walk.specs.Interpret.{interpret_of};
ghost use Rattle.asmap_records.specs.Unpack.{unpack_of};
ghost use Rattle.asmap_records.specs.Pack.{pack_of};
ghost use Rattle.asmap_list.specs.List.{list_of, needed_of};
ghost use Rattle.asmap_list.specs.Promise.{Covers};
ghost use Rattle.asmap_compare.specs.Compare.{comparison, compare_of};
ghost use Rattle.asmap_compare.specs.Promise.{Compares};
ghost use Rattle.answer_outcome.specs.Outcome.{Hands};
ghost use Rattle.answer_maps.specs.Maps.{map_checked, check_stopped, walk_made};
ghost use Rattle.answer_bytes.specs.Bytes.{byte_count, Writes, Finds};
ghost use Rattle.answers.specs.Promise.{Demand3, CoreVerdict, CoreNumber};
ghost use Rattle.refusals.specs.Numbers.{of_map};

use answer_bytes::hand_bytes;
use answer_maps::{hand_stop, hand_verdict, hand_walk};
use refusals::Refusal;

// Checks a map. 0 says that it is accepted, with its instructions counted and the most jumps open at once. Refusals 1 to 10 and 19.
pub fn corbastrigo_sanity_check(map: &[u8], count: &mut u32, depth: &mut u8) -> u8
    ensures hands { Hands (map_checked (of_map (check_of map.now 128))) result (count.old ∷ depth.old ∷ []) (count.new ∷ depth.new ∷ []) }
    ensures core { CoreVerdict map.now result }
{
    hand_verdict(
        asmap_check::sanity_check(map).map_err(Refusal::Map),
        count,
        depth,
    )
}

// Says where the check of a map stops, and why: the reason, 0 where the check accepts and else 2 to 10 or 19, and the place, the bit of the map at
// which it stops. 0 says that both are written, also of a map that the check refuses. Refusal 1.
pub fn corbastrigo_sanity_check_stop(map: &[u8], reason: &mut u8, place: &mut usize) -> u8
    ensures { Hands (check_stopped (of_map (stopped_of map.now 128))) result (reason.old ∷ place.old ∷ []) (reason.new ∷ place.new ∷ []) }
{
    hand_stop(
        asmap_check::sanity_check_stop(map).map_err(Refusal::Map),
        reason,
        place,
    )
}

// Walks any map by an address of 16 bytes. `kind` is 1 where the walk ended at a RETURN, 2 at a MATCH that differs. Where it aborted `kind`
// is 3 for too few address bits, 4 for an opcode cut by the map's end and 19 for a cut operand: the number, which is 0 then, does not tell.
// Refusals 11, 1.
pub fn corbastrigo_interpret(
    map: &[u8],
    address: &[u8],
    kind: &mut u8,
    number: &mut u32,
    count: &mut u32,
    bits: &mut u8,
) -> u8
    ensures hands { Hands (walk_made (interpret_of map.now address.now)) result (kind.old ∷ number.old ∷ count.old ∷ bits.old ∷ []) (kind.new ∷ number.new ∷ count.new ∷ bits.new ∷ []) }
    ensures demand3 { Demand3 map.now address.now result kind.new number.new count.new bits.new }
    ensures core { CoreNumber map.now address.now number.new }
{
    hand_walk(
        asmap_walk::interpret(map, address),
        kind,
        number,
        count,
        bits,
    )
}

// Unpacks a map that the check accepts into records of 16 bytes. Refusals: the check's, 1 to 10 and 19, then 14.
pub fn corbastrigo_unpack(map: &[u8], out: &mut [u8], written: &mut usize) -> u8
    ensures { Writes (unpack_of map.now 128) out.old out.new result (written.old ∷ []) (written.new ∷ []) }
{
    hand_bytes(asmap_unpack::unpack(map, out), written)
}

// Packs records into a map's bytes, and checks nothing of the map. Refusals 16, 15, 1, 14.
pub fn corbastrigo_pack(records: &[u8], out: &mut [u8], written: &mut usize) -> u8
    ensures { Writes (pack_of records.now) out.old out.new result (written.old ∷ []) (written.new ∷ []) }
{
    hand_bytes(asmap_pack::pack(records, out), written)
}

// Lists every prefix that a map tells apart, as records of 24 bytes, of a map that the check accepts. Every address lies in just one of them, and
// that one has the number of its walk. Refusals: the check's, 1 to 10 and 19, then 14.
pub fn corbastrigo_list(map: &[u8], out: &mut [u8], written: &mut usize) -> u8
    ensures writes { Writes (list_of map.now 128) out.old out.new result (written.old ∷ []) (written.new ∷ []) }
    ensures covers { Covers map.now 128 }
{
    hand_bytes(asmap_list::list(map, out), written)
}

// Says how many bytes the listing of a map needs. Refusals: the check's, 1 to 10 and 19.
pub fn corbastrigo_list_bytes(map: &[u8], bytes: &mut usize) -> u8
    ensures { Hands (byte_count (needed_of map.now 128)) result (bytes.old ∷ []) (bytes.new ∷ []) }
{
    hand_bytes(asmap_list::list_bytes(map), bytes)
}

// Compares two maps that the check accepts, for every address: a record of 28 bytes for each prefix on which they differ. An address lies in a record
// exactly where its two walks end with different numbers, and that record carries both. Refusals: the old map's check, 1 to 10 and 19; the new
// map's, 101 to 110 and 119, the check's number and 100 more; then 14.
pub fn corbastrigo_compare(
    old_map: &[u8],
    new_map: &[u8],
    out: &mut [u8],
    written: &mut usize,
) -> u8
    ensures writes { Writes (compare_of old_map.now new_map.now 128) out.old out.new result (written.old ∷ []) (written.new ∷ []) }
    ensures compares { Compares old_map.now new_map.now 128 }
{
    hand_bytes(asmap_compare::compare(old_map, new_map, out), written)
}

// Says how many bytes the comparison of two maps needs, and in 16 bytes the first address that differs: 0 bytes and zeros where none does. Refusals as
// above, with 14 where fewer than 16 bytes are lent.
pub fn corbastrigo_compare_bytes(
    old_map: &[u8],
    new_map: &[u8],
    first: &mut [u8],
    bytes: &mut usize,
) -> u8
    ensures finds { Finds (comparison old_map.now new_map.now 128) first.old first.new result (bytes.old ∷ []) (bytes.new ∷ []) }
    ensures compares { Compares old_map.now new_map.now 128 }
{
    hand_bytes(asmap_compare::compare_bytes(old_map, new_map, first), bytes)
}
