// The exports of `corbastrigo: maps` for C: each says again what the call of the library says, and calls it.
ghost use Rattle.std.specs.Prelude.{◌∷◌, []};
ghost use Rattle.asmap_check.specs.Check.{check_of, stopped_of};
ghost use Rattle.asmap_walk.specs.Interpret.{interpret_of};
ghost use Rattle.asmap_records.specs.Unpack.{unpack_of};
ghost use Rattle.asmap_records.specs.Pack.{pack_of};
ghost use Rattle.asmap_list.specs.List.{list_of, needed_of};
ghost use Rattle.asmap_list.specs.Promise.{Covers};
ghost use Rattle.asmap_compare.specs.Compare.{comparison, compare_of};
ghost use Rattle.asmap_compare.specs.Promise.{Compares};
ghost use Rattle.answer_outcome.specs.Outcome.{Hands};
ghost use Rattle.answer_maps.specs.Maps.{map_checked, check_stopped, walk_made};
ghost use Rattle.answer_bytes.specs.Bytes.{byte_count, Writes, Finds};
ghost use Rattle.answers.specs.Promise.{Demand3, CoreVerdict, CoreNumber};
ghost use Rattle.refusals.specs.Numbers.{of_map};

#[unsafe(no_mangle)]
pub extern "C" fn corbastrigo_sanity_check(map: &[u8], count: &mut u32, depth: &mut u8) -> u8
    ensures hands { Hands (map_checked (of_map (check_of map.now 128))) result (count.old ∷ depth.old ∷ []) (count.new ∷ depth.new ∷ []) }
    ensures core { CoreVerdict map.now result }
{
    corbastrigo::maps::corbastrigo_sanity_check(map, count, depth)
}

#[unsafe(no_mangle)]
pub extern "C" fn corbastrigo_sanity_check_stop(
    map: &[u8],
    reason: &mut u8,
    place: &mut usize,
) -> u8
    ensures { Hands (check_stopped (of_map (stopped_of map.now 128))) result (reason.old ∷ place.old ∷ []) (reason.new ∷ place.new ∷ []) }
{
    corbastrigo::maps::corbastrigo_sanity_check_stop(map, reason, place)
}

#[unsafe(no_mangle)]
pub extern "C" fn corbastrigo_interpret(
    map: &[u8],
    address: &[u8],
    kind: &mut u8,
    number: &mut u32,
    count: &mut u32,
    bits: &mut u8,
) -> u8
    ensures hands { Hands (walk_made (interpret_of map.now address.now)) result (kind.old ∷ number.old ∷ count.old ∷ bits.old ∷ []) (kind.new ∷ number.new ∷ count.new ∷ bits.new ∷ []) }
    ensures demand3 { Demand3 map.now address.now result kind.new number.new count.new bits.new }
    ensures core { CoreNumber map.now address.now number.new }
{
    corbastrigo::maps::corbastrigo_interpret(map, address, kind, number, count, bits)
}

#[unsafe(no_mangle)]
pub extern "C" fn corbastrigo_unpack(map: &[u8], out: &mut [u8], written: &mut usize) -> u8
    ensures { Writes (unpack_of map.now 128) out.old out.new result (written.old ∷ []) (written.new ∷ []) }
{
    corbastrigo::maps::corbastrigo_unpack(map, out, written)
}

#[unsafe(no_mangle)]
pub extern "C" fn corbastrigo_pack(records: &[u8], out: &mut [u8], written: &mut usize) -> u8
    ensures { Writes (pack_of records.now) out.old out.new result (written.old ∷ []) (written.new ∷ []) }
{
    corbastrigo::maps::corbastrigo_pack(records, out, written)
}

#[unsafe(no_mangle)]
pub extern "C" fn corbastrigo_list(map: &[u8], out: &mut [u8], written: &mut usize) -> u8
    ensures writes { Writes (list_of map.now 128) out.old out.new result (written.old ∷ []) (written.new ∷ []) }
    ensures covers { Covers map.now 128 }
{
    corbastrigo::maps::corbastrigo_list(map, out, written)
}

#[unsafe(no_mangle)]
pub extern "C" fn corbastrigo_list_bytes(map: &[u8], bytes: &mut usize) -> u8
    ensures { Hands (byte_count (needed_of map.now 128)) result (bytes.old ∷ []) (bytes.new ∷ []) }
{
    corbastrigo::maps::corbastrigo_list_bytes(map, bytes)
}

#[unsafe(no_mangle)]
pub extern "C" fn corbastrigo_compare(
    old_map: &[u8],
    new_map: &[u8],
    out: &mut [u8],
    written: &mut usize,
) -> u8
    ensures writes { Writes (compare_of old_map.now new_map.now 128) out.old out.new result (written.old ∷ []) (written.new ∷ []) }
    ensures compares { Compares old_map.now new_map.now 128 }
{
    corbastrigo::maps::corbastrigo_compare(old_map, new_map, out, written)
}

#[unsafe(no_mangle)]
pub extern "C" fn corbastrigo_compare_bytes(
    old_map: &[u8],
    new_map: &[u8],
    first: &mut [u8],
    bytes: &mut usize,
) -> u8
    ensures finds { Finds (comparison old_map.now new_map.now 128) first.old first.new result (bytes.old ∷ []) (bytes.new ∷ []) }
    ensures compares { Compares old_map.now new_map.now 128 }
{
    corbastrigo::maps::corbastrigo_compare_bytes(old_map, new_map, first, bytes)
}
