// The exports of `corbastrigo: widths` for C: each says again what the call of the library says, and calls it.
ghost use Rattle.std.specs.Prelude.{◌∷◌, []};
ghost use Rattle.asmap_check.specs.Check.{check_at, stopped_at};
ghost use Rattle.asmap_walk.specs.Interpret.{interpret_at};
ghost use Rattle.asmap_records.specs.Unpack.{unpack_at};
ghost use Rattle.asmap_list.specs.List.{list_at, needed_at};
ghost use Rattle.asmap_list.specs.Promise.{Covers};
ghost use Rattle.asmap_compare.specs.Compare.{comparison_at, compare_at};
ghost use Rattle.asmap_compare.specs.Promise.{Compares};
ghost use Rattle.answer_outcome.specs.Outcome.{Hands};
ghost use Rattle.answer_maps.specs.Maps.{map_checked, check_stopped, walk_made};
ghost use Rattle.answer_bytes.specs.Bytes.{byte_count, Writes, Finds};
ghost use Rattle.answers.specs.Promise.{Demand3At, CoreVerdictAt, CoreNumberAt};

#[unsafe(no_mangle)]
pub extern "C" fn corbastrigo_sanity_check_bits(
    map: &[u8],
    width: u32,
    count: &mut u32,
    depth: &mut u8,
) -> u8
    ensures hands { Hands (map_checked (check_at map.now width)) result (count.old ∷ depth.old ∷ []) (count.new ∷ depth.new ∷ []) }
    ensures core { CoreVerdictAt map.now width result }
{
    corbastrigo::widths::corbastrigo_sanity_check_bits(map, width, count, depth)
}

#[unsafe(no_mangle)]
pub extern "C" fn corbastrigo_sanity_check_stop_bits(
    map: &[u8],
    width: u32,
    reason: &mut u8,
    place: &mut usize,
) -> u8
    ensures { Hands (check_stopped (stopped_at map.now width)) result (reason.old ∷ place.old ∷ []) (reason.new ∷ place.new ∷ []) }
{
    corbastrigo::widths::corbastrigo_sanity_check_stop_bits(map, width, reason, place)
}

#[unsafe(no_mangle)]
pub extern "C" fn corbastrigo_interpret_bits(
    map: &[u8],
    address: &[u8],
    width: u32,
    kind: &mut u8,
    number: &mut u32,
    count: &mut u32,
    bits: &mut u8,
) -> u8
    ensures hands { Hands (walk_made (interpret_at map.now address.now width)) result (kind.old ∷ number.old ∷ count.old ∷ bits.old ∷ []) (kind.new ∷ number.new ∷ count.new ∷ bits.new ∷ []) }
    ensures demand3 { Demand3At map.now address.now width result kind.new number.new count.new bits.new }
    ensures core { CoreNumberAt map.now address.now width number.new }
{
    corbastrigo::widths::corbastrigo_interpret_bits(map, address, width, kind, number, count, bits)
}

#[unsafe(no_mangle)]
pub extern "C" fn corbastrigo_unpack_bits(
    map: &[u8],
    width: u32,
    out: &mut [u8],
    written: &mut usize,
) -> u8
    ensures { Writes (unpack_at map.now width) out.old out.new result (written.old ∷ []) (written.new ∷ []) }
{
    corbastrigo::widths::corbastrigo_unpack_bits(map, width, out, written)
}

#[unsafe(no_mangle)]
pub extern "C" fn corbastrigo_list_bits(
    map: &[u8],
    width: u32,
    out: &mut [u8],
    written: &mut usize,
) -> u8
    ensures writes { Writes (list_at map.now width) out.old out.new result (written.old ∷ []) (written.new ∷ []) }
    ensures covers { Covers map.now width }
{
    corbastrigo::widths::corbastrigo_list_bits(map, width, out, written)
}

#[unsafe(no_mangle)]
pub extern "C" fn corbastrigo_list_bytes_bits(map: &[u8], width: u32, bytes: &mut usize) -> u8
    ensures { Hands (byte_count (needed_at map.now width)) result (bytes.old ∷ []) (bytes.new ∷ []) }
{
    corbastrigo::widths::corbastrigo_list_bytes_bits(map, width, bytes)
}

#[unsafe(no_mangle)]
pub extern "C" fn corbastrigo_compare_bits(
    old_map: &[u8],
    new_map: &[u8],
    width: u32,
    out: &mut [u8],
    written: &mut usize,
) -> u8
    ensures writes { Writes (compare_at old_map.now new_map.now width) out.old out.new result (written.old ∷ []) (written.new ∷ []) }
    ensures compares { Compares old_map.now new_map.now width }
{
    corbastrigo::widths::corbastrigo_compare_bits(old_map, new_map, width, out, written)
}

#[unsafe(no_mangle)]
pub extern "C" fn corbastrigo_compare_bytes_bits(
    old_map: &[u8],
    new_map: &[u8],
    width: u32,
    first: &mut [u8],
    bytes: &mut usize,
) -> u8
    ensures finds { Finds (comparison_at old_map.now new_map.now width) first.old first.new result (bytes.old ∷ []) (bytes.new ∷ []) }
    ensures compares { Compares old_map.now new_map.now width }
{
    corbastrigo::widths::corbastrigo_compare_bytes_bits(old_map, new_map, width, first, bytes)
}
