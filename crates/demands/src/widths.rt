// Request 3 of document 02: check, walk, unpack, listing and comparison at a width, 32 or 128. Each function here is its namesake in the other modules
// with a width, and what is said of it is said once for both widths, `width` being the number of address bits: a map accepted at 32 is promised of
// every address of four bytes what one accepted at 128 is of every address of sixteen.
ghost use Rattle.std.specs.Prelude.{◌≡◌, ◌⊎◌, ◌∷◌, []};
ghost use Rattle.asmap_program.specs.Core.{core_interpret, Number};
ghost use Rattle.asmap_program.specs.Map.{address_bit};
ghost use Rattle.asmap_codes.specs.Core.{file_of};
ghost use Rattle.demand_statements.specs.Agreed.{AgreedWalks};
ghost use Rattle.demand_statements.specs.AnyInput.{AtWidth, AlsoAt128, Checks, Stops, Walks, Unpacks, Lists, Needs, Changes, FindsFirst};
ghost use Rattle.demand_statements.specs.Listed.{ListedWalk, ListedWithRoom};
ghost use Rattle.demand_statements.specs.Same.{CoreAccepts, Again, UnpackedThenPacked};
ghost use Rattle.demand_statements.specs.Walked.{AcceptedWalk, InRecords};

use corbastrigo::maps::{corbastrigo_pack, corbastrigo_sanity_check};
use corbastrigo::widths::{
    corbastrigo_compare_bits, corbastrigo_compare_bytes_bits, corbastrigo_interpret_bits,
    corbastrigo_list_bits, corbastrigo_list_bytes_bits, corbastrigo_sanity_check_bits,
    corbastrigo_sanity_check_stop_bits, corbastrigo_unpack_bits,
};

// ---- any input: 18 for a width that is neither, first of all, with nothing written; else what is said in `any_input`

// The check.
pub fn checked(map: &[u8], width: u32, count: &mut u32, depth: &mut u8) -> u8
    ensures { AtWidth width result (Checks map.now width result (count.old ∷ depth.old ∷ []) (count.new ∷ depth.new ∷ [])) (count.new ∷ depth.new ∷ [] ≡ count.old ∷ depth.old ∷ []) }
{
    corbastrigo_sanity_check_bits(map, width, count, depth)
}

// Where the check stops, and why.
pub fn stopped(map: &[u8], width: u32, reason: &mut u8, place: &mut usize) -> u8
    ensures { AtWidth width result (Stops map.now width result (reason.old ∷ place.old ∷ []) reason.new place.new) (reason.new ∷ place.new ∷ [] ≡ reason.old ∷ place.old ∷ []) }
{
    corbastrigo_sanity_check_stop_bits(map, width, reason, place)
}

// The walk.
pub fn walked(
    map: &[u8],
    address: &[u8],
    width: u32,
    kind: &mut u8,
    number: &mut u32,
    count: &mut u32,
    bits: &mut u8,
) -> u8
    ensures { AtWidth width result (Walks map.now address.now width result (kind.old ∷ number.old ∷ count.old ∷ bits.old ∷ []) kind.new number.new count.new bits.new) (kind.new ∷ number.new ∷ count.new ∷ bits.new ∷ [] ≡ kind.old ∷ number.old ∷ count.old ∷ bits.old ∷ []) }
{
    corbastrigo_interpret_bits(map, address, width, kind, number, count, bits)
}

// Unpack.
pub fn unpacked(map: &[u8], width: u32, out: &mut [u8], written: &mut usize) -> u8
    ensures { AtWidth width result (Unpacks map.now width out.old out.new result written.old written.new) ((out.new ≡ out.old) × (written.new ≡ written.old)) }
{
    corbastrigo_unpack_bits(map, width, out, written)
}

// The listing.
pub fn listed(map: &[u8], width: u32, out: &mut [u8], written: &mut usize) -> u8
    ensures { AtWidth width result (Lists map.now width out.old out.new result written.old written.new) ((out.new ≡ out.old) × (written.new ≡ written.old)) }
{
    corbastrigo_list_bits(map, width, out, written)
}

// How many bytes a listing needs.
pub fn list_needed(map: &[u8], width: u32, bytes: &mut usize) -> u8
    ensures { AtWidth width result (Needs map.now width result (bytes.old ∷ []) (bytes.new ∷ [])) (bytes.new ∷ [] ≡ bytes.old ∷ []) }
{
    corbastrigo_list_bytes_bits(map, width, bytes)
}

// Two maps compared.
pub fn compared(
    old_map: &[u8],
    new_map: &[u8],
    width: u32,
    out: &mut [u8],
    written: &mut usize,
) -> u8
    ensures { AtWidth width result (Changes old_map.now new_map.now width out.old out.new result written.old written.new) ((out.new ≡ out.old) × (written.new ≡ written.old)) }
{
    corbastrigo_compare_bits(old_map, new_map, width, out, written)
}

// How many bytes that needs, and the first address that differs.
pub fn compare_needed(
    old_map: &[u8],
    new_map: &[u8],
    width: u32,
    first: &mut [u8],
    bytes: &mut usize,
) -> u8
    ensures { AtWidth width result (FindsFirst old_map.now new_map.now width first.old first.new result bytes.old bytes.new) ((first.new ≡ first.old) × (bytes.new ≡ bytes.old)) }
{
    corbastrigo_compare_bytes_bits(old_map, new_map, width, first, bytes)
}

// ---- one map at both widths

// A map is checked at 32, and at 128 where it is accepted: there it is accepted too, with the same count and depth. So the check at 128 cannot tell that a
// map is for addresses of four bytes, and whoever holds one has to keep its width.
pub fn accepted_at_both(
    map: &[u8],
    narrow_count: &mut u32,
    narrow_depth: &mut u8,
    count: &mut u32,
    depth: &mut u8,
) -> u8
    ensures { AlsoAt128 map.now result (count.new ∷ depth.new ∷ []) }
{
    let refused = corbastrigo_sanity_check_bits(map, 32, narrow_count, narrow_depth);
    if refused != 0 {
        return refused;
    }
    corbastrigo_sanity_check(map, count, depth)
}

// ---- what holds of maps that the check accepts at the width

// The check says yes where Core's does over so many bits, and nowhere else.
pub fn checked_as_core(map: &[u8], width: u32, count: &mut u32, depth: &mut u8) -> u8
    ensures { (width ≡ 32) ⊎ (width ≡ 128) → CoreAccepts map.now width result }
{
    corbastrigo_sanity_check_bits(map, width, count, depth)
}

// A map is checked, and walked where it is accepted: no walk aborts, and each ends as the defined walk does, within 2 × width + 1 instructions, all of
// them in the list unpacked at the width. The number is Core's.
pub fn accepted_walk(
    map: &[u8],
    address: &[u8],
    width: u32,
    kind: &mut u8,
    number: &mut u32,
    count: &mut u32,
    bits: &mut u8,
) -> u8
    ensures accepted_walk { (width ≡ 32) ⊎ (width ≡ 128) → AcceptedWalk map.now address.now width result kind.new number.new count.new bits.new }
    ensures core { (width ≡ 32) ⊎ (width ≡ 128) → result ≡ 0 → core_interpret (address_bit address.now) width (file_of map.now) ≡ Number number.new }
{
    let mut instructions: u32 = 0;
    let mut depth: u8 = 0;
    let refused = corbastrigo_sanity_check_bits(map, width, &mut instructions, &mut depth);
    if refused != 0 {
        return refused;
    }
    corbastrigo_interpret_bits(map, address, width, kind, number, count, bits)
}

// A map is unpacked, and walked where it was: each instruction that the walk reads has its record among the bytes that unpack wrote.
pub fn walk_in_records(
    map: &[u8],
    address: &[u8],
    width: u32,
    records: &mut [u8],
    written: &mut usize,
    kind: &mut u8,
    number: &mut u32,
    count: &mut u32,
    bits: &mut u8,
) -> u8
    ensures { result ≡ 0 → InRecords map.now address.now width records.new written.new }
{
    let refused = corbastrigo_unpack_bits(map, width, records, written);
    if refused != 0 {
        return refused;
    }
    corbastrigo_interpret_bits(map, address, width, kind, number, count, bits)
}

// A map that is unpacked and packed again is that map, byte by byte; and no accepted map is refused on the way, given room.
pub fn unpacked_then_packed(
    map: &[u8],
    width: u32,
    records: &mut [u8],
    bytes: &mut [u8],
    written: &mut usize,
) -> u8
    ensures { (width ≡ 32) ⊎ (width ≡ 128) → UnpackedThenPacked map.now width records.old bytes.old bytes.new result written.new }
{
    let mut unpacked: usize = 0;
    let refused = corbastrigo_unpack_bits(map, width, records, &mut unpacked);
    if refused != 0 {
        return refused;
    }
    corbastrigo_pack(&records[..unpacked], bytes, written)
}

// Records that pack makes an accepted map of are unpacked from it as they were, byte by byte.
pub fn packed_then_unpacked(
    records: &[u8],
    width: u32,
    bytes: &mut [u8],
    again: &mut [u8],
    written: &mut usize,
) -> u8
    ensures { result ≡ 0 → Again records.now again.new written.new }
{
    let mut packed: usize = 0;
    let refused = corbastrigo_pack(records, bytes, &mut packed);
    if refused != 0 {
        return refused;
    }
    corbastrigo_unpack_bits(&bytes[..packed], width, again, written)
}

// A map is listed, and walked where it was. The records tile all addresses; no prefix is longer than the width, and behind its first `width` bits an
// address has zeros. The record in which this address lies has the number of its walk.
pub fn walk_in_list(
    map: &[u8],
    address: &[u8],
    width: u32,
    out: &mut [u8],
    written: &mut usize,
    kind: &mut u8,
    number: &mut u32,
    count: &mut u32,
    bits: &mut u8,
) -> u8
    ensures { result ≡ 0 → ListedWalk width address.now out.new written.new number.new }
{
    let refused = corbastrigo_list_bits(map, width, out, written);
    if refused != 0 {
        return refused;
    }
    corbastrigo_interpret_bits(map, address, width, kind, number, count, bits)
}

// A caller asks how many bytes a listing needs, and lists the map: as many are written, and with so many no accepted map is refused.
pub fn listed_with_room(
    map: &[u8],
    width: u32,
    out: &mut [u8],
    needed: &mut usize,
    written: &mut usize,
) -> u8
    ensures { (width ≡ 32) ⊎ (width ≡ 128) → ListedWithRoom map.now width out.old result needed.new written.new }
{
    let refused = corbastrigo_list_bytes_bits(map, width, needed);
    if refused != 0 {
        return refused;
    }
    corbastrigo_list_bits(map, width, out, written)
}

// A caller asks what the comparison of two maps needs, and walks an address through both. Where it needs no byte the walks end with the same number.
pub fn walks_agree(
    old_map: &[u8],
    new_map: &[u8],
    address: &[u8],
    width: u32,
    first: &mut [u8],
    bytes: &mut usize,
    old_kind: &mut u8,
    old_number: &mut u32,
    old_count: &mut u32,
    old_bits: &mut u8,
    new_kind: &mut u8,
    new_number: &mut u32,
    new_count: &mut u32,
    new_bits: &mut u8,
) -> u8
    ensures { AgreedWalks result bytes.new old_number.new new_number.new }
{
    let refused = corbastrigo_compare_bytes_bits(old_map, new_map, width, first, bytes);
    if refused != 0 {
        return refused;
    }
    let walked = corbastrigo_interpret_bits(
        old_map, address, width, old_kind, old_number, old_count, old_bits,
    );
    if walked != 0 {
        return walked;
    }
    corbastrigo_interpret_bits(
        new_map, address, width, new_kind, new_number, new_count, new_bits,
    )
}
