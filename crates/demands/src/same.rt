// Demand 2: the check against Core's, and unpack and pack one after the other. That an accepted map's walk has Core's number is said in
// `walks` (ensures core).
ghost use Rattle.std.specs.Prelude.{◌≡◌};
ghost use Rattle.demand_statements.specs.Same.{CoreAccepts, Again, UnpackedThenPacked};

use corbastrigo::maps::{corbastrigo_pack, corbastrigo_sanity_check, corbastrigo_unpack};

// The check says yes where Core's does, and nowhere else.
pub fn checked_as_core(map: &[u8], count: &mut u32, depth: &mut u8) -> u8
    ensures { CoreAccepts map.now 128 result }
{
    corbastrigo_sanity_check(map, count, depth)
}

// A map that is unpacked and packed again is that map, byte by byte; and no accepted map is refused on the way, given room.
pub fn unpacked_then_packed(
    map: &[u8],
    records: &mut [u8],
    bytes: &mut [u8],
    written: &mut usize,
) -> u8
    ensures { UnpackedThenPacked map.now 128 records.old bytes.old bytes.new result written.new }
{
    let mut unpacked: usize = 0;
    let refused = corbastrigo_unpack(map, records, &mut unpacked);
    if refused != 0 {
        return refused;
    }
    corbastrigo_pack(&records[..unpacked], bytes, written)
}

// Records that pack makes an accepted map of are unpacked from it as they were, byte by byte.
pub fn packed_then_unpacked(
    records: &[u8],
    bytes: &mut [u8],
    again: &mut [u8],
    written: &mut usize,
) -> u8
    ensures { result ≡ 0 → Again records.now again.new written.new }
{
    let mut packed: usize = 0;
    let refused = corbastrigo_pack(records, bytes, &mut packed);
    if refused != 0 {
        return refused;
    }
    corbastrigo_unpack(&bytes[..packed], again, written)
}
