// Demand 1: whatever is passed, the answer is 0 or a number of document 01, and a refused call writes nothing. The contracts are in
// `demand_statements/specs/AnyInput`; groups and picks have theirs in `picks`. A code that is read is also what Core reads (demand 2, ensures core).
ghost use Rattle.std.specs.Prelude.{◌≡◌, ◌∷◌, [], ◌≤◌, length};
ghost use Rattle.asmap_codes.specs.Core.{file_of};
ghost use Rattle.demand_statements.specs.Same.{CoreReads};
ghost use Rattle.demand_statements.specs.AnyInput.{Reads, ReadsInstruction, Writes, WritesInstruction, Checks, Stops, Walks, Unpacks, Lists, Needs, Changes, FindsFirst, Packs, Scans, Filters, Relays};

use corbastrigo::codes::{
    corbastrigo_decode_asn, corbastrigo_decode_instruction, corbastrigo_decode_jump,
    corbastrigo_decode_match, corbastrigo_decode_type, corbastrigo_encode_asn,
    corbastrigo_encode_instruction, corbastrigo_encode_jump, corbastrigo_encode_match,
    corbastrigo_encode_type,
};
use corbastrigo::filters::{corbastrigo_addrv2_skip_relay, corbastrigo_clearnet_unroutable};
use corbastrigo::groups::corbastrigo_scan_occupied;
use corbastrigo::maps::{
    corbastrigo_compare, corbastrigo_compare_bytes, corbastrigo_interpret, corbastrigo_list,
    corbastrigo_list_bytes, corbastrigo_pack, corbastrigo_sanity_check,
    corbastrigo_sanity_check_stop, corbastrigo_unpack,
};

// ---- a code or an instruction is read at any bit of any map

// An opcode.
pub fn opcode_read(map: &[u8], at: usize, value: &mut u32, next: &mut usize) -> u8
    ensures reads { Reads 4 map.now at result (value.old ∷ next.old ∷ []) (value.new ∷ next.new ∷ []) }
    ensures core { CoreReads map.now at result value.new next.new ((file_of map.now).decode_type at) }
{
    corbastrigo_decode_type(map, at, value, next)
}

// An AS number.
pub fn asn_read(map: &[u8], at: usize, value: &mut u32, next: &mut usize) -> u8
    ensures reads { Reads 19 map.now at result (value.old ∷ next.old ∷ []) (value.new ∷ next.new ∷ []) }
    ensures core { CoreReads map.now at result value.new next.new ((file_of map.now).decode_asn at) }
{
    corbastrigo_decode_asn(map, at, value, next)
}

// A MATCH operand.
pub fn match_read(map: &[u8], at: usize, value: &mut u32, next: &mut usize) -> u8
    ensures reads { Reads 19 map.now at result (value.old ∷ next.old ∷ []) (value.new ∷ next.new ∷ []) }
    ensures core { CoreReads map.now at result value.new next.new ((file_of map.now).decode_match at) }
{
    corbastrigo_decode_match(map, at, value, next)
}

// A JUMP operand.
pub fn jump_read(map: &[u8], at: usize, value: &mut u32, next: &mut usize) -> u8
    ensures reads { Reads 19 map.now at result (value.old ∷ next.old ∷ []) (value.new ∷ next.new ∷ []) }
    ensures core { CoreReads map.now at result value.new next.new ((file_of map.now).decode_jump at) }
{
    corbastrigo_decode_jump(map, at, value, next)
}

// An instruction.
pub fn instruction_read(
    map: &[u8],
    at: usize,
    opcode: &mut u32,
    operand: &mut u32,
    size: &mut usize,
) -> u8
    ensures { ReadsInstruction map.now at result (opcode.old ∷ operand.old ∷ size.old ∷ []) (opcode.new ∷ operand.new ∷ size.new ∷ []) }
{
    corbastrigo_decode_instruction(map, at, opcode, operand, size)
}

// ---- any number is written, or said to be out of range

// An opcode, 0 to 3.
pub fn opcode_written(value: u32, bits: &mut u64, len: &mut usize) -> u8
    ensures { Writes 0 3 value result (bits.old ∷ len.old ∷ []) (bits.new ∷ len.new ∷ []) }
{
    corbastrigo_encode_type(value, bits, len)
}

// An AS number, 1 to 33,521,664.
pub fn asn_written(value: u32, bits: &mut u64, len: &mut usize) -> u8
    ensures { Writes 1 33521664 value result (bits.old ∷ len.old ∷ []) (bits.new ∷ len.new ∷ []) }
{
    corbastrigo_encode_asn(value, bits, len)
}

// A MATCH operand, 2 to 511.
pub fn match_written(value: u32, bits: &mut u64, len: &mut usize) -> u8
    ensures { Writes 2 511 value result (bits.old ∷ len.old ∷ []) (bits.new ∷ len.new ∷ []) }
{
    corbastrigo_encode_match(value, bits, len)
}

// A JUMP operand, 17 to 2,147,483,632.
pub fn jump_written(value: u32, bits: &mut u64, len: &mut usize) -> u8
    ensures { Writes 17 2147483632 value result (bits.old ∷ len.old ∷ []) (bits.new ∷ len.new ∷ []) }
{
    corbastrigo_encode_jump(value, bits, len)
}

// An instruction: its operand's range goes by its opcode.
pub fn instruction_written(opcode: u32, operand: u32, bits: &mut u64, len: &mut usize) -> u8
    ensures { WritesInstruction opcode operand result (bits.old ∷ len.old ∷ []) (bits.new ∷ len.new ∷ []) }
{
    corbastrigo_encode_instruction(opcode, operand, bits, len)
}

// ---- any bytes are checked, walked, unpacked, listed, compared and packed

// The check.
pub fn checked(map: &[u8], count: &mut u32, depth: &mut u8) -> u8
    ensures { Checks map.now 128 result (count.old ∷ depth.old ∷ []) (count.new ∷ depth.new ∷ []) }
{
    corbastrigo_sanity_check(map, count, depth)
}

// Where the check stops, and why.
pub fn stopped(map: &[u8], reason: &mut u8, place: &mut usize) -> u8
    ensures { Stops map.now 128 result (reason.old ∷ place.old ∷ []) reason.new place.new }
{
    corbastrigo_sanity_check_stop(map, reason, place)
}

// The reason is the number that the check itself answers; only a map that is too long has none.
pub fn stopped_as_checked(
    map: &[u8],
    count: &mut u32,
    depth: &mut u8,
    reason: &mut u8,
    place: &mut usize,
) -> u8
    ensures { length map.now ≤ 16777216 → reason.new ≡ result }
{
    let refused = corbastrigo_sanity_check_stop(map, reason, place);
    if refused != 0 {
        return refused;
    }
    corbastrigo_sanity_check(map, count, depth)
}

// The walk.
pub fn walked(
    map: &[u8],
    address: &[u8],
    kind: &mut u8,
    number: &mut u32,
    count: &mut u32,
    bits: &mut u8,
) -> u8
    ensures { Walks map.now address.now 128 result (kind.old ∷ number.old ∷ count.old ∷ bits.old ∷ []) kind.new number.new count.new bits.new }
{
    corbastrigo_interpret(map, address, kind, number, count, bits)
}

// Unpack.
pub fn unpacked(map: &[u8], out: &mut [u8], written: &mut usize) -> u8
    ensures { Unpacks map.now 128 out.old out.new result written.old written.new }
{
    corbastrigo_unpack(map, out, written)
}

// The listing.
pub fn listed(map: &[u8], out: &mut [u8], written: &mut usize) -> u8
    ensures { Lists map.now 128 out.old out.new result written.old written.new }
{
    corbastrigo_list(map, out, written)
}

// How many bytes a listing needs.
pub fn list_needed(map: &[u8], bytes: &mut usize) -> u8
    ensures { Needs map.now 128 result (bytes.old ∷ []) (bytes.new ∷ []) }
{
    corbastrigo_list_bytes(map, bytes)
}

// Two maps compared.
pub fn compared(old_map: &[u8], new_map: &[u8], out: &mut [u8], written: &mut usize) -> u8
    ensures { Changes old_map.now new_map.now 128 out.old out.new result written.old written.new }
{
    corbastrigo_compare(old_map, new_map, out, written)
}

// How many bytes that needs, and the first address that differs.
pub fn compare_needed(old_map: &[u8], new_map: &[u8], first: &mut [u8], bytes: &mut usize) -> u8
    ensures { FindsFirst old_map.now new_map.now 128 first.old first.new result bytes.old bytes.new }
{
    corbastrigo_compare_bytes(old_map, new_map, first, bytes)
}

// Pack.
pub fn packed(records: &[u8], out: &mut [u8], written: &mut usize) -> u8
    ensures { Packs records.now out.old out.new result written.old written.new }
{
    corbastrigo_pack(records, out, written)
}

// ---- any groups are scanned

// The occupied scan.
pub fn scanned(
    group: u64,
    occupied: &[u64],
    found: &mut u8,
    place: &mut usize,
    groups_read: &mut usize,
) -> u8
    ensures { Scans group occupied.now result (found.old ∷ place.old ∷ groups_read.old ∷ []) found.new place.new groups_read.new }
{
    corbastrigo_scan_occupied(group, occupied, found, place, groups_read)
}

// ---- any bytes are filtered

// Whether an address is unroutable.
pub fn filtered(address: &[u8], unroutable: &mut u8) -> u8
    ensures { Filters address.now result unroutable.old unroutable.new }
{
    corbastrigo_clearnet_unroutable(address, unroutable)
}

// Whether an entry of an addrv2 message is not sent on.
pub fn relay_filtered(id: u8, address: &[u8], port: u16, skips: &mut u8) -> u8
    ensures { Relays id address.now result skips.old skips.new }
{
    corbastrigo_addrv2_skip_relay(id, address, port, skips)
}
