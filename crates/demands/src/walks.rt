// Demand 3 for walks. What kind, number, count and bits are, is said in `demand_statements/specs/Walked`.
ghost use Rattle.std.specs.Prelude.{◌≡◌};
ghost use Rattle.asmap_program.specs.Core.{core_interpret, Number};
ghost use Rattle.asmap_program.specs.Map.{address_bit};
ghost use Rattle.asmap_codes.specs.Core.{file_of};
ghost use Rattle.demand_statements.specs.Walked.{AcceptedWalk, InRecords};

use corbastrigo::maps::{corbastrigo_interpret, corbastrigo_sanity_check, corbastrigo_unpack};

// A map is checked, and walked where it is accepted. No bytes that the check accepts can abort a walk; each ends as the defined walk does,
// within 2 × bits + 1 instructions, so within 257, all of them in the map's unpacked list. The number is Core's too (demand 2).
pub fn accepted_walk(
    map: &[u8],
    address: &[u8],
    kind: &mut u8,
    number: &mut u32,
    count: &mut u32,
    bits: &mut u8,
) -> u8
    ensures accepted_walk { AcceptedWalk map.now address.now 128 result kind.new number.new count.new bits.new }
    ensures core { result ≡ 0 → core_interpret (address_bit address.now) 128 (file_of map.now) ≡ Number number.new }
{
    let mut instructions: u32 = 0;
    let mut depth: u8 = 0;
    let refused = corbastrigo_sanity_check(map, &mut instructions, &mut depth);
    if refused != 0 {
        return refused;
    }
    corbastrigo_interpret(map, address, kind, number, count, bits)
}

// A map is unpacked, and walked where it was: each instruction that the walk reads has its record among the bytes that unpack wrote.
pub fn walk_in_records(
    map: &[u8],
    address: &[u8],
    records: &mut [u8],
    written: &mut usize,
    kind: &mut u8,
    number: &mut u32,
    count: &mut u32,
    bits: &mut u8,
) -> u8
    ensures { result ≡ 0 → InRecords map.now address.now 128 records.new written.new }
{
    let refused = corbastrigo_unpack(map, records, written);
    if refused != 0 {
        return refused;
    }
    corbastrigo_interpret(map, address, kind, number, count, bits)
}
