// Two maps compared for every address. What a caller can conclude is said in `demand_statements/specs/Agreed`.
ghost use Rattle.demand_statements.specs.Agreed.{AgreedWalks};

use corbastrigo::maps::{corbastrigo_compare_bytes, corbastrigo_interpret};

// A caller asks what the comparison of two maps needs, and walks an address through both. Where the comparison needs no byte the walks end with the same
// number, whatever the address and whatever the bytes of the maps.
pub fn walks_agree(
    old_map: &[u8],
    new_map: &[u8],
    address: &[u8],
    first: &mut [u8],
    bytes: &mut usize,
    old_kind: &mut u8,
    old_number: &mut u32,
    old_count: &mut u32,
    old_bits: &mut u8,
    new_kind: &mut u8,
    new_number: &mut u32,
    new_count: &mut u32,
    new_bits: &mut u8,
) -> u8
    ensures { AgreedWalks result bytes.new old_number.new new_number.new }
{
    let refused = corbastrigo_compare_bytes(old_map, new_map, first, bytes);
    if refused != 0 {
        return refused;
    }
    let walked = corbastrigo_interpret(old_map, address, old_kind, old_number, old_count, old_bits);
    if walked != 0 {
        return walked;
    }
    corbastrigo_interpret(new_map, address, new_kind, new_number, new_count, new_bits)
}
