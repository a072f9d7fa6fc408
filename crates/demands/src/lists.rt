// Request 1 of document 02: every prefix that a map tells apart. What the bytes written are, is said in `demand_statements/specs/Listed`.
ghost use Rattle.std.specs.Prelude.{◌≡◌};
ghost use Rattle.demand_statements.specs.Listed.{ListedWalk, ListedWithRoom};

use corbastrigo::maps::{corbastrigo_interpret, corbastrigo_list, corbastrigo_list_bytes};

// A map is listed, and walked where it was. The records tile all addresses, from 0 to 2 to the 128: each begins where the one before it ends. So
// every address lies in just one of them; and the one in which this address lies has the number of its walk.
pub fn walk_in_list(
    map: &[u8],
    address: &[u8],
    out: &mut [u8],
    written: &mut usize,
    kind: &mut u8,
    number: &mut u32,
    count: &mut u32,
    bits: &mut u8,
) -> u8
    ensures { result ≡ 0 → ListedWalk 128 address.now out.new written.new number.new }
{
    let refused = corbastrigo_list(map, out, written);
    if refused != 0 {
        return refused;
    }
    corbastrigo_interpret(map, address, kind, number, count, bits)
}

// A caller asks how many bytes a listing needs, and lists the map: as many are written, and with so many no accepted map is refused.
pub fn listed_with_room(map: &[u8], out: &mut [u8], needed: &mut usize, written: &mut usize) -> u8
    ensures { ListedWithRoom map.now 128 out.old result needed.new written.new }
{
    let refused = corbastrigo_list_bytes(map, needed);
    if refused != 0 {
        return refused;
    }
    corbastrigo_list(map, out, written)
}
