// The calls that walk a map by an address (document 01, Walk): which number an address is sent to, and how that was found out.
#![tactic(auto)]

ghost use Rattle.std.specs.Prelude.{◌≡◌, ◌*◌, ◌/◌};
ghost use Rattle.asmap_walk.specs.Interpret.{interpret_over, interpret_of, interpret_at};
ghost use Rattle.asmap_walk.specs.Promise.{Demand3, Demand3At, CoreNumber, CoreNumberAt};

use asmap_program::{ADDRESS_BITS, MAX_MAP_BYTES};
use asmap_walk_bits::{Ending, walk_bits};
use refusals::{Fault, Refusal};

// The walk by an address of just so many bits, which are whole bytes. Refusals 11 and 1.
fn walk_over(map: &[u8], address: &[u8], bits: u8) -> Result<Ending, Refusal>
    requires { 8 * (bits / 8) ≡ bits }
    ensures { result ≡ interpret_over map.now address.now bits }
{
    if address.len() != bits as usize / 8 {
        return Err(Refusal::AddressLength);
    }
    if MAX_MAP_BYTES < map.len() {
        return Err(Refusal::Map(Fault::MapTooLong));
    }
    Ok(walk_bits(map, address, bits))
}

// The walk of a map by an address of 16 bytes. Refusals 11 and 1; nothing is asked of the caller, and any map will do.
// What is promised for every address, `demand3` and `core`, is promised of maps that `asmap_check::sanity_check` accepts. Of another
// map some addresses may come out as they should; that says nothing of the rest.
pub fn interpret(map: &[u8], address: &[u8]) -> Result<Ending, Refusal>
    ensures walked { result ≡ interpret_of map.now address.now }
    ensures demand3 { Demand3 map.now address.now result }
    ensures core { CoreNumber map.now address.now result }
{
    walk_over(map, address, ADDRESS_BITS)
}

// The walk of a map by an address of as many bits as the width says: 4 bytes at 32, 16 at 128. Refusals 18 for any other width, then 11 and 1. A map
// is to be walked at the width at which it was checked: `demand3` and `core` say of a map that the check accepts at this width what those
// above say at 128.
pub fn interpret_bits(map: &[u8], address: &[u8], width: u32) -> Result<Ending, Refusal>
    ensures walked { result ≡ interpret_at map.now address.now width }
    ensures demand3 { Demand3At map.now address.now width result }
    ensures core { CoreNumberAt map.now address.now width result }
{
    if !asmap_program::is_width(width) {
        return Err(Refusal::Width);
    }
    walk_over(map, address, width as u8)
}
