// Request 5, cut opcode or cut operand (`demand_statements/specs/Cut`). What each call answers of a cut code is in `any_input`; here the answers of two
// calls are held side by side.
ghost use Rattle.demand_statements.specs.Cut.{WhichIsCut, HandedOn};

use corbastrigo::codes::{corbastrigo_decode_instruction, corbastrigo_decode_type};
use corbastrigo::maps::corbastrigo_sanity_check_stop;

// An opcode is read, and the instruction at the same bit; `first` has the first answer.
pub fn read_twice(
    map: &[u8],
    at: usize,
    first: &mut u8,
    value: &mut u32,
    next: &mut usize,
    opcode: &mut u32,
    operand: &mut u32,
    size: &mut usize,
) -> u8
    ensures { WhichIsCut first.new result }
{
    *first = corbastrigo_decode_type(map, at, value, next);
    corbastrigo_decode_instruction(map, at, opcode, operand, size)
}

// A caller asks where the check of a map stops, and reads the instruction there.
pub fn read_where_it_stops(
    map: &[u8],
    reason: &mut u8,
    place: &mut usize,
    opcode: &mut u32,
    operand: &mut u32,
    size: &mut usize,
) -> u8
    ensures { HandedOn reason.new result }
{
    let refused = corbastrigo_sanity_check_stop(map, reason, place);
    if refused != 0 {
        return refused;
    }
    corbastrigo_decode_instruction(map, *place, opcode, operand, size)
}
