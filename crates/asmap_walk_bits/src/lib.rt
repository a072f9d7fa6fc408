// The walk of a map by the first bits of an address (document 01, Walk), turn by turn: how it ends, of every map within the limit.
#![tactic(auto)]

ghost use Rattle.std.specs.Prelude.{◌≡◌, ◌*◌, ◌≤◌, length};
ghost use Rattle.asmap_program.specs.Map.{limit};
ghost use Rattle.asmap_program.specs.Walk.{walk_start};
ghost use Rattle.asmap_walk_bits.specs.Walk.{walk_of, summary};

use asmap_program::{Kind, Walker};

// How a walk ended: its kind, its number, the instructions whose opcode and operand were read whole, and the address bits read.
// The number 0 says little by itself: a walk that aborts has it, and so has one that differs before it read a DEFAULT. The kind
// tells the two apart.
#[derive(Clone, Copy)]
pub struct Ending {
    pub kind: Kind,
    pub number: u32,
    pub count: u32,
    pub bits: u8,
}

// An abort, of whichever kind, has the number 0. So may another end: see `Ending`.
fn abort(kind: Kind, count: u32, bits: u8) -> Ending
    ensures { result ≡ record { kind = kind; number = 0; count = count; bits = bits } }
{
    Ending {
        kind,
        number: 0,
        count,
        bits,
    }
}

// A walk before its first turn, as `asmap_program/specs/Walk` has it.
fn walk_start(width: u8) -> Walker
    ensures { result ≡ walk_start width }
{
    Walker {
        at: 0,
        used: 0,
        width,
        default: 0,
    }
}

// The walk of a map within the limit by the first `width` bits of an address.
pub fn walk_bits(map: &[u8], address: &[u8], width: u8) -> Ending
    requires { (length map.now ≤ limit) × (width ≤ 8 * length address.now) }
    ensures { result ≡ summary (walk_of map.now address.now width) }
{
    let end = 8 * map.len();
    let mut walker = walk_start(width);
    let mut count: u32 = 0;
    'walk: loop {
        let pos = walker.at;
        let w = asmap_window::window(map, pos);
        let first = asmap_row_decoder::type_in(w, pos, end);
        let Some((opcode, at)) = first else {
            return abort(Kind::OpcodeCut, count, walker.used);
        };
        let rest = asmap_row_decoder::operand_window(map, w, pos, opcode, at);
        let second = asmap_row_decoder::operand_in(rest, opcode, at, end);
        let Some((operand, next)) = second else {
            return abort(Kind::OperandCut, count, walker.used);
        };
        count += 1;
        walker.at = next;
        match opcode {
            asmap_program::RETURN => {
                return Ending {
                    kind: Kind::Returned,
                    number: operand,
                    count,
                    bits: walker.used,
                };
            }
            asmap_program::JUMP => {
                if walker.width <= walker.used {
                    return abort(Kind::TooFewBits, count, walker.used);
                }
                let bit = asmap_address::address_bit(address, walker.used);
                walker.used += 1;
                if bit == 1 {
                    walker.at = next + operand as usize;
                    // At the map's end or past it there is no opcode to read.
                    if end <= walker.at {
                        return abort(Kind::OpcodeCut, count, walker.used);
                    }
                }
            }
            asmap_program::MATCH => {
                let length = asmap_program::match_length(operand);
                if walker.width - walker.used < length {
                    return abort(Kind::TooFewBits, count, walker.used);
                }
                // The bits equal at its front are passed at once: the loop meets the first that differs, if one does.
                let front = asmap_address::equal_front(address, walker.used, operand, length);
                walker.used += front;
                for left in (0..length - front).rev() {
                    if asmap_address::address_bit(address, walker.used)
                        != asmap_address::bit_of(operand, left)
                    {
                        break 'walk;
                    }
                    walker.used += 1;
                }
            }
            // A default holds until the walk reads another: no JUMP ends it.
            _ => walker.default = operand,
        }
    }
    // The bit that differs was read too.
    Ending {
        kind: Kind::Differed,
        number: walker.default,
        count,
        bits: walker.used + 1,
    }
}
