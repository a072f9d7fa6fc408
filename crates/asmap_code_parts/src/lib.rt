// The parts of a value's code (document 01, Codes): which size of a row has the value, how many ones stand before it, and the number
// in the size's bits. A code's bits tell its parts, so these are one for each value.
#![tactic(auto)]

ghost use Rattle.std.specs.Prelude.{◌≡◌, true, ◌+◌, ◌^◌, ◌≤◌, ◌<◌, length};
ghost use Rattle.asmap_codes.specs.Row.{type_row, asn_row, match_row, jump_row, operand_row, span};
ghost use Rattle.asmap_codes.specs.models.Grown.{slow};
ghost use Rattle.asmap_code_parts.specs.models.Parts.{GrownParts, CodeParts, CodedAs};

use asmap_codes::{ASN_BIT_SIZES, JUMP_BIT_SIZES, MATCH_BIT_SIZES, TYPE_BIT_SIZES};

// The parts of a code: how many ones it starts with, the size that has its value, and the number in that size.
#[derive(Clone, Copy, Debug, PartialEq, Eq)]
pub struct Parts {
    pub ones: usize,
    pub size: u8,
    pub rest: u32,
}

// The parts of the code of x over sizes from `first` on that grow by one: x + 2^first is as wide as the size that has x, and
// one bit more.
fn parts_grown(x: u32, first: u8) -> Parts
    requires { (first < 32) × (x + 2 ^ first < 2 ^ 32) }
    ensures { GrownParts first x result }
{
    let y = x + asmap_codes::power(first);
    let size = (asmap_program::bit_width(y) - 1) as u8;
    Parts {
        ones: (size - first) as usize,
        size,
        rest: y - asmap_codes::power(size),
    }
}

// The parts of the code of x, size by size.
fn parts_looked_up(x: u32, sizes: &[u8]) -> Parts
    requires { (0 < length sizes.now) × (span sizes.now ≤ 2 ^ 31) × (x < span sizes.now) }
    ensures { CodeParts sizes.now x result }
{
    let last = sizes.len() - 1;
    let mut rest = x;
    for ones in 0..last {
        let size = sizes[ones];
        let step = asmap_codes::power(size);
        if rest < step {
            return Parts { ones, size, rest };
        }
        rest -= step;
    }
    Parts {
        ones: last,
        size: sizes[last],
        rest,
    }
}

// The parts of the code of x, a value less its row's least. Where all sizes grow by one, the bit width tells the size.
fn parts_of(x: u32, sizes: &[u8]) -> Parts
    requires { (0 < length sizes.now) × (span sizes.now ≤ 2 ^ 31) × (x < span sizes.now) × (length sizes.now ≤ 26) × (slow sizes.now ≡ true) }
    ensures { CodeParts sizes.now x result }
{
    if asmap_codes::grows(sizes) {
        return parts_grown(x, sizes[0]);
    }
    parts_looked_up(x, sizes)
}

// How many bits stand before the size's own in a value's code, and the code's parts, in a row of sizes over a least value, of which there are
// `count` values. A value that the row does not have has none: below the least, or from least + count on.
fn row_parts(value: u32, least: u32, count: u32, sizes: &[u8]) -> Option<(usize, Parts)>
    requires { (0 < length sizes.now) × (span sizes.now ≤ 2 ^ 31) × (length sizes.now ≤ 26) × (count ≡ span sizes.now) × (slow sizes.now ≡ true) }
    ensures { CodedAs (record { least = least; sizes = sizes.now }) value result }
{
    if value < least {
        return None;
    }
    let x = value - least;
    if count <= x {
        return None;
    }
    let parts = parts_of(x, sizes);
    let prefix = asmap_codes::prefix_length(parts.ones, sizes.len());
    Some((prefix, parts))
}

// ---- the four rows

// The parts of an opcode's code.
pub fn type_parts(value: u32) -> Option<(usize, Parts)>
    ensures { CodedAs type_row value result }
{
    row_parts(value, 0, 4, &TYPE_BIT_SIZES)
}

// The parts of an AS number's code.
pub fn asn_parts(value: u32) -> Option<(usize, Parts)>
    ensures { CodedAs asn_row value result }
{
    row_parts(value, 1, 33521664, &ASN_BIT_SIZES)
}

// The parts of a MATCH operand's code.
pub fn match_parts(value: u32) -> Option<(usize, Parts)>
    ensures { CodedAs match_row value result }
{
    row_parts(value, 2, 510, &MATCH_BIT_SIZES)
}

// The parts of a JUMP operand's code.
pub fn jump_parts(value: u32) -> Option<(usize, Parts)>
    ensures { CodedAs jump_row value result }
{
    row_parts(value, 17, 2147483616, &JUMP_BIT_SIZES)
}

// The parts of an operand's code, in the row of its opcode.
pub fn operand_parts(opcode: u32, operand: u32) -> Option<(usize, Parts)>
    ensures { CodedAs (operand_row opcode) operand result }
{
    match opcode {
        asmap_program::JUMP => jump_parts(operand),
        asmap_program::MATCH => match_parts(operand),
        _ => asn_parts(operand),
    }
}
