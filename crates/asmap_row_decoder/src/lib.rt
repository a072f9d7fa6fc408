// The one decoder over the four rows of sizes (document 01, Codes): a code read from a window, a number that holds the map's bits
// from a place on. Check, walk and the calls that read a code all stand on it.
#![tactic(auto)]

ghost use Rattle.std.specs.Prelude.{◌≡◌, true, ◌+◌, ◌^◌, ◌≤◌, ◌<◌, leb, length, drop};
ghost use Rattle.asmap_codes.specs.Bits.{map_bits, number, low};
ghost use Rattle.asmap_codes.specs.Row.{type_row, asn_row, match_row, jump_row, operand_row, span};
ghost use Rattle.asmap_codes.specs.models.Grown.{slow, grown};
ghost use Rattle.asmap_codes.specs.Code.{pick, code_at};
ghost use Rattle.asmap_codes.specs.Reading.{Value, Cut};
ghost use Rattle.asmap_window.specs.models.Window.{Window};
ghost use Rattle.asmap_row_decoder.specs.models.InWindow.{Holds, code_in, row_in, Stopped, ones_of};

use asmap_codes::{ASN_BIT_SIZES, Code, JUMP_BIT_SIZES, MATCH_BIT_SIZES, TYPE_BIT_SIZES};

// The lowest bits of a window as a number, the first bit highest.
fn first_bits(w: u64, size: u8) -> u32
    requires { size ≤ 31 }
    ensures { result ≡ number (low size w) }
{
    let mut left = w;
    let mut value: u32 = 0;
    for _k in 0..size {
        value = value * 2 + (left % 2) as u32;
        left /= 2;
    }
    value
}

// A code's value and the bit after it, in a map of `end` bits. The window has zeros past the end, so one comparison, here, decides
// whether the code was cut.
fn coded(value: u32, next: usize, end: usize) -> Option<Code>
    ensures { result ≡ pick (leb next end) (Value value next) Cut }
{
    if end < next {
        return None;
    }
    Some((value, next))
}

// Where a code's prefix ends: the value so far, the window and the number of bits read there, and the size that it stopped at.
#[derive(Clone, Copy)]
pub struct Prefix {
    pub value: u32,
    pub left: u64,
    pub read: usize,
    pub size: u8,
}

// The prefix of a code of a row: a bit for each size but the last; 1 adds 2 to the size and goes on, 0 stops.
fn read_prefix(w: u64, least: u32, sizes: &[u8]) -> Prefix
    requires { (least + span sizes.now ≤ 2 ^ 31) × (0 < length sizes.now) }
    ensures { Stopped sizes.now least w result }
{
    let last = sizes.len() - 1;
    let mut value = least;
    let mut left = w;
    for i in 0..last {
        let size = sizes[i];
        let bit = left % 2;
        left /= 2;
        if bit == 0 {
            return Prefix {
                value,
                left,
                read: i + 1,
                size,
            };
        }
        value += asmap_codes::power(size);
    }
    Prefix {
        value,
        left,
        read: last,
        size: sizes[last],
    }
}

// The code of a row, size by size.
fn decode_each(w: u64, at: usize, end: usize, least: u32, sizes: &[u8]) -> Option<Code>
    requires { (at < 2 ^ 34) × (least + span sizes.now ≤ 2 ^ 31) × (0 < length sizes.now) × (length sizes.now ≤ 26) }
    ensures { result ≡ code_in sizes.now least at end w }
{
    let stop = read_prefix(w, least, sizes);
    let size = stop.size;
    let value = stop.value + first_bits(stop.left, size);
    coded(value, at + stop.read + size as usize, end)
}

// How many ones a window starts with, `most` at most.
fn starting_ones(w: u64, most: usize) -> usize
    requires { most ≤ 64 }
    ensures { result ≡ ones_of most w }
{
    most.min(w.trailing_ones() as usize)
}

// The code of a row whose sizes grow by one from `first` on, all at once: each one before the zero passes a size, and the sizes
// passed have 2 to the size reached less 2 to the first values.
fn decode_grown(w: u64, at: usize, end: usize, least: u32, first: u8, sizes: usize) -> Option<Code>
    requires { (at < 2 ^ 34) × (least + span (grown first sizes) ≤ 2 ^ 31) × (0 < sizes) × (sizes ≤ 26) }
    ensures { result ≡ code_in (grown first sizes) least at end w }
{
    let ones = starting_ones(w, sizes - 1);
    let prefix = asmap_codes::prefix_length(ones, sizes);
    let size = first + ones as u8;
    let passed = asmap_codes::power(size) - asmap_codes::power(first);
    let value = least + passed + asmap_codes::reversed_bits(w, prefix, size);
    coded(value, at + prefix + size as usize, end)
}

// The decoder: the code of a row of sizes over a least value, at the window's first bit, which is bit `at` of a map of `end` bits.
pub fn decode_bits(w: u64, at: usize, end: usize, least: u32, sizes: &[u8]) -> Option<Code>
    requires { (at < 2 ^ 34) × (least + span sizes.now ≤ 2 ^ 31) × (0 < length sizes.now) × (length sizes.now ≤ 26) × (slow sizes.now ≡ true) }
    ensures { result ≡ code_in sizes.now least at end w }
{
    if asmap_codes::grows(sizes) {
        let first = sizes[0];
        return decode_grown(w, at, end, least, first, sizes.len());
    }
    decode_each(w, at, end, least, sizes)
}

// ---- a call for each row: the code at a window's first bit, which is bit `at` of a map of `end` bits. Where the window holds
// the code this is the code of the map (`proofs/WindowLaws.antt`, `row-window`). They take numbers only: a slice that is handed on
// goes through memory. A walk may stand past the map's end, where each is Cut: the end is at most bit 134,217,728, an instruction
// has at most 57 bits, and a JUMP skips at most 2,147,483,632 more, so that a place is below 2 ^ 32.

// An opcode.
pub fn type_in(w: u64, at: usize, end: usize) -> Option<Code>
    requires { at < 2 ^ 34 }
    ensures { result ≡ row_in type_row at end w }
{
    decode_bits(w, at, end, 0, &TYPE_BIT_SIZES)
}

// The window of an operand: that of its instruction without the opcode, which was read from bit `pos` to bit `at`. The answer's bits
// past the longest code of the operand's row are left open: no caller can see them, since the row's code ends before them.
pub fn operand_window(map: &[u8], w: u64, pos: usize, opcode: u32, at: usize) -> u64
    requires { Window 57 w (drop pos (map_bits map.now)) × (code_at map.now pos type_row ≡ Value opcode at) }
    ensures { Holds (operand_row opcode) map.now at result }
{
    w >> (at - pos)
}

// An AS number.
pub fn asn_in(w: u64, at: usize, end: usize) -> Option<Code>
    requires { at < 2 ^ 34 }
    ensures { result ≡ row_in asn_row at end w }
{
    decode_bits(w, at, end, 1, &ASN_BIT_SIZES)
}

// A MATCH operand.
pub fn match_in(w: u64, at: usize, end: usize) -> Option<Code>
    requires { at < 2 ^ 34 }
    ensures { result ≡ row_in match_row at end w }
{
    decode_bits(w, at, end, 2, &MATCH_BIT_SIZES)
}

// A JUMP operand.
pub fn jump_in(w: u64, at: usize, end: usize) -> Option<Code>
    requires { at < 2 ^ 34 }
    ensures { result ≡ row_in jump_row at end w }
{
    decode_bits(w, at, end, 17, &JUMP_BIT_SIZES)
}

// The operand of an opcode, at the bit after it.
pub fn operand_in(w: u64, opcode: u32, at: usize, end: usize) -> Option<Code>
    requires { at < 2 ^ 34 }
    ensures { result ≡ row_in (operand_row opcode) at end w }
{
    match opcode {
        asmap_program::JUMP => jump_in(w, at, end),
        asmap_program::MATCH => match_in(w, at, end),
        _ => asn_in(w, at, end),
    }
}
