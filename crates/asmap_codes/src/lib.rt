// The codes of an asmap program (document 01, Codes): the four rows of sizes, and what reading hands back. The decoder is
// `asmap_decode`, the writer `asmap_encode`; both stand on the definitions and laws of this crate.
#![tactic(auto)]

ghost use Rattle.std.specs.Prelude.{◌≡◌, ◌+◌, ◌-◌, ◌*◌, ◌/◌, ◌^◌, ◌≤◌, ◌<◌, eqb, length, get_or};
ghost use Rattle.asmap_codes.specs.Row.{type_row, asn_row, match_row, jump_row};
ghost use Rattle.asmap_codes.specs.models.Grown.{stops};
ghost use Rattle.asmap_codes.specs.models.Reverse.{rev, swap};

// The sizes of an opcode's code: four values from 0 on.
pub const TYPE_BIT_SIZES: [u8; 3] = [0, 0, 1];

// The sizes of an AS number's code, over the least value 1.
pub const ASN_BIT_SIZES: [u8; 10] = [15, 16, 17, 18, 19, 20, 21, 22, 23, 24];

// The sizes of a MATCH operand's code, over the least value 2.
pub const MATCH_BIT_SIZES: [u8; 8] = [1, 2, 3, 4, 5, 6, 7, 8];

// The sizes of a JUMP operand's code, over the least value 17.
pub const JUMP_BIT_SIZES: [u8; 26] = [
    5, 6, 7, 8, 9, 10, 11, 12, 13, 14, 15, 16, 17, 18, 19, 20, 21, 22, 23, 24, 25, 26, 27, 28, 29,
    30,
];

// The four tables together.
#[derive(Clone, Copy)]
pub struct BitSizes {
    pub types: [u8; 3],
    pub asns: [u8; 10],
    pub matches: [u8; 8],
    pub jumps: [u8; 26],
}

// The four tables, which are the sizes of the defined rows. The decoder and the writer borrow each table where they use it;
// that it is the right one is said here, beside the tables, so that a wrong size is refused by this crate already.
pub fn bit_sizes() -> BitSizes
    ensures { (result.types ≡ type_row.sizes) × (result.asns ≡ asn_row.sizes) × (result.matches ≡ match_row.sizes) × (result.jumps ≡ jump_row.sizes) }
{
    BitSizes {
        types: TYPE_BIT_SIZES,
        asns: ASN_BIT_SIZES,
        matches: MATCH_BIT_SIZES,
        jumps: JUMP_BIT_SIZES,
    }
}

// A code that was read: its value, and the bit after it. One that the map's end cuts has no value: it is None where it is read.
pub type Code = (u32, usize);

// 2 to a size: how many values a size adds, for the decoder and the writer alike.
pub fn power(size: u8) -> u32
    requires { size < 32 }
    ensures { result ≡ 2 ^ size }
{
    1u32 << size
}

// Whether the last size of a row is as far above the first as the row is long. In each row no size is more than one above the
// size before it: so this tells whether all sizes grow by one (`proofs/GrownLaws.antt`, `grown_of`).
pub fn grows(sizes: &[u8]) -> bool
    requires { (0 < length sizes.now) × (length sizes.now ≤ 26) }
    ensures { result ≡ eqb (get_or sizes.now (length sizes.now - 1) 0) (get_or sizes.now 0 0 + (length sizes.now - 1)) }
{
    let first = sizes[0];
    let top = sizes.len() - 1;
    let last = sizes[top];
    last as usize == first as usize + top
}

// How many bits stand before a size's own in a code, of a row of so many sizes: a one for each size that is passed, and the zero
// that stops at a size, which the last one does not have.
pub fn prefix_length(ones: usize, sizes: usize) -> usize
    requires { ones < 32 }
    ensures { result ≡ ones + stops ones sizes }
{
    if ones + 1 < sizes {
        return ones + 1;
    }
    ones
}

// Swaps the neighbouring blocks of k bits of x. The mask has the lower block of each two.
fn swapped(x: u64, k: u32, mask: u64) -> u64
    requires { (k < 64) × (mask + mask * 2 ^ k < 2 ^ 64) }
    ensures { result ≡ swap k mask x }
{
    ((x >> k) & mask) + ((x & mask) << k)
}

// The 64 bits of a word in reverse: blocks of one bit are swapped, then of two, up to 32. The library's `reverse_bits` goes bit by bit.
fn reversed(x: u64) -> u64
    ensures { result ≡ rev 64 x }
{
    let ones = swapped(x, 1, 0x5555555555555555);
    let twos = swapped(ones, 2, 0x3333333333333333);
    let fours = swapped(twos, 4, 0x0f0f0f0f0f0f0f0f);
    let eights = swapped(fours, 8, 0x00ff00ff00ff00ff);
    let sixteens = swapped(eights, 16, 0x0000ffff0000ffff);
    swapped(sixteens, 32, 0x00000000ffffffff)
}

// Bits of a word from bit `from` on, in reverse. A size's bits stand highest first in a code, while a word has the first bit
// lowest: so the decoder and the writer reverse them, all at once. The word is reversed before it is known which bits are asked for.
pub fn reversed_bits(w: u64, from: usize, size: u8) -> u32
    requires { (from < 64) × (from + size ≤ 64) × (size ≤ 32) }
    ensures { result ≡ rev size (w / 2 ^ from) }
{
    let highest = (reversed(w) << from) >> 32;
    (highest >> (32 - size)) as u32
}
