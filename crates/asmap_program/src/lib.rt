// What an asmap program is, apart from its bits: the types and limits that the definitions of specs/ and the code of the
// other crates share. No bit is decoded here.
#![tactic(auto)]

ghost use Rattle.std.specs.Prelude.{◌≡◌, ◌<◌};
ghost use Rattle.asmap_program.specs.Map.{length_of, Width};
ghost use Rattle.asmap_program.specs.Map as opcode;
ghost use Rattle.asmap_program.specs.Widths.{is_width};

use refusals::Fault;

// A map has at most so many bytes (document 01, "What a call hands back", 1).
pub const MAX_MAP_BYTES: usize = 16777216;

// The address bits of the public calls that take no width.
pub const ADDRESS_BITS: u8 = 128;

// Whether a call can be made at this width: 32 bits, as addresses of four bytes have, or 128.
pub fn is_width(width: u32) -> bool
    ensures { result ≡ is_width width }
{
    width == 32 || width == 128
}

// The opcodes (document 01, Codes).
pub const RETURN: u32 = 0;

pub const JUMP: u32 = 1;

pub const MATCH: u32 = 2;

pub const DEFAULT: u32 = 3;

// The four opcodes together.
#[derive(Clone, Copy)]
pub struct Opcodes {
    pub returns: u32,
    pub jumps: u32,
    pub matches: u32,
    pub defaults: u32,
}

// The opcodes, which are the defined ones: a wrong number is refused here, though no code below asks for it.
pub fn opcode_numbers() -> Opcodes
    ensures { (result.returns ≡ opcode.RETURN) × (result.jumps ≡ opcode.JUMP) × (result.matches ≡ opcode.MATCH) × (result.defaults ≡ opcode.DEFAULT) }
{
    Opcodes {
        returns: RETURN,
        jumps: JUMP,
        matches: MATCH,
        defaults: DEFAULT,
    }
}

// An instruction that was read whole: opcode and operand, the place of its first bit, and its length in bits (`size`, opcode and
// operand together).
#[derive(Clone, Copy)]
pub struct Instruction {
    pub opcode: u32,
    pub operand: u32,
    pub place: usize,
    pub size: usize,
}

// What the check remembers of the instruction before: a MATCH shorter than 8, a DEFAULT, or any other, a JUMP among them.
#[derive(Clone, Copy, Debug, PartialEq, Eq)]
pub enum Previous {
    Other,
    Short,
    Default,
}

// A map that the check accepts: the number of its instructions, and the greatest number of jumps open at once.
#[derive(Clone, Copy, Debug, PartialEq, Eq)]
pub struct Accepted {
    pub count: u32,
    pub depth: u8,
}

// What the check answers: that it accepts, or what is wrong with the map.
pub type Verdict = Result<Accepted, Fault>;

// Where a walk stands: the place, the address bits used so far, the width, which is how many bits the address has, and the default. The
// defined walk and the code that walks share it.
#[derive(Clone, Copy)]
pub struct Walker {
    pub at: usize,
    pub used: u8,
    pub width: u8,
    pub default: u32,
}

// How a walk ends: at a RETURN, at a MATCH that differs, or aborted, which it is in three ways: the map's end cuts the opcode to be read or its
// operand, or an instruction needs more address bits than are left. Its number does not tell which: each abort has 0, and the default can be 0 too.
#[derive(Clone, Copy, Debug, PartialEq, Eq)]
pub enum Kind {
    Returned,
    Differed,
    OpcodeCut,
    OperandCut,
    TooFewBits,
}

// How many bits a number has, by its leading zeros; 0 has none. Nothing is asked of the caller.
pub fn bit_width(x: u32) -> u32
    ensures { Width x result }
{
    32 - x.leading_zeros()
}

// How many address bits a MATCH with this operand compares: the operand's bit width less one. The least MATCH operand is 2;
// 0 would have no leading one to leave out.
pub fn match_length(operand: u32) -> u8
    requires { 0 < operand }
    ensures { result ≡ length_of operand }
{
    (bit_width(operand) - 1) as u8
}
