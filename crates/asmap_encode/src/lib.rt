// Writing codes and instructions (document 01, Codes): bits in a word, by the parts of their codes.
#![tactic(auto)]

ghost use Rattle.std.specs.Prelude.{◌≡◌, ◌^◌, ◌≤◌, ◌<◌};
ghost use Rattle.asmap_codes.specs.Row.{type_row, asn_row, match_row, jump_row};
ghost use Rattle.asmap_encode.specs.models.Words.{Short, Shortened, after, written_as, length_written};
ghost use Rattle.asmap_encode.specs.Write.{write_code, write_instruction};

use asmap_code_parts::Parts;
use refusals::Refusal;

// Bits in a word, the first bit lowest, and how many they are.
#[derive(Clone, Copy, Debug, PartialEq, Eq)]
pub struct Word {
    pub bits: u64,
    pub len: usize,
}

// Before the first code.
const NO_BITS: Word = Word { bits: 0, len: 0 };

// A code by its parts, after the bits of a word. An opcode has at most 3 bits, a row at most 26 sizes, each at most 31: all fit
// the word.
fn encode_bits(before: Word, prefix: usize, parts: Parts) -> Word
    requires { (before.bits < 2 ^ before.len) × (before.len ≤ 3) × Short prefix parts }
    ensures { result ≡ after before prefix parts }
{
    let Parts { ones, size, rest } = parts;
    let mantissa = asmap_codes::reversed_bits(rest as u64, 0, size) as u64;
    let code = ((1u64 << ones) - 1) + (mantissa << prefix);
    let Word { bits, len } = before;
    Word {
        bits: bits + (code << len),
        len: len + prefix + size as usize,
    }
}

// The bits of what was found of a value, after the bits of a word; 15 where the row does not have it.
fn write(before: Word, coded: Option<(usize, Parts)>) -> Result<Word, Refusal>
    requires { (before.bits < 2 ^ before.len) × (before.len ≤ 3) × Shortened coded }
    ensures { result ≡ written_as before coded }
{
    match coded {
        Some((prefix, parts)) => Ok(encode_bits(before, prefix, parts)),
        None => Err(Refusal::OutOfRange),
    }
}

// ---- the public calls: 15 for a value out of its row's range

// Writes an opcode. Refusal 15; nothing is asked of the caller.
pub fn encode_type(value: u32) -> Result<Word, Refusal>
    ensures { result ≡ write_code type_row value }
{
    write(NO_BITS, asmap_code_parts::type_parts(value))
}

// Writes an AS number. Refusal 15; nothing is asked of the caller.
pub fn encode_asn(value: u32) -> Result<Word, Refusal>
    ensures { result ≡ write_code asn_row value }
{
    write(NO_BITS, asmap_code_parts::asn_parts(value))
}

// Writes a MATCH operand. Refusal 15; nothing is asked of the caller.
pub fn encode_match(value: u32) -> Result<Word, Refusal>
    ensures { result ≡ write_code match_row value }
{
    write(NO_BITS, asmap_code_parts::match_parts(value))
}

// Writes a JUMP operand. Refusal 15; nothing is asked of the caller.
pub fn encode_jump(value: u32) -> Result<Word, Refusal>
    ensures { result ≡ write_code jump_row value }
{
    write(NO_BITS, asmap_code_parts::jump_parts(value))
}

// Writes an instruction: its opcode's code, then its operand's. Refusal 15 for either; nothing is asked of the caller. The
// bits are at most 57.
pub fn encode_instruction(opcode: u32, operand: u32) -> Result<Word, Refusal>
    ensures { result ≡ write_instruction opcode operand }
{
    let code = encode_type(opcode)?;
    write(code, asmap_code_parts::operand_parts(opcode, operand))
}

// How many bits are written for an instruction; 0 for one that is refused. Nothing is asked of the caller.
pub fn instruction_length(opcode: u32, operand: u32) -> usize
    ensures { result ≡ length_written (write_instruction opcode operand) }
{
    let Some((prefix, parts)) = asmap_code_parts::type_parts(opcode) else {
        return 0;
    };
    let Some((next_prefix, next)) = asmap_code_parts::operand_parts(opcode, operand) else {
        return 0;
    };
    prefix + parts.size as usize + next_prefix + next.size as usize
}
