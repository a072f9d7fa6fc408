// The calls that read a code or an instruction (document 01, Codes): any map, any bit; 1 for a map over the limit, then 4 or 19 for the code that
// is cut (document 02, CR 5).
#![tactic(auto)]

ghost use Rattle.std.specs.Prelude.{◌≡◌, true};
ghost use Rattle.asmap_codes.specs.Row.{type_row, asn_row, match_row, jump_row, Fit};
ghost use Rattle.asmap_codes.specs.models.Grown.{slow};
ghost use Rattle.asmap_program.specs.Map.{cut_reason};
ghost use Rattle.asmap_codes.specs.Code.{part_from, read_code};
ghost use Rattle.asmap_codes.specs.Instruction.{read_instruction};
ghost use Rattle.asmap_codes.specs.Core.{file_of, CoreReads};

use asmap_codes::{ASN_BIT_SIZES, Code, JUMP_BIT_SIZES, MATCH_BIT_SIZES, TYPE_BIT_SIZES};
use asmap_program::{Instruction, MAX_MAP_BYTES};
use refusals::Fault;

// What is wrong where a code of the row is cut that begins at `least`. The row of the opcodes alone begins at 0.
fn cut_reason(least: u32) -> Fault
    ensures { result ≡ cut_reason (part_from least) }
{
    if least == 0 {
        return Fault::CutOpcode;
    }
    Fault::CutOperand
}

// A code of a row. Its own test for the end keeps any `at` away from the sums of the decoder.
fn decode_row(map: &[u8], at: usize, least: u32, sizes: &[u8]) -> Result<Code, Fault>
    requires { Fit (record { least = least; sizes = sizes.now }) × (slow sizes.now ≡ true) }
    ensures { result ≡ read_code map.now at (record { least = least; sizes = sizes.now }) }
{
    let bytes = map.len();
    if MAX_MAP_BYTES < bytes {
        return Err(Fault::MapTooLong);
    }
    if 8 * bytes <= at {
        return Err(cut_reason(least));
    }
    let w = asmap_window::window(map, at);
    let got = asmap_row_decoder::decode_bits(w, at, 8 * bytes, least, sizes);
    let Some(code) = got else {
        return Err(cut_reason(least));
    };
    Ok(code)
}

// Reads an opcode. Refusals 1, then 4; nothing is asked of the caller.
pub fn decode_type(map: &[u8], at: usize) -> Result<Code, Fault>
    ensures value { result ≡ read_code map.now at type_row }
    ensures core { CoreReads map.now at result ((file_of map.now).decode_type at) }
{
    decode_row(map, at, 0, &TYPE_BIT_SIZES)
}

// Reads an AS number. Refusals 1, then 19; nothing is asked of the caller.
pub fn decode_asn(map: &[u8], at: usize) -> Result<Code, Fault>
    ensures value { result ≡ read_code map.now at asn_row }
    ensures core { CoreReads map.now at result ((file_of map.now).decode_asn at) }
{
    decode_row(map, at, 1, &ASN_BIT_SIZES)
}

// Reads a MATCH operand. Refusals 1, then 19; nothing is asked of the caller.
pub fn decode_match(map: &[u8], at: usize) -> Result<Code, Fault>
    ensures value { result ≡ read_code map.now at match_row }
    ensures core { CoreReads map.now at result ((file_of map.now).decode_match at) }
{
    decode_row(map, at, 2, &MATCH_BIT_SIZES)
}

// Reads a JUMP operand. Refusals 1, then 19; nothing is asked of the caller.
pub fn decode_jump(map: &[u8], at: usize) -> Result<Code, Fault>
    ensures value { result ≡ read_code map.now at jump_row }
    ensures core { CoreReads map.now at result ((file_of map.now).decode_jump at) }
{
    decode_row(map, at, 17, &JUMP_BIT_SIZES)
}

// Reads an instruction: its opcode, then its operand. Refusals 1, then 4 where the opcode is cut or 19 where the operand is; nothing is asked of
// the caller.
pub fn decode_instruction(map: &[u8], at: usize) -> Result<Instruction, Fault>
    ensures { result ≡ read_instruction map.now at }
{
    if MAX_MAP_BYTES < map.len() {
        return Err(Fault::MapTooLong);
    }
    let bits = 8 * map.len();
    if bits <= at {
        return Err(Fault::CutOpcode);
    }
    let w = asmap_window::window(map, at);
    let first = asmap_row_decoder::type_in(w, at, bits);
    let Some((opcode, middle)) = first else {
        return Err(Fault::CutOpcode);
    };
    let rest = asmap_row_decoder::operand_window(map, w, at, opcode, middle);
    let second = asmap_row_decoder::operand_in(rest, opcode, middle, bits);
    let Some((operand, end)) = second else {
        return Err(Fault::CutOperand);
    };
    Ok(Instruction {
        opcode,
        operand,
        place: at,
        size: end - at,
    })
}
