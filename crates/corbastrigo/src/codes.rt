// Reading and writing codes and instructions (document 01, Codes).
#![tactic(auto, using(answers::proofs::NeverZeroCodes::code_handed, answers::proofs::NeverZeroCodes::instruction_handed, answers::proofs::NeverZeroCodes::bits_handed))]

ghost use Rattle.std.specs.Prelude.{◌∷◌, []};
ghost use Rattle.asmap_codes.specs.Row.{type_row, asn_row, match_row, jump_row};
ghost use Rattle.asmap_codes.specs.Code.{read_code};
ghost use Rattle.asmap_codes.specs.Instruction.{read_instruction};
ghost use Rattle.asmap_encode.specs.Write.{write_code, write_instruction};
ghost use Rattle.answer_outcome.specs.Outcome.{Hands};
ghost use Rattle.asmap_codes.specs.Core.{file_of};
ghost use Rattle.answer_codes.specs.Codes.{code_read, instruction_read, bits_written};
ghost use Rattle.answers.specs.Promise.{CoreCode};

use answer_codes::{hand_bits, hand_code, hand_instruction};

// ---- reading at any bit of any map. `next` is the bit after what was read. Refusals 1, then for a code that the map's end cuts
// 4 where it is an opcode and 19 where it is an operand.

// An opcode.
pub fn corbastrigo_decode_type(map: &[u8], at: usize, value: &mut u32, next: &mut usize) -> u8
    ensures hands { Hands (code_read (read_code map.now at type_row)) result (value.old ∷ next.old ∷ []) (value.new ∷ next.new ∷ []) }
    ensures core { CoreCode map.now at result value.new next.new ((file_of map.now).decode_type at) }
{
    hand_code(asmap_decode::decode_type(map, at), value, next)
}

// An AS number.
pub fn corbastrigo_decode_asn(map: &[u8], at: usize, value: &mut u32, next: &mut usize) -> u8
    ensures hands { Hands (code_read (read_code map.now at asn_row)) result (value.old ∷ next.old ∷ []) (value.new ∷ next.new ∷ []) }
    ensures core { CoreCode map.now at result value.new next.new ((file_of map.now).decode_asn at) }
{
    hand_code(asmap_decode::decode_asn(map, at), value, next)
}

// A MATCH operand.
pub fn corbastrigo_decode_match(map: &[u8], at: usize, value: &mut u32, next: &mut usize) -> u8
    ensures hands { Hands (code_read (read_code map.now at match_row)) result (value.old ∷ next.old ∷ []) (value.new ∷ next.new ∷ []) }
    ensures core { CoreCode map.now at result value.new next.new ((file_of map.now).decode_match at) }
{
    hand_code(asmap_decode::decode_match(map, at), value, next)
}

// A JUMP operand.
pub fn corbastrigo_decode_jump(map: &[u8], at: usize, value: &mut u32, next: &mut usize) -> u8
    ensures hands { Hands (code_read (read_code map.now at jump_row)) result (value.old ∷ next.old ∷ []) (value.new ∷ next.new ∷ []) }
    ensures core { CoreCode map.now at result value.new next.new ((file_of map.now).decode_jump at) }
{
    hand_code(asmap_decode::decode_jump(map, at), value, next)
}

// An instruction: its opcode, its operand and its length in bits, both codes together.
pub fn corbastrigo_decode_instruction(
    map: &[u8],
    at: usize,
    opcode: &mut u32,
    operand: &mut u32,
    size: &mut usize,
) -> u8
    ensures { Hands (instruction_read (read_instruction map.now at)) result (opcode.old ∷ operand.old ∷ size.old ∷ []) (opcode.new ∷ operand.new ∷ size.new ∷ []) }
{
    hand_instruction(
        asmap_decode::decode_instruction(map, at),
        opcode,
        operand,
        size,
    )
}

// ---- writing any number. `bits` has the first bit lowest, `len` is how many they are. Refusal 15.

// An opcode.
pub fn corbastrigo_encode_type(value: u32, bits: &mut u64, len: &mut usize) -> u8
    ensures { Hands (bits_written (write_code type_row value)) result (bits.old ∷ len.old ∷ []) (bits.new ∷ len.new ∷ []) }
{
    hand_bits(asmap_encode::encode_type(value), bits, len)
}

// An AS number.
pub fn corbastrigo_encode_asn(value: u32, bits: &mut u64, len: &mut usize) -> u8
    ensures { Hands (bits_written (write_code asn_row value)) result (bits.old ∷ len.old ∷ []) (bits.new ∷ len.new ∷ []) }
{
    hand_bits(asmap_encode::encode_asn(value), bits, len)
}

// A MATCH operand.
pub fn corbastrigo_encode_match(value: u32, bits: &mut u64, len: &mut usize) -> u8
    ensures { Hands (bits_written (write_code match_row value)) result (bits.old ∷ len.old ∷ []) (bits.new ∷ len.new ∷ []) }
{
    hand_bits(asmap_encode::encode_match(value), bits, len)
}

// A JUMP operand.
pub fn corbastrigo_encode_jump(value: u32, bits: &mut u64, len: &mut usize) -> u8
    ensures { Hands (bits_written (write_code jump_row value)) result (bits.old ∷ len.old ∷ []) (bits.new ∷ len.new ∷ []) }
{
    hand_bits(asmap_encode::encode_jump(value), bits, len)
}

// An instruction: its opcode's code, then its operand's; at most 57 bits.
pub fn corbastrigo_encode_instruction(
    opcode: u32,
    operand: u32,
    bits: &mut u64,
    len: &mut usize,
) -> u8
    ensures { Hands (bits_written (write_instruction opcode operand)) result (bits.old ∷ len.old ∷ []) (bits.new ∷ len.new ∷ []) }
{
    hand_bits(asmap_encode::encode_instruction(opcode, operand), bits, len)
}
