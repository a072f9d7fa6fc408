// The exports of `corbastrigo: codes` for C: each says again what the call of the library says, and calls it.
ghost use Rattle.std.specs.Prelude.{◌∷◌, []};
ghost use Rattle.asmap_codes.specs.Row.{type_row, asn_row, match_row, jump_row};
ghost use Rattle.asmap_codes.specs.Code.{read_code};
ghost use Rattle.asmap_codes.specs.Instruction.{read_instruction};
ghost use Rattle.asmap_encode.specs.Write.{write_code, write_instruction};
ghost use Rattle.answer_outcome.specs.Outcome.{Hands};
ghost use Rattle.asmap_codes.specs.Core.{file_of};
ghost use Rattle.answer_codes.specs.Codes.{code_read, instruction_read, bits_written};
ghost use Rattle.answers.specs.Promise.{CoreCode};

#[unsafe(no_mangle)]
pub extern "C" fn corbastrigo_decode_type(
    map: &[u8],
    at: usize,
    value: &mut u32,
    next: &mut usize,
) -> u8
    ensures hands { Hands (code_read (read_code map.now at type_row)) result (value.old ∷ next.old ∷ []) (value.new ∷ next.new ∷ []) }
    ensures core { CoreCode map.now at result value.new next.new ((file_of map.now).decode_type at) }
{
    corbastrigo::codes::corbastrigo_decode_type(map, at, value, next)
}

#[unsafe(no_mangle)]
pub extern "C" fn corbastrigo_decode_asn(
    map: &[u8],
    at: usize,
    value: &mut u32,
    next: &mut usize,
) -> u8
    ensures hands { Hands (code_read (read_code map.now at asn_row)) result (value.old ∷ next.old ∷ []) (value.new ∷ next.new ∷ []) }
    ensures core { CoreCode map.now at result value.new next.new ((file_of map.now).decode_asn at) }
{
    corbastrigo::codes::corbastrigo_decode_asn(map, at, value, next)
}

#[unsafe(no_mangle)]
pub extern "C" fn corbastrigo_decode_match(
    map: &[u8],
    at: usize,
    value: &mut u32,
    next: &mut usize,
) -> u8
    ensures hands { Hands (code_read (read_code map.now at match_row)) result (value.old ∷ next.old ∷ []) (value.new ∷ next.new ∷ []) }
    ensures core { CoreCode map.now at result value.new next.new ((file_of map.now).decode_match at) }
{
    corbastrigo::codes::corbastrigo_decode_match(map, at, value, next)
}

#[unsafe(no_mangle)]
pub extern "C" fn corbastrigo_decode_jump(
    map: &[u8],
    at: usize,
    value: &mut u32,
    next: &mut usize,
) -> u8
    ensures hands { Hands (code_read (read_code map.now at jump_row)) result (value.old ∷ next.old ∷ []) (value.new ∷ next.new ∷ []) }
    ensures core { CoreCode map.now at result value.new next.new ((file_of map.now).decode_jump at) }
{
    corbastrigo::codes::corbastrigo_decode_jump(map, at, value, next)
}

#[unsafe(no_mangle)]
pub extern "C" fn corbastrigo_decode_instruction(
    map: &[u8],
    at: usize,
    opcode: &mut u32,
    operand: &mut u32,
    size: &mut usize,
) -> u8
    ensures { Hands (instruction_read (read_instruction map.now at)) result (opcode.old ∷ operand.old ∷ size.old ∷ []) (opcode.new ∷ operand.new ∷ size.new ∷ []) }
{
    corbastrigo::codes::corbastrigo_decode_instruction(map, at, opcode, operand, size)
}

#[unsafe(no_mangle)]
pub extern "C" fn corbastrigo_encode_type(value: u32, bits: &mut u64, len: &mut usize) -> u8
    ensures { Hands (bits_written (write_code type_row value)) result (bits.old ∷ len.old ∷ []) (bits.new ∷ len.new ∷ []) }
{
    corbastrigo::codes::corbastrigo_encode_type(value, bits, len)
}

#[unsafe(no_mangle)]
pub extern "C" fn corbastrigo_encode_asn(value: u32, bits: &mut u64, len: &mut usize) -> u8
    ensures { Hands (bits_written (write_code asn_row value)) result (bits.old ∷ len.old ∷ []) (bits.new ∷ len.new ∷ []) }
{
    corbastrigo::codes::corbastrigo_encode_asn(value, bits, len)
}

#[unsafe(no_mangle)]
pub extern "C" fn corbastrigo_encode_match(value: u32, bits: &mut u64, len: &mut usize) -> u8
    ensures { Hands (bits_written (write_code match_row value)) result (bits.old ∷ len.old ∷ []) (bits.new ∷ len.new ∷ []) }
{
    corbastrigo::codes::corbastrigo_encode_match(value, bits, len)
}

#[unsafe(no_mangle)]
pub extern "C" fn corbastrigo_encode_jump(value: u32, bits: &mut u64, len: &mut usize) -> u8
    ensures { Hands (bits_written (write_code jump_row value)) result (bits.old ∷ len.old ∷ []) (bits.new ∷ len.new ∷ []) }
{
    corbastrigo::codes::corbastrigo_encode_jump(value, bits, len)
}

#[unsafe(no_mangle)]
pub extern "C" fn corbastrigo_encode_instruction(
    opcode: u32,
    operand: u32,
    bits: &mut u64,
    len: &mut usize,
) -> u8
    ensures { Hands (bits_written (write_instruction opcode operand)) result (bits.old ∷ len.old ∷ []) (bits.new ∷ len.new ∷ []) }
{
    corbastrigo::codes::corbastrigo_encode_instruction(opcode, operand, bits, len)
}
