// What reading and writing codes and instructions came to (document 01, Codes), as numbers. The exported calls hand it out by these functions.
#![tactic(auto)]

ghost use Rattle.std.specs.Prelude.{◌≡◌, ◌∷◌, []};
ghost use Rattle.answer_outcome.specs.Outcome.{handed};
ghost use Rattle.answer_codes.specs.Codes.{code_read, instruction_read, bits_written};

use asmap_codes::Code;
use asmap_encode::Word;
use asmap_program::Instruction;
use refusals::{Fault, Refusal};

// What reading a code came to, as an answer and lent numbers.
#[tactic(auto, unfolding(answer_outcome::specs::Outcome::handed, crate::specs::Codes::code_read))]
pub fn hand_code(got: Result<Code, Fault>, value: &mut u32, next: &mut usize) -> u8
    ensures { result ∷ value.new ∷ next.new ∷ [] ≡ handed (code_read got) (value.old ∷ next.old ∷ []) }
{
    match got {
        Ok((found, end)) => {
            *value = found;
            *next = end;
            0
        }
        Err(fault) => fault.number(),
    }
}

// What reading an instruction came to.
#[tactic(auto, unfolding(answer_outcome::specs::Outcome::handed, crate::specs::Codes::instruction_read))]
pub fn hand_instruction(
    got: Result<Instruction, Fault>,
    opcode: &mut u32,
    operand: &mut u32,
    size: &mut usize,
) -> u8
    ensures { result ∷ opcode.new ∷ operand.new ∷ size.new ∷ [] ≡ handed (instruction_read got) (opcode.old ∷ operand.old ∷ size.old ∷ []) }
{
    match got {
        Ok(found) => {
            *opcode = found.opcode;
            *operand = found.operand;
            *size = found.size;
            0
        }
        Err(fault) => fault.number(),
    }
}

// What writing came to.
#[tactic(auto, unfolding(answer_outcome::specs::Outcome::handed, crate::specs::Codes::bits_written))]
pub fn hand_bits(got: Result<Word, Refusal>, bits: &mut u64, len: &mut usize) -> u8
    ensures { result ∷ bits.new ∷ len.new ∷ [] ≡ handed (bits_written got) (bits.old ∷ len.old ∷ []) }
{
    match got {
        Ok(word) => {
            *bits = word.bits;
            *len = word.len;
            0
        }
        Err(refusal) => refusal.number(),
    }
}
