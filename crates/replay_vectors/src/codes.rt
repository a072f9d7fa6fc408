// Codes and instructions, read and written, and the bit reader.
use crate::answers::{answered, compared};
use asmap_codes::Code;
use asmap_encode::Word;
use asmap_items::Item;
use asmap_program::Instruction;
use refusals::{Fault, Refusal};
use replay_outcomes::{Out, Seen};
use replay_words::Line;

fn decoded(got: Result<Code, Fault>) -> Result<Out, Refusal> {
    let (x, next) = got?;
    Ok(Out::done().number(x as u64, 4).number(next as u64, 8))
}

// A code of a row: 0 opcode, 1 AS number, 2 MATCH, 3 JUMP.
pub fn read_code(line: Line) -> Seen {
    let map = line.word(1);
    let at = line.wide(2);
    let got = match line.byte(0) {
        0 => asmap_decode::decode_type(map, at),
        1 => asmap_decode::decode_asn(map, at),
        2 => asmap_decode::decode_match(map, at),
        3 => asmap_decode::decode_jump(map, at),
        _ => return Seen::Unread,
    };
    compared(decoded(got), line.word(3))
}

fn written(code: Word) -> Out {
    Out::done().number(code.len as u64, 1).number(code.bits, 8)
}

pub fn write_code(line: Line) -> Seen {
    let x = line.value(1);
    let got = match line.byte(0) {
        0 => asmap_encode::encode_type(x),
        1 => asmap_encode::encode_asn(x),
        2 => asmap_encode::encode_match(x),
        3 => asmap_encode::encode_jump(x),
        _ => return Seen::Unread,
    };
    compared(got.map(written), line.word(2))
}

fn found(instruction: Instruction) -> Out {
    let codes = Out::done()
        .number(instruction.opcode as u64, 4)
        .number(instruction.operand as u64, 4);
    codes
        .number(instruction.place as u64, 8)
        .number(instruction.size as u64, 8)
}

pub fn read_instruction(line: Line) -> Seen {
    let got = asmap_decode::decode_instruction(line.word(0), line.wide(1));
    compared(got.map(found).map_err(Refusal::Map), line.word(2))
}

pub fn write_instruction(line: Line) -> Seen {
    let got = asmap_encode::encode_instruction(line.value(0), line.value(1));
    compared(got.map(written), line.word(2))
}

// What the reader is asked for: a code as above, or 4 for one bit.
pub fn read_item(line: Line) -> Seen {
    let item = match line.byte(0) {
        0 => Item::Opcode,
        1 => Item::Asn,
        2 => Item::Match,
        3 => Item::Jump,
        4 => Item::Bit,
        _ => return Seen::Unread,
    };
    let step = asmap_reader::read_at(line.word(1), line.wide(2), item);
    let out = answered(decoded(step.got))
        .number(step.place as u64, 8)
        .number(step.left as u64, 8);
    out.compared(line.word(3))
}
