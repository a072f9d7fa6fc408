// Unpack (document 01, Unpack and pack): an accepted map's instructions, in order, as records of 16 bytes in a lent output.
#![tactic(auto)]

ghost use Rattle.std.specs.Prelude.{◌≡◌, ℕ, ◌+◌, ◌*◌, ◌≤◌, ◌<◌, length};
ghost use Rattle.std.proofs.lemmas.List.Edits.{sets};
ghost use Rattle.asmap_program.specs.Map.{limit};
ghost use Rattle.asmap_program.specs.Check.{check, unpacked};
ghost use Rattle.asmap_program.specs.Verdict.{Accepted};
ghost use Rattle.asmap_codes.specs.Instruction.{map_of};
ghost use Rattle.asmap_records.specs.Record.{record_of, records_of};
ghost use Rattle.asmap_records.specs.Output.{Hands};
ghost use Rattle.asmap_records.specs.Unpack.{unpack_of, unpack_at};

use asmap_program::{ADDRESS_BITS, Instruction};
use refusals::Refusal;

// An instruction's record. The opcode goes out as a number of four bytes: the upper three are the record's zeros.
fn put_record(out: &mut [u8], at: usize, instruction: Instruction)
    requires { (at + 16 ≤ length out.old) × (instruction.opcode < 256) × (instruction.place < 4294967296) × (instruction.size < 4294967296) }
    ensures { out.new ≡ sets out.old at (record_of instruction) }
{
    byte_numbers::put_number(out, at, instruction.opcode);
    byte_numbers::put_number(out, at + 4, instruction.operand);
    byte_numbers::put_number(out, at + 8, instruction.place as u32);
    byte_numbers::put_number(out, at + 12, instruction.size as u32);
}

// The first `count` instructions of a map as records. At whatever width the check accepts the map with that count, they are all of
// the map's. (An instruction that is cut ends the list; an accepted map has none.)
fn put_list(map: &[u8], count: usize, out: &mut [u8])
    requires { (length map.now ≤ limit) × (16 * count ≤ length out.old) }
    ensures { (w d : ℕ) → check (map_of map.now) w ≡ Accepted count d
        → out.new ≡ sets out.old 0 (records_of (unpacked (map_of map.now) w)) }
{
    let mut at: usize = 0;
    for i in 0..count {
        let Ok(instruction) = asmap_decode::decode_instruction(map, at) else {
            return;
        };
        put_record(out, 16 * i, instruction);
        at += instruction.size;
    }
}

// Unpacks a map that the check accepts over a number of address bits. The calls below fix it.
fn unpack_over(map: &[u8], bits: u8, out: &mut [u8]) -> Result<usize, Refusal>
    requires { bits ≤ 128 }
    ensures { Hands (unpack_of map.now bits) out.old out.new result }
{
    let accepted = asmap_check::check_over(map, bits)?;
    let records = accepted.count as usize;
    if out.len() / 16 < records {
        return Err(Refusal::OutputTooShort);
    }
    let bytes = 16 * records;
    put_list(map, records, out);
    Ok(bytes)
}

// Unpacks a map that the check accepts at 128 address bits. Refusals: the check's, 1 to 10 and 19, then 14; a refused call writes nothing.
pub fn unpack(map: &[u8], out: &mut [u8]) -> Result<usize, Refusal>
    ensures { Hands (unpack_of map.now 128) out.old out.new result }
{
    unpack_over(map, ADDRESS_BITS, out)
}

// The same at a width: 18 for one that is neither 32 nor 128, before the check.
pub fn unpack_bits(map: &[u8], width: u32, out: &mut [u8]) -> Result<usize, Refusal>
    ensures { Hands (unpack_at map.now width) out.old out.new result }
{
    if !asmap_program::is_width(width) {
        return Err(Refusal::Width);
    }
    unpack_over(map, width as u8, out)
}
