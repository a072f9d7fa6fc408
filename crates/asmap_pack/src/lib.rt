// Pack (document 01, Unpack and pack): the bits of records as a map's bytes in a lent output. It runs no check.
#![tactic(auto)]

ghost use Rattle.std.specs.Prelude.{◌≡◌, List, ℕ, ◌*◌, ◌≤◌, length};
ghost use Rattle.std.proofs.lemmas.List.Edits.{sets};
ghost use Rattle.asmap_bit_writer.specs.Bytes.{bytes_of};
ghost use Rattle.asmap_records.specs.Output.{Made, Hands};
ghost use Rattle.asmap_records.specs.Pack.{record_bits, pack_of};
ghost use Rattle.asmap_pack.specs.models.Size.{size_from, bits_in};
ghost use Rattle.asmap_pack.specs.models.Records.{bits_from};

use asmap_bit_writer::BitWriter;
use asmap_program::MAX_MAP_BYTES;
use byte_numbers::number_at;
use refusals::{Fault, Refusal};

// A record whose instruction is to start at bit `at`: where it ends, or 15, 16, 1, in this order. The three zeros are there where the
// record's first four bytes are the opcode's number.
fn record_end(record: &[u8; 16], at: usize) -> Result<usize, Refusal>
    requires { at ≤ 134217728 }
    ensures { result ≡ size_from at (record_bits record.now at) }
{
    let opcode = record[0] as u32;
    let operand = number_at(record, 4);
    let len = asmap_encode::instruction_length(opcode, operand);
    if len == 0 {
        return Err(Refusal::OutOfRange);
    }
    let zeros = number_at(record, 0) == opcode;
    let placed = number_at(record, 8) as usize == at;
    let sized = number_at(record, 12) as usize == len;
    if !(zeros && placed && sized) {
        return Err(Refusal::Record);
    }
    let end = at + len;
    if 8 * MAX_MAP_BYTES < end {
        return Err(Refusal::Map(Fault::MapTooLong));
    }
    Ok(end)
}

// All records, from bit 0 on: where the last one ends, or why the first wrong one is refused.
fn records_end(records: &[[u8; 16]]) -> Result<usize, Refusal>
    ensures { result ≡ size_from 0 (bits_from records.now 0) }
{
    let mut at: usize = 0;
    for record in records {
        at = record_end(record, at)?;
    }
    Ok(at)
}

// The records' bits as bytes, the last padded with zeros. The records were found right and the output long enough.
fn write_records(records: &[[u8; 16]], out: &mut [u8])
    requires { (bs : List ℕ) × (bits_from records.now 0 ≡ Made bs) × (length bs ≤ 8 * length out.old) }
    ensures { out.new ≡ sets out.old 0 (bytes_of (bits_in (bits_from records.now 0))) }
{
    let mut writer = BitWriter::at(0);
    for record in records {
        writer.push_instruction(out, record[0] as u32, number_at(record, 4));
    }
    writer.finish(out);
}

// Packs records. Refusals 16, 15, 1 and 14; a refused call writes nothing: all records are read before the first byte goes out.
pub fn pack(records: &[u8], out: &mut [u8]) -> Result<usize, Refusal>
    ensures { Hands (pack_of records.now) out.old out.new result }
{
    let (whole, rest) = records.as_chunks::<16>();
    if !rest.is_empty() {
        return Err(Refusal::Record);
    }
    let bytes = records_end(whole)?.div_ceil(8);
    if out.len() < bytes {
        return Err(Refusal::OutputTooShort);
    }
    write_records(whole, out);
    Ok(bytes)
}
