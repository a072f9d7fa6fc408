// Bits written at a place of a lent output (document 01, Codes: a map's bits run from the lowest bit of each byte upward). A word
// is pushed after the bits before it, and at the end the bits still held go out, the last byte padded with zeros.
#![tactic(auto)]

ghost use Rattle.std.specs.Prelude.{◌≡◌, true, ◌&&◌, [], ◌+◌, ◌*◌, ◌^◌, ◌≤◌, ◌<◌, length};
ghost use Rattle.asmap_codes.specs.Bits.{low};
ghost use Rattle.asmap_codes.specs.Row.{type_row, operand_row, in_range};
ghost use Rattle.asmap_codes.specs.Encode.{instruction_bits};
ghost use Rattle.asmap_bit_writer.specs.models.Stream.{Ready, from, put_bytes, stream, Moved};

use asmap_encode::Word;

// The bits that are not yet written, fewer than 64, the first lowest and none above them, and the place of their first byte.
#[derive(Clone, Copy, Debug, PartialEq, Eq)]
pub struct BitWriter {
    pub bits: u64,
    pub held: usize,
    pub place: usize,
}

// So many bytes of a number go out from a place on, the lowest first. They are put one by one: a copy of no fixed length would want the C library.
fn put_bytes(out: &mut [u8], from: usize, number: u64, count: usize)
    requires { from + count ≤ length out.old }
    ensures { out.new ≡ put_bytes count out.old from number }
{
    let mut bits = number;
    for i in 0..count {
        out[from + i] = (bits % 256) as u8;
        bits /= 256;
    }
}

impl BitWriter {
    // A writer from a byte of the output on, which has no bits yet.
    pub fn at(place: usize) -> BitWriter
        ensures { result ≡ from place }
    {
        BitWriter {
            bits: 0,
            held: 0,
            place,
        }
    }

    // Pushes a word of fewer than 64 bits, for which the output has room. Where the bits held become 64, their eight bytes go out,
    // and the bits of the word that are left are held. The contract leaves free how many bits are held and how many are out: it says
    // what the output will hold in the end (`stream`), and after `finish`, which is when a caller may read it, that is the same.
    pub fn push_word(&mut self, out: &mut [u8], word: Word)
        requires { Ready self.old × (word.bits < 2 ^ word.len) × (word.len < 64) × (8 * self.old.place + self.old.held + word.len ≤ 8 * length out.old) }
        ensures { Moved out.old self.old (low word.len word.bits) out.new self.new }
    {
        let start = self.held;
        self.bits += word.bits << start;
        self.held += word.len;
        if 64 <= self.held {
            out[self.place..self.place + 8].copy_from_slice(&self.bits.to_le_bytes());
            self.place += 8;
            self.held -= 64;
            self.bits = word.bits >> (64 - start);
        }
    }

    // Pushes an instruction that is in range, its opcode's code and then its operand's, for which the output has room. What is left
    // free, and why no caller sees it, is as for a word.
    pub fn push_instruction(&mut self, out: &mut [u8], opcode: u32, operand: u32)
        requires { Ready self.old × ((in_range type_row opcode && in_range (operand_row opcode) operand) ≡ true)
            × (8 * self.old.place + self.old.held + length (instruction_bits opcode operand) ≤ 8 * length out.old) }
        ensures { Moved out.old self.old (instruction_bits opcode operand) out.new self.new }
    {
        if let Ok(word) = asmap_encode::encode_instruction(opcode, operand) {
            self.push_word(out, word);
        }
    }

    // Writes the bits still held. Above them the writer has zeros, which pad the last byte.
    pub fn finish(self, out: &mut [u8])
        requires { Ready self × (8 * self.place + self.held ≤ 8 * length out.old) }
        ensures { out.new ≡ stream out.old self [] }
    {
        put_bytes(out, self.place, self.bits, self.held.div_ceil(8));
    }
}
