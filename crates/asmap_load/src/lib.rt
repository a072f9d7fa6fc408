// Loads (document 02, CR 6): maps that everyone can make again from a seed, so that what two teams measured can be compared. A load of n pairs
// is n times a DEFAULT and a one-bit MATCH, and a RETURN; its numbers and bits are drawn in the order written.
//
// The draws are made twice, first to find how long the load is and then to write it: an output too short is refused before the first byte
// goes out, and no load is held in between.
#![tactic(auto)]

ghost use Rattle.std.specs.Prelude.{◌≡◌, ◌*◌, ◌≤◌, length};
ghost use Rattle.std.proofs.lemmas.List.Edits.{sets};
ghost use Rattle.asmap_bit_writer.specs.Bytes.{bytes_of};
ghost use Rattle.asmap_records.specs.Output.{Hands};
ghost use Rattle.asmap_load.specs.Load.{number_by, match_by, load_bits, load_of};
ghost use Rattle.asmap_load.specs.Promise.{WritesLoad};

use asmap_bit_writer::BitWriter;
use asmap_program::{DEFAULT, MATCH, RETURN};
use load_draws::Generator;
use refusals::Refusal;

// The most pairs of a load: each uses an address bit, and an address has 128.
pub const MAX_PAIRS: usize = 128;

// The number of a DEFAULT or of the RETURN, by its draw.
fn number_by(drawn: Generator) -> u32
    ensures { result ≡ number_by drawn.state }
{
    1 + (drawn.state % 65536) as u32
}

// The operand of a MATCH, by its draw.
fn match_by(drawn: Generator) -> u32
    ensures { result ≡ match_by drawn.state }
{
    2 + (drawn.state % 2) as u32
}

// How many bits a load has.
fn load_length(generator: Generator, pairs: usize) -> usize
    requires { pairs ≤ 128 }
    ensures { result ≡ length (load_bits pairs generator.state) }
{
    let mut drawn = generator;
    let mut bits: usize = 0;
    for _ in 0..pairs {
        let first = drawn.next();
        let default_bits = asmap_encode::instruction_length(DEFAULT, number_by(first));
        drawn = first.next();
        let match_bits = asmap_encode::instruction_length(MATCH, match_by(drawn));
        bits += default_bits + match_bits;
    }
    let last = drawn.next();
    bits + asmap_encode::instruction_length(RETURN, number_by(last))
}

// The load's bits as bytes, the last padded with zeros. The output is long enough.
fn write_load(generator: Generator, pairs: usize, out: &mut [u8])
    requires { length (load_bits pairs generator.state) ≤ 8 * length out.old }
    ensures { out.new ≡ sets out.old 0 (bytes_of (load_bits pairs generator.state)) }
{
    let mut writer = BitWriter::at(0);
    let mut drawn = generator;
    for _ in 0..pairs {
        let first = drawn.next();
        let number = number_by(first);
        writer.push_instruction(out, DEFAULT, number);
        drawn = first.next();
        let operand = match_by(drawn);
        writer.push_instruction(out, MATCH, operand);
    }
    let last = drawn.next();
    let number = number_by(last);
    writer.push_instruction(out, RETURN, number);
    writer.finish(out);
}

// Writes the load of so many pairs from a seed. Refusals 20 for a seed of 0 or more than 128 pairs, then 14; a refused call writes nothing.
pub fn load(seed: u64, pairs: usize, out: &mut [u8]) -> Result<usize, Refusal>
    ensures hands { Hands (load_of seed pairs) out.old out.new result }
    ensures passes { WritesLoad seed pairs out.new result }
{
    let generator = Generator::seeded(seed)?;
    if MAX_PAIRS < pairs {
        return Err(Refusal::Load);
    }
    let bytes = load_length(generator, pairs).div_ceil(8);
    if out.len() < bytes {
        return Err(Refusal::OutputTooShort);
    }
    write_load(generator, pairs, out);
    Ok(bytes)
}
