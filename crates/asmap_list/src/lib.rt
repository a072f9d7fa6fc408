// The listing calls (document 02, CR 1): every prefix that a map tells apart, as records of 24 bytes in a lent output, and how many bytes that
// takes. The check counts the pieces, so that an output too short is refused before the first byte is written.
#![tactic(auto)]

ghost use Rattle.std.specs.Prelude.{◌≡◌, ◌*◌, ◌≤◌, length};
ghost use Rattle.std.proofs.lemmas.List.Edits.{sets};
ghost use Rattle.asmap_program.specs.Map.{limit};
ghost use Rattle.asmap_codes.specs.Instruction.{map_of};
ghost use Rattle.asmap_records.specs.Output.{Hands};
ghost use Rattle.prefix_records.specs.Record.{records_of};
ghost use Rattle.asmap_listing.specs.Listing.{listing};
ghost use Rattle.asmap_list.specs.List.{list_of, list_at, needed_of, needed_at};
ghost use Rattle.asmap_list.specs.Promise.{Covers};
ghost use Rattle.asmap_list.specs.models.Listed.{Listed};

use asmap_list_step::{Spot, Stack};
use asmap_program::ADDRESS_BITS;
use prefix_records::Address;
use refusals::Refusal;

// The records of a map's listing, which has `count` pieces, at an output's front. The address is carried along: each piece begins where the
// one before it ends.
fn put_listing(map: &[u8], count: usize, out: &mut [u8])
    requires { (length map.now ≤ limit) × (24 * count ≤ length out.old) × Listed map.now count }
    ensures { out.new ≡ sets out.old 0 (records_of (listing (map_of map.now))) }
{
    let mut stack = Stack::new();
    let mut s = asmap_list_step::start();
    let mut a = Address::ZERO;
    for k in 0..count {
        let Some((length, number, next)) = asmap_list_step::next_piece(map, s, &mut stack) else {
            return;
        };
        prefix_records::put_record(out, 24 * k, a, length, number);
        a = prefix_records::behind(a, length);
        // Field by field: a copy of the whole would wait for the narrow stores that made it.
        s = Spot {
            at: next.at,
            used: next.used,
            default: next.default,
            value: next.value,
            left: next.left,
            depth: next.depth,
            up: next.up,
        };
    }
}

// Lists a map that the check accepts over a number of address bits. The calls below fix it.
fn list_over(map: &[u8], bits: u8, out: &mut [u8]) -> Result<usize, Refusal>
    requires { bits ≤ 128 }
    ensures { Hands (list_of map.now bits) out.old out.new result }
{
    let pieces = asmap_check::sanity_check_pieces(map, bits)?;
    if out.len() / 24 < pieces {
        return Err(Refusal::OutputTooShort);
    }
    put_listing(map, pieces, out);
    Ok(24 * pieces)
}

// Lists a map that the check accepts at 128 address bits. Refusals: the check's, 1 to 10 and 19, then 14; a refused call writes nothing.
// A number of 0 in a record is that of a MATCH that differs before a DEFAULT was met. It is not "unmapped", and no walk there is aborted.
pub fn list(map: &[u8], out: &mut [u8]) -> Result<usize, Refusal>
    ensures hands { Hands (list_of map.now 128) out.old out.new result }
    ensures covers { Covers map.now 128 }
{
    list_over(map, ADDRESS_BITS, out)
}

// The same at a width: 18 for one that is neither 32 nor 128, before the check. At 32 a record has its address in the first 4 of the 16 bytes,
// with zeros behind, and a prefix length of at most 32.
pub fn list_bits(map: &[u8], width: u32, out: &mut [u8]) -> Result<usize, Refusal>
    ensures hands { Hands (list_at map.now width) out.old out.new result }
    ensures covers { Covers map.now width }
{
    if !asmap_program::is_width(width) {
        return Err(Refusal::Width);
    }
    list_over(map, width as u8, out)
}

// How many bytes the listing of a map needs, over a number of address bits.
fn bytes_over(map: &[u8], bits: u8) -> Result<usize, Refusal>
    requires { bits ≤ 128 }
    ensures { result ≡ needed_of map.now bits }
{
    Ok(24 * asmap_check::sanity_check_pieces(map, bits)?)
}

// How many bytes the listing of a map needs, for whoever has to lend them. Refused as the check does, 1 to 10 or 19.
pub fn list_bytes(map: &[u8]) -> Result<usize, Refusal>
    ensures { result ≡ needed_of map.now 128 }
{
    bytes_over(map, ADDRESS_BITS)
}

// The same at a width: 18 for one that is neither 32 nor 128, before the check.
pub fn list_bytes_bits(map: &[u8], width: u32) -> Result<usize, Refusal>
    ensures { result ≡ needed_at map.now width }
{
    if !asmap_program::is_width(width) {
        return Err(Refusal::Width);
    }
    bytes_over(map, width as u8)
}
