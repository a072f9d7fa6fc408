// What a bit reader reads (document 01, Forms and Codes), on a plain slice and a number: one bit, or a code of one of the four rows; the place after
// it, and how many bits are left there.
#![tactic(auto)]

ghost use Rattle.std.specs.Prelude.{◌≡◌};
ghost use Rattle.asmap_items.specs.Items.{read_bit, read_item, place_after, bits_left};

use asmap_codes::Code;
use asmap_program::MAX_MAP_BYTES;
use refusals::Fault;

// What a reader can be asked for: one bit, or a code of one of the four rows.
#[derive(Clone, Copy)]
pub enum Item {
    Bit,
    Opcode,
    Asn,
    Match,
    Jump,
}

// Reads one bit (`consume_bit_le`). Refusals 1, and 4 at or past the map's end, as for an opcode; nothing is asked of the caller.
pub fn decode_bit(map: &[u8], at: usize) -> Result<Code, Fault>
    ensures { result ≡ read_bit map.now at }
{
    let bytes = map.len();
    if MAX_MAP_BYTES < bytes {
        return Err(Fault::MapTooLong);
    }
    if 8 * bytes <= at {
        return Err(Fault::CutOpcode);
    }
    Ok((asmap_window::bit_at(map, at), at + 1))
}

// Reads what is asked for. Refusals 1, then 4 for a bit or an opcode, 19 for the other three; nothing is asked of the caller.
pub fn decode_item(map: &[u8], at: usize, item: Item) -> Result<Code, Fault>
    ensures { result ≡ read_item map.now at item }
{
    match item {
        Item::Bit => decode_bit(map, at),
        Item::Opcode => asmap_decode::decode_type(map, at),
        Item::Asn => asmap_decode::decode_asn(map, at),
        Item::Match => asmap_decode::decode_match(map, at),
        Item::Jump => asmap_decode::decode_jump(map, at),
    }
}

// The place after a read: the bit after what was read, or where the reader stood when it was refused.
pub fn place_after(at: usize, got: Result<Code, Fault>) -> usize
    ensures { result ≡ place_after at got }
{
    match got {
        Ok((_, next)) => next,
        Err(_) => at,
    }
}

// How many bits a reader at a place can still read: none of a map over the limit.
pub fn bits_left(map: &[u8], at: usize) -> usize
    ensures { result ≡ bits_left map.now at }
{
    if MAX_MAP_BYTES < map.len() {
        return 0;
    }
    (8 * map.len()).saturating_sub(at)
}
