// The bits of a map from a place on (document 01, Codes): one, or as many as an instruction can have, as one number.
#![tactic(auto)]

ghost use Rattle.std.specs.Prelude.{◌≡◌, ◌+◌, ◌*◌, ◌≤◌, ◌<◌, length, get_or, drop};
ghost use Rattle.asmap_codes.specs.Bits.{map_bits};
ghost use Rattle.asmap_window.specs.models.Window.{Window};

// The bit of a map at a place inside it (`consume_bit_le`).
pub fn bit_at(map: &[u8], at: usize) -> u32
    requires { at < 8 * length map.now }
    ensures { result ≡ get_or (map_bits map.now) at 0 }
{
    let byte = map[at / 8] as u32;
    (byte >> (at % 8)) % 2
}

// The bytes from byte b to the map's end, fewer than eight.
fn load_tail(map: &[u8], b: usize) -> u64
    requires { (b ≤ length map.now) × (length map.now < b + 8) }
    ensures { Window 64 result (drop (8 * b) (map_bits map.now)) }
{
    let mut w: u64 = 0;
    for i in (b..map.len()).rev() {
        w = w * 256 + map[i] as u64;
    }
    w
}

// At least 57 bits from bit `at` on, the first lowest, with zeros past the map's end. Eight bytes hold 64 bits, of which at
// most 7 stand before `at` in its byte; the longest instruction, a JUMP, has 57. So an instruction is read from one window.
// The bits of the answer from the 57th on are left open: they are the map's while the eight bytes reach and zeros after that. No
// caller can see them, since no code or instruction that is read from a window has more than 57 bits.
pub fn window(map: &[u8], at: usize) -> u64
    ensures { Window 57 result (drop at (map_bits map.now)) }
{
    let b = at / 8;
    if b + 8 <= map.len() {
        return byte_numbers::word_at(map, b) >> (at % 8);
    }
    if b < map.len() {
        return load_tail(map, b) >> (at % 8);
    }
    0
}
