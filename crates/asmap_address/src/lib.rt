// An address (document 01, Walk): its bits, one by one and several at once, beside those that a MATCH compares with them; and the
// 16 bytes of an IPv4 address.
#![tactic(auto)]

ghost use Rattle.std.specs.Prelude.{◌≡◌, [], ◌∷◌, ℕ, ◌+◌, ◌-◌, ◌*◌, ◌%◌, ◌^◌, ◌≤◌, ◌<◌, eqb, length, get_or};
ghost use Rattle.std.specs.Int.Bits.{bit_xor};
ghost use Rattle.asmap_program.specs.Map.{address_bit, bit_of, ipv4_mapped, Width};
ghost use Rattle.asmap_address.specs.models.Front.{Front};

// The 16 bytes that stand for the IPv4 address a.b.c.d (`ip16_for_lookup`).
pub fn ipv4_mapped(a: u8, b: u8, c: u8, d: u8) -> [u8; 16]
    ensures { result ≡ ipv4_mapped (a ∷ b ∷ c ∷ d ∷ []) }
{
    [0, 0, 0, 0, 0, 0, 0, 0, 0, 0, 255, 255, a, b, c, d]
}

// A bit of the address, from the highest of each byte down (`consume_bit_be`).
pub fn address_bit(address: &[u8], at: u8) -> u32
    requires { at < 8 * length address.now }
    ensures { result ≡ address_bit address.now at }
{
    let place = at as usize;
    let byte = address[place / 8] as u32;
    (byte >> (7 - place % 8)) % 2
}

// A byte of the address as a number, 0 past its end.
fn address_byte(address: &[u8], at: usize) -> u32
    ensures { (result ≡ get_or address.now at 0) × (result < 256) }
{
    if at < address.len() {
        return address[at] as u32;
    }
    0
}

// The address bits that a MATCH of length n compares, at most 8 from bit `at` on, in one number: the last of them is its lowest bit.
// They stand in two bytes.
fn address_bits(address: &[u8], at: u8, n: u8) -> u32
    requires { n ≤ 8 }
    ensures { (k : ℕ) → k < n → bit_of result k ≡ address_bit address.now (at + (n - 1 - k)) }
{
    let place = at as usize;
    let first = address_byte(address, place / 8);
    let second = address_byte(address, place / 8 + 1);
    (first * 256 + second) >> (16 - place % 8 - n as usize)
}

// A bit of a number, by its weight 2 ^ k.
pub fn bit_of(x: u32, k: u8) -> u32
    requires { k < 32 }
    ensures { result ≡ bit_of x k }
{
    (x >> k) % 2
}

// Whether the lowest n bits of two numbers are the same.
fn same_bits(a: u32, b: u32, n: u8) -> bool
    requires { n < 32 }
    ensures { result ≡ eqb (a % 2 ^ n) (b % 2 ^ n) }
{
    let weight = asmap_codes::power(n);
    a % weight == b % weight
}

// How many of the lowest n bits of two numbers are the same, from the highest of them down to the first that differs.
fn same_front(a: u32, b: u32, n: u8) -> u8
    requires { n < 32 }
    ensures { (result ≤ n) × Width (bit_xor a b % 2 ^ n) (n - result) }
{
    let differing = (a ^ b) % asmap_codes::power(n);
    n - asmap_program::bit_width(differing) as u8
}

// How many bits at the front of a MATCH of length n are those of the address from bit `at` on: all n, or those before the first
// that differs.
pub fn equal_front(address: &[u8], at: u8, operand: u32, n: u8) -> u8
    requires { n ≤ 8 }
    ensures { Front address.now at operand n result }
{
    let bits = address_bits(address, at, n);
    // Most often all are equal, which is told sooner than where they differ.
    if same_bits(bits, operand, n) {
        return n;
    }
    same_front(bits, operand, n)
}
