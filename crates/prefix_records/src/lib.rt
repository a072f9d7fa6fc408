// Prefixes as records (document 02, CR 1): pieces of the addresses, the law of those that tile, and records of 24 bytes. Pieces that tile begin
// each where the one before it ends, so whoever writes them carries one address along and no prefix.
#![tactic(auto)]

ghost use Rattle.std.specs.Prelude.{◌≡◌, ◌+◌, ◌^◌, ◌<◌, ◌≤◌, length};
ghost use Rattle.std.proofs.lemmas.List.Edits.{sets};
ghost use Rattle.prefix_records.specs.models.Cursor.{Behind, record_at};

// An address of 128 bits, as two halves: they are ordered as the numbers are that they make.
#[derive(Clone, Copy, Debug, PartialEq, Eq, PartialOrd, Ord)]
pub struct Address {
    pub high: u64,
    pub low: u64,
}

impl Address {
    // The first of all addresses.
    pub const ZERO: Address = Address { high: 0, low: 0 };
}

fn power(k: u8) -> u64
    requires { k < 64 }
    ensures { result ≡ 2 ^ k }
{
    1 << k
}

// The address behind a piece that begins at an address. Behind the last piece there is none, and 0 is handed back.
pub fn behind(a: Address, length: u8) -> Address
    requires { length ≤ 128 }
    ensures { Behind a length result }
{
    if length == 0 {
        return a;
    }
    let Address { high, low } = a;
    if length <= 64 {
        let high = high.wrapping_add(power(64 - length));
        return Address { high, low };
    }
    let (low, carried) = low.overflowing_add(power(128 - length));
    let high = high.wrapping_add(u64::from(carried));
    Address { high, low }
}

// The record of a piece that begins at an address. The length goes out as a number of four bytes: the upper three are the record's zeros.
pub fn put_record(out: &mut [u8], at: usize, a: Address, len: u8, number: u32)
    requires { at + 24 ≤ length out.old }
    ensures { out.new ≡ sets out.old at (record_at a len number) }
{
    byte_numbers::put_big(out, at, a.high);
    byte_numbers::put_big(out, at + 8, a.low);
    byte_numbers::put_number(out, at + 16, len as u32);
    byte_numbers::put_number(out, at + 20, number);
}
