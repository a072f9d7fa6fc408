// Lists of prefixes as records of 24 bytes (document 02, CR 8), read: the fields of a record, and whether a list may be built from.
#![tactic(auto)]

ghost use Rattle.std.specs.Prelude.{◌≡◌, ◌+◌, ◌-◌, ◌*◌, ◌%◌, ◌^◌, ◌≤◌, eqb, leb, length};
ghost use Rattle.prefix_records.specs.models.Cursor.{value_of};
ghost use Rattle.byte_numbers.specs.Numbers.{number4};
ghost use Rattle.prefix_lists.specs.List.{big, address_at, length_at, zeros_at, earliest, fits, is_number, judge};
ghost use Rattle.prefix_lists.specs.models.End.{Ends, may_begin};

use prefix_records::Address;
use refusals::Refusal;

// The number in the eight bytes from a place on, the highest byte first. It compiles to one load.
fn big_at(bytes: &[u8], at: usize) -> u64
    requires { at + 8 ≤ length bytes.now }
    ensures { result ≡ big 8 bytes.now at }
{
    u64::from_be_bytes(byte_numbers::bytes_at(bytes, at))
}

// The address in the sixteen bytes from a place on.
pub fn address_at(bytes: &[u8], at: usize) -> Address
    requires { at + 16 ≤ length bytes.now }
    ensures { value_of result ≡ big 16 bytes.now at }
{
    let high = big_at(bytes, at);
    let low = big_at(bytes, at + 8);
    Address { high, low }
}

// What a record says: where its prefix begins, how long that is, and its number.
#[derive(Clone, Copy, Debug, PartialEq, Eq)]
pub struct Record {
    pub address: Address,
    pub length: u8,
    pub number: u32,
}

// Record i of a list.
pub fn record_at(records: &[u8], i: usize) -> Record
    requires { 24 * i + 24 ≤ length records.now }
    ensures address { value_of result.address ≡ address_at records.now i }
    ensures length { result.length ≡ length_at records.now i }
    ensures number { result.number ≡ number4 records.now (24 * i + 20) }
{
    let at = 24 * i;
    Record {
        address: address_at(records, at),
        length: records[at + 16],
        number: byte_numbers::number_at(records, at + 20),
    }
}

// ---- whether a list may be built from

// Whether a number may be a RETURN's.
fn is_number(number: u32) -> bool
    ensures { result ≡ is_number number }
{
    (1..=33521664).contains(&number)
}

// Whether the lowest k bits of a number are zeros.
fn zeros_below(x: u64, k: u8) -> bool
    requires { k ≤ 64 }
    ensures { result ≡ eqb (x % 2 ^ k) 0 }
{
    if k == 64 {
        return x == 0;
    }
    x % (1 << k) == 0
}

// Whether an address has only zeros past its first bits, as many as a length says.
fn zeros_past(a: Address, length: u8) -> bool
    requires { length ≤ 128 }
    ensures { result ≡ eqb (value_of a % 2 ^ (128 - length)) 0 }
{
    if length > 64 {
        return zeros_below(a.low, 128 - length);
    }
    a.low == 0 && zeros_below(a.high, 64 - length)
}

// Whether record i may begin at an address. The end is the address behind the record before it; 0 stands there for the one behind all addresses.
fn may_begin(i: usize, end: Address, a: Address) -> bool
    ensures { result ≡ may_begin i (value_of end) (value_of a) }
{
    i == 0 || (end != Address::ZERO && end <= a)
}

// Whether the three bytes behind the length of record i are zeros.
fn zeros_at(records: &[u8], i: usize) -> bool
    requires { 24 * i + 24 ≤ length records.now }
    ensures { result ≡ zeros_at records.now i }
{
    let at = 24 * i;
    records[at + 17] == 0 && records[at + 18] == 0 && records[at + 19] == 0
}

// Whether record i has a prefix that may stand there.
fn fits_at(records: &[u8], i: usize, end: Address, width: u8) -> bool
    requires { (24 * i + 24 ≤ length records.now) × (width ≤ 128) × Ends (earliest records.now i) end }
    ensures { result ≡ fits width records.now i }
{
    let Record {
        address,
        length,
        ..
    } = record_at(records, i);
    length <= width
        && zeros_at(records, i)
        && zeros_past(address, length)
        && may_begin(i, end, address)
}

// A list of records judged at a width, with the number for all other addresses. Refusals 21 and 22, in the records' order.
pub fn judge_list(records: &[u8], given: u32, width: u8) -> Result<(), Refusal>
    requires { width ≤ 128 }
    ensures { result ≡ judge width records.now given }
{
    if records.len() % 24 != 0 {
        return Err(Refusal::Prefix);
    }
    let mut end = Address::ZERO;
    for i in 0..records.len() / 24 {
        if !fits_at(records, i, end, width) {
            return Err(Refusal::Prefix);
        }
        let record = record_at(records, i);
        if !is_number(record.number) {
            return Err(Refusal::Number);
        }
        end = prefix_records::behind(record.address, record.length);
    }
    if !is_number(given) {
        return Err(Refusal::Number);
    }
    Ok(())
}
