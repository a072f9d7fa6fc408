// Numbers in bytes: of four bytes, the lowest first, as the fields of records have them, read and written at a place; of eight bytes, the
// highest first, as addresses have them, written; and several bytes looked at as one number, which compiles to one load.
#![tactic(auto)]

ghost use Rattle.std.specs.Prelude.{◌≡◌, ◌+◌, ◌≤◌, length, take, drop};
ghost use Rattle.std.proofs.lemmas.List.Edits.{sets};
ghost use Rattle.byte_numbers.specs.Numbers.{big8, bytes4, number4};
ghost use Rattle.byte_numbers.specs.models.Word.{Word};

// So many bytes from a place on. Read as a number they compile to one load.
pub fn bytes_at<const N: usize>(bytes: &[u8], at: usize) -> [u8; N]
    requires { at + N ≤ length bytes.now }
    ensures { result ≡ take N (drop at bytes.now) }
{
    *bytes[at..at + N].as_array().unwrap()
}

// ---- numbers of four bytes

// The number in the four bytes from a place on.
pub fn number_at(bytes: &[u8], at: usize) -> u32
    requires { at + 4 ≤ length bytes.now }
    ensures { result ≡ number4 bytes.now at }
{
    u32::from_le_bytes(bytes_at(bytes, at))
}

// A number put into the four bytes from a place on.
pub fn put_number(out: &mut [u8], at: usize, x: u32)
    requires { at + 4 ≤ length out.old }
    ensures { out.new ≡ sets out.old at (bytes4 x) }
{
    out[at..at + 4].copy_from_slice(&x.to_le_bytes());
}

// ---- several bytes as one number

// The eight bytes from a place on. They compile to one load.
pub fn word_at(bytes: &[u8], at: usize) -> u64
    requires { at + 8 ≤ length bytes.now }
    ensures { Word result (take 8 (drop at bytes.now)) }
{
    u64::from_le_bytes(bytes_at(bytes, at))
}

// The four bytes from a place on.
pub fn half_at(bytes: &[u8], at: usize) -> u64
    requires { at + 4 ≤ length bytes.now }
    ensures { Word result (take 4 (drop at bytes.now)) }
{
    number_at(bytes, at) as u64
}

// ---- numbers of eight bytes

// A number put into the eight bytes from a place on, the highest byte first. Copied as one part they compile to one store of eight bytes, also where
// two such numbers follow each other; put one by one they stay eight stores there.
pub fn put_big(out: &mut [u8], at: usize, x: u64)
    requires { at + 8 ≤ length out.old }
    ensures { out.new ≡ sets out.old at (big8 x) }
{
    out[at..at + 8].copy_from_slice(&x.to_be_bytes());
}
