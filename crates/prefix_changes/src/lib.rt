// Two lists of pieces side by side: the pieces on which their numbers differ, what these tell of every address, and their records of 28 bytes.
#![tactic(auto)]

ghost use Rattle.std.specs.Prelude.{◌≡◌, ◌++◌, ◌+◌, ◌≤◌, length};
ghost use Rattle.std.proofs.lemmas.List.Edits.{sets};
ghost use Rattle.byte_numbers.specs.Numbers.{bytes4};
ghost use Rattle.prefix_records.specs.models.Cursor.{record_at};

use prefix_records::Address;

// The record of a change that begins at an address: that of its piece with the old number, and the new number behind it.
pub fn put_change(out: &mut [u8], at: usize, a: Address, len: u8, old: u32, new: u32)
    requires { at + 28 ≤ length out.old }
    ensures { out.new ≡ sets out.old at (record_at a len old ++ bytes4 new) }
{
    prefix_records::put_record(out, at, a, len, old);
    byte_numbers::put_number(out, at + 24, new);
}
