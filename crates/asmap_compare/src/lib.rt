// Two maps compared for every address: the pieces on which their listings differ, as records of 28 bytes in a lent output, and how many bytes that
// takes.
#![tactic(auto)]

ghost use Rattle.std.specs.Prelude.{true, ◌≤◌, length};
ghost use Rattle.asmap_records.specs.Output.{Made, Hands};
ghost use Rattle.prefix_changes.specs.Record.{change_records_of};
ghost use Rattle.asmap_changes.specs.Changes.{changes_of};
ghost use Rattle.asmap_changes.specs.models.Side.{Ready, RoomFor};
ghost use Rattle.asmap_compare.specs.Compare.{Told, comparison, comparison_at, compare_of, compare_at, Finds};
ghost use Rattle.asmap_compare.specs.Promise.{Compares};

use asmap_changes::{Counted, Written, put_changes};
use asmap_program::ADDRESS_BITS;
use refusals::Refusal;

// The records of two maps that the check accepts, into an output that has room for them.
fn write_changes(old: &[u8], new: &[u8], out: &mut [u8]) -> Result<usize, Refusal>
    requires { Ready old.now × Ready new.now × RoomFor true (length (changes_of old.now new.now 128)) out.old }
    ensures { Hands (Made (change_records_of (changes_of old.now new.now 128))) out.old out.new result }
{
    Ok(28 * put_changes::<Written>(old, new, out).pieces)
}

// The same into any output. One with room for all `pieces` of both maps has room for the changes; else they are counted first, so that an output
// too short is refused before the first byte is written.
fn write_if_room(old: &[u8], new: &[u8], pieces: usize, out: &mut [u8]) -> Result<usize, Refusal>
    requires { Ready old.now × Ready new.now × (length (changes_of old.now new.now 128) ≤ pieces) }
    ensures { Hands (Made (change_records_of (changes_of old.now new.now 128))) out.old out.new result }
{
    if pieces <= out.len() / 28 {
        return write_changes(old, new, out);
    }
    let found = put_changes::<Counted>(old, new, out);
    if out.len() / 28 < found.pieces {
        return Err(Refusal::OutputTooShort);
    }
    write_changes(old, new, out)
}

// Compares two maps that the check accepts over a number of address bits. The calls below fix it.
fn compare_over(old: &[u8], new: &[u8], bits: u8, out: &mut [u8]) -> Result<usize, Refusal>
    requires { bits ≤ 128 }
    ensures { Hands (compare_of old.now new.now bits) out.old out.new result }
{
    let olds = asmap_check::sanity_check_pieces(old, bits)?;
    let news = asmap_check::sanity_check_pieces(new, bits).map_err(Refusal::NewMap)?;
    write_if_room(old, new, olds + news, out)
}

// Compares two maps that the check accepts at 128 address bits. Refusals: the old map's check, 1 to 10 and 19; the new map's, 101 to 110 and 119,
// which is the check's number and 100 more; then 14. A refused call writes nothing.
pub fn compare(old: &[u8], new: &[u8], out: &mut [u8]) -> Result<usize, Refusal>
    ensures hands { Hands (compare_of old.now new.now 128) out.old out.new result }
    ensures compares { Compares old.now new.now 128 }
{
    compare_over(old, new, ADDRESS_BITS, out)
}

// The same at a width, which both maps have: 18 for one that is neither 32 nor 128, before the checks.
pub fn compare_bits(old: &[u8], new: &[u8], width: u32, out: &mut [u8]) -> Result<usize, Refusal>
    ensures hands { Hands (compare_at old.now new.now width) out.old out.new result }
    ensures compares { Compares old.now new.now width }
{
    if !asmap_program::is_width(width) {
        return Err(Refusal::Width);
    }
    compare_over(old, new, width as u8, out)
}

// How many bytes the changes of two maps that the check accepts need, and the first address that differs, into 16 bytes.
fn find_changes(old: &[u8], new: &[u8], first: &mut [u8]) -> Result<usize, Refusal>
    requires { Ready old.now × Ready new.now }
    ensures { Finds (Told (changes_of old.now new.now 128)) first.old first.new result }
{
    if first.len() < 16 {
        return Err(Refusal::OutputTooShort);
    }
    let found = put_changes::<Counted>(old, new, first);
    let address = found.first;
    byte_numbers::put_big(first, 0, address.high);
    byte_numbers::put_big(first, 8, address.low);
    Ok(28 * found.pieces)
}

// How many bytes a comparison needs, over a number of address bits, and the first address that differs.
fn bytes_over(old: &[u8], new: &[u8], bits: u8, first: &mut [u8]) -> Result<usize, Refusal>
    requires { bits ≤ 128 }
    ensures { Finds (comparison old.now new.now bits) first.old first.new result }
{
    asmap_check::sanity_check_pieces(old, bits)?;
    asmap_check::sanity_check_pieces(new, bits).map_err(Refusal::NewMap)?;
    find_changes(old, new, first)
}

// How many bytes `compare` needs, for whoever has to lend them, and the first address that differs: 0 bytes and 16 zeros where none does. Refused as
// `compare` is, with 14 where fewer than 16 bytes are lent for the address; a refused call writes nothing.
pub fn compare_bytes(old: &[u8], new: &[u8], first: &mut [u8]) -> Result<usize, Refusal>
    ensures finds { Finds (comparison old.now new.now 128) first.old first.new result }
    ensures compares { Compares old.now new.now 128 }
{
    bytes_over(old, new, ADDRESS_BITS, first)
}

// The same at a width, which both maps have: 18 for one that is neither 32 nor 128, before the checks.
pub fn compare_bytes_bits(
    old: &[u8],
    new: &[u8],
    width: u32,
    first: &mut [u8],
) -> Result<usize, Refusal>
    ensures finds { Finds (comparison_at old.now new.now width) first.old first.new result }
    ensures compares { Compares old.now new.now width }
{
    if !asmap_program::is_width(width) {
        return Err(Refusal::Width);
    }
    bytes_over(old, new, width as u8, first)
}
