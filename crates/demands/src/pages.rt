// Request 4 (`demand_statements/specs/Printed`), and demand 1 for its calls (ensures refused, `specs/AnyInput` there). A `has_map` of 0 is without
// a map.
ghost use Rattle.std.specs.Prelude.{◌≡◌, [], ◌/◌, length, take};
ghost use Rattle.demand_statements.specs.AnyInput.{Pages, LoadedPages};
ghost use Rattle.demand_statements.specs.Picked.{each, old_prefix_at};
ghost use Rattle.demand_statements.specs.Printed.{Printed, Paged, PrintedByMap};

use corbastrigo::maps::corbastrigo_sanity_check;
use corbastrigo::pages::{
    corbastrigo_old_prefix_page, corbastrigo_page, corbastrigo_page_unchecked,
};

// A page, with a map or none. What is said of it is read off the bytes written.
pub fn spread_page(
    candidates: &[u8],
    has_map: u8,
    map: &[u8],
    out: &mut [u8],
    written: &mut usize,
) -> u8
    ensures paged { result ≡ 0 → Paged has_map map.now candidates.now (take written.new out.new) }
    ensures refused { Pages has_map map.now candidates.now out.old out.new result written.old written.new }
{
    corbastrigo_page(candidates, has_map, map, out, written)
}

// The same by a map that the caller checks first, as when it is loaded, and then by the call that checks no more.
pub fn page_by_loaded_map(candidates: &[u8], map: &[u8], out: &mut [u8], written: &mut usize) -> u8
    ensures printed_by_map { result ≡ 0 → PrintedByMap map.now candidates.now (take written.new out.new) }
    ensures refused { LoadedPages out.old out.new result written.old written.new }
{
    let mut count: u32 = 0;
    let mut depth: u8 = 0;
    let refused = corbastrigo_sanity_check(map, &mut count, &mut depth);
    if refused != 0 {
        return refused;
    }
    corbastrigo_page_unchecked(candidates, 1, map, out, written)
}

// A page by prefixes in the old numbering.
pub fn page_by_old_prefixes(candidates: &[u8], out: &mut [u8], written: &mut usize) -> u8
    ensures printed { result ≡ 0 → Printed (each (length candidates.now / 20) (old_prefix_at candidates.now)) (take written.new out.new) }
    ensures refused { Pages 0 [] candidates.now out.old out.new result written.old written.new }
{
    corbastrigo_old_prefix_page(candidates, out, written)
}
