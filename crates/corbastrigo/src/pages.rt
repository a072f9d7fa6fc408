// The spread of a list of candidates on a printed page (document 02, CR 4): a line of 25 bytes for each group, groups rising. `has_map` is that
// of the group calls and of the pick.
ghost use Rattle.std.specs.Prelude.{◌≡◌, ◌∷◌, [], Ok, None};
ghost use Rattle.netgroup.specs.Group.{by_old_prefixes, numbering};
ghost use Rattle.netgroup.specs.Refusal.{check_refusal};
ghost use Rattle.spread_page.specs.Page.{spread_page, spread_unchecked, old_prefix_page};
ghost use Rattle.spread_page.specs.Promise.{Told, Unaborted};
ghost use Rattle.answer_groups.specs.Groups.{numbering_of};
ghost use Rattle.answer_bytes.specs.Bytes.{Writes};

use answer_bytes::hand_bytes;
use answer_groups::grouping_of;

// The page, with a map or none. Refusals 13, 12, 13, with a map the check's, 1 to 10 and 19, then 14.
pub fn corbastrigo_page(
    candidates: &[u8],
    has_map: u8,
    map: &[u8],
    out: &mut [u8],
    written: &mut usize,
) -> u8
    ensures writes { Writes (spread_page (numbering_of has_map map.now) candidates.now) out.old out.new result (written.old ∷ []) (written.new ∷ []) }
    ensures told { result ≡ 0 → Told (numbering_of has_map map.now) candidates.now (Ok written.new) }
    ensures unaborted { result ≡ 0 → Unaborted (numbering_of has_map map.now) candidates.now (Ok written.new) }
{
    hand_bytes(
        spread_page::page(candidates, grouping_of(has_map, map), out),
        written,
    )
}

// The same over a map taken as it is. Refusals 13, 12, 13, with a map 1, then 14.
pub fn corbastrigo_page_unchecked(
    candidates: &[u8],
    has_map: u8,
    map: &[u8],
    out: &mut [u8],
    written: &mut usize,
) -> u8
    ensures writes { Writes (spread_unchecked (numbering_of has_map map.now) candidates.now) out.old out.new result (written.old ∷ []) (written.new ∷ []) }
    ensures told { result ≡ 0 → Told (numbering_of has_map map.now) candidates.now (Ok written.new) }
    ensures unaborted { check_refusal (numbering_of has_map map.now) ≡ None → result ≡ 0 → Unaborted (numbering_of has_map map.now) candidates.now (Ok written.new) }
{
    hand_bytes(
        spread_page::page_unchecked(candidates, grouping_of(has_map, map), out),
        written,
    )
}

// The page without a map in the old numbering of prefixes (document 02, CR 7). Refusals 13, 12, 13, 14.
pub fn corbastrigo_old_prefix_page(candidates: &[u8], out: &mut [u8], written: &mut usize) -> u8
    ensures writes { Writes (old_prefix_page candidates.now) out.old out.new result (written.old ∷ []) (written.new ∷ []) }
    ensures told { result ≡ 0 → Told by_old_prefixes candidates.now (Ok written.new) }
{
    hand_bytes(spread_page::old_prefix_page(candidates, out), written)
}
