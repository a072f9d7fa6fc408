// The exports of `corbastrigo: groups` for C: each says again what the call of the library says, and calls it.
ghost use Rattle.std.specs.Prelude.{◌≡◌, ◌∷◌, [], Ok, None};
ghost use Rattle.peer_lists.specs.Candidates.{candidates_of};
ghost use Rattle.group_lists.specs.Scan.{scan_of};
ghost use Rattle.netgroup.specs.Group.{by_old_prefixes, numbering};
ghost use Rattle.netgroup.specs.Netgroup.{prefix_group_call, netgroup_of, netgroup_unchecked, Whole};
ghost use Rattle.netgroup.specs.Refusal.{check_refusal};
ghost use Rattle.netgroup_pick.specs.Pick.{select_diverse, select_unchecked, old_prefix_pick};
ghost use Rattle.netgroup_pick.specs.Demand.{Demand3, Unaborted};
ghost use Rattle.answer_outcome.specs.Outcome.{Hands};
ghost use Rattle.answer_groups.specs.Groups.{numbering_of, group_found, scan_made, totals_of, Picks};

#[unsafe(no_mangle)]
pub extern "C" fn corbastrigo_prefix_group(candidate: &[u8], group: &mut u64) -> u8
    ensures { Hands (group_found (prefix_group_call candidate.now)) result (group.old ∷ []) (group.new ∷ []) }
{
    corbastrigo::groups::corbastrigo_prefix_group(candidate, group)
}

#[unsafe(no_mangle)]
pub extern "C" fn corbastrigo_netgroup(
    candidate: &[u8],
    has_map: u8,
    map: &[u8],
    group: &mut u64,
) -> u8
    ensures hands { Hands (group_found (netgroup_of (numbering_of has_map map.now) candidate.now)) result (group.old ∷ []) (group.new ∷ []) }
    ensures unaborted { result ≡ 0 → Whole (numbering_of has_map map.now) candidate.now (Ok group.new) }
{
    corbastrigo::groups::corbastrigo_netgroup(candidate, has_map, map, group)
}

#[unsafe(no_mangle)]
pub extern "C" fn corbastrigo_netgroup_unchecked(
    candidate: &[u8],
    has_map: u8,
    map: &[u8],
    group: &mut u64,
) -> u8
    ensures hands { Hands (group_found (netgroup_unchecked (numbering_of has_map map.now) candidate.now)) result (group.old ∷ []) (group.new ∷ []) }
    ensures unaborted { check_refusal (numbering_of has_map map.now) ≡ None → result ≡ 0 → Whole (numbering_of has_map map.now) candidate.now (Ok group.new) }
{
    corbastrigo::groups::corbastrigo_netgroup_unchecked(candidate, has_map, map, group)
}

#[unsafe(no_mangle)]
pub extern "C" fn corbastrigo_scan_occupied(
    group: u64,
    occupied: &[u64],
    found: &mut u8,
    place: &mut usize,
    groups_read: &mut usize,
) -> u8
    ensures { Hands (scan_made (scan_of group occupied.now)) result (found.old ∷ place.old ∷ groups_read.old ∷ []) (found.new ∷ place.new ∷ groups_read.new ∷ []) }
{
    corbastrigo::groups::corbastrigo_scan_occupied(group, occupied, found, place, groups_read)
}

#[unsafe(no_mangle)]
pub extern "C" fn corbastrigo_select_diverse(
    candidates: &[u8],
    occupied: &[u64],
    max: usize,
    has_map: u8,
    map: &[u8],
    picks: &mut [u16],
    groups: &mut [u64],
    total: &mut usize,
    first: &mut usize,
    examined: &mut usize,
    instructions: &mut u64,
) -> u8
    ensures picks { Picks (select_diverse (numbering_of has_map map.now) candidates.now occupied.now max picks.old groups.old) result (total.old ∷ first.old ∷ examined.old ∷ instructions.old ∷ []) (total.new ∷ first.new ∷ examined.new ∷ instructions.new ∷ []) picks.new groups.new }
    ensures demand3 { result ≡ 0 → Demand3 (numbering_of has_map map.now) (candidates_of candidates.now) occupied.now max (Ok (totals_of total.new first.new examined.new instructions.new)) picks.new groups.new }
    ensures unaborted { result ≡ 0 → Unaborted (numbering_of has_map map.now) (candidates_of candidates.now) (Ok (totals_of total.new first.new examined.new instructions.new)) }
{
    corbastrigo::groups::corbastrigo_select_diverse(
        candidates,
        occupied,
        max,
        has_map,
        map,
        picks,
        groups,
        total,
        first,
        examined,
        instructions,
    )
}

#[unsafe(no_mangle)]
pub extern "C" fn corbastrigo_select_diverse_unchecked(
    candidates: &[u8],
    occupied: &[u64],
    max: usize,
    has_map: u8,
    map: &[u8],
    picks: &mut [u16],
    groups: &mut [u64],
    total: &mut usize,
    first: &mut usize,
    examined: &mut usize,
    instructions: &mut u64,
) -> u8
    ensures picks { Picks (select_unchecked (numbering_of has_map map.now) candidates.now occupied.now max picks.old groups.old) result (total.old ∷ first.old ∷ examined.old ∷ instructions.old ∷ []) (total.new ∷ first.new ∷ examined.new ∷ instructions.new ∷ []) picks.new groups.new }
    ensures demand3 { result ≡ 0 → Demand3 (numbering_of has_map map.now) (candidates_of candidates.now) occupied.now max (Ok (totals_of total.new first.new examined.new instructions.new)) picks.new groups.new }
    ensures unaborted { check_refusal (numbering_of has_map map.now) ≡ None → result ≡ 0 → Unaborted (numbering_of has_map map.now) (candidates_of candidates.now) (Ok (totals_of total.new first.new examined.new instructions.new)) }
{
    corbastrigo::groups::corbastrigo_select_diverse_unchecked(
        candidates,
        occupied,
        max,
        has_map,
        map,
        picks,
        groups,
        total,
        first,
        examined,
        instructions,
    )
}

#[unsafe(no_mangle)]
pub extern "C" fn corbastrigo_old_prefix_pick(
    candidates: &[u8],
    occupied: &[u64],
    max: usize,
    picks: &mut [u16],
    groups: &mut [u64],
    total: &mut usize,
    first: &mut usize,
    examined: &mut usize,
    instructions: &mut u64,
) -> u8
    ensures picks { Picks (old_prefix_pick candidates.now occupied.now max picks.old groups.old) result (total.old ∷ first.old ∷ examined.old ∷ instructions.old ∷ []) (total.new ∷ first.new ∷ examined.new ∷ instructions.new ∷ []) picks.new groups.new }
    ensures demand3 { result ≡ 0 → Demand3 by_old_prefixes (candidates_of candidates.now) occupied.now max (Ok (totals_of total.new first.new examined.new instructions.new)) picks.new groups.new }
{
    corbastrigo::groups::corbastrigo_old_prefix_pick(
        candidates,
        occupied,
        max,
        picks,
        groups,
        total,
        first,
        examined,
        instructions,
    )
}
