// Groups, the occupied scan (document 02, CR 2) and pick (document 01, Groups and pick). In each call `has_map` 0 is without a map: groups then go by prefixes, those
// of IPv4 in a number range to themselves (document 02, CR 7), and the map is not looked at. Any other number is with it. Two calls, which take no map, keep the old numbers of
// prefixes: the group by its prefix and the pick by old prefixes.
#![tactic(auto, using(answers::proofs::NeverZeroGroups::group_handed, answers::proofs::NeverZeroGroups::scan_handed))]

ghost use Rattle.std.specs.Prelude.{◌≡◌, ◌∷◌, [], Ok, None};
ghost use Rattle.peer_lists.specs.Candidates.{candidates_of};
ghost use Rattle.group_lists.specs.Scan.{scan_of};
ghost use Rattle.netgroup.specs.Group.{by_old_prefixes, numbering};
ghost use Rattle.netgroup.specs.Netgroup.{prefix_group_call, netgroup_of, netgroup_unchecked, Whole};
ghost use Rattle.netgroup.specs.Refusal.{check_refusal};
ghost use Rattle.netgroup_pick.specs.Pick.{select_diverse, select_unchecked, old_prefix_pick};
ghost use Rattle.netgroup_pick.specs.Demand.{Demand3, Unaborted};
ghost use Rattle.answer_outcome.specs.Outcome.{Hands};
ghost use Rattle.answer_groups.specs.Groups.{numbering_of, group_found, scan_made, totals_of, Picks};

use answer_groups::{grouping_of, hand_group, hand_pick, hand_scan};

// The group of a candidate of 20 bytes by its prefix, in the old numbering. Refusal 13.
pub fn corbastrigo_prefix_group(candidate: &[u8], group: &mut u64) -> u8
    ensures { Hands (group_found (prefix_group_call candidate.now)) result (group.old ∷ []) (group.new ∷ []) }
{
    hand_group(netgroup::prefix_group(candidate), group)
}

// The group of a candidate, with a map or none. Refusals 13, then with a map the check's, 1 to 10 and 19.
pub fn corbastrigo_netgroup(candidate: &[u8], has_map: u8, map: &[u8], group: &mut u64) -> u8
    ensures hands { Hands (group_found (netgroup_of (numbering_of has_map map.now) candidate.now)) result (group.old ∷ []) (group.new ∷ []) }
    ensures unaborted { result ≡ 0 → Whole (numbering_of has_map map.now) candidate.now (Ok group.new) }
{
    hand_group(
        netgroup::netgroup(candidate, grouping_of(has_map, map)),
        group,
    )
}

// The same over a map taken as it is, for callers who checked it when they loaded it. Refusals 13, then with a map 1.
pub fn corbastrigo_netgroup_unchecked(
    candidate: &[u8],
    has_map: u8,
    map: &[u8],
    group: &mut u64,
) -> u8
    ensures hands { Hands (group_found (netgroup_unchecked (numbering_of has_map map.now) candidate.now)) result (group.old ∷ []) (group.new ∷ []) }
    ensures unaborted { check_refusal (numbering_of has_map map.now) ≡ None → result ≡ 0 → Whole (numbering_of has_map map.now) candidate.now (Ok group.new) }
{
    hand_group(
        netgroup::netgroup_unchecked(candidate, grouping_of(has_map, map)),
        group,
    )
}

// The occupied scan: whether a group stands among the occupied groups, the first hit's place from 0, and how many groups were read. None
// is found 0 with place 0. Refusal 12.
pub fn corbastrigo_scan_occupied(
    group: u64,
    occupied: &[u64],
    found: &mut u8,
    place: &mut usize,
    groups_read: &mut usize,
) -> u8
    ensures { Hands (scan_made (scan_of group occupied.now)) result (found.old ∷ place.old ∷ groups_read.old ∷ []) (found.new ∷ place.new ∷ groups_read.new ∷ []) }
{
    hand_scan(
        group_lists::scan_occupied(group, occupied),
        found,
        place,
        groups_read,
    )
}

// The pick, with a map or none. Refusals 13, 12, 13, with a map the check's, 1 to 10 and 19, then 14.
pub fn corbastrigo_select_diverse(
    candidates: &[u8],
    occupied: &[u64],
    max: usize,
    has_map: u8,
    map: &[u8],
    picks: &mut [u16],
    groups: &mut [u64],
    total: &mut usize,
    first: &mut usize,
    examined: &mut usize,
    instructions: &mut u64,
) -> u8
    ensures picks { Picks (select_diverse (numbering_of has_map map.now) candidates.now occupied.now max picks.old groups.old) result (total.old ∷ first.old ∷ examined.old ∷ instructions.old ∷ []) (total.new ∷ first.new ∷ examined.new ∷ instructions.new ∷ []) picks.new groups.new }
    ensures demand3 { result ≡ 0 → Demand3 (numbering_of has_map map.now) (candidates_of candidates.now) occupied.now max (Ok (totals_of total.new first.new examined.new instructions.new)) picks.new groups.new }
    ensures unaborted { result ≡ 0 → Unaborted (numbering_of has_map map.now) (candidates_of candidates.now) (Ok (totals_of total.new first.new examined.new instructions.new)) }
{
    let grouping = grouping_of(has_map, map);
    let got = netgroup_pick::select_diverse(candidates, occupied, max, grouping, picks, groups);
    hand_pick(got, total, first, examined, instructions)
}

// The same over a map taken as it is. Refusals 13, 12, 13, with a map 1, then 14.
pub fn corbastrigo_select_diverse_unchecked(
    candidates: &[u8],
    occupied: &[u64],
    max: usize,
    has_map: u8,
    map: &[u8],
    picks: &mut [u16],
    groups: &mut [u64],
    total: &mut usize,
    first: &mut usize,
    examined: &mut usize,
    instructions: &mut u64,
) -> u8
    ensures picks { Picks (select_unchecked (numbering_of has_map map.now) candidates.now occupied.now max picks.old groups.old) result (total.old ∷ first.old ∷ examined.old ∷ instructions.old ∷ []) (total.new ∷ first.new ∷ examined.new ∷ instructions.new ∷ []) picks.new groups.new }
    ensures demand3 { result ≡ 0 → Demand3 (numbering_of has_map map.now) (candidates_of candidates.now) occupied.now max (Ok (totals_of total.new first.new examined.new instructions.new)) picks.new groups.new }
    ensures unaborted { check_refusal (numbering_of has_map map.now) ≡ None → result ≡ 0 → Unaborted (numbering_of has_map map.now) (candidates_of candidates.now) (Ok (totals_of total.new first.new examined.new instructions.new)) }
{
    let grouping = grouping_of(has_map, map);
    let got = netgroup_pick::select_diverse_unchecked(
        candidates, occupied, max, grouping, picks, groups,
    );
    hand_pick(got, total, first, examined, instructions)
}

// The pick without a map in the old numbering. Refusals 13, 12, 13, 14.
pub fn corbastrigo_old_prefix_pick(
    candidates: &[u8],
    occupied: &[u64],
    max: usize,
    picks: &mut [u16],
    groups: &mut [u64],
    total: &mut usize,
    first: &mut usize,
    examined: &mut usize,
    instructions: &mut u64,
) -> u8
    ensures picks { Picks (old_prefix_pick candidates.now occupied.now max picks.old groups.old) result (total.old ∷ first.old ∷ examined.old ∷ instructions.old ∷ []) (total.new ∷ first.new ∷ examined.new ∷ instructions.new ∷ []) picks.new groups.new }
    ensures demand3 { result ≡ 0 → Demand3 by_old_prefixes (candidates_of candidates.now) occupied.now max (Ok (totals_of total.new first.new examined.new instructions.new)) picks.new groups.new }
{
    let got = netgroup_pick::old_prefix_pick(candidates, occupied, max, picks, groups);
    hand_pick(got, total, first, examined, instructions)
}
