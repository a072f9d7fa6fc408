// Demand 3 for groups and picks (`demand_statements/specs/Picked`), and demand 1 for them (ensures refused, `specs/AnyInput` there). A
// `has_map` of 0 is without a map.
ghost use Rattle.std.specs.Prelude.{◌≡◌, ◌∷◌, []};
ghost use Rattle.demand_statements.specs.AnyInput.{Groups, LoadedGroups, Picks, LoadedPicks};
ghost use Rattle.demand_statements.specs.Picked.{old_prefix_at, Grouped, Picked, ByMap, ByPrefixes};

use corbastrigo::groups::{
    corbastrigo_netgroup, corbastrigo_netgroup_unchecked, corbastrigo_old_prefix_pick,
    corbastrigo_prefix_group, corbastrigo_select_diverse, corbastrigo_select_diverse_unchecked,
};
use corbastrigo::maps::corbastrigo_sanity_check;

// A candidate's group, with a map or none. With one it is the defined walk's number, and that walk did not abort.
pub fn group_of(candidate: &[u8], has_map: u8, map: &[u8], group: &mut u64) -> u8
    ensures grouped { result ≡ 0 → Grouped has_map map.now candidate.now group.new }
    ensures refused { Groups has_map map.now candidate.now result (group.old ∷ []) (group.new ∷ []) }
{
    corbastrigo_netgroup(candidate, has_map, map, group)
}

// The same by a map that the caller checks first, as when it is loaded, and then by the call that checks no more.
pub fn group_by_loaded_map(candidate: &[u8], map: &[u8], group: &mut u64) -> u8
    ensures grouped { result ≡ 0 → Grouped 1 map.now candidate.now group.new }
    ensures refused { LoadedGroups result (group.old ∷ []) (group.new ∷ []) }
{
    let mut instructions: u32 = 0;
    let mut depth: u8 = 0;
    let refused = corbastrigo_sanity_check(map, &mut instructions, &mut depth);
    if refused != 0 {
        return refused;
    }
    corbastrigo_netgroup_unchecked(candidate, 1, map, group)
}

// A candidate's group by its prefix, in the old numbering.
pub fn group_by_prefix(candidate: &[u8], group: &mut u64) -> u8
    ensures group_after { result ≡ 0 → group.new ≡ old_prefix_at candidate.now 0 }
    ensures refused { Groups 0 [] candidate.now result (group.old ∷ []) (group.new ∷ []) }
{
    corbastrigo_prefix_group(candidate, group)
}

// A pick, with a map or none: its first pass is the defined one over the groups, and with a map no walk of a candidate examined aborts.
pub fn spread_pick(
    candidates: &[u8],
    occupied: &[u64],
    max: usize,
    has_map: u8,
    map: &[u8],
    picks: &mut [u16],
    groups: &mut [u64],
    total: &mut usize,
    first: &mut usize,
    examined: &mut usize,
    instructions: &mut u64,
) -> u8
    ensures picked { result ≡ 0 → Picked map.now candidates.now occupied.now max picks.new groups.new first.new examined.new instructions.new has_map }
    ensures refused { Picks has_map map.now candidates.now occupied.now max result (total.old ∷ first.old ∷ examined.old ∷ instructions.old ∷ []) (total.new ∷ first.new ∷ examined.new ∷ instructions.new ∷ []) picks.old picks.new groups.old groups.new }
{
    corbastrigo_select_diverse(
        candidates,
        occupied,
        max,
        has_map,
        map,
        picks,
        groups,
        total,
        first,
        examined,
        instructions,
    )
}

// The same by a map that the caller checks first, and by the call that checks no more.
pub fn pick_by_loaded_map(
    candidates: &[u8],
    occupied: &[u64],
    max: usize,
    map: &[u8],
    picks: &mut [u16],
    groups: &mut [u64],
    total: &mut usize,
    first: &mut usize,
    examined: &mut usize,
    instructions: &mut u64,
) -> u8
    ensures by_map { result ≡ 0 → ByMap map.now candidates.now occupied.now max picks.new groups.new first.new examined.new instructions.new }
    ensures refused { LoadedPicks result (total.old ∷ first.old ∷ examined.old ∷ instructions.old ∷ []) (total.new ∷ first.new ∷ examined.new ∷ instructions.new ∷ []) picks.old picks.new groups.old groups.new }
{
    let mut count: u32 = 0;
    let mut depth: u8 = 0;
    let refused = corbastrigo_sanity_check(map, &mut count, &mut depth);
    if refused != 0 {
        return refused;
    }
    corbastrigo_select_diverse_unchecked(
        candidates,
        occupied,
        max,
        1,
        map,
        picks,
        groups,
        total,
        first,
        examined,
        instructions,
    )
}

// A pick by prefixes in the old numbering: its first pass is the defined one over those.
pub fn pick_by_old_prefixes(
    candidates: &[u8],
    occupied: &[u64],
    max: usize,
    picks: &mut [u16],
    groups: &mut [u64],
    total: &mut usize,
    first: &mut usize,
    examined: &mut usize,
    instructions: &mut u64,
) -> u8
    ensures by_prefixes { result ≡ 0 → ByPrefixes (old_prefix_at candidates.now) candidates.now occupied.now max picks.new groups.new first.new examined.new instructions.new }
    ensures refused { Picks 0 [] candidates.now occupied.now max result (total.old ∷ first.old ∷ examined.old ∷ instructions.old ∷ []) (total.new ∷ first.new ∷ examined.new ∷ instructions.new ∷ []) picks.old picks.new groups.old groups.new }
{
    corbastrigo_old_prefix_pick(
        candidates,
        occupied,
        max,
        picks,
        groups,
        total,
        first,
        examined,
        instructions,
    )
}
