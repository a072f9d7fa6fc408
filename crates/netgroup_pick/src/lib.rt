// The pick of peers that are spread over groups (document 01, Groups and pick).
#![tactic(auto)]

ghost use Rattle.std.specs.Prelude.{◌≡◌, min, None};
ghost use Rattle.peer_lists.specs.Candidates.{candidates_of};
ghost use Rattle.netgroup.specs.Group.{by_old_prefixes, numbering};
ghost use Rattle.netgroup.specs.Refusal.{limit_refusal, check_refusal};
ghost use Rattle.netgroup_pick.specs.PickRefusal.{room_refusal, pick_refusal};
ghost use Rattle.netgroup_pick.specs.Pick.{handed, select_diverse, select_unchecked, old_prefix_pick};
ghost use Rattle.netgroup_pick.specs.Demand.{Demand3, Unaborted};

use netgroup::Grouping;
use peer_lists::list_refusal;
use refusals::Refusal;

// What a pick came to: how many picks there are, how many of them the first pass took, how many candidates it examined, and the
// instructions of their walks.
#[derive(Clone, Copy)]
pub struct Totals {
    pub total: usize,
    pub first: usize,
    pub examined: usize,
    pub instructions: u64,
}

// Why the outputs are refused: 14 where one has fewer than min(max, candidates) places.
fn room_refusal(count: usize, max: usize, picks: &[u16], groups: &[u64]) -> Option<Refusal>
    ensures { result ≡ room_refusal count max picks.now groups.now }
{
    let need = max.min(count);
    if picks.len() < need || groups.len() < need {
        return Some(Refusal::OutputTooShort);
    }
    None
}

// Why a pick over a map taken as it is is refused: the list, then the map's length, then the outputs.
fn pick_refusal(
    candidates: &[u8],
    occupied: &[u64],
    max: usize,
    grouping: Grouping<'_>,
    picks: &[u16],
    groups: &[u64],
) -> Option<Refusal>
    ensures { result ≡ pick_refusal (limit_refusal (numbering grouping.entry)) candidates.now occupied.now max picks.now groups.now }
{
    if let Some(refusal) = list_refusal(candidates, occupied) {
        return Some(refusal);
    }
    if let Some(refusal) = netgroup::limit_refusal(grouping) {
        return Some(refusal);
    }
    room_refusal(candidates.len() / 20, max, picks, groups)
}

// The pick over a map taken as it is, for callers who checked it when they loaded it. Refusals 13, 12, 13, 1, 14 in this order;
// a refusal writes nothing.
pub fn select_diverse_unchecked(
    candidates: &[u8],
    occupied: &[u64],
    max: usize,
    grouping: Grouping<'_>,
    picks: &mut [u16],
    groups: &mut [u64],
) -> Result<Totals, Refusal>
    ensures groups_after { handed result picks.new groups.new ≡ select_unchecked (numbering grouping.entry) candidates.now occupied.now max picks.old groups.old }
    ensures demand3 { Demand3 (numbering grouping.entry) (candidates_of candidates.now) occupied.now max result picks.new groups.new }
    ensures unaborted { check_refusal (numbering grouping.entry) ≡ None → Unaborted (numbering grouping.entry) (candidates_of candidates.now) result }
{
    if let Some(refusal) = pick_refusal(candidates, occupied, max, grouping, picks, groups) {
        return Err(refusal);
    }
    let first = pick_passes::marked_pass(candidates, occupied, max, grouping, picks, groups);
    let total = pick_passes::fill_rest(candidates, max, first.taken, picks);
    Ok(Totals {
        total,
        first: first.taken,
        examined: first.examined,
        instructions: first.instructions,
    })
}

// The pick, with a map or none. Refusals 13, 12, 13, with a map the check's, 1 to 10 and 19, then 14; a refusal writes nothing.
pub fn select_diverse(
    candidates: &[u8],
    occupied: &[u64],
    max: usize,
    grouping: Grouping<'_>,
    picks: &mut [u16],
    groups: &mut [u64],
) -> Result<Totals, Refusal>
    ensures groups_after { handed result picks.new groups.new ≡ select_diverse (numbering grouping.entry) candidates.now occupied.now max picks.old groups.old }
    ensures demand3 { Demand3 (numbering grouping.entry) (candidates_of candidates.now) occupied.now max result picks.new groups.new }
    ensures unaborted { Unaborted (numbering grouping.entry) (candidates_of candidates.now) result }
{
    if let Some(refusal) = list_refusal(candidates, occupied) {
        return Err(refusal);
    }
    if let Some(refusal) = netgroup::check_refusal(grouping) {
        return Err(refusal);
    }
    select_diverse_unchecked(candidates, occupied, max, grouping, picks, groups)
}

// The pick without a map in the old numbering, for callers who keep such groups. Refusals 13, 12, 13, 14 in this order; a refusal writes nothing.
pub fn old_prefix_pick(
    candidates: &[u8],
    occupied: &[u64],
    max: usize,
    picks: &mut [u16],
    groups: &mut [u64],
) -> Result<Totals, Refusal>
    ensures groups_after { handed result picks.new groups.new ≡ old_prefix_pick candidates.now occupied.now max picks.old groups.old }
    ensures demand3 { Demand3 by_old_prefixes (candidates_of candidates.now) occupied.now max result picks.new groups.new }
{
    select_diverse_unchecked(
        candidates,
        occupied,
        max,
        Grouping::OldPrefixes,
        picks,
        groups,
    )
}
