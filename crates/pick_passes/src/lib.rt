// The two passes of the pick (document 01, Groups and pick): the first over the candidates' groups, the second over the candidates.
#![tactic(auto)]

ghost use Rattle.std.specs.Prelude.{◌≡◌, [], ◌+◌, ◌/◌, ◌≤◌, ◌<◌, min, length, take, get_or};
ghost use Rattle.peer_lists.specs.Candidates.{candidates_of};
ghost use Rattle.free_groups.specs.models.Marks.{Linked};
ghost use Rattle.netgroup.specs.Group.{numbering};
ghost use Rattle.pick_passes.specs.Fill.{picked, fill};
ghost use Rattle.pick_passes.specs.models.Places.{Places};
ghost use Rattle.pick_passes.specs.models.Ready.{Ready};
ghost use Rattle.pick_passes.specs.models.Passed.{PassedFirst, Filled};

use free_groups::Marks;
use netgroup::Grouping;
use peer_lists::candidate_at;

// What the first pass came to.
#[derive(Clone, Copy)]
pub struct First {
    pub taken: usize,
    pub examined: usize,
    pub instructions: u64,
}

// Whether the candidate at a place equals one of the picks.
fn is_picked(candidates: &[u8], i: usize, picks: &[u16]) -> bool
    requires { (i < length candidates.now / 20) × (Places (length candidates.now / 20) picks.now) }
    ensures { result ≡ picked (candidates_of candidates.now) picks.now (get_or (candidates_of candidates.now) i []) }
{
    let candidate = candidate_at(candidates, i);
    for &pick in picks {
        if candidate_bytes::same_bytes(candidate_at(candidates, pick as usize), candidate) {
            return true;
        }
    }
    false
}

// The first pass: in ranked order, the candidates whose group is free, until max. Writes the picks and their groups, and marks those.
fn first_pass(
    candidates: &[u8],
    occupied: &[u64],
    marks: &mut Marks,
    max: usize,
    grouping: Grouping<'_>,
    picks: &mut [u16],
    groups: &mut [u64],
) -> First
    requires { (Ready (numbering grouping) candidates.now occupied.now max picks.old groups.old) × (Linked occupied.now marks.old.marks marks.old.links) × (length marks.old.links ≡ 8192) }
    ensures { PassedFirst (numbering grouping.entry) (candidates_of candidates.now) occupied.now max picks.old groups.old result picks.new groups.new }
{
    let n = candidates.len() / 20;
    let mut taken: usize = 0;
    let mut instructions: u64 = 0;
    for i in 0..n {
        if max <= taken {
            return First {
                taken,
                examined: i,
                instructions,
            };
        }
        let found = netgroup::group_of(candidate_at(candidates, i), grouping);
        let group = found.group;
        instructions += found.count as u64;
        if marks.is_free(group, occupied, &groups[..taken]) {
            marks.mark(group, occupied.len() + taken);
            picks[taken] = i as u16;
            groups[taken] = group;
            taken += 1;
        }
    }
    First {
        taken,
        examined: n,
        instructions,
    }
}

// The first pass, over occupied groups that are marked for it. A link has room for each occupied group and each that is taken.
pub fn marked_pass(
    candidates: &[u8],
    occupied: &[u64],
    max: usize,
    grouping: Grouping<'_>,
    picks: &mut [u16],
    groups: &mut [u64],
) -> First
    requires { Ready (numbering grouping) candidates.now occupied.now max picks.old groups.old }
    ensures { PassedFirst (numbering grouping.entry) (candidates_of candidates.now) occupied.now max picks.old groups.old result picks.new groups.new }
{
    let mut marks = Marks::none();
    marks.mark_groups(occupied);
    first_pass(
        candidates, occupied, &mut marks, max, grouping, picks, groups,
    )
}

// The second pass: in ranked order, the candidates unequal to every pick, until max. Returns how many picks there are.
pub fn fill_rest(candidates: &[u8], max: usize, taken: usize, picks: &mut [u16]) -> usize
    requires { (length candidates.now / 20 ≤ 4096) × (min max (length candidates.now / 20) ≤ length picks.old) × (taken ≤ length picks.old) × (Places (length candidates.now / 20) (take taken picks.old)) }
    ensures { Filled (fill (candidates_of candidates.now) max (take taken picks.old)) picks.old result picks.new }
{
    let n = candidates.len() / 20;
    let mut total = taken;
    for i in 0..n {
        if max <= total {
            break;
        }
        if !is_picked(candidates, i, &picks[..total]) {
            picks[total] = i as u16;
            total += 1;
        }
    }
    total
}
