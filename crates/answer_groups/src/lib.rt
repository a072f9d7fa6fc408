// What the group calls, the occupied scan and the picks came to (document 01, Groups and pick), as numbers; and what a number says of a map
// or none. The exported calls hand it out by these functions.
#![tactic(auto)]

ghost use Rattle.std.specs.Prelude.{◌≡◌, ◌∷◌, []};
ghost use Rattle.answer_outcome.specs.Outcome.{handed};
ghost use Rattle.netgroup.specs.Group.{numbering};
ghost use Rattle.answer_groups.specs.Groups.{numbering_of, group_found, scan_made, pick_made};

use group_lists::Scan;
use netgroup::Grouping;
use netgroup_pick::Totals;
use refusals::Refusal;

// What numbers the groups.
#[tactic(auto, unfolding(crate::specs::Groups::numbering_of))]
pub fn grouping_of(has_map: u8, map: &[u8]) -> Grouping<'_>
    ensures { numbering result ≡ numbering_of has_map map.now }
{
    if has_map == 0 {
        return Grouping::Prefixes;
    }
    Grouping::Map(map)
}

// What a group call came to, as an answer and a lent number.
#[tactic(auto, unfolding(answer_outcome::specs::Outcome::handed, crate::specs::Groups::group_found))]
pub fn hand_group(got: Result<u64, Refusal>, group: &mut u64) -> u8
    ensures { result ∷ group.new ∷ [] ≡ handed (group_found got) (group.old ∷ []) }
{
    match got {
        Ok(found) => {
            *group = found;
            0
        }
        Err(refusal) => refusal.number(),
    }
}

// What the occupied scan came to. Where there is no hit, its place is 0 too.
#[tactic(auto, unfolding(answer_outcome::specs::Outcome::handed, crate::specs::Groups::scan_made))]
pub fn hand_scan(
    got: Result<Scan, Refusal>,
    found: &mut u8,
    place: &mut usize,
    groups_read: &mut usize,
) -> u8
    ensures { result ∷ found.new ∷ place.new ∷ groups_read.new ∷ [] ≡ handed (scan_made got) (found.old ∷ place.old ∷ groups_read.old ∷ []) }
{
    match got {
        Ok(scan) => {
            *found = u8::from(scan.hit.is_some());
            *place = scan.hit.unwrap_or(0);
            *groups_read = scan.read;
            0
        }
        Err(refusal) => refusal.number(),
    }
}

// What a pick came to.
#[tactic(auto, unfolding(answer_outcome::specs::Outcome::handed, crate::specs::Groups::pick_made))]
pub fn hand_pick(
    got: Result<Totals, Refusal>,
    total: &mut usize,
    first: &mut usize,
    examined: &mut usize,
    instructions: &mut u64,
) -> u8
    ensures { result ∷ total.new ∷ first.new ∷ examined.new ∷ instructions.new ∷ [] ≡ handed (pick_made got) (total.old ∷ first.old ∷ examined.old ∷ instructions.old ∷ []) }
{
    match got {
        Ok(totals) => {
            *total = totals.total;
            *first = totals.first;
            *examined = totals.examined;
            *instructions = totals.instructions;
            0
        }
        Err(refusal) => refusal.number(),
    }
}
