// Request 7 (`demand_statements/specs/Apart`): groups without a map, by the new numbering of prefixes and by the old one.
ghost use Rattle.std.specs.Prelude.{◌≡◌};
ghost use Rattle.demand_statements.specs.Apart.{Apart, Renumbered};

use corbastrigo::groups::{corbastrigo_netgroup, corbastrigo_prefix_group};

// The groups of two candidates: which addresses share one.
pub fn groups_apart(candidate: &[u8], other: &[u8], group: &mut u64, other_group: &mut u64) -> u8
    ensures { result ≡ 0 → Apart candidate.now other.now group.new other_group.new }
{
    let refused = corbastrigo_netgroup(candidate, 0, &[], group);
    if refused != 0 {
        return refused;
    }
    corbastrigo_netgroup(other, 0, &[], other_group)
}

// A candidate's group by the old numbering and by the new: what becomes of a group that was kept.
pub fn group_by_both(candidate: &[u8], old: &mut u64, new: &mut u64) -> u8
    ensures { result ≡ 0 → Renumbered candidate.now old.new new.new }
{
    let refused = corbastrigo_prefix_group(candidate, old);
    if refused != 0 {
        return refused;
    }
    corbastrigo_netgroup(candidate, 0, &[], new)
}
