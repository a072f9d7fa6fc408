// The spread of a list of candidates on a printed page (document 02, CR 4): a line for each group, with its candidates and their per cent.
//
// Each candidate is walked once. Its group is kept in a local array, which is sorted by bits: with 4,096 candidates that takes less time than
// their walks (docs/BENCHMARKS.md). Nothing is written before all lines are known to fit.
#![tactic(auto)]

ghost use Rattle.std.specs.Prelude.{◌≡◌, [], ◌/◌, ◌≤◌, length, take, None};
ghost use Rattle.peer_lists.specs.Candidates.{candidates_of};
ghost use Rattle.peer_lists.specs.Refusal.{list_refusal};
ghost use Rattle.netgroup.specs.Group.{by_old_prefixes, numbering};
ghost use Rattle.netgroup.specs.Refusal.{limit_refusal, check_refusal};
ghost use Rattle.pick_passes.specs.Ranked.{groups_of};
ghost use Rattle.asmap_records.specs.Output.{Hands, Making};
ghost use Rattle.group_shares.specs.models.Runs.{runs};
ghost use Rattle.page_lines.specs.Line.{lines, page_of};
ghost use Rattle.spread_page.specs.Page.{spread_page, spread_unchecked, old_prefix_page};
ghost use Rattle.spread_page.specs.Promise.{Told, Unaborted};

use netgroup::Grouping;
use page_lines::LINE_BYTES;
use peer_lists::candidate_at;
use refusals::Refusal;

// Room for the groups of as many candidates as a list may have.
fn no_groups() -> [u64; 4096]
    ensures { 4096 ≡ length result }
{
    [0; 4096]
}

// Why a list of candidates is refused: 13 for the length, 12, 13. No group is occupied.
fn candidates_refusal(candidates: &[u8]) -> Option<Refusal>
    ensures { result ≡ list_refusal candidates.now [] }
{
    peer_lists::list_refusal(candidates, &[])
}

// The groups of candidates, in their order, at the front of a room for them.
fn find_groups(candidates: &[u8], grouping: Grouping<'_>, groups: &mut [u64])
    requires { (length candidates.now / 20 ≤ length groups.old) × (limit_refusal (numbering grouping) ≡ None) }
    ensures { take (length candidates.now / 20) groups.new ≡ groups_of (numbering grouping.entry) (candidates_of candidates.now) }
{
    let n = candidates.len() / 20;
    for i in 0..n {
        groups[i] = netgroup::group_of(candidate_at(candidates, i), grouping).group;
    }
}

// The page of groups that are sorted. Refusal 14.
fn put_page(groups: &[u64], out: &mut [u8]) -> Result<usize, Refusal>
    requires { length groups.now ≤ 4096 }
    ensures { Hands (Making.Made (lines (length groups.now) (runs groups.now))) out.old out.new result }
{
    let count = group_shares::count_runs(groups);
    if out.len() / LINE_BYTES < count {
        return Err(Refusal::OutputTooShort);
    }
    page_lines::put_lines(groups, out);
    Ok(LINE_BYTES * count)
}

// The page of groups in any order, which are sorted for it, over a spare room for as many. Refusal 14.
fn sort_page(groups: &mut [u64], spare: &mut [u64], out: &mut [u8]) -> Result<usize, Refusal>
    requires { (length groups.old ≤ 4096) × (length groups.old ≤ length spare.old) }
    ensures { Hands (Making.Made (page_of groups.old)) out.old out.new result }
{
    group_shares::sort_groups(groups, spare);
    put_page(groups, out)
}

// The page of candidates that are not refused, with a map that is within the limit. Refusal 14.
fn make_page(candidates: &[u8], grouping: Grouping<'_>, out: &mut [u8]) -> Result<usize, Refusal>
    requires { (length candidates.now / 20 ≤ 4096) × (limit_refusal (numbering grouping) ≡ None) }
    ensures { Hands (Making.Made (page_of (groups_of (numbering grouping.entry) (candidates_of candidates.now)))) out.old out.new result }
{
    let mut groups = no_groups();
    let mut spare = no_groups();
    let n = candidates.len() / 20;
    find_groups(candidates, grouping, &mut groups);
    sort_page(&mut groups[..n], &mut spare, out)
}

// The page over a map taken as it is, for callers who checked it when they loaded it. Refusals 13, 12, 13, with a map 1, then 14; a refusal
// writes nothing. Of a map that the check refuses a walk may abort: its candidate is counted for group 0 then.
pub fn page_unchecked(
    candidates: &[u8],
    grouping: Grouping<'_>,
    out: &mut [u8],
) -> Result<usize, Refusal>
    ensures hands { Hands (spread_unchecked (numbering grouping.entry) candidates.now) out.old out.new result }
    ensures told { Told (numbering grouping.entry) candidates.now result }
    ensures unaborted { check_refusal (numbering grouping.entry) ≡ None → Unaborted (numbering grouping.entry) candidates.now result }
{
    if let Some(refusal) = candidates_refusal(candidates) {
        return Err(refusal);
    }
    if let Some(refusal) = netgroup::limit_refusal(grouping) {
        return Err(refusal);
    }
    make_page(candidates, grouping, out)
}

// The page of a list of candidates, with a map or none: a line of 25 bytes for each group, groups rising. 25 bytes for each candidate are
// always enough. Refusals 13, 12, 13, with a map the check's, 1 to 10 and 19, then 14; a refusal writes nothing.
pub fn page(candidates: &[u8], grouping: Grouping<'_>, out: &mut [u8]) -> Result<usize, Refusal>
    ensures hands { Hands (spread_page (numbering grouping.entry) candidates.now) out.old out.new result }
    ensures told { Told (numbering grouping.entry) candidates.now result }
    ensures unaborted { Unaborted (numbering grouping.entry) candidates.now result }
{
    if let Some(refusal) = candidates_refusal(candidates) {
        return Err(refusal);
    }
    if let Some(refusal) = netgroup::check_refusal(grouping) {
        return Err(refusal);
    }
    make_page(candidates, grouping, out)
}

// The page without a map in the old numbering, for callers who keep such groups. Refusals 13, 12, 13, 14 in this order; a refusal writes nothing.
pub fn old_prefix_page(candidates: &[u8], out: &mut [u8]) -> Result<usize, Refusal>
    ensures hands { Hands (old_prefix_page candidates.now) out.old out.new result }
    ensures told { Told by_old_prefixes candidates.now result }
{
    page_unchecked(candidates, Grouping::OldPrefixes, out)
}
