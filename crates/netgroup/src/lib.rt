// The group of a peer (document 01, Groups and pick; document 02, CR 7): one candidate, and a map or none.
#![tactic(auto)]

ghost use Rattle.std.specs.Prelude.{◌≡◌, ◌+◌, ◌*◌, ◌≤◌, ◌<◌, cond, not, ◌&&◌, ◌||◌, eqb, length, None};
ghost use Rattle.candidate_bytes.specs.Candidate.{family, mapped};
ghost use Rattle.asmap_program.specs.Map.{limit};
ghost use Rattle.netgroup.specs.Group.{numbering, prefix4, prefix6, walk_for, grouped_of};
ghost use Rattle.netgroup.specs.models.Which.{by_numbers};
ghost use Rattle.netgroup.specs.Refusal.{limit_refusal, check_refusal};
ghost use Rattle.netgroup.specs.Netgroup.{prefix_group_call, netgroup_of, netgroup_unchecked, Whole};

use asmap_program::MAX_MAP_BYTES;
use refusals::{Fault, Refusal};

// What numbers the groups: the prefixes of the addresses, or a map. `OldPrefixes` are the prefixes as document 01 numbers them, for callers
// who keep such groups.
#[derive(Clone, Copy)]
pub enum Grouping<'a> {
    Prefixes,
    OldPrefixes,
    Map(&'a [u8]),
}

// The first group of IPv4, that of 0.0.0.0/16: one past the greatest of IPv6.
const IPV4_GROUPS: u64 = 4294967296;

// A candidate's group, and the instructions of the walk that found it.
#[derive(Clone, Copy)]
pub struct Grouped {
    pub group: u64,
    pub count: u32,
}

// The first two bytes of an IPv4 address, IPv4 /16.
fn ipv4_prefix(candidate: &[u8]) -> u64
    requires { length candidate.now ≡ 20 }
    ensures { (result ≡ prefix4 candidate.now) × (result < 65536) }
{
    u16::from_be_bytes([candidate[14], candidate[15]]) as u64
}

// The first four bytes of an IPv6 address, IPv6 /32.
fn ipv6_prefix(candidate: &[u8]) -> u64
    requires { length candidate.now ≡ 20 }
    ensures { result ≡ prefix6 candidate.now }
{
    u32::from_be_bytes([candidate[2], candidate[3], candidate[4], candidate[5]]) as u64
}

// Whether a candidate goes by the rule for IPv4: of family 4, and in the new numbering mapped too.
fn is_ipv4(candidate: &[u8], old: bool) -> bool
    requires { length candidate.now ≡ 20 }
    ensures { result ≡ (eqb (family candidate.now) 4 || (not old && mapped candidate.now)) }
{
    if candidate[0] == 4 {
        return true;
    }
    if old {
        return false;
    }
    candidate_bytes::is_mapped(candidate)
}

// The group of 0.0.0.0/16.
fn first_ipv4_group(old: bool) -> u64
    ensures { (result ≡ cond old 0 4294967296) × (result ≤ 4294967296) }
{
    if old { 0 } else { IPV4_GROUPS }
}

// The group of a candidate by its prefix, in the old numbering or in the new. In the old one the family decides, so a mapped address of family 6
// gives 0. Both share their code, which is then small enough for the compiler to put it into the loops of pick and page.
fn prefix_number(candidate: &[u8], old: bool) -> u64
    requires { length candidate.now ≡ 20 }
    ensures { result ≡ by_numbers old candidate.now }
{
    if is_ipv4(candidate, old) {
        return first_ipv4_group(old) + ipv4_prefix(candidate);
    }
    ipv6_prefix(candidate)
}

// The group of a candidate by a map within the limit, with the walk's count.
fn walked_group(candidate: &[u8], map: &[u8]) -> Grouped
    requires { (length candidate.now ≡ 20) × (length map.now ≤ limit) }
    ensures { result ≡ record { group = (walk_for map.now candidate.now).number; count = length (walk_for map.now candidate.now).read } }
{
    let walked = asmap_walk::interpret(map, &candidate[2..18]);
    let Ok(ending) = walked else {
        // never: the walk refuses only another length, and a map over the limit
        return Grouped { group: 0, count: 0 };
    };
    Grouped {
        group: ending.number as u64,
        count: ending.count,
    }
}

// The group of a candidate, for callers who have seen to the refusals: the calls below, and the pick.
pub fn group_of(candidate: &[u8], grouping: Grouping<'_>) -> Grouped
    requires { (length candidate.now ≡ 20) × (limit_refusal (numbering grouping) ≡ None) }
    ensures { result ≡ grouped_of (numbering grouping.entry) candidate.now }
{
    if let Grouping::Map(map) = grouping {
        return walked_group(candidate, map);
    }
    let old = matches!(grouping, Grouping::OldPrefixes);
    Grouped {
        group: prefix_number(candidate, old),
        count: 0,
    }
}

// Why a map that is taken as it is is refused: 1 over the limit, as the walk refuses it.
pub fn limit_refusal(grouping: Grouping<'_>) -> Option<Refusal>
    ensures { result ≡ limit_refusal (numbering grouping.entry) }
{
    match grouping {
        Grouping::Map(map) if MAX_MAP_BYTES < map.len() => Some(Refusal::Map(Fault::MapTooLong)),
        _ => None,
    }
}

// Why the check refuses the map of a call: 1 to 10 or 19. It reads the whole map.
pub fn check_refusal(grouping: Grouping<'_>) -> Option<Refusal>
    ensures { result ≡ check_refusal (numbering grouping.entry) }
{
    let Grouping::Map(map) = grouping else {
        return None;
    };
    match asmap_check::sanity_check(map) {
        Ok(_) => None,
        Err(fault) => Some(Refusal::Map(fault)),
    }
}

// The group of one candidate without a map, in the old numbering. Refusal 13.
pub fn prefix_group(candidate: &[u8]) -> Result<u64, Refusal>
    ensures { result ≡ prefix_group_call candidate.now }
{
    if !candidate_bytes::is_candidate(candidate) {
        return Err(Refusal::Candidate);
    }
    Ok(prefix_number(candidate, true))
}

// The group of one candidate over a map taken as it is, for callers who checked it when they loaded it. Refusals 13, 1.
pub fn netgroup_unchecked(candidate: &[u8], grouping: Grouping<'_>) -> Result<u64, Refusal>
    ensures value { result ≡ netgroup_unchecked (numbering grouping.entry) candidate.now }
    ensures unaborted { check_refusal (numbering grouping.entry) ≡ None → Whole (numbering grouping.entry) candidate.now result }
{
    if !candidate_bytes::is_candidate(candidate) {
        return Err(Refusal::Candidate);
    }
    if let Some(refusal) = limit_refusal(grouping) {
        return Err(refusal);
    }
    let grouped = group_of(candidate, grouping);
    Ok(grouped.group)
}

// The group of one candidate, with a map or none. Refusals 13, then with a map the check's, 1 to 10 and 19.
pub fn netgroup(candidate: &[u8], grouping: Grouping<'_>) -> Result<u64, Refusal>
    ensures value { result ≡ netgroup_of (numbering grouping.entry) candidate.now }
    ensures unaborted { Whole (numbering grouping.entry) candidate.now result }
{
    if !candidate_bytes::is_candidate(candidate) {
        return Err(Refusal::Candidate);
    }
    if let Some(refusal) = check_refusal(grouping) {
        return Err(refusal);
    }
    let grouped = group_of(candidate, grouping);
    Ok(grouped.group)
}
