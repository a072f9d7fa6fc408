// Lists of candidates: the one at a place, whether each is one, and why a list is refused (document 01, Groups and pick; What a call
// hands back). What the group calls and the pick share.
#![tactic(auto)]

ghost use Rattle.std.specs.Prelude.{◌≡◌, [], ◌+◌, ◌/◌, ◌≤◌, ◌<◌, length, take, drop, get_or};
ghost use Rattle.peer_lists.specs.Candidates.{candidates_of, all_valid};
ghost use Rattle.peer_lists.specs.Refusal.{list_refusal};

use candidate_bytes::is_candidate;
use refusals::Refusal;

// The most candidates of a list, and the most occupied groups.
pub const MAX_CANDIDATES: usize = 4096;

// ---- a list of candidates

// The candidate at a place.
pub fn candidate_at(candidates: &[u8], i: usize) -> &[u8]
    requires { i < length candidates.now / 20 }
    ensures { (result.now ≡ get_or (candidates_of candidates.now) i []) × (length result.now ≡ 20) }
{
    &candidates[20 * i..20 * i + 20]
}

// Whether each of the four from a place on is one.
fn four_candidates(candidates: &[u8], i: usize) -> bool
    requires { i + 4 ≤ length candidates.now / 20 }
    ensures { result ≡ all_valid (take 4 (drop i (candidates_of candidates.now))) }
{
    is_candidate(candidate_at(candidates, i))
        && is_candidate(candidate_at(candidates, i + 1))
        && is_candidate(candidate_at(candidates, i + 2))
        && is_candidate(candidate_at(candidates, i + 3))
}

// Whether each from a place on is one, one by one.
fn candidates_from(candidates: &[u8], from: usize) -> bool
    requires { from ≤ length candidates.now / 20 }
    ensures { result ≡ all_valid (drop from (candidates_of candidates.now)) }
{
    for i in from..candidates.len() / 20 {
        if !is_candidate(candidate_at(candidates, i)) {
            return false;
        }
    }
    true
}

// Whether each 20 bytes are a candidate. Four are looked at in each turn: a pick looks at every candidate before it takes the first, so
// that with a long list this is most of its time.
pub fn all_candidates(candidates: &[u8]) -> bool
    ensures { result ≡ all_valid (candidates_of candidates.now) }
{
    let n = candidates.len() / 20;
    for turn in 0..n / 4 {
        if !four_candidates(candidates, 4 * turn) {
            return false;
        }
    }
    candidates_from(candidates, n / 4 * 4)
}

// ---- why a list is refused

// Why a list of candidates is refused, with the occupied groups: 13 for the length, 12, 13.
pub fn list_refusal(candidates: &[u8], occupied: &[u64]) -> Option<Refusal>
    ensures { result ≡ list_refusal candidates.now occupied.now }
{
    if candidates.len() % 20 != 0 {
        return Some(Refusal::Candidate);
    }
    if MAX_CANDIDATES < candidates.len() / 20 || MAX_CANDIDATES < occupied.len() {
        return Some(Refusal::TooMany);
    }
    if !all_candidates(candidates) {
        return Some(Refusal::Candidate);
    }
    None
}
