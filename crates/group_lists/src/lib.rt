// Lists of groups: whether a group is in one, and the occupied scan (document 02, CR 2). What the call of the scan and the free groups
// of a pick share.
#![tactic(auto)]

ghost use Rattle.std.specs.Prelude.{◌≡◌, ◌+◌, ◌≤◌, length, take, drop};
ghost use Rattle.group_lists.specs.Groups.{has};
ghost use Rattle.group_lists.specs.Scan.{in_front, scan_of, Unread};

use peer_lists::MAX_CANDIDATES;
use refusals::Refusal;

// What the occupied scan came to: the first hit's place, from 0, or none; and how many groups were read.
#[derive(Clone, Copy, Debug, PartialEq, Eq)]
pub struct Scan {
    pub hit: Option<usize>,
    pub read: usize,
}

// How many of the next groups from a place on, so many, stand in front of the first that is a given one: all where none of them is. With
// a number that is known when the program is made the compiler writes one comparison behind the other.
fn front_of<const N: usize>(groups: &[u64], i: usize, group: u64) -> usize
    requires { i + N ≤ length groups.now }
    ensures { result ≡ in_front group (take N (drop i groups.now)) }
{
    for k in 0..N {
        if group == groups[i + k] {
            return k;
        }
    }
    N
}

// The place of the first that is a given one, from a place on, one by one: the end where none is.
fn place_from(groups: &[u64], from: usize, group: u64) -> usize
    requires { from ≤ length groups.now }
    ensures { result ≡ from + in_front group (drop from groups.now) }
{
    for i in from..groups.len() {
        if group == groups[i] {
            return i;
        }
    }
    groups.len()
}

// The place of the first that is a given one: the end where none is. No group behind it is read. Eight are compared in each turn:
// the loop itself costs as much as comparing two.
fn place_of(groups: &[u64], group: u64) -> usize
    ensures { result ≡ in_front group groups.now }
{
    for turn in 0..groups.len() / 8 {
        let front = front_of::<8>(groups, 8 * turn, group);
        if front < 8 {
            return 8 * turn + front;
        }
    }
    place_from(groups, groups.len() / 8 * 8, group)
}

// Whether a group is in a list of groups.
pub fn contains(groups: &[u64], group: u64) -> bool
    ensures { result ≡ has group groups.now }
{
    place_of(groups, group) < groups.len()
}

// The occupied scan: the first hit's place, from 0, or none, and how many groups were read: that place plus one, or all. Of a group
// that stands there twice the first place counts. Refusal 12 for over 4,096 groups.
#[tactic(auto, unfolding(crate::specs::Scan::Unread))]
pub fn scan_occupied(group: u64, occupied: &[u64]) -> Result<Scan, Refusal>
    ensures value { result ≡ scan_of group occupied.now }
    ensures unread { Unread group occupied.now result }
{
    if occupied.len() > MAX_CANDIDATES {
        return Err(Refusal::TooMany);
    }
    let place = place_of(occupied, group);
    if place < occupied.len() {
        return Ok(Scan {
            hit: Some(place),
            read: place + 1,
        });
    }
    Ok(Scan {
        hit: None,
        read: place,
    })
}
