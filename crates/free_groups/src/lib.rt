// Which groups are free: neither occupied by a connected peer nor taken already (document 01, Groups and pick). Those that are not are the
// used groups: the occupied ones, and behind them the taken ones. Marks and links spare most scans of them.
//
// A group is marked at its number modulo 4,096 with its place among the used groups, counted from 1. Of two groups with one mark the later
// place stands there, and the link of that place leads to the earlier one. So whoever asks for a group begins at its mark and follows the
// links: these lead to all used groups that share the mark, and to no other.
#![tactic(auto)]

ghost use Rattle.std.specs.Prelude.{◌≡◌, ◌++◌, ◌+◌, ◌%◌, ◌≤◌, ◌<◌, [], length, replicate, take, get_or, set};
ghost use Rattle.group_lists.specs.Groups.{has};
ghost use Rattle.free_groups.specs.Free.{free};
ghost use Rattle.free_groups.specs.models.Marks.{Put, Linked};

use group_lists::{Scan, contains};
use std::mem;

// So many links are followed at most; what is left is scanned. Marks shared by more groups are rare unless somebody chose the groups so,
// and then a scan costs less than following the links: it reads groups one behind the other.
const MOST_LINKS: usize = 8;

// No group is marked.
pub fn no_marks() -> [u16; 4096]
    ensures { result ≡ replicate 4096 0 }
{
    [0; 4096]
}

// Room for the links of 4,096 occupied groups and as many taken ones. A link counts only where a group has its place.
pub fn no_links() -> [u16; 8192]
    ensures { 8192 ≡ length result }
{
    [0; 8192]
}

// Puts the mark of a group that has a place among the used groups, and hands back the one that stood there.
fn put_mark(group: u64, place: usize, marks: &mut [u16]) -> u16
    requires { (length marks.old ≡ 4096) × (place < 8192) }
    ensures { Put marks.old group place result marks.new }
{
    let at = (group % 4096) as usize;
    mem::replace(&mut marks[at], (place + 1) as u16)
}

// Marks a group that has a place behind the used groups, and links the place to the one that was marked there before. Marks and links may be
// slices of the caller's own.
pub fn mark(group: u64, place: usize, marks: &mut [u16], links: &mut [u16])
    requires { (length marks.old ≡ 4096) × (place < length links.old) × (place < 8192) }
    ensures { (marks.new ≡ set marks.old (group % 4096) (place + 1)) × (links.new ≡ set links.old place (get_or marks.old (group % 4096) 0)) }
{
    links[place] = put_mark(group, place, marks);
}

// Marks four occupied groups, from a place on. Their links are put one behind the other, which takes less time than in turn with the
// marks.
fn mark_four(occupied: &[u64], i: usize, marks: &mut [u16], links: &mut [u16])
    requires { (i + 4 ≤ length occupied.now) × (length occupied.now ≤ length links.old) × (length occupied.now ≤ 4096) × (Linked (take i occupied.now) marks.old links.old) }
    ensures { Linked (take (i + 4) occupied.now) marks.new links.new }
{
    let first = put_mark(occupied[i], i, marks);
    let second = put_mark(occupied[i + 1], i + 1, marks);
    let third = put_mark(occupied[i + 2], i + 2, marks);
    let fourth = put_mark(occupied[i + 3], i + 3, marks);
    links[i] = first;
    links[i + 1] = second;
    links[i + 2] = third;
    links[i + 3] = fourth;
}

// Marks the occupied groups from a place on, one by one.
fn mark_from(occupied: &[u64], from: usize, marks: &mut [u16], links: &mut [u16])
    requires { (from ≤ length occupied.now) × (length occupied.now ≤ length links.old) × (length occupied.now ≤ 4096) × (Linked (take from occupied.now) marks.old links.old) }
    ensures { Linked occupied.now marks.new links.new }
{
    for i in from..occupied.len() {
        mark(occupied[i], i, marks, links);
    }
}

// Marks the occupied groups.
pub fn mark_groups(occupied: &[u64], marks: &mut [u16], links: &mut [u16])
    requires { (marks.old ≡ replicate 4096 0) × (length occupied.now ≤ length links.old) × (length occupied.now ≤ 4096) }
    ensures { Linked occupied.now marks.new links.new }
{
    for turn in 0..occupied.len() / 4 {
        mark_four(occupied, 4 * turn, marks, links);
    }
    mark_from(occupied, occupied.len() / 4 * 4, marks, links);
}

// The used group at a place.
fn used_at(occupied: &[u64], taken: &[u64], place: usize) -> u64
    requires { place < length occupied.now + length taken.now }
    ensures { result ≡ get_or (occupied.now ++ taken.now) place 0 }
{
    if place < occupied.len() {
        return occupied[place];
    }
    taken[place - occupied.len()]
}

// Whether a connected peer has the group, by the occupied scan. It refuses only what a pick has refused before.
fn is_occupied(group: u64, occupied: &[u64]) -> bool
    requires { length occupied.now ≤ 4096 }
    ensures { result ≡ has group occupied.now }
{
    matches!(
        group_lists::scan_occupied(group, occupied),
        Ok(Scan { hit: Some(_), .. })
    )
}

// Whether a group is one of the first used ones: of so many.
fn is_among(group: u64, occupied: &[u64], taken: &[u64], count: usize) -> bool
    requires { (length occupied.now ≤ 4096) × (count ≤ length occupied.now + length taken.now) }
    ensures { result ≡ has group (take count (occupied.now ++ taken.now)) }
{
    if count <= occupied.len() {
        return is_occupied(group, &occupied[..count]);
    }
    is_occupied(group, occupied) || contains(&taken[..count - occupied.len()], group)
}

// Whether a group is neither occupied nor taken. `count` used groups are left to look at; of these the last has the group's mark.
pub fn is_free(group: u64, occupied: &[u64], taken: &[u64], marks: &[u16], links: &[u16]) -> bool
    requires { (Linked (occupied.now ++ taken.now) marks.now links.now) × (length occupied.now ≤ 4096) }
    ensures { result ≡ free occupied.now taken.now group }
{
    let at = (group % 4096) as usize;
    let mut count = marks[at] as usize;
    'links: for _ in 0..MOST_LINKS {
        if count == 0 {
            return true;
        }
        if used_at(occupied, taken, count - 1) == group {
            return false;
        }
        count = links[count - 1] as usize;
    }
    !is_among(group, occupied, taken, count)
}

// Marks, and the links of places, as a pick has them: arrays of its own, which the functions above are handed.
#[derive(Drop)]
pub struct Marks {
    // By a group's number modulo 4,096.
    pub marks: [u16; 4096],
    // By a place: room for 4,096 occupied groups and as many taken ones. A link counts only where a group has its place.
    pub links: [u16; 8192],
}

impl Marks {
    // No group is marked.
    pub fn none() -> Marks
        ensures unmarked { result.marks ≡ replicate 4096 0 }
        ensures room { length result.links ≡ 8192 }
        ensures linked { Linked [] result.marks result.links }
    {
        Marks {
            marks: [0; 4096],
            links: [0; 8192],
        }
    }

    // `mark` on these.
    pub fn mark(&mut self, group: u64, place: usize)
        requires { place < 8192 }
        ensures { (self.new.marks ≡ set self.old.marks (group % 4096) (place + 1)) × (self.new.links ≡ set self.old.links place (get_or self.old.marks (group % 4096) 0)) }
    {
        mark(group, place, &mut self.marks, &mut self.links);
    }

    // `mark_groups` on these.
    pub fn mark_groups(&mut self, occupied: &[u64])
        requires { Linked [] self.old.marks self.old.links × (length occupied.now ≤ 4096) }
        ensures { (Linked occupied.now self.new.marks self.new.links) × (length self.new.links ≡ 8192) }
    {
        mark_groups(occupied, &mut self.marks, &mut self.links);
    }

    // `is_free` on these.
    pub fn is_free(&self, group: u64, occupied: &[u64], taken: &[u64]) -> bool
        requires { Linked (occupied.now ++ taken.now) self.now.marks self.now.links × (length occupied.now ≤ 4096) }
        ensures { result ≡ free occupied.now taken.now group }
    {
        is_free(group, occupied, taken, &self.marks, &self.links)
    }
}
