// Groups, picks and the occupied scan.
ghost use Rattle.std.specs.Prelude.{◌<◌};

use crate::answers::compared;
use group_lists::Scan;
use netgroup::Grouping;
use netgroup_pick::Totals;
use refusals::Refusal;
use replay_outcomes::{Out, Seen};
use replay_words::{Line, number};

// Room for the groups of a word. A word that has more cannot be read.
const GROUPS: usize = 4100;

// What groups go by: 0 without a map, 1 with one, 2 without one in the old numbering of prefixes.
pub fn grouping_of(n: u8, map: &[u8]) -> Option<Grouping<'_>> {
    match n {
        0 => Some(Grouping::Prefixes),
        1 => Some(Grouping::Map(map)),
        2 => Some(Grouping::OldPrefixes),
        _ => None,
    }
}

fn grouped(group: u64) -> Out {
    Out::done().number(group, 8)
}

pub fn prefix_group(line: Line) -> Seen {
    let got = netgroup::prefix_group(line.word(0));
    compared(got.map(grouped), line.word(1))
}

fn group_by<F: FnOnce(&[u8], Grouping<'_>) -> Result<u64, Refusal>>(line: Line, call: F) -> Seen
    requires { F.IsAlwaysCallable call }
{
    let Some(grouping) = grouping_of(line.byte(0), line.word(2)) else {
        return Seen::Unread;
    };
    let got = call(line.word(1), grouping);
    compared(got.map(grouped), line.word(3))
}

// By a map that is checked.
pub fn group(line: Line) -> Seen {
    group_by(line, netgroup::netgroup)
}

// By one that is not checked.
pub fn group_unchecked(line: Line) -> Seen {
    group_by(line, netgroup::netgroup_unchecked)
}

// ---- lists of groups

// The groups of a word, eight bytes each, put in the room; none where they are no groups or have no room.
fn groups_of<'a>(bytes: &[u8], room: &'a mut [u64]) -> Option<&'a [u64]> {
    if bytes.len() % 8 != 0 {
        return None;
    }
    for (group, eight) in room.iter_mut().zip(bytes.chunks_exact(8)) {
        *group = number(eight);
    }
    room.get(..bytes.len() / 8)
}

// None is found 0 with place 0, as a call from C has it.
fn scanned(scan: Scan) -> Out {
    Out::done()
        .byte(scan.hit.is_some() as u8)
        .number(scan.hit.unwrap_or(0) as u64, 8)
        .number(scan.read as u64, 8)
}

#[inline(never)]
pub fn scan(line: Line) -> Seen {
    let mut room = [0u64; GROUPS];
    let Some(occupied) = groups_of(line.word(1), &mut room) else {
        return Seen::Unread;
    };
    let got = group_lists::scan_occupied(line.wide(0) as u64, occupied);
    compared(got.map(scanned), line.word(2))
}

// ---- picks

// Whether the list's bytes, two for each place, are our places.
fn same_places(places: &[u16], bytes: &[u8]) -> bool {
    let pairs = bytes.chunks_exact(2);
    places
        .iter()
        .zip(pairs)
        .all(|(&place, pair)| number(pair) == place as u64)
}

// The same of groups, eight bytes for each.
fn same_groups(groups: &[u64], bytes: &[u8]) -> bool {
    let eights = bytes.chunks_exact(8);
    groups
        .iter()
        .zip(eights)
        .all(|(&group, eight)| number(eight) == group)
}

fn totals_of(totals: Totals) -> Out {
    let sums = Out::done()
        .number(totals.total as u64, 8)
        .number(totals.first as u64, 8);
    sums.number(totals.examined as u64, 8)
        .number(totals.instructions, 8)
}

// How many numbers of a size the bytes of a word are; none where they are no such numbers.
fn count_of(bytes: &[u8], size: usize) -> Option<usize>
    requires { 0 < size }
{
    if bytes.len() % size != 0 {
        return None;
    }
    Some(bytes.len() / size)
}

// By a map that is checked. The old numbering of prefixes has a call of its own.
fn pick_checked(
    list: &[u8],
    occupied: &[u64],
    max: usize,
    grouping: Grouping<'_>,
    places: &mut [u16],
    groups: &mut [u64],
) -> Result<Totals, Refusal> {
    match grouping {
        Grouping::OldPrefixes => {
            netgroup_pick::old_prefix_pick(list, occupied, max, places, groups)
        }
        _ => netgroup_pick::select_diverse(list, occupied, max, grouping, places, groups),
    }
}

// The outputs are as long as the list's; at entry they hold 999 and 888 at every place.
fn pick_by<
    F: FnOnce(
        &[u8],
        &[u64],
        usize,
        Grouping<'_>,
        &mut [u16],
        &mut [u64],
    ) -> Result<Totals, Refusal>,
>(line: Line, call: F) -> Seen
    requires { F.IsAlwaysCallable call }
{
    let Some(grouping) = grouping_of(line.byte(0), line.word(4)) else {
        return Seen::Unread;
    };
    let mut room = [0u64; GROUPS];
    let Some(occupied) = groups_of(line.word(2), &mut room) else {
        return Seen::Unread;
    };
    let mut place_room = [999u16; 4096];
    let mut group_room = [888u64; 4096];
    let Some(placed) = count_of(line.word(6), 2) else {
        return Seen::Unread;
    };
    let Some(grouped) = count_of(line.word(7), 8) else {
        return Seen::Unread;
    };
    let Some(places) = place_room.get_mut(..placed) else {
        return Seen::Unread;
    };
    let Some(groups) = group_room.get_mut(..grouped) else {
        return Seen::Unread;
    };
    let got = call(
        line.word(1),
        occupied,
        line.wide(3),
        grouping,
        places,
        groups,
    );
    compared(got.map(totals_of), line.word(5))
        .and_left(same_places(places, line.word(6)))
        .and_left(same_groups(groups, line.word(7)))
}

#[inline(never)]
pub fn pick(line: Line) -> Seen {
    pick_by(line, pick_checked)
}

// By a map that is not checked.
#[inline(never)]
pub fn pick_unchecked(line: Line) -> Seen {
    pick_by(line, netgroup_pick::select_diverse_unchecked)
}
