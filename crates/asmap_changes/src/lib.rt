// Two listings gone through side by side, each a state of its own: the pieces on which they differ, counted, and their records of 28 bytes where they
// are wanted. Nothing of either listing is written down.
#![tactic(auto)]

ghost use Rattle.std.specs.Prelude.{◌≡◌, Bool, true, false, List, ◌++◌, ℕ, ◌*◌, ◌≤◌, length, eqb};
ghost use Rattle.byte_numbers.specs.Numbers.{bytes4};
ghost use Rattle.asmap_program.specs.Map.{limit};
ghost use Rattle.prefix_records.specs.Tiling.{Piece};
ghost use Rattle.prefix_records.specs.models.Cursor.{value_of, record_at, Behind};
ghost use Rattle.asmap_changes.specs.Changes.{changes_of};
ghost use Rattle.asmap_changes.specs.models.Side.{Ready, Coming, Comes, Fronted, Paired, place_of, put_if, added, Noted, Roomy, RoomFor, Whole, most_changes};

use asmap_list_step::{Spot, Stack};
use prefix_records::Address;

// The foremost piece of a listing: where it begins and the address behind it, its prefix length and number, and where the listing stands behind it.
#[derive(Clone, Copy)]
pub struct Front {
    pub begin: Address,
    pub end: Address,
    pub len: u8,
    pub number: u32,
    pub spot: Spot,
}

// Where a prefix begins, and its length.
#[derive(Clone, Copy)]
pub struct Place {
    pub begin: Address,
    pub len: u8,
}

// What was found so far: how many pieces differ, and where the first of them begins.
#[derive(Clone, Copy)]
pub struct Found {
    pub pieces: usize,
    pub first: Address,
}

// Nothing yet.
fn nothing() -> Found
    ensures { result ≡ record { pieces = 0; first = record { high = 0; low = 0 } } }
{
    Found {
        pieces: 0,
        first: Address::ZERO,
    }
}

// The foremost piece, from where it begins. The state is copied field by field: a copy of the whole would wait for the narrow stores that made it.
fn front_at(begin: Address, len: u8, number: u32, s: Spot) -> Front
    requires { len ≤ 128 }
    ensures { (result.begin ≡ begin) × (result.len ≡ len) × (result.number ≡ number) × (result.spot ≡ s) × Behind begin len result.end }
{
    let end = prefix_records::behind(begin, len);
    Front {
        begin,
        end,
        len,
        number,
        spot: Spot {
            at: s.at,
            used: s.used,
            default: s.default,
            value: s.value,
            left: s.left,
            depth: s.depth,
            up: s.up,
        },
    }
}

// The next piece of a listing, which begins at an address; none at the listing's end.
fn next_front(map: &[u8], begin: Address, from: Spot, stack: &mut Stack) -> Option<Front>
    requires { (length map.now ≤ limit) × Comes map.now from begin stack.old.bits stack.old.numbers }
    ensures { (lo : ℕ) (ps : List Piece) → Coming map.now from begin stack.old.bits stack.old.numbers lo ps → Fronted map.now from ps stack.new.bits stack.new.numbers result }
{
    let (len, number, next) = asmap_list_step::next_piece(map, from, stack)?;
    Some(front_at(begin, len, number, next))
}

// Of two pieces that overlap the longer prefix is what they share.
fn shared(o: Front, n: Front) -> Place
    ensures { result ≡ place_of o n }
{
    if o.len < n.len {
        return Place {
            begin: n.begin,
            len: n.len,
        };
    }
    Place {
        begin: o.begin,
        len: o.len,
    }
}

// What is done about a piece that differs, the k-th.
pub trait Report {
    // whether it writes
    ghost writes: { Bool };

    fn piece(out: &mut [u8], k: usize, p: Place, old: u32, new: u32)
        requires { Roomy writes k out.old }
        ensures { out.new ≡ put_if writes out.old (28 * k) (record_at p.begin p.len old ++ bytes4 new) };
}

// Its record is written.
pub struct Written;

impl Report for Written {
    ghost writes = { true };

    fn piece(out: &mut [u8], k: usize, p: Place, old: u32, new: u32) {
        prefix_changes::put_change(out, 28 * k, p.begin, p.len, old, new);
    }
}

// It is only counted, and nothing is written.
pub struct Counted;

impl Report for Counted {
    ghost writes = { false };

    fn piece(_out: &mut [u8], _k: usize, _p: Place, _old: u32, _new: u32) {}
}

// One piece more that differs.
fn add(found: Found, a: Address) -> Found
    requires { found.pieces ≤ most_changes }
    ensures { result ≡ added found a }
{
    let k = found.pieces;
    if k == 0 {
        return Found {
            pieces: 1,
            first: a,
        };
    }
    Found {
        pieces: k + 1,
        ..found
    }
}

// The foremost pieces of both listings: what they share is a change where their numbers differ.
fn note<R: Report>(found: Found, out: &mut [u8], o: Front, n: Front) -> Found
    requires { (found.pieces ≤ most_changes) × ((o.number ≡ n.number → ⊥) → Roomy R.writes found.pieces out.old) }
    ensures { Noted R.writes o n found result out.old out.new }
{
    if o.number == n.number {
        return found;
    }
    let place = shared(o, n);
    R::piece(out, found.pieces, place, o.number, n.number);
    add(found, place.begin)
}

// From the foremost pieces of both listings to their ends. Of two that overlap the one with the longer prefix ends first, or both end at once.
fn merge<R: Report>(
    old: &[u8],
    new: &[u8],
    out: &mut [u8],
    first_old: Front,
    first_new: Front,
    old_stack: &mut Stack,
    new_stack: &mut Stack,
) -> Found
    requires { Ready old.now × Ready new.now × RoomFor R.writes (length (changes_of old.now new.now 128)) out.old × Paired old.now new.now first_old first_new old_stack.old.bits old_stack.old.numbers new_stack.old.bits new_stack.old.numbers }
    ensures { Whole R.writes (changes_of old.now new.now 128) out.old out.new result }
{
    let mut found = nothing();
    let mut o = first_old;
    let mut n = first_new;
    loop {
        found = note::<R>(found, out, o, n);
        if o.end == n.end {
            let Some(next_old) = next_front(old, o.end, o.spot, old_stack) else {
                return found;
            };
            let Some(next_new) = next_front(new, n.end, n.spot, new_stack) else {
                return found;
            };
            o = next_old;
            n = next_new;
        } else if n.len < o.len {
            let Some(next_old) = next_front(old, o.end, o.spot, old_stack) else {
                return found;
            };
            o = next_old;
        } else {
            let Some(next_new) = next_front(new, n.end, n.spot, new_stack) else {
                return found;
            };
            n = next_new;
        }
    }
}

// The pieces on which two maps that the check accepts differ: how many, and the first of them. Each is written or only counted, as R says.
pub fn put_changes<R: Report>(old: &[u8], new: &[u8], out: &mut [u8]) -> Found
    requires { Ready old.now × Ready new.now × RoomFor R.writes (length (changes_of old.now new.now 128)) out.old }
    ensures { Whole R.writes (changes_of old.now new.now 128) out.old out.new result }
{
    let mut old_stack = Stack::new();
    let mut new_stack = Stack::new();
    let s = asmap_list_step::start();
    let Some(o) = next_front(old, Address::ZERO, s, &mut old_stack) else {
        return nothing();
    };
    let Some(n) = next_front(new, Address::ZERO, s, &mut new_stack) else {
        return nothing();
    };
    merge::<R>(old, new, out, o, n, &mut old_stack, &mut new_stack)
}
