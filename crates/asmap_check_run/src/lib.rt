// The check of a map, instruction by instruction (document 01, Check): what it comes to for every map within the limit.
//
// Two kinds of function. The arms (`asmap_check_act: sanity_act` and those it calls) read an instruction and answer an `Act`; they take
// the map and numbers but never the state, which a call copies with both its arrays. The loop here (`run_check`) carries the act out; the
// state passes through three methods alone, which touch its numbers only. A method that indexed an array would have both arrays, 640 bytes,
// copied to it and back at each call; so the loop itself stores an open jump and reads it.
#![tactic(auto)]

ghost use Rattle.std.specs.Prelude.{◌≡◌, ◌+◌, ◌-◌, ◌≤◌, ◌<◌, max, length};
ghost use Rattle.asmap_program.specs.Map.{limit};
ghost use Rattle.asmap_program.specs.Check.{after_match};
ghost use Rattle.asmap_check_run.specs.models.State.{Arrays, top, judged, most};

use asmap_check_act::Act;
use asmap_program::{Accepted, Previous, Verdict};
use refusals::Fault;

// What the loop comes to, for all calls of the check: the verdict, the place at which it stopped, and the prefixes told apart up to there.
#[derive(Clone, Copy)]
pub struct Judged {
    pub verdict: Verdict,
    pub place: usize,
    pub pieces: usize,
}

// The open jumps, innermost last, and the address bits left.
//
// The arrays are never full: an open jump has used a bit and saved those left after it, so depth and bits left together are at most 128.
// A target fits a u32: a map has at most 134,217,728 bits and a JUMP skips at most 2,147,483,632, together less than 2 to the 32. Saved
// bits fit a u8: they are at most 128.
//
// The bits stand between the arrays and the depth: straight behind the arrays the depth is cleared with them, in one piece, and the first
// turn waits for that before it can read it. The check of a map of three bytes then takes half as long again.
#[derive(Drop)]
struct CheckState {
    targets: [u32; 128],
    saved: [u8; 128],
    bits: u8,
    depth: usize,
}

impl CheckState {
    fn new(bits: u8) -> CheckState
        ensures { (result.depth ≡ 0) × (result.bits ≡ bits) }
    {
        CheckState {
            targets: [0; 128],
            saved: [0; 128],
            bits,
            depth: 0,
        }
    }

    // The jump that the loop has stored at the depth, its target and the bits that it saves, opens.
    fn open_jump(mut self) -> CheckState
        requires { self.depth < 128 }
        ensures { result ≡ record { targets = self.targets; saved = self.saved; depth = self.depth + 1; bits = self.bits } }
    {
        self.depth += 1;
        self
    }

    // The innermost jump closes. `bits` are those that it saved: the loop reads them.
    fn close_jump(mut self, bits: u8) -> CheckState
        requires { 1 ≤ self.depth }
        ensures { result ≡ record { targets = self.targets; saved = self.saved; depth = self.depth - 1; bits = bits } }
    {
        self.depth -= 1;
        self.bits = bits;
        self
    }

    // Address bits are used. The loop stores into the arrays after this, and learns here that they have 128 places.
    fn use_bits(mut self, n: u8) -> CheckState
        requires { n ≤ self.bits }
        ensures { (result ≡ record { targets = self.targets; saved = self.saved; depth = self.depth; bits = self.bits - n }) × Arrays self }
    {
        self.bits -= n;
        self
    }
}

// What a MATCH leaves behind: a full one clears what a short one before it left.
fn after_match(n: u8) -> Previous
    ensures { result ≡ after_match n }
{
    if n < 8 {
        return Previous::Short;
    }
    Previous::Other
}

// The innermost target. With no open jump there is none, and `past` does not look at the number.
fn innermost(targets: &[u32; 128], depth: usize) -> u32
    requires { depth ≤ 128 }
    ensures { result ≡ top targets.now depth }
{
    if depth == 0 {
        return targets[0];
    }
    targets[depth - 1]
}

// The check of a map within the limit over a number of address bits, which the public calls fix: the arrays hold as many jumps as there
// are bits. A RETURN gives one piece, a MATCH one for each of its bits: counted here, a listing needs no pass of its own to know its length.
pub fn run_check(map: &[u8], bits: u8) -> Judged
    requires { (length map.now ≤ limit) × (bits ≤ 128) }
    ensures { (result ≡ judged map.now bits) × (result.pieces ≤ most) }
{
    let end = 8 * map.len();
    let mut state = CheckState::new(bits);
    let mut pos: usize = 0;
    let mut previous = Previous::Other;
    let mut count: u32 = 0;
    let mut deepest: usize = 0;
    let mut pieces: usize = 0;
    while pos < end {
        let depth = state.depth;
        let top = innermost(&state.targets, depth);
        let free = state.bits;
        let asked = asmap_check_act::sanity_act(map, pos, previous, free, depth, top);
        count += 1;
        match asked {
            Ok(Act::Opens(next, target)) => {
                state = state.use_bits(1);
                state.targets[depth] = target;
                state.saved[depth] = state.bits;
                state = state.open_jump();
                deepest = deepest.max(state.depth);
                previous = Previous::Other;
                pos = next;
            }
            Ok(Act::Closes(next)) => {
                let saved = state.saved[depth - 1];
                state = state.close_jump(saved);
                previous = Previous::Other;
                pieces += 1;
                pos = next;
            }
            Ok(Act::Uses(next, length)) => {
                state = state.use_bits(length);
                previous = after_match(length);
                pieces += length as usize;
                pos = next;
            }
            Ok(Act::Keeps(next)) => {
                previous = Previous::Default;
                pos = next;
            }
            Ok(Act::Accepts) => {
                return Judged {
                    verdict: Ok(Accepted {
                        count,
                        depth: deepest as u8,
                    }),
                    place: pos,
                    pieces: pieces + 1,
                };
            }
            Err(fault) => {
                return Judged {
                    verdict: Err(fault),
                    place: pos,
                    pieces,
                };
            }
        }
    }
    Judged {
        verdict: Err(Fault::MapEnds),
        place: pos,
        pieces,
    }
}
