// A map built from a list of prefixes (document 02, CR 8). The map is the tree of all addresses: RETURN where all addresses of a subtree have one
// number, else JUMP, the half with bit 0 and the half with bit 1.
//
// A JUMP says how long its first half is, so that half must be known before the JUMP is written. The pass therefore goes from the highest address
// down and from the map's last bit to its first: a half with bit 1, then the half with bit 0 beside it, then their JUMP. It is made twice, first to
// count the bits and then to write them, so that nothing is written where the map or the output is too long or too short. What it keeps is where
// it stands and, for each length of prefix, how many bits there were when a half with bit 0 was begun.
#![tactic(auto)]

ghost use Rattle.std.specs.Prelude.{◌≤◌};
ghost use Rattle.prefix_lists.specs.Judged.{Listed};
ghost use Rattle.prefix_lists.specs.models.Listed.{Number};
ghost use Rattle.asmap_records.specs.Output.{Hands};
ghost use Rattle.asmap_build.specs.Build.{tree_bits, build_as, build_of, build_at};
ghost use Rattle.asmap_build.specs.Promise.{WritesMap};
ghost use Rattle.asmap_build.specs.models.Size.{Sized, WriteReady, Filled};

use asmap_front_writer::{Counts, Front, Step, Writes};
use asmap_program::{JUMP, MAX_MAP_BYTES, RETURN};
use prefix_records::Address;
use prefix_runs::Prefixes;
use refusals::{Fault, Refusal};
use tree_turns::Turn;

// The most bits of a map: 16,777,216 bytes.
const MAX_BITS: usize = 8 * MAX_MAP_BYTES;

// One pass over the tree of the addresses of 128 bits, from its end to its start: how many bits the map has, none where it is over the limit. What
// is done with each instruction, the step says: `Counts` leaves the output as it is; `Writes` writes the bits, of which there are `total`.
fn pass<S: Step>(prefixes: Prefixes, out: &mut [u8], total: usize) -> Option<usize>
    requires { Number prefixes.given × WriteReady S.writes total (tree_bits prefixes.records.now prefixes.given 128) out.old }
    ensures { Sized (tree_bits prefixes.entry.records.now prefixes.entry.given 128) result
        × Filled S.writes (tree_bits prefixes.entry.records.now prefixes.entry.given 128) out.old out.new }
{
    let mut starts = [0usize; 129];
    let mut run = prefixes.last_run();
    let mut first = Address::ZERO;
    let mut depth: usize = 0;
    let mut todo: usize = 1;
    let mut front = Front {
        done: 0,
        bits: 0,
        held: (8 - total % 8) % 8,
        place: total.div_ceil(8),
    };
    while 0 < depth + todo {
        match tree_turns::turn_of(todo, first, depth, run.first) {
            Turn::Descends => {
                first = tree_turns::one_half(first, depth);
                depth += 1;
            }
            Turn::Returns => {
                front = S::put_before(out, front, RETURN, run.number);
                if MAX_BITS < front.done {
                    return None;
                }
                todo = 0;
            }
            Turn::Closes => {
                let over = (front.done - starts[depth]) as u32;
                front = S::put_before(out, front, JUMP, over);
                if MAX_BITS < front.done {
                    return None;
                }
                depth -= 1;
            }
            Turn::Crosses => {
                starts[depth] = front.done;
                run = prefixes.run_before(first, run);
                first = tree_turns::zero_half(first, depth);
                todo = 1;
            }
        }
    }
    Some(front.done)
}

// The map of a list that is not refused, counted and then written.
fn build_listed(prefixes: Prefixes, out: &mut [u8]) -> Result<usize, Refusal>
    requires { Number prefixes.given }
    ensures { Hands (build_as (tree_bits prefixes.entry.records.now prefixes.entry.given 128) Listed) out.old out.new result }
{
    let Some(total) = pass::<Counts>(prefixes, out, 0) else {
        return Err(Refusal::Map(Fault::MapTooLong));
    };
    let bytes = total.div_ceil(8);
    if out.len() < bytes {
        return Err(Refusal::OutputTooShort);
    }
    pass::<Writes>(prefixes, out, total);
    Ok(bytes)
}

// Builds over a number of address bits. The tree does not depend on it, once no prefix is longer.
fn build_over(records: &[u8], given: u32, bits: u8, out: &mut [u8]) -> Result<usize, Refusal>
    requires { bits ≤ 128 }
    ensures hands { Hands (build_of records.now given bits) out.old out.new result }
    ensures builds { WritesMap records.now given bits out.new result }
{
    prefix_lists::judge_list(records, given, bits)?;
    build_listed(Prefixes { records, given }, out)
}

// Builds the map of a list of prefixes, records of 24 bytes that rise and do not overlap, with a number for all other addresses, at a width. Refusals:
// 18 for a width that is neither 32 nor 128; 21 for record bytes that are no multiple of 24; for the first wrong record 21 for its prefix or 22 for
// its number; 22 for the given number; 1 for a map over the limit; 14. A refused call writes nothing.
pub fn build(records: &[u8], given: u32, width: u32, out: &mut [u8]) -> Result<usize, Refusal>
    ensures hands { Hands (build_at records.now given width) out.old out.new result }
    ensures builds { WritesMap records.now given width out.new result }
{
    if !asmap_program::is_width(width) {
        return Err(Refusal::Width);
    }
    build_over(records, given, width as u8, out)
}
