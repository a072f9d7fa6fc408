// The calls that check a map (document 01, Check): which maps are sane, the reason where one is not, where in the map the check stops, and how many
// prefixes the map tells apart, which is counted on the way.
#![tactic(auto)]

ghost use Rattle.std.specs.Prelude.{◌≡◌, ◌≤◌, ltb, length};
ghost use Rattle.asmap_program.specs.Map.{limit};
ghost use Rattle.asmap_check.specs.models.Counted.{counted_as, counted_of, Few};
ghost use Rattle.asmap_check.specs.Check.{check_of, check_at, LikeCore, LikeCoreAt, wrong_of, stopped_of, stopped_at};

use asmap_check_run::run_check;
use asmap_program::{ADDRESS_BITS, Accepted, MAX_MAP_BYTES, Verdict};
use refusals::{Fault, Refusal};

// Where the check of a map stops, and what is wrong there: nothing, where it accepts.
#[derive(Clone, Copy, Debug, PartialEq, Eq)]
pub struct Stop {
    pub wrong: Option<Fault>,
    pub place: usize,
}

// A map over the limit, of which nothing is read.
fn too_long(map: &[u8]) -> bool
    ensures { result ≡ ltb limit (length map.now) }
{
    MAX_MAP_BYTES < map.len()
}

// The check over a number of address bits, for the calls below and for those of other crates, which all fix it.
pub fn check_over(map: &[u8], bits: u8) -> Verdict
    requires { bits ≤ 128 }
    ensures value { result ≡ check_of map.now bits }
    ensures core { LikeCore map.now bits result }
{
    if too_long(map) {
        return Err(Fault::MapTooLong);
    }
    run_check(map, bits).verdict
}

// The check: accepted with the number of instructions and the greatest depth, or refused, 1 to 10 or 19. Any bytes may be handed in.
pub fn sanity_check(map: &[u8]) -> Verdict
    ensures value { result ≡ check_of map.now 128 }
    ensures core { LikeCore map.now 128 result }
{
    check_over(map, ADDRESS_BITS)
}

// The check at a width: 18 for one that is neither 32 nor 128, whatever the map is; else as above.
pub fn sanity_check_bits(map: &[u8], width: u32) -> Result<Accepted, Refusal>
    ensures value { result ≡ check_at map.now width }
    ensures core { LikeCoreAt map.now width result }
{
    if !asmap_program::is_width(width) {
        return Err(Refusal::Width);
    }
    Ok(check_over(map, width as u8)?)
}

// The check over a number of address bits, and the place at which it stops.
fn stop_over(map: &[u8], bits: u8) -> Result<Stop, Fault>
    requires { bits ≤ 128 }
    ensures { result ≡ stopped_of map.now bits }
{
    if too_long(map) {
        return Err(Fault::MapTooLong);
    }
    let judged = run_check(map, bits);
    Ok(Stop {
        wrong: judged.verdict.err(),
        place: judged.place,
    })
}

// The check, and the place at which it stops: for whoever has to say where in a map the fault was met. Any bytes may be handed in; refused is
// a map over the limit alone, 1.
pub fn sanity_check_stop(map: &[u8]) -> Result<Stop, Fault>
    ensures { result ≡ stopped_of map.now 128 }
{
    stop_over(map, ADDRESS_BITS)
}

// The same at a width: 18 for one that is neither 32 nor 128, before 1.
pub fn sanity_check_stop_bits(map: &[u8], width: u32) -> Result<Stop, Refusal>
    ensures { result ≡ stopped_at map.now width }
{
    if !asmap_program::is_width(width) {
        return Err(Refusal::Width);
    }
    Ok(stop_over(map, width as u8)?)
}

// The check over a number of address bits, with the prefixes that the map tells apart counted: for whoever has to know how long a listing is
// before it is written. Refused as the check does, 1 to 10 or 19.
pub fn sanity_check_pieces(map: &[u8], bits: u8) -> Result<usize, Fault>
    requires { bits ≤ 128 }
    ensures { (result ≡ counted_of map.now bits) × Few result }
{
    if too_long(map) {
        return Err(Fault::MapTooLong);
    }
    let judged = run_check(map, bits);
    judged.verdict?;
    Ok(judged.pieces)
}
