// What the check does at one instruction (document 01, Check), on numbers: it reads the instruction and says what the loop of
// `asmap_check_run` is to carry out, or why the map is refused.
#![tactic(auto)]

ghost use Rattle.std.specs.Prelude.{◌≡◌, ◌&&◌, ltb, ◌*◌, ◌^◌, ◌≤◌, ◌<◌, length};
ghost use Rattle.asmap_program.specs.Map.{limit};
ghost use Rattle.asmap_program.specs.Check.{is_default, is_short};
ghost use Rattle.asmap_codes.specs.Row.{asn_row, jump_row, match_row};
ghost use Rattle.asmap_codes.specs.Code.{code_at};
ghost use Rattle.asmap_codes.specs.Instruction.{padded_from};
ghost use Rattle.asmap_row_decoder.specs.models.InWindow.{Holds};
ghost use Rattle.asmap_check_act.specs.models.Act.{past_top, on_return, on_jump, on_match, on_default, acts};

use asmap_program::Previous;
use refusals::Fault;

// What an instruction asks of the loop. The first number of the first four is the place after the instruction; then a JUMP's target, a
// MATCH's length.
#[derive(Clone, Copy)]
pub enum Act {
    Opens(usize, u32),
    Closes(usize),
    Uses(usize, u8),
    Keeps(usize),
    Accepts,
}

// ---- the tests, each as a function on numbers

// A MATCH shorter than 8 straight after a MATCH shorter than 8.
fn short_again(length: u8, previous: Previous) -> bool
    ensures { result ≡ (ltb length 8 && is_short previous) }
{
    length < 8 && previous == Previous::Short
}

// A place at or past the innermost open target.
fn past(depth: usize, top: u32, place: usize) -> bool
    ensures { result ≡ past_top depth top place }
{
    0 < depth && top as usize <= place
}

// Padding after the final RETURN: at most 7 bits, all 0.
#[tactic(auto, using(crate::proofs::PaddingLaws::padded_long))]
fn padded(map: &[u8], at: usize) -> bool
    requires { (length map.now ≤ limit) × (at ≤ 8 * length map.now) }
    ensures { result ≡ padded_from map.now at }
{
    let end = 8 * map.len();
    if 7 < end - at {
        return false;
    }
    for pos in at..end {
        if asmap_window::bit_at(map, pos) == 1 {
            return false;
        }
    }
    true
}

// ---- the arms: an operand that starts at bit `at`, in the window `w`, and the tests in document 01's order

// RETURN: 5 after DEFAULT, 19 cut; with no open jump 6 where no padding follows, with one 7 where it does not end at the target.
fn sanity_return(
    map: &[u8],
    w: u64,
    at: usize,
    previous: Previous,
    depth: usize,
    top: u32,
) -> Result<Act, Fault>
    requires { (length map.now ≤ limit) × (at < 2 ^ 34) × Holds asn_row map.now at w }
    ensures { result ≡ on_return map.now previous depth top (code_at map.now at asn_row) }
{
    if previous == Previous::Default {
        return Err(Fault::AfterDefault);
    }
    let Some((_, next)) = asmap_row_decoder::asn_in(w, at, 8 * map.len()) else {
        return Err(Fault::CutOperand);
    };
    if depth == 0 {
        if padded(map, next) {
            return Ok(Act::Accepts);
        }
        return Err(Fault::Padding);
    }
    if next == top as usize {
        return Ok(Act::Closes(next));
    }
    Err(Fault::NotAtTarget)
}

// JUMP: 19 cut, 8 with no bit left, 9 where its target is at or past the innermost. The target is counted from the JUMP's end.
fn sanity_jump(
    map: &[u8],
    w: u64,
    at: usize,
    bits: u8,
    depth: usize,
    top: u32,
) -> Result<Act, Fault>
    requires { (length map.now ≤ limit) × (at < 2 ^ 34) × Holds jump_row map.now at w }
    ensures { result ≡ on_jump bits depth top (code_at map.now at jump_row) }
{
    let Some((offset, next)) = asmap_row_decoder::jump_in(w, at, 8 * map.len()) else {
        return Err(Fault::CutOperand);
    };
    if bits == 0 {
        return Err(Fault::NoBits);
    }
    let target = next as u32 + offset;
    if past(depth, top, target as usize) {
        return Err(Fault::TargetsCross);
    }
    Ok(Act::Opens(next, target))
}

// MATCH: 19 cut, 10 short after short, 8 where it is longer than the bits left.
fn sanity_match(map: &[u8], w: u64, at: usize, previous: Previous, bits: u8) -> Result<Act, Fault>
    requires { (length map.now ≤ limit) × (at < 2 ^ 34) × Holds match_row map.now at w }
    ensures { result ≡ on_match previous bits (code_at map.now at match_row) }
{
    let Some((operand, next)) = asmap_row_decoder::match_in(w, at, 8 * map.len()) else {
        return Err(Fault::CutOperand);
    };
    let length = asmap_program::match_length(operand);
    if short_again(length, previous) {
        return Err(Fault::ShortMatches);
    }
    if bits < length {
        return Err(Fault::NoBits);
    }
    Ok(Act::Uses(next, length))
}

// DEFAULT: 5 after DEFAULT, 19 cut.
fn sanity_default(map: &[u8], w: u64, at: usize, previous: Previous) -> Result<Act, Fault>
    requires { (length map.now ≤ limit) × (at < 2 ^ 34) × Holds asn_row map.now at w }
    ensures { result ≡ on_default previous (code_at map.now at asn_row) }
{
    if previous == Previous::Default {
        return Err(Fault::AfterDefault);
    }
    let Some((_, next)) = asmap_row_decoder::asn_in(w, at, 8 * map.len()) else {
        return Err(Fault::CutOperand);
    };
    Ok(Act::Keeps(next))
}

// The instruction at bit `pos`, inside the map: 3 at or past the innermost target, 4 where the opcode is cut, else by the opcode.
pub fn sanity_act(
    map: &[u8],
    pos: usize,
    previous: Previous,
    bits: u8,
    depth: usize,
    top: u32,
) -> Result<Act, Fault>
    requires { (length map.now ≤ limit) × (pos < 8 * length map.now) }
    ensures { result ≡ acts map.now previous bits depth top pos }
{
    if past(depth, top, pos) {
        return Err(Fault::PastTarget);
    }
    let w = asmap_window::window(map, pos);
    let Some((opcode, at)) = asmap_row_decoder::type_in(w, pos, 8 * map.len()) else {
        return Err(Fault::CutOpcode);
    };
    let rest = asmap_row_decoder::operand_window(map, w, pos, opcode, at);
    match opcode {
        asmap_program::RETURN => sanity_return(map, rest, at, previous, depth, top),
        asmap_program::JUMP => sanity_jump(map, rest, at, bits, depth, top),
        asmap_program::MATCH => sanity_match(map, rest, at, previous, bits),
        _ => sanity_default(map, rest, at, previous),
    }
}
