// The listing of a map as a step over a state (document 02, CR 1): a step reads an instruction, takes a bit of a MATCH, or takes up what is still to
// come, and gives at most one piece; steps up to a piece are `next_piece`. Whoever lists a map loops over that; whoever compares two maps goes through
// both side by side.
//
// Pieces tile, so a step hands back no address: a piece begins where the one before it ends. Nor is a target kept: what a JUMP skips ends
// where its target is, and so the second half begins where the first one ended.
//
// What is still to come (a JUMP's second half with its default, or a side that differs with its number) is a stack. Each entry has used an address
// bit of its own, so that 128 places suffice. It is lent and no part of the state: a state by value that holds its arrays would be copied.
#![tactic(auto)]

ghost use Rattle.std.specs.Prelude.{◌≡◌, true, false, List, ℕ, ◌≤◌, ◌<◌, length};
ghost use Rattle.asmap_program.specs.Map.{limit, RETURN, JUMP, MATCH, DEFAULT};
ghost use Rattle.asmap_codes.specs.Row.{asn_row, jump_row, match_row};
ghost use Rattle.asmap_row_decoder.specs.models.InWindow.{Holds};
ghost use Rattle.asmap_list_step.specs.models.Step.{Sane, Stepped, Passed, Reads};

// Where a listing stands, in numbers only. at: the place of the next instruction. used: the address bits used. default: the default. value, left:
// the operand of a MATCH, and how many of its bits are still to be taken. depth: the entries on the stack. up: the piece before ended what
// it stood in, and the stack says what comes next. default and value stand apart: side by side they would be copied as one, which waits for the stores
// of both.
#[derive(Clone, Copy)]
pub struct Spot {
    pub at: usize,
    pub default: u32,
    pub used: u8,
    pub value: u32,
    pub left: u8,
    pub depth: usize,
    pub up: bool,
}

// What a step comes to: a piece, with its prefix length and number, and where the listing stands then; no piece; or the end.
#[derive(Clone, Copy)]
pub enum Turn {
    Gives(u8, u32, Spot),
    Goes(Spot),
    Ends,
}

// What is still to come, entry by entry: the bit of each, and the default or the number that it has.
#[derive(Drop)]
pub struct Stack {
    pub bits: [u8; 128],
    pub numbers: [u32; 128],
}

impl Stack {
    // A function with a contract: a loop that starts from long arrays written out carries them through every goal.
    pub fn new() -> Stack
        ensures { (128 ≡ length result.bits) × (128 ≡ length result.numbers) }
    {
        Stack {
            bits: [0; 128],
            numbers: [0; 128],
        }
    }
}

// At map bit 0, no address bit used, default 0.
pub fn start() -> Spot
    ensures { result ≡ record { at = 0; used = 0; default = 0; value = 0; left = 0; depth = 0; up = false } }
{
    Spot {
        at: 0,
        used: 0,
        default: 0,
        value: 0,
        left: 0,
        depth: 0,
        up: false,
    }
}

// The stack's turn. A JUMP's second half is kept as its bit, a side that differs as its bit and 128 more.
fn step_up(map: &[u8], s: Spot, stack: &Stack) -> Turn
    requires { Sane map.now s stack.now.bits stack.now.numbers × (s.up ≡ true) }
    ensures { Stepped map.now s stack.now.bits stack.now.numbers stack.now.bits stack.now.numbers result }
{
    let depth = s.depth;
    if depth == 0 {
        return Turn::Ends;
    }
    let top = depth - 1;
    let bit = stack.bits[top];
    let number = stack.numbers[top];
    if bit < 128 {
        return Turn::Goes(Spot {
            used: bit + 1,
            default: number,
            value: 0,
            left: 0,
            depth: top,
            up: false,
            ..s
        });
    }
    let used = bit - 127;
    Turn::Gives(
        used,
        number,
        Spot {
            used,
            default: number,
            value: 0,
            left: 0,
            depth: top,
            up: true,
            ..s
        },
    )
}

// A bit of a MATCH. Where it is 1 the side that differs lies before what follows and is given at once; where it is 0 it lies behind, and
// goes on the stack.
fn step_bit(map: &[u8], s: Spot, stack: &mut Stack) -> Turn
    requires { Sane map.now s stack.old.bits stack.old.numbers × (s.up ≡ false) × (0 < s.left) }
    ensures { Stepped map.now s stack.old.bits stack.old.numbers stack.new.bits stack.new.numbers result }
{
    let left = s.left - 1;
    let used = s.used + 1;
    let depth = s.depth;
    if (s.value >> left) % 2 == 1 {
        return Turn::Gives(
            used,
            s.default,
            Spot {
                used,
                left,
                up: false,
                ..s
            },
        );
    }
    stack.bits[depth] = s.used + 128;
    stack.numbers[depth] = s.default;
    Turn::Goes(Spot {
        used,
        left,
        depth: depth + 1,
        up: false,
        ..s
    })
}

// ---- an instruction: its operand starts at bit `from`, in the window `w`. A cut code ends the listing; an accepted map has none.

// RETURN gives its number for all that begins with the bits used.
fn step_return(map: &[u8], s: Spot, w: u64, from: usize) -> Turn
    requires { (length map.now ≤ limit) × Reads map.now s RETURN from × Holds asn_row map.now from w }
    ensures { (bs ns : List ℕ) → Sane map.now s bs ns → Stepped map.now s bs ns bs ns result }
{
    let Some((number, next)) = asmap_row_decoder::asn_in(w, from, 8 * map.len()) else {
        return Turn::Ends;
    };
    Turn::Gives(
        s.used,
        number,
        Spot {
            at: next,
            value: 0,
            left: 0,
            up: true,
            ..s
        },
    )
}

// JUMP: its first half comes at once, its second one goes on the stack, with the default that holds here.
fn step_jump(map: &[u8], s: Spot, w: u64, from: usize, stack: &mut Stack) -> Turn
    requires { (length map.now ≤ limit) × Reads map.now s JUMP from × Holds jump_row map.now from w × Sane map.now s stack.old.bits stack.old.numbers }
    ensures { Stepped map.now s stack.old.bits stack.old.numbers stack.new.bits stack.new.numbers result }
{
    let Some((_, next)) = asmap_row_decoder::jump_in(w, from, 8 * map.len()) else {
        return Turn::Ends;
    };
    let used = s.used;
    let depth = s.depth;
    if used == 128 {
        return Turn::Ends;
    }
    stack.bits[depth] = used;
    stack.numbers[depth] = s.default;
    Turn::Goes(Spot {
        at: next,
        used: used + 1,
        value: 0,
        left: 0,
        depth: depth + 1,
        up: false,
        ..s
    })
}

// MATCH: its bits are taken by the steps that follow.
fn step_match(map: &[u8], s: Spot, w: u64, from: usize) -> Turn
    requires { (length map.now ≤ limit) × Reads map.now s MATCH from × Holds match_row map.now from w × (s.used ≤ 128) }
    ensures { (bs ns : List ℕ) → Sane map.now s bs ns → Stepped map.now s bs ns bs ns result }
{
    let Some((operand, next)) = asmap_row_decoder::match_in(w, from, 8 * map.len()) else {
        return Turn::Ends;
    };
    let length = asmap_program::match_length(operand);
    if 128 - s.used < length {
        return Turn::Ends;
    }
    Turn::Goes(Spot {
        at: next,
        value: operand,
        left: length,
        up: false,
        ..s
    })
}

// DEFAULT: its number is the default from here on, until another.
fn step_default(map: &[u8], s: Spot, w: u64, from: usize) -> Turn
    requires { (length map.now ≤ limit) × Reads map.now s DEFAULT from × Holds asn_row map.now from w }
    ensures { (bs ns : List ℕ) → Sane map.now s bs ns → Stepped map.now s bs ns bs ns result }
{
    let Some((number, next)) = asmap_row_decoder::asn_in(w, from, 8 * map.len()) else {
        return Turn::Ends;
    };
    Turn::Goes(Spot {
        at: next,
        default: number,
        value: 0,
        left: 0,
        up: false,
        ..s
    })
}

// The instruction at the place, by its opcode.
fn step_at(map: &[u8], s: Spot, stack: &mut Stack) -> Turn
    requires { (length map.now ≤ limit) × Sane map.now s stack.old.bits stack.old.numbers × (s.up ≡ false) × (s.left ≡ 0) }
    ensures { Stepped map.now s stack.old.bits stack.old.numbers stack.new.bits stack.new.numbers result }
{
    let w = asmap_window::window(map, s.at);
    let Some((opcode, from)) = asmap_row_decoder::type_in(w, s.at, 8 * map.len()) else {
        return Turn::Ends;
    };
    let rest = asmap_row_decoder::operand_window(map, w, s.at, opcode, from);
    match opcode {
        asmap_program::RETURN => step_return(map, s, rest, from),
        asmap_program::JUMP => step_jump(map, s, rest, from, stack),
        asmap_program::MATCH => step_match(map, s, rest, from),
        _ => step_default(map, s, rest, from),
    }
}

// One step from a state that steps come to, of a map within the limit. Both arrays have 128 places.
fn step(map: &[u8], s: Spot, stack: &mut Stack) -> Turn
    requires { (length map.now ≤ limit) × Sane map.now s stack.old.bits stack.old.numbers }
    ensures { Stepped map.now s stack.old.bits stack.old.numbers stack.new.bits stack.new.numbers result }
{
    if s.up {
        return step_up(map, s, stack);
    }
    if s.left == 0 {
        return step_at(map, s, stack);
    }
    step_bit(map, s, stack)
}

// Steps up to the next piece: its prefix length and number, and where the listing stands then; none at the listing's end. All calls of `step` come
// through here, so that it is compiled once, into this loop, with the state in registers.
pub fn next_piece(map: &[u8], from: Spot, stack: &mut Stack) -> Option<(u8, u32, Spot)>
    requires { (length map.now ≤ limit) × Sane map.now from stack.old.bits stack.old.numbers }
    ensures { Passed map.now from stack.old.bits stack.old.numbers stack.new.bits stack.new.numbers result }
{
    let mut s = from;
    loop {
        match step(map, s, stack) {
            Turn::Gives(len, number, next) => return Some((len, number, next)),
            Turn::Goes(next) => s = next,
            Turn::Ends => return None,
        }
    }
}
