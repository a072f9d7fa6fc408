// Bits written before others in a lent output, from its end to its start (document 02, CR 8: lengths must be known before bits are written, so a
// map is built from its end). Fewer than 8 bits are held, and whole bytes go out.
#![tactic(auto)]

ghost use Rattle.std.specs.Prelude.{Bool, ◌≡◌, ◌+◌, ◌^◌, ◌≤◌, ◌<◌, length};
ghost use Rattle.asmap_codes.specs.Bits.{low};
ghost use Rattle.asmap_front_writer.specs.models.Front.{Room, Moved, Ready, Emitted};

use asmap_encode::Word;

// What is written of a map, from its end on: how many bits; of them the first, fewer than 8, that fill no byte yet, the first lowest; and the place
// behind their byte.
#[derive(Clone, Copy, Debug, PartialEq, Eq)]
pub struct Front {
    pub done: usize,
    pub bits: u64,
    pub held: usize,
    pub place: usize,
}

// Puts a word of at most 57 bits before what is there: below the bits held, at most 64 in all, of which whole bytes go out, the highest first.
// The bits that are out are dropped once, at the end.
fn put_word_before(out: &mut [u8], front: Front, word: Word) -> Front
    requires { Room out.old front word.len × (word.bits < 2 ^ word.len) × (word.len ≤ 57) × (front.done ≤ 134217728) }
    ensures { (result.done ≡ front.done + word.len) × (length out.new ≡ length out.old)
        × Moved out.old front (low word.len word.bits) out.new result }
{
    let all = word.bits + (front.bits << word.len);
    let mut held = word.len + front.held;
    let mut place = front.place;
    while 8 <= held {
        place -= 1;
        held -= 8;
        out[place] = ((all >> held) % 256) as u8;
    }
    Front {
        done: front.done + word.len,
        bits: all % (1 << held),
        held,
        place,
    }
}

// What is done with each instruction, from a map's last to its first: it is counted, or it is written too.
pub trait Step {
    ghost writes: { Bool };

    // Puts an instruction that is in range, which is never refused, before what is there.
    fn put_before(out: &mut [u8], front: Front, opcode: u32, operand: u32) -> Front
        requires { Ready out.old front opcode operand writes }
        ensures { Emitted out.old front opcode operand writes out.new result };
}

// Instructions are only counted, and the output stays as it is.
pub struct Counts;

impl Step for Counts {
    ghost use Rattle.std.specs.Prelude.{false};

    ghost writes = { false };

    fn put_before(_out: &mut [u8], front: Front, opcode: u32, operand: u32) -> Front {
        Front {
            done: front.done + asmap_encode::instruction_length(opcode, operand),
            ..front
        }
    }
}

// Instructions are written.
pub struct Writes;

impl Step for Writes {
    ghost use Rattle.std.specs.Prelude.{true};

    ghost writes = { true };

    fn put_before(out: &mut [u8], front: Front, opcode: u32, operand: u32) -> Front {
        let Ok(word) = asmap_encode::encode_instruction(opcode, operand) else {
            return front;
        };
        put_word_before(out, front, word)
    }
}
