// What a call came to, as the list has it, beside the list's answer.
ghost use Rattle.std.specs.Prelude.{◌<◌};

use refusals::Refusal;
use replay_outcomes::{Out, Seen};
use replay_words::Line;

// A call that is done has its results; one that is refused the refusal's number.
pub fn answered(got: Result<Out, Refusal>) -> Out {
    match got {
        Ok(out) => out,
        Err(refusal) => Out::refused(refusal.number()),
    }
}

// Beside the word that has the list's answer.
pub fn compared(got: Result<Out, Refusal>, answer: &[u8]) -> Seen {
    answered(got).compared(answer)
}

// How many bytes were written: four of them.
pub fn wrote(n: usize) -> Out {
    Out::done().number(n as u64, 4)
}

// How many bytes a listing or a comparison needs: eight of them.
pub fn needed(n: usize) -> Out {
    Out::done().number(n as u64, 8)
}

// A call that writes. Its answer is the word at a place, and the next what its output holds at exit, which has as many bytes as the output; at
// entry it holds what the room holds.
pub fn written<F: FnOnce(&mut [u8]) -> Result<Out, Refusal>>(
    line: Line,
    at: usize,
    room: &mut [u8],
    call: F,
) -> Seen
    requires place { at < 8 }
    requires callable { F.IsAlwaysCallable call }
{
    let left = line.word(at + 1);
    let Some(out) = room.get_mut(..left.len()) else {
        return Seen::Unread;
    };
    let seen = compared(call(out), line.word(at));
    seen.and_left(&*out == left)
}
