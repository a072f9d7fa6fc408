// Answers as the list of answers has them, and what came of a line: our answer beside the one that the list has. It serves the program
// `replay_vectors` alone; no contract can say what a program prints.
#![tactic(auto)]

ghost use Rattle.std.specs.Prelude.{◌≡◌};
ghost use Rattle.replay_outcomes.specs.Answers.{with_byte, with_number, begun_with, compared_to, and_left};

// What came of a line: our answer is the list's, it is another, the line has more words or fewer than its call, or it cannot be read.
#[derive(Clone, Copy, Debug, PartialEq, Eq)]
pub enum Seen {
    Same,
    Differs,
    Count,
    Unread,
}

impl From<bool> for Seen {
    ghost use Rattle.replay_outcomes.specs.Answers.{seen_as};

    ghost from_gives = { λ same seen. seen ≡ seen_as same };

    fn from(same: bool) -> Seen {
        if same { Seen::Same } else { Seen::Differs }
    }
}

impl Seen {
    // What a call left in an output, beside what came of its answer.
    pub fn and_left(self, left: bool) -> Seen
        ensures { result ≡ and_left self left }
    {
        if left { self } else { Seen::Differs }
    }
}

// An answer is the first n bytes. No call has more than 40.
#[derive(Clone, Copy)]
pub struct Out {
    bytes: [u8; 40],
    n: usize,
}

impl Out {
    // A refusal is its number; a call that is done, 0 and its results.
    pub fn refused(reason: u8) -> Out
        ensures { result ≡ begun_with reason }
    {
        let out = Out {
            bytes: [0; 40],
            n: 0,
        };
        out.byte(reason)
    }

    pub fn done() -> Out
        ensures { result ≡ begun_with 0 }
    {
        Out::refused(0)
    }

    // A byte more.
    pub fn byte(mut self, x: u8) -> Out
        ensures { result ≡ with_byte self x }
    {
        if self.n < 40 {
            self.bytes[self.n] = x;
            self.n += 1;
        }
        self
    }

    // A number more, little-endian, in so many bytes.
    pub fn number(self, x: u64, size: usize) -> Out
        ensures { result ≡ with_number size self x }
    {
        let mut out = self;
        let mut rest = x;
        for _ in 0..size {
            out = out.byte((rest % 256) as u8);
            rest /= 256;
        }
        out
    }

    // Our answer beside the list's.
    pub fn compared(self, answer: &[u8]) -> Seen
        ensures { result ≡ compared_to self answer.now }
    {
        let Some(bytes) = self.bytes.get(..self.n) else {
            return Seen::Differs;
        };
        Seen::from(bytes == answer)
    }
}
