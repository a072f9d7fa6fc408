// The words of a line of the list of answers: where a line's words lie, their bytes, and the numbers that these are. How a line's text
// becomes such words is in the program `replay_vectors`.
#![tactic(auto)]

ghost use Rattle.std.specs.Prelude.{◌≡◌, ◌%◌, ◌≤◌, ◌<◌, length, drop};
ghost use Rattle.replay_words.specs.Words.{no_words, with_word, place_of, below, number_of, word_of};

// The place of a byte at or after `from`, or the end.
pub fn find(text: &[u8], from: usize, byte: u8) -> usize
    requires { from ≤ length text.now }
    ensures { (from ≤ result) × (result ≤ length text.now) × (result ≡ place_of from (drop from text.now) byte) }
{
    let found = text[from..].iter().position(|&other| other == byte);
    from + found.unwrap_or(text.len() - from)
}

// How many words a line has, whether one of them could not be read, and where their bytes lie: each word from one place to the next. No call has
// nine words: that many are said of a line that has more.
#[derive(Clone, Copy)]
pub struct Words {
    pub count: usize,
    pub unread: bool,
    ends: [usize; 10],
    pub last: usize,
}

impl Words {
    // No words yet.
    pub fn none() -> Words
        ensures { result ≡ no_words }
    {
        Words {
            count: 0,
            unread: false,
            ends: [0; 10],
            last: 0,
        }
    }

    // A word more, whose bytes end at this place; one that could not be read has none, and the words so far stay.
    pub fn with(mut self, end: Option<usize>) -> Words
        ensures { result ≡ with_word self end }
    {
        let Some(place) = end else {
            self.unread = true;
            return self;
        };
        if self.count < 9 {
            self.count += 1;
            self.ends[self.count] = place;
            self.last = place;
        }
        self
    }
}

// A line's words, and the bytes in which they lie.
#[derive(Clone, Copy)]
pub struct Line<'a> {
    pub bytes: &'a [u8],
    pub words: Words,
}

impl<'a> Line<'a> {
    // The bytes of a word, the first being number 0; none where the line has no such word.
    pub fn word(self, i: usize) -> &'a [u8]
        requires { i < 9 }
        ensures { result.now ≡ word_of self.entry.bytes.now self.entry.words i }
    {
        let ends = self.words.ends;
        self.bytes.get(ends[i]..ends[i + 1]).unwrap_or(&[])
    }

    // The number that a word is, as large as a call takes it.
    pub fn wide(self, i: usize) -> usize
        requires { i < 9 }
        ensures { result ≡ number_of (word_of self.entry.bytes.now self.entry.words i) }
    {
        number(self.word(i)) as usize
    }

    pub fn value(self, i: usize) -> u32
        requires { i < 9 }
        ensures { result ≡ number_of (word_of self.entry.bytes.now self.entry.words i) % 4294967296 }
    {
        (self.wide(i) % 4294967296) as u32
    }

    pub fn short(self, i: usize) -> u16
        requires { i < 9 }
        ensures { result ≡ number_of (word_of self.entry.bytes.now self.entry.words i) % 65536 }
    {
        (self.wide(i) % 65536) as u16
    }

    pub fn byte(self, i: usize) -> u8
        requires { i < 9 }
        ensures { result ≡ number_of (word_of self.entry.bytes.now self.entry.words i) % 256 }
    {
        (self.wide(i) % 256) as u8
    }
}

// A number with a byte more below it.
pub fn lengthened(x: u64, byte: u8) -> u64
    ensures { result ≡ below x byte }
{
    x % 72057594037927936 * 256 + byte as u64
}

// The number that bytes are, little-endian.
pub fn number(bytes: &[u8]) -> u64
    ensures { result ≡ number_of bytes.now }
{
    bytes.iter().rev().fold(0, |x, &byte| lengthened(x, byte))
}
