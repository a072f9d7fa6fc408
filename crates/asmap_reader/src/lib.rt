// The bit reader (document 01, Forms): a small struct that borrows a map and carries the index of the bit that comes next. The
// functions over it are few and thin: they take the reader apart and leave the work to `asmap_items`, whose functions take a plain
// slice and a number. A caller that holds no reader uses `read_at`.
#![tactic(auto)]

ghost use Rattle.std.specs.Prelude.{◌≡◌};
ghost use Rattle.asmap_items.specs.Items.{bits_left};
ghost use Rattle.asmap_reader.specs.Reader.{moved_to, read_by, step_at};

use asmap_codes::Code;
use asmap_items::{Item, bits_left, decode_item, place_after};
use refusals::Fault;

// A reader: the map, and the index of its next bit, which may lie past the map's end.
#[derive(Clone, Copy)]
pub struct BitReader<'a> {
    pub map: &'a [u8],
    pub at: usize,
}

// What a read hands back: the bit or code, or document 01's number; and the reader moved on.
#[derive(Clone, Copy)]
pub struct Read<'a> {
    pub got: Result<Code, Fault>,
    pub reader: BitReader<'a>,
}

// The same in plain numbers: what was read, the place after it, and how many bits are left there.
#[derive(Clone, Copy)]
pub struct Step {
    pub got: Result<Code, Fault>,
    pub place: usize,
    pub left: usize,
}

// ---- the reader

impl<'a> BitReader<'a> {
    // A reader at bit 0 of a map.
    pub fn new(map: &'a [u8]) -> BitReader<'a>
        ensures { (result.map ≡ map.entry) × (result.at ≡ 0) }
    {
        BitReader { map, at: 0 }
    }

    // The reader at another bit of its map, as a JUMP moves it.
    pub fn moved(self, at: usize) -> BitReader<'a>
        ensures { result ≡ moved_to self.entry at }
    {
        BitReader { map: self.map, at }
    }

    // The index of the next bit.
    pub fn place(self) -> usize
        ensures { result ≡ self.entry.at }
    {
        self.at
    }

    // How many bits are left to read.
    pub fn left(self) -> usize
        ensures { result ≡ bits_left self.entry.map.now self.entry.at }
    {
        bits_left(self.map, self.at)
    }

    // Reads what is asked for and moves on behind it. A refused read, 1 or 4, leaves the reader where it was.
    pub fn read(self, item: Item) -> Read<'a>
        ensures { result ≡ read_by self.entry item }
    {
        let got = decode_item(self.map, self.at, item);
        Read {
            got,
            reader: BitReader {
                map: self.map,
                at: place_after(self.at, got),
            },
        }
    }
}

// ---- for callers that hold no reader

// One read at a bit of a map, with a reader that is made and moved there. Refusals 1, then 4 or 19; nothing is asked of the caller.
pub fn read_at(map: &[u8], at: usize, item: Item) -> Step
    ensures { result ≡ step_at map.now at item }
{
    let read = BitReader::new(map).moved(at).read(item);
    Step {
        got: read.got,
        place: read.reader.place(),
        left: read.reader.left(),
    }
}
