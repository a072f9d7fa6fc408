// The calls that a list of answers has, by the letters of its lines.
ghost use Rattle.std.specs.Prelude.{◌≤◌, length};

use crate::addresses::{mapped, relay_skip, unroutable};
use crate::builds::build;
use crate::codes::{read_code, read_instruction, read_item, write_code, write_instruction};
use crate::groups::{group, group_unchecked, pick, pick_unchecked, prefix_group, scan};
use crate::loads::{draw, load};
use crate::maps::{
    check, check_stop, compare, compare_bytes, list, list_bytes, pack, unpack, walk,
};
use crate::pages::{page, page_unchecked};
use crate::widths::{
    check_bits, check_stop_bits, compare_bits, compare_bytes_bits, list_bits, list_bytes_bits,
    unpack_bits, walk_bits,
};
use replay_outcomes::Seen;
use replay_words::Line;

#[derive(Clone, Copy, Debug, PartialEq, Eq)]
pub enum Call {
    CodeRead,
    CodeWritten,
    InstructionRead,
    InstructionWritten,
    BitReader,
    Check,
    CheckStop,
    Walk,
    Unpack,
    Pack,
    List,
    ListBytes,
    Compare,
    CompareBytes,
    CheckAtWidth,
    CheckStopAtWidth,
    WalkAtWidth,
    UnpackAtWidth,
    ListAtWidth,
    ListBytesAtWidth,
    CompareAtWidth,
    CompareBytesAtWidth,
    GroupByPrefix,
    Group,
    GroupUnchecked,
    Pick,
    PickUnchecked,
    Scan,
    Page,
    PageUnchecked,
    Mapped,
    Unroutable,
    RelaySkip,
    Draw,
    Load,
    Build,
}

// The letter of a call's lines, the call, and what it is called where its answers are counted.
pub type Kind = (u8, Call, &'static str);

// Every call, in the order in which they are printed. The capitals are calls at a width, but for X, which is a draw.
pub const KINDS: [Kind; 36] = [
    (b'd', Call::CodeRead, "code read"),
    (b'e', Call::CodeWritten, "code written"),
    (b'i', Call::InstructionRead, "instruction read"),
    (b'j', Call::InstructionWritten, "instruction written"),
    (b'b', Call::BitReader, "bit reader"),
    (b'c', Call::Check, "check"),
    (b'k', Call::CheckStop, "where a check stops"),
    (b'w', Call::Walk, "walk"),
    (b'u', Call::Unpack, "unpack"),
    (b'p', Call::Pack, "pack"),
    (b'l', Call::List, "list"),
    (b'q', Call::ListBytes, "bytes of a list"),
    (b'v', Call::Compare, "compare"),
    (b'y', Call::CompareBytes, "bytes of a comparison"),
    (b'C', Call::CheckAtWidth, "check at a width"),
    (
        b'K',
        Call::CheckStopAtWidth,
        "where a check at a width stops",
    ),
    (b'W', Call::WalkAtWidth, "walk at a width"),
    (b'U', Call::UnpackAtWidth, "unpack at a width"),
    (b'L', Call::ListAtWidth, "list at a width"),
    (b'Q', Call::ListBytesAtWidth, "bytes of a list at a width"),
    (b'V', Call::CompareAtWidth, "compare at a width"),
    (
        b'Y',
        Call::CompareBytesAtWidth,
        "bytes of a comparison at a width",
    ),
    (b'n', Call::GroupByPrefix, "group by prefix"),
    (b'g', Call::Group, "group"),
    (b'h', Call::GroupUnchecked, "group, map unchecked"),
    (b's', Call::Pick, "pick"),
    (b't', Call::PickUnchecked, "pick, map unchecked"),
    (b'o', Call::Scan, "occupied scan"),
    (b'a', Call::Page, "page"),
    (b'z', Call::PageUnchecked, "page, map unchecked"),
    (b'm', Call::Mapped, "IPv4-mapped address"),
    (b'f', Call::Unroutable, "unroutable"),
    (b'r', Call::RelaySkip, "relay skip"),
    (b'X', Call::Draw, "draw"),
    (b'x', Call::Load, "load"),
    (b'B', Call::Build, "build"),
];

// What a word of a line is: a number of one byte at least and so many at most, or bytes, of any number.
#[derive(Clone, Copy)]
enum Part {
    Number(usize),
    Bytes,
}

use Part::{Bytes, Number};

impl Part {
    fn fits(self, word: &[u8]) -> bool {
        match self {
            Number(most) => !word.is_empty() && word.len() <= most,
            Bytes => true,
        }
    }
}

impl Call {
    // The words of its lines.
    fn parts(self) -> &'static [Part]
        ensures { length result.now ≤ 8 }
    {
        match self {
            Call::CodeRead | Call::BitReader => &[Number(1), Bytes, Number(8), Bytes],
            Call::CodeWritten => &[Number(1), Number(4), Bytes],
            Call::InstructionRead => &[Bytes, Number(8), Bytes],
            Call::InstructionWritten => &[Number(4), Number(4), Bytes],
            Call::Check | Call::CheckStop | Call::ListBytes => &[Bytes, Bytes],
            Call::GroupByPrefix | Call::Mapped | Call::Unroutable => &[Bytes, Bytes],
            Call::Walk | Call::Unpack | Call::Pack | Call::List => &[Bytes, Bytes, Bytes],
            Call::Compare | Call::CompareBytes => &[Bytes, Bytes, Bytes, Bytes],
            Call::CheckAtWidth | Call::CheckStopAtWidth | Call::ListBytesAtWidth => &[
                Number(4),
                Bytes,
                Bytes,
            ],
            Call::WalkAtWidth | Call::UnpackAtWidth | Call::ListAtWidth => &[
                Number(4),
                Bytes,
                Bytes,
                Bytes,
            ],
            Call::CompareAtWidth | Call::CompareBytesAtWidth => &[
                Number(4),
                Bytes,
                Bytes,
                Bytes,
                Bytes,
            ],
            Call::Group | Call::GroupUnchecked => &[Number(1), Bytes, Bytes, Bytes],
            Call::Pick | Call::PickUnchecked => &[
                Number(1),
                Bytes,
                Bytes,
                Number(8),
                Bytes,
                Bytes,
                Bytes,
                Bytes,
            ],
            Call::Scan => &[Number(8), Bytes, Bytes],
            Call::Page | Call::PageUnchecked => &[Number(1), Bytes, Bytes, Bytes, Bytes],
            Call::RelaySkip => &[Number(1), Number(2), Bytes, Bytes],
            Call::Draw => &[Number(8), Bytes],
            Call::Load => &[Number(8), Number(8), Bytes, Bytes],
            Call::Build => &[Number(4), Number(4), Bytes, Bytes, Bytes],
        }
    }

    // Made again, beside the list's answer. The calls with much room on the stack (picks, scan, build) are kept out of this function's code: every
    // line would pay for their room.
    fn made(self, line: Line) -> Seen {
        match self {
            Call::CodeRead => read_code(line),
            Call::CodeWritten => write_code(line),
            Call::InstructionRead => read_instruction(line),
            Call::InstructionWritten => write_instruction(line),
            Call::BitReader => read_item(line),
            Call::Check => check(line),
            Call::CheckStop => check_stop(line),
            Call::Walk => walk(line),
            Call::Unpack => unpack(line),
            Call::Pack => pack(line),
            Call::List => list(line),
            Call::ListBytes => list_bytes(line),
            Call::Compare => compare(line),
            Call::CompareBytes => compare_bytes(line),
            Call::CheckAtWidth => check_bits(line),
            Call::CheckStopAtWidth => check_stop_bits(line),
            Call::WalkAtWidth => walk_bits(line),
            Call::UnpackAtWidth => unpack_bits(line),
            Call::ListAtWidth => list_bits(line),
            Call::ListBytesAtWidth => list_bytes_bits(line),
            Call::CompareAtWidth => compare_bits(line),
            Call::CompareBytesAtWidth => compare_bytes_bits(line),
            Call::GroupByPrefix => prefix_group(line),
            Call::Group => group(line),
            Call::GroupUnchecked => group_unchecked(line),
            Call::Pick => pick(line),
            Call::PickUnchecked => pick_unchecked(line),
            Call::Scan => scan(line),
            Call::Page => page(line),
            Call::PageUnchecked => page_unchecked(line),
            Call::Mapped => mapped(line),
            Call::Unroutable => unroutable(line),
            Call::RelaySkip => relay_skip(line),
            Call::Draw => draw(line),
            Call::Load => load(line),
            Call::Build => build(line),
        }
    }

    // Made again, where the line has the words that the call takes.
    pub fn replayed(self, line: Line) -> Seen {
        let parts = self.parts();
        if line.words.count != parts.len() {
            return Seen::Count;
        }
        for i in 0..parts.len() {
            if !parts[i].fits(line.word(i)) {
                return Seen::Unread;
            }
        }
        self.made(line)
    }
}
