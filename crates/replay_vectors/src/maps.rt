// The check, the walk, unpack, pack, the listing and two maps compared.
use crate::answers::{compared, needed, written, wrote};
use asmap_check::Stop;
use asmap_program::{Accepted, Kind};
use asmap_walk_bits::Ending;
use refusals::Refusal;
use replay_outcomes::{Out, Seen};
use replay_words::Line;

// What a check came to.
pub fn accepted(found: Accepted) -> Out {
    Out::done().number(found.count as u64, 4).byte(found.depth)
}

pub fn check(line: Line) -> Seen {
    let verdict = asmap_check::sanity_check(line.word(0));
    compared(verdict.map(accepted).map_err(Refusal::Map), line.word(1))
}

// Where a check stopped. What it found wrong is 0 where that is nothing.
pub fn stopped_at(stop: Stop) -> Out {
    let wrong = match stop.wrong {
        None => 0,
        Some(fault) => fault.number(),
    };
    Out::done().byte(wrong).number(stop.place as u64, 8)
}

pub fn check_stop(line: Line) -> Seen {
    let stopped = asmap_check::sanity_check_stop(line.word(0));
    compared(stopped.map(stopped_at).map_err(Refusal::Map), line.word(1))
}

fn kind_number(kind: Kind) -> u8 {
    match kind {
        Kind::Returned => 1,
        Kind::Differed => 2,
        Kind::TooFewBits => 3,
        Kind::OpcodeCut => 4,
        Kind::OperandCut => 19,
    }
}

// What a walk came to.
pub fn ended(ending: Ending) -> Out {
    let out = Out::done().byte(kind_number(ending.kind));
    out.number(ending.number as u64, 4)
        .number(ending.count as u64, 4)
        .byte(ending.bits)
}

pub fn walk(line: Line) -> Seen {
    let got = asmap_walk::interpret(line.word(0), line.word(1));
    compared(got.map(ended), line.word(2))
}

pub fn unpack(line: Line) -> Seen {
    written(line, 1, &mut [0xee; 8192], |out| {
        asmap_unpack::unpack(line.word(0), out).map(wrote)
    })
}

pub fn pack(line: Line) -> Seen {
    written(line, 1, &mut [0xee; 8192], |out| {
        asmap_pack::pack(line.word(0), out).map(wrote)
    })
}

pub fn list(line: Line) -> Seen {
    written(line, 1, &mut [0xee; 8192], |out| {
        asmap_list::list(line.word(0), out).map(wrote)
    })
}

pub fn list_bytes(line: Line) -> Seen {
    let got = asmap_list::list_bytes(line.word(0));
    compared(got.map(needed), line.word(1))
}

pub fn compare(line: Line) -> Seen {
    written(line, 2, &mut [0xee; 8192], |out| {
        asmap_compare::compare(line.word(0), line.word(1), out).map(wrote)
    })
}

// A comparison's bytes, with the first address.
pub fn compare_bytes(line: Line) -> Seen {
    written(line, 2, &mut [0xee; 8192], |first| {
        asmap_compare::compare_bytes(line.word(0), line.word(1), first).map(needed)
    })
}
