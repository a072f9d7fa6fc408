// The calls on maps at a width, which is the first word of their lines.
use crate::answers::{compared, needed, written, wrote};
use crate::maps::{accepted, ended, stopped_at};
use replay_outcomes::Seen;
use replay_words::Line;

pub fn check_bits(line: Line) -> Seen {
    let verdict = asmap_check::sanity_check_bits(line.word(1), line.value(0));
    compared(verdict.map(accepted), line.word(2))
}

pub fn check_stop_bits(line: Line) -> Seen {
    let stopped = asmap_check::sanity_check_stop_bits(line.word(1), line.value(0));
    compared(stopped.map(stopped_at), line.word(2))
}

pub fn walk_bits(line: Line) -> Seen {
    let got = asmap_walk::interpret_bits(line.word(1), line.word(2), line.value(0));
    compared(got.map(ended), line.word(3))
}

pub fn unpack_bits(line: Line) -> Seen {
    written(line, 2, &mut [0xee; 8192], |out| {
        asmap_unpack::unpack_bits(line.word(1), line.value(0), out).map(wrote)
    })
}

pub fn list_bits(line: Line) -> Seen {
    written(line, 2, &mut [0xee; 8192], |out| {
        asmap_list::list_bits(line.word(1), line.value(0), out).map(wrote)
    })
}

pub fn list_bytes_bits(line: Line) -> Seen {
    let got = asmap_list::list_bytes_bits(line.word(1), line.value(0));
    compared(got.map(needed), line.word(2))
}

pub fn compare_bits(line: Line) -> Seen {
    written(line, 3, &mut [0xee; 8192], |out| {
        asmap_compare::compare_bits(line.word(1), line.word(2), line.value(0), out).map(wrote)
    })
}

// A comparison's bytes, with the first address.
pub fn compare_bytes_bits(line: Line) -> Seen {
    written(line, 3, &mut [0xee; 8192], |first| {
        asmap_compare::compare_bytes_bits(line.word(1), line.word(2), line.value(0), first).map(
            needed,
        )
    })
}
