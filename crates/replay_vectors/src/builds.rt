// Maps built from prefixes.
use crate::answers::{written, wrote};
use replay_outcomes::Seen;
use replay_words::Line;

#[inline(never)]
pub fn build(line: Line) -> Seen {
    written(line, 3, &mut [0xee; 65536], |out| {
        asmap_build::build(line.word(2), line.value(1), line.value(0), out).map(wrote)
    })
}
