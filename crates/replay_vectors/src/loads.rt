// Draws and loads.
use crate::answers::{compared, written, wrote};
use replay_outcomes::{Out, Seen};
use replay_words::Line;

pub fn draw(line: Line) -> Seen {
    let got = load_draws::next_draw(line.wide(0) as u64);
    compared(got.map(|n| Out::done().number(n, 8)), line.word(1))
}

pub fn load(line: Line) -> Seen {
    written(line, 2, &mut [0xee; 1024], |out| {
        asmap_load::load(line.wide(0) as u64, line.wide(1), out).map(wrote)
    })
}
