// Reads a list of answers from standard input, makes each call again with the crates here and compares. It prints for each kind of
// call how many answers there were and how many differ, and how many lines there were; before that it names each line whose answer
// differs, that has a wrong count of words, or that could not be read. The list is the file stdin beside src/: answers of the
// original and, where it has no say, of documents 01 and 02 and what follows from them. The program of the same name in oracle/ writes
// it and says what its lines hold.
#![tactic(auto)]

ghost use Rattle.std.specs.Prelude.{◌≡◌, ◌<◌, ◌≤◌, IfOk, length};

use crate::calls::{KINDS, Kind};
use crate::text::read_words;
use replay_outcomes::Seen;
use replay_words::Line;
use std::io;
use std::io::Read;

mod addresses;
mod answers;
mod builds;
mod calls;
mod codes;
mod groups;
mod loads;
mod maps;
mod pages;
mod text;
mod widths;

// Room for the list. One that fills it is taken for too long.
fn list_room() -> [u8; 2097152]
    ensures { 2097152 ≡ length result }
{
    [0; 2097152]
}

// Room for the bytes of a line's words. A line that has more cannot be read.
fn word_room() -> [u8; 262144]
    ensures { 262144 ≡ length result }
{
    [0; 262144]
}

// ---- what is counted

// How many answers of a call are ours, and how many differ.
#[derive(Clone, Copy)]
struct CallCounts {
    same: u64,
    differ: u64,
}

// The answers of each call, in the order of KINDS; and how many lines there are, how many of them are headings, have a wrong count of words, and
// could not be read.
#[derive(Drop)]
struct Counts {
    answers: [CallCounts; 36],
    lines: u64,
    headings: u64,
    miscounted: u64,
    unread: u64,
}

// The list is far too short for a count to end here.
fn add_one(count: &mut u64) {
    *count = count.saturating_add(1);
}

impl Counts {
    fn none() -> Counts {
        Counts {
            answers: [CallCounts { same: 0, differ: 0 }; 36],
            lines: 0,
            headings: 0,
            miscounted: 0,
            unread: 0,
        }
    }

    // A line of a call more, by the call's place in KINDS.
    fn add(&mut self, kind: usize, seen: Seen)
        requires { kind < 36 }
    {
        match seen {
            Seen::Same => add_one(&mut self.answers[kind].same),
            Seen::Differs => add_one(&mut self.answers[kind].differ),
            Seen::Count => add_one(&mut self.miscounted),
            Seen::Unread => add_one(&mut self.unread),
        }
    }
}

// ---- a line

// What came of a line, which has a letter, a blank and words.
fn replay_line(kinds: &[Kind; 36], line: &[u8], bytes: &mut [u8], counts: &mut Counts) -> Seen {
    let [letter, b' ', text @ ..] = line else {
        add_one(&mut counts.unread);
        return Seen::Unread;
    };
    let Some(kind) = kinds.iter().position(|kind| kind.0 == *letter) else {
        add_one(&mut counts.unread);
        return Seen::Unread;
    };
    let (_, call, _) = kinds[kind];
    let seen = match read_words(text, bytes) {
        Some(words) => call.replayed(Line { bytes, words }),
        None => Seen::Unread,
    };
    counts.add(kind, seen);
    seen
}

// Names a line whose answer is not ours.
fn say_line(rt: &impl Print, line: u64, seen: Seen) -> io::Result<()> {
    match seen {
        Seen::Same => Ok(()),
        Seen::Differs => println!(rt; "line {line} differs"),
        Seen::Count => println!(rt; "line {line} has a wrong count of words"),
        Seen::Unread => println!(rt; "line {line} cannot be read"),
    }
}

// ---- the list

// A heading starts with a #.
fn replay_list(
    rt: &impl Print,
    list: &[u8],
    bytes: &mut [u8],
    counts: &mut Counts,
) -> io::Result<()> {
    // Bound once: a constant table is made anew wherever it is named, and each line asks it.
    let kinds = KINDS;
    for text in list.split_inclusive(|&byte| byte == b'\n') {
        let line = match text {
            [line @ .., b'\n'] => line,
            _ => text,
        };
        add_one(&mut counts.lines);
        if matches!(line, [b'#', ..]) {
            add_one(&mut counts.headings);
        } else {
            let seen = replay_line(&kinds, line, bytes, counts);
            say_line(rt, counts.lines, seen)?;
        }
    }
    Ok(())
}

fn say_counts(rt: &impl Print, counts: &Counts) -> io::Result<()> {
    for ((_, _, name), answers) in KINDS.iter().zip(&counts.answers) {
        let differ = answers.differ;
        let all = answers.same.saturating_add(differ);
        println!(rt; "{name}: {all} answers, {differ} differ")?;
    }
    let Counts {
        lines,
        headings,
        miscounted,
        unread,
        ..
    } = *counts;
    println!(rt;
        "{lines} lines, {headings} of them headings, {miscounted} with a wrong count of words, {unread} not read"
    )
}

// Reads until the room is full or the input ends, and hands back how many bytes it put at the start of the room.
fn read_full(input: &mut impl Read, room: &mut [u8]) -> io::Result<usize>
    ensures { IfOk result (λ n. n ≤ length room.new) }
{
    let mut n: usize = 0;
    while n < room.len() {
        let read = input.read(&mut room[n..])?;
        if read == 0 {
            break;
        }
        n += read;
    }
    Ok(n)
}

fn main(rt: HostRuntime) -> io::Result<()> {
    let mut list = list_room();
    let mut bytes = word_room();
    let n = read_full(&mut rt.stdin(), &mut list)?;
    let mut counts = Counts::none();
    replay_list(&rt, &list[..n], &mut bytes, &mut counts)?;
    say_counts(&rt, &counts)?;
    if n == list.len() {
        println!(rt; "the list is too long: what follows these bytes was not read")?;
    }
    Ok(())
}
