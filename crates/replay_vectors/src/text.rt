// The text of a line of the list of answers, taken apart: its words, from digits to the bytes that they stand for. The bytes of a line's words
// lie one behind the other in a lent room; each part here says where those that it put end, or None where it cannot be read or has no room.
ghost use Rattle.std.specs.Prelude.{◌+◌, ◌<◌, ◌≤◌, length, IfSome};

use replay_words::{Words, find};

// No word has more bytes than this, so that no number of times is larger.
const MOST: usize = 262144;

// What a hexadecimal digit stands for.
fn digit(byte: u8) -> Option<u8>
    ensures { IfSome result (λ x. x < 16) }
{
    match byte {
        b'0'..=b'9' => Some(byte - b'0'),
        b'a'..=b'f' => Some(byte - b'a' + 10),
        _ => None,
    }
}

// Puts what pairs of digits stand for from a place on: one pair at least, and no odd digit.
fn put_bytes(text: &[u8], bytes: &mut [u8], from: usize) -> Option<usize> {
    let (pairs, odd) = text.as_chunks::<2>();
    if pairs.is_empty() || !odd.is_empty() {
        return None;
    }
    let room = bytes.get_mut(from..)?;
    if room.len() < pairs.len() {
        return None;
    }
    for (byte, &[high, low]) in room.iter_mut().zip(pairs) {
        *byte = 16 * digit(high)? + digit(low)?;
    }
    Some(from + pairs.len())
}

// A number in decimal; none that is larger than a word.
fn decimal(text: &[u8]) -> Option<usize> {
    let mut n: usize = 0;
    for &byte in text {
        let figure = digit(byte)?;
        if 9 < figure {
            return None;
        }
        n = 10 * n + figure as usize;
        if MOST < n {
            return None;
        }
    }
    Some(n)
}

// Puts at a place the bytes before it, so many, with the step added: numbers of that size, little-endian. The step is zero behind its last byte.
fn put_next(bytes: &mut [u8], at: usize, size: usize, step: &[u8; 32])
    requires { (size ≤ at) × (at + size ≤ length bytes.old) }
{
    let mut carry: u16 = 0;
    for i in 0..size {
        let added = step.get(i).copied().unwrap_or(0);
        let next = bytes[at + i - size] as u16 + added as u16 + carry;
        bytes[at + i] = (next % 256) as u8;
        carry = next / 256;
    }
}

// The bytes between two places so many times, each time with the step added.
fn put_again(
    bytes: &mut [u8],
    from: usize,
    to: usize,
    times: usize,
    step: &[u8; 32],
) -> Option<usize> {
    let size = to.checked_sub(from)?;
    if bytes.len() < to {
        return None;
    }
    let mut end = to;
    for _ in 1..times {
        if bytes.len() - end < size {
            return None;
        }
        put_next(bytes, end, size, step);
        end += size;
    }
    Some(end)
}

// How often the bytes between two places stand there: a number and, after `+`, the step.
fn put_times(text: &[u8], bytes: &mut [u8], from: usize, to: usize) -> Option<usize> {
    let plus = find(text, 0, b'+');
    let times = decimal(&text[..plus])?;
    if times == 0 {
        return None;
    }
    let mut step = [0u8; 32];
    if let Some(digits) = text.get(plus + 1..) {
        put_bytes(digits, &mut step, 0)?;
    }
    put_again(bytes, from, to, times, &step)
}

// A piece of a word: pairs of digits and, after `*`, how often they stand there.
fn put_piece(text: &[u8], bytes: &mut [u8], from: usize) -> Option<usize> {
    let star = find(text, 0, b'*');
    let to = put_bytes(&text[..star], bytes, from)?;
    match text.get(star + 1..) {
        Some(times) => put_times(times, bytes, from, to),
        None => Some(to),
    }
}

// The bytes of a word, which is pieces with a comma between them, or `-` for none.
fn put_word(text: &[u8], bytes: &mut [u8], from: usize) -> Option<usize> {
    if matches!(text, [b'-']) {
        return Some(from);
    }
    let mut place = from;
    for piece in text.split(|&byte| byte == b',') {
        place = put_piece(piece, bytes, place)?;
    }
    Some(place)
}

// Reads the words of a line, with one blank between them; none where one of them cannot be read.
pub fn read_words(text: &[u8], bytes: &mut [u8]) -> Option<Words> {
    let mut words = Words::none();
    for word in text.split(|&byte| byte == b' ') {
        words = words.with(put_word(word, bytes, words.last));
        if words.unread {
            return None;
        }
    }
    Some(words)
}
