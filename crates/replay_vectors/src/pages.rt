// The spread on a printed page.
use crate::answers::{written, wrote};
use crate::groups::grouping_of;
use netgroup::Grouping;
use refusals::Refusal;
use replay_outcomes::Seen;
use replay_words::Line;

fn page_by<F: FnOnce(&[u8], Grouping<'_>, &mut [u8]) -> Result<usize, Refusal>>(
    line: Line,
    call: F,
) -> Seen
    requires { F.IsAlwaysCallable call }
{
    let Some(grouping) = grouping_of(line.byte(0), line.word(2)) else {
        return Seen::Unread;
    };
    written(line, 3, &mut [0xee; 8192], |out| {
        call(line.word(1), grouping, out).map(wrote)
    })
}

// The old numbering of prefixes has a call of its own.
fn page_checked(list: &[u8], grouping: Grouping<'_>, out: &mut [u8]) -> Result<usize, Refusal> {
    match grouping {
        Grouping::OldPrefixes => spread_page::old_prefix_page(list, out),
        _ => spread_page::page(list, grouping, out),
    }
}

// By a map that is checked.
pub fn page(line: Line) -> Seen {
    page_by(line, page_checked)
}

// By one that is not checked.
pub fn page_unchecked(line: Line) -> Seen {
    page_by(line, spread_page::page_unchecked)
}
