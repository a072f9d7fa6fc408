// IPv4-mapped addresses, the filter and the relay of addresses.
use crate::answers::compared;
use replay_outcomes::{Out, Seen};
use replay_words::Line;

pub fn mapped(line: Line) -> Seen {
    let &[a, b, c, d] = line.word(0) else {
        return Seen::Unread;
    };
    let got = asmap_address::ipv4_mapped(a, b, c, d);
    Seen::from(got.as_slice() == line.word(1))
}

// Yes is 1 and no is 0.
fn told(yes: bool) -> Out {
    Out::done().byte(yes as u8)
}

pub fn unroutable(line: Line) -> Seen {
    let got = netaddr::clearnet_unroutable(line.word(0));
    compared(got.map(told), line.word(1))
}

pub fn relay_skip(line: Line) -> Seen {
    let got = netaddr::addrv2_skip_relay(line.byte(0), line.word(2), line.short(1));
    compared(got.map(told), line.word(3))
}
