// The IPv6 ranges of the address filters (document 01, Filters), but for IPv4 in its mapped form. An IPv6 address is an array of 16
// bytes. Tests are joined by `&` and `|`, as those of IPv4 are.
#![tactic(auto)]

ghost use Rattle.std.specs.Prelude.{◌≡◌, ◌∷◌, [], ◌-◌, ◌≤◌};
ghost use Rattle.netaddr_ranges.specs.Prefix.{within, ipv6};
ghost use Rattle.netaddr_ranges.specs.Ranges.{scope_rows, special_rows, embedded_rows};
ghost use Rattle.netaddr_ranges.specs.Unroutable.{zeros, decided};

use netaddr_ranges::ipv4_unroutable;

// Bytes `from` to before `to` are zero.
fn zero_bytes(o: [u8; 16], from: usize, to: usize) -> bool
    requires { (from ≤ to) × (to ≤ 16) }
    ensures { result ≡ zeros from (to - from) o }
{
    o[from..to].iter().all(|&byte| byte == 0)
}

// fc00::/8, the addresses of CJDNS; RFC 4193 has fc00::/7.
pub fn is_cjdns_ip(o: [u8; 16]) -> bool
    ensures { result ≡ within (ipv6 (0xfc00 ∷ []) 8) o }
{
    o[0] == 0xfc
}

// ::1, fe80::/10, fd00::/8 and ff00::/8: loopback, link-local, unique local, multicast.
pub fn ipv6_scope_unroutable(o: [u8; 16]) -> bool
    ensures { result ≡ decided scope_rows o }
{
    let [a, b, ..] = o;
    let loopback = zero_bytes(o, 0, 15) & (o[15] == 1);
    let link_local = (a == 0xfe) & (b / 64 == 2);
    let unique_local = a == 0xfd;
    let multicast = a == 0xff;
    loopback | link_local | unique_local | multicast
}

// 2001:db8::/32 and 3fff::/20 documentation (RFC 3849, RFC 9637), 2001:10::/28 ORCHID (RFC 4843), 2001:20::/28 ORCHIDv2
// (RFC 7343), 2001:2::/48 benchmarks (RFC 5180), 100::/64 discard (RFC 6666).
pub fn ipv6_special_unroutable(o: [u8; 16]) -> bool
    ensures { result ≡ decided special_rows o }
{
    let [a, b, c, d, ..] = o;
    let documentation = (a == 0x20) & (b == 0x01) & (c == 0x0d) & (d == 0xb8);
    let documentation_3fff = (a == 0x3f) & (b == 0xff) & (c / 16 == 0);
    let orchid = (a == 0x20) & (b == 0x01) & (c == 0x00) & (d / 16 == 1);
    let orchid_v2 = (a == 0x20) & (b == 0x01) & (c == 0x00) & (d / 16 == 2);
    let benchmarking = (a == 0x20) & (b == 0x01) & (c == 0x00) & (d == 0x02) & zero_bytes(o, 4, 6);
    let discard = (a == 0x01) & (b == 0x00) & zero_bytes(o, 2, 8);
    documentation | documentation_3fff | orchid | orchid_v2 | benchmarking | discard
}

// 64:ff9b::/96: NAT64 with the well-known prefix (RFC 6052).
fn ipv6_nat64(o: [u8; 16]) -> bool
    ensures { result ≡ within (ipv6 (0x64 ∷ 0xff9b ∷ []) 96) o }
{
    (o[0] == 0x00) & (o[1] == 0x64) & (o[2] == 0xff) & (o[3] == 0x9b) & zero_bytes(o, 4, 12)
}

// ::ffff:0:0:0/96: IPv4-translated (RFC 2765); two bytes before the mapped form's ff ff.
fn ipv6_translated(o: [u8; 16]) -> bool
    ensures { result ≡ within (ipv6 (0 ∷ 0 ∷ 0 ∷ 0 ∷ 0xffff ∷ []) 96) o }
{
    zero_bytes(o, 0, 8) & (o[8] == 0xff) & (o[9] == 0xff) & zero_bytes(o, 10, 12)
}

// ::/96: IPv4-compatible (RFC 4291).
fn ipv4_compatible(o: [u8; 16]) -> bool
    ensures { result ≡ within (ipv6 [] 96) o }
{
    zero_bytes(o, 0, 12)
}

// The ranges that hold an IPv4 address: 2001::/32 Teredo (RFC 4380), 2002::/16 6to4 (RFC 3056), the three above, and 64:ff9b:1::/48
// local NAT64 (RFC 8215). 6to4 and local NAT64 want zeros beside the IPv4: other bytes there would make a new address of the same host. Teredo is
// never let through, since the address of its server is free.
pub fn ipv6_embedded_bogon(o: [u8; 16]) -> bool
    ensures { result ≡ decided embedded_rows o }
{
    let [a, b, c, d, e, f, ..] = o;
    let teredo = (a == 0x20) & (b == 0x01) & (c == 0x00) & (d == 0x00);
    let six_to_four = (a == 0x20) & (b == 0x02);
    let local_nat64 = (a == 0x00)
        & (b == 0x64)
        & (c == 0xff)
        & (d == 0x9b)
        & (e == 0x00)
        & (f == 0x01);
    let by_last_four = ipv6_nat64(o) | ipv6_translated(o) | ipv4_compatible(o);
    let last_unroutable = ipv4_unroutable([o[12], o[13], o[14], o[15]]);
    if teredo {
        return true;
    }
    if six_to_four {
        return ipv4_unroutable([c, d, e, f]) | !zero_bytes(o, 6, 16);
    }
    if by_last_four {
        return last_unroutable;
    }
    if local_nat64 {
        return last_unroutable | !zero_bytes(o, 6, 12);
    }
    false
}
