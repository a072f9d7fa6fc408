// Which addresses are unroutable (document 01, Filters), by the ranges of `netaddr_ranges` and `netaddr_ipv6`. Most addresses are decided here
// from a few bytes of the slice; arrays are made for the others only.
#![tactic(auto)]

ghost use Rattle.std.specs.Prelude.{◌≡◌, false, ◌∷◌, [], length};
ghost use Rattle.netaddr_ranges.specs.Prefix.{within, ipv6};
ghost use Rattle.netaddr_ranges.specs.Unroutable.{held, unroutable16};

use netaddr_ipv6::{
    ipv6_embedded_bogon, ipv6_scope_unroutable, ipv6_special_unroutable, is_cjdns_ip,
};
use netaddr_ranges::ipv4_unroutable;

// The bytes of an address as an array.
pub fn octets<const N: usize>(address: &[u8]) -> [u8; N]
    requires { length address.now ≡ N }
    ensures { result ≡ address.now }
{
    *address.as_array().unwrap()
}

// The last four bytes of an IPv6 address, where its mapped form has the IPv4.
fn last_four(address: &[u8]) -> [u8; 4]
    requires { length address.now ≡ 16 }
    ensures { result ≡ held 12 address.now }
{
    [address[12], address[13], address[14], address[15]]
}

// ::ffff:0:0/96: IPv4 in its mapped form.
fn ipv4_mapped(address: &[u8]) -> bool
    requires { length address.now ≡ 16 }
    ensures { result ≡ within (ipv6 (0 ∷ 0 ∷ 0 ∷ 0 ∷ 0 ∷ 0xffff ∷ []) 96) address.now }
{
    (address[0] == 0)
        & (address[1] == 0)
        & (address[2] == 0)
        & (address[3] == 0)
        & (address[4] == 0)
        & (address[5] == 0)
        & (address[6] == 0)
        & (address[7] == 0)
        & (address[8] == 0)
        & (address[9] == 0)
        & (address[10] == 0xff)
        & (address[11] == 0xff)
}

// An address of 16 bytes that is not IPv4 in its mapped form is unroutable. Few come this far: the code for the others is faster without it.
#[inline(never)]
fn ipv6_unroutable(o: [u8; 16]) -> bool
    requires { within (ipv6 (0 ∷ 0 ∷ 0 ∷ 0 ∷ 0 ∷ 0xffff ∷ []) 96) o ≡ false }
    ensures { result ≡ unroutable16 o }
{
    if is_cjdns_ip(o) {
        return false; // an overlay of its own
    }
    ipv6_scope_unroutable(o) | ipv6_special_unroutable(o) | ipv6_embedded_bogon(o)
}

// An address of 16 bytes is unroutable. Most are told by a few bytes: IPv6 whose first byte no range has, one from 02 to fb but for 20 and 3f, and
// IPv4 in its mapped form.
pub fn ip_unroutable(address: &[u8]) -> bool
    requires { length address.now ≡ 16 }
    ensures { result ≡ unroutable16 address.now }
{
    let a = address[0];
    if (a > 0x01) & (a < 0xfc) & (a != 0x20) & (a != 0x3f) {
        return false;
    }
    if ipv4_mapped(address) {
        return ipv4_unroutable(last_four(address));
    }
    ipv6_unroutable(octets(address))
}
