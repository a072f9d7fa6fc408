// The IPv4 ranges of the address filters (document 01, Filters). An IPv4 address is an array of 4 bytes. Tests are joined by `&` and
// `|`, which ask both sides: the value of a test then is an expression that a contract can equate, where `&&` and `||` would branch.
#![tactic(auto)]

ghost use Rattle.std.specs.Prelude.{◌≡◌};
ghost use Rattle.netaddr_ranges.specs.Prefix.{within, ipv4};
ghost use Rattle.netaddr_ranges.specs.Unroutable.{unroutable4};

// 0.0.0.0/8: "this network", of which 0.0.0.0 is one address.
pub fn ipv4_this_network(v: [u8; 4]) -> bool
    ensures { result ≡ within (ipv4 0 0 0 0 8) v }
{
    v[0] == 0
}

// 100.64.0.0/10: shared between a carrier and its customers (RFC 6598).
pub fn ipv4_shared(v: [u8; 4]) -> bool
    ensures { result ≡ within (ipv4 100 64 0 0 10) v }
{
    (v[0] == 100) & (v[1] / 64 == 1)
}

// 198.18.0.0/15: benchmarks (RFC 2544).
pub fn ipv4_benchmarking(v: [u8; 4]) -> bool
    ensures { result ≡ within (ipv4 198 18 0 0 15) v }
{
    (v[0] == 198) & (v[1] / 2 == 9)
}

// 240.0.0.0/4: reserved (RFC 1112), the broadcast address with it.
pub fn ipv4_reserved(v: [u8; 4]) -> bool
    ensures { result ≡ within (ipv4 240 0 0 0 4) v }
{
    v[0] / 16 == 15
}

// The thirteen IPv4 ranges.
pub fn ipv4_unroutable(v: [u8; 4]) -> bool
    ensures { result ≡ unroutable4 v }
{
    let [a, b, c, _] = v;
    let private_10 = a == 10;
    let loopback = a == 127;
    let link_local = (a == 169) & (b == 254);
    let private_172 = (a == 172) & (b / 16 == 1);
    let documentation_192 = (a == 192) & (b == 0) & (c == 2);
    let private_192 = (a == 192) & (b == 168);
    let documentation_198 = (a == 198) & (b == 51) & (c == 100);
    let documentation_203 = (a == 203) & (b == 0) & (c == 113);
    let multicast = a / 16 == 14;
    ipv4_this_network(v)
        | private_10
        | ipv4_shared(v)
        | loopback
        | link_local
        | private_172
        | documentation_192
        | private_192
        | ipv4_benchmarking(v)
        | documentation_198
        | documentation_203
        | multicast
        | ipv4_reserved(v)
}
