// The address filters (document 01, Filters): whether an address is unroutable, and which entries of an addrv2 message are not sent on.
#![tactic(auto)]

ghost use Rattle.std.specs.Prelude.{◌≡◌, true, length};
ghost use Rattle.netaddr.specs.Filter.{filter_of};
ghost use Rattle.netaddr.specs.Relay.{length_fits, skips, relay_of};

use netaddr_ipv6::is_cjdns_ip;
use netaddr_ranges::ipv4_unroutable;
use netaddr_unroutable::{ip_unroutable, octets};
use refusals::Refusal;

// Network ids of BIP155.
pub const IPV4: u8 = 1;

pub const IPV6: u8 = 2;

pub const TOR_V2: u8 = 3;

pub const TOR_V3: u8 = 4;

pub const I2P: u8 = 5;

pub const CJDNS: u8 = 6;

// Whether an address of 16 bytes, IPv4 in its mapped form, is unroutable. Refuses any other length with 11; nothing is asked of the caller.
pub fn clearnet_unroutable(address: &[u8]) -> Result<bool, Refusal>
    ensures { result ≡ filter_of address.now }
{
    if address.len() != 16 {
        return Err(Refusal::AddressLength);
    }
    Ok(ip_unroutable(address))
}

// The BIP155 network id has addresses of this many bytes.
#[tactic(auto, unfolding(crate::specs::Relay::length_fits))]
fn length_fits(id: u8, n: usize) -> bool
    ensures { result ≡ length_fits id n }
{
    match id {
        IPV4 => n == 4,
        IPV6 => n == 16,
        TOR_V2 => n == 10,
        TOR_V3 => n == 32,
        I2P => n == 32,
        CJDNS => n == 16,
        _ => n <= 512,
    }
}

// Whether an entry whose address has the id's length is not sent on. I2P is advertised with port 0, so that its test comes before the port's.
#[tactic(auto, unfolding(crate::specs::Relay::length_fits, crate::specs::Relay::outside_cjdns, crate::specs::Relay::skips))]
fn skip_relay(id: u8, address: &[u8], port: u16) -> bool
    requires { length_fits id (length address.now) ≡ true }
    ensures { result ≡ skips id address.now port }
{
    match id {
        I2P => false, // at port 0 too
        TOR_V2 => true,
        CJDNS if !is_cjdns_ip(octets(address)) => true,
        _ if port == 0 => true,
        IPV4 => ipv4_unroutable(octets(address)),
        IPV6 => ip_unroutable(address),
        _ => false,
    }
}

// Whether an entry of an addrv2 message is not sent on: its BIP155 network id, address bytes and port. Refuses a length that the id does
// not have with 17; nothing is asked of the caller.
pub fn addrv2_skip_relay(id: u8, address: &[u8], port: u16) -> Result<bool, Refusal>
    ensures { result ≡ relay_of id address.now port }
{
    if !length_fits(id, address.len()) {
        return Err(Refusal::RelayLength);
    }
    Ok(skip_relay(id, address, port))
}
