// The filters (document 01, Filters): 1 for yes, 0 for no.
#![tactic(auto, using(answers::proofs::NeverZeroFilters::said_handed))]

ghost use Rattle.std.specs.Prelude.{◌∷◌, []};
ghost use Rattle.netaddr.specs.Filter.{filter_of};
ghost use Rattle.netaddr.specs.Relay.{relay_of};
ghost use Rattle.answer_outcome.specs.Outcome.{Hands};
ghost use Rattle.answer_filters.specs.Filters.{said};

use answer_filters::hand_said;

// Whether an address of 16 bytes, IPv4 in its mapped form, is unroutable. Refusal 11.
pub fn corbastrigo_clearnet_unroutable(address: &[u8], unroutable: &mut u8) -> u8
    ensures { Hands (said (filter_of address.now)) result (unroutable.old ∷ []) (unroutable.new ∷ []) }
{
    hand_said(netaddr::clearnet_unroutable(address), unroutable)
}

// Whether an entry of an addrv2 message is not sent on: its BIP155 network id, address bytes and port. Refusal 17.
pub fn corbastrigo_addrv2_skip_relay(id: u8, address: &[u8], port: u16, skips: &mut u8) -> u8
    ensures { Hands (said (relay_of id address.now port)) result (skips.old ∷ []) (skips.new ∷ []) }
{
    hand_said(netaddr::addrv2_skip_relay(id, address, port), skips)
}
