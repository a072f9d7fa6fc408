// The exports of `corbastrigo: filters` for C: each says again what the call of the library says, and calls it.
ghost use Rattle.std.specs.Prelude.{◌∷◌, []};
ghost use Rattle.netaddr.specs.Filter.{filter_of};
ghost use Rattle.netaddr.specs.Relay.{relay_of};
ghost use Rattle.answer_outcome.specs.Outcome.{Hands};
ghost use Rattle.answer_filters.specs.Filters.{said};

#[unsafe(no_mangle)]
pub extern "C" fn corbastrigo_clearnet_unroutable(address: &[u8], unroutable: &mut u8) -> u8
    ensures { Hands (said (filter_of address.now)) result (unroutable.old ∷ []) (unroutable.new ∷ []) }
{
    corbastrigo::filters::corbastrigo_clearnet_unroutable(address, unroutable)
}

#[unsafe(no_mangle)]
pub extern "C" fn corbastrigo_addrv2_skip_relay(
    id: u8,
    address: &[u8],
    port: u16,
    skips: &mut u8,
) -> u8
    ensures { Hands (said (relay_of id address.now port)) result (skips.old ∷ []) (skips.new ∷ []) }
{
    corbastrigo::filters::corbastrigo_addrv2_skip_relay(id, address, port, skips)
}
