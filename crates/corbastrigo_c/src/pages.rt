// The exports of `corbastrigo: pages` for C: each says again what the call of the library says, and calls it.
ghost use Rattle.std.specs.Prelude.{◌≡◌, ◌∷◌, [], Ok, None};
ghost use Rattle.netgroup.specs.Group.{by_old_prefixes, numbering};
ghost use Rattle.netgroup.specs.Refusal.{check_refusal};
ghost use Rattle.spread_page.specs.Page.{spread_page, spread_unchecked, old_prefix_page};
ghost use Rattle.spread_page.specs.Promise.{Told, Unaborted};
ghost use Rattle.answer_groups.specs.Groups.{numbering_of};
ghost use Rattle.answer_bytes.specs.Bytes.{Writes};

#[unsafe(no_mangle)]
pub extern "C" fn corbastrigo_page(
    candidates: &[u8],
    has_map: u8,
    map: &[u8],
    out: &mut [u8],
    written: &mut usize,
) -> u8
    ensures writes { Writes (spread_page (numbering_of has_map map.now) candidates.now) out.old out.new result (written.old ∷ []) (written.new ∷ []) }
    ensures told { result ≡ 0 → Told (numbering_of has_map map.now) candidates.now (Ok written.new) }
    ensures unaborted { result ≡ 0 → Unaborted (numbering_of has_map map.now) candidates.now (Ok written.new) }
{
    corbastrigo::pages::corbastrigo_page(candidates, has_map, map, out, written)
}

#[unsafe(no_mangle)]
pub extern "C" fn corbastrigo_page_unchecked(
    candidates: &[u8],
    has_map: u8,
    map: &[u8],
    out: &mut [u8],
    written: &mut usize,
) -> u8
    ensures writes { Writes (spread_unchecked (numbering_of has_map map.now) candidates.now) out.old out.new result (written.old ∷ []) (written.new ∷ []) }
    ensures told { result ≡ 0 → Told (numbering_of has_map map.now) candidates.now (Ok written.new) }
    ensures unaborted { check_refusal (numbering_of has_map map.now) ≡ None → result ≡ 0 → Unaborted (numbering_of has_map map.now) candidates.now (Ok written.new) }
{
    corbastrigo::pages::corbastrigo_page_unchecked(candidates, has_map, map, out, written)
}

#[unsafe(no_mangle)]
pub extern "C" fn corbastrigo_old_prefix_page(
    candidates: &[u8],
    out: &mut [u8],
    written: &mut usize,
) -> u8
    ensures writes { Writes (old_prefix_page candidates.now) out.old out.new result (written.old ∷ []) (written.new ∷ []) }
    ensures told { result ≡ 0 → Told by_old_prefixes candidates.now (Ok written.new) }
{
    corbastrigo::pages::corbastrigo_old_prefix_page(candidates, out, written)
}
