// Unpack and pack, as definitions (document 01, Unpack and pack): records, what either call makes, hands back and leaves, and that
// they undo each other. The calls themselves are `asmap_unpack::unpack` and `asmap_pack::pack`.
#![tactic(auto)]
