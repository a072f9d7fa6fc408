// Programs of RETURN and JUMP alone, as definitions and laws (document 02, CR 8): the tree of a function of addresses, its bits, that its bytes are a
// map that the check accepts, and where walks through it end. No function stands here.

#![tactic(auto)]
