// Prefixes joined by number, as definitions and laws (document 02, CR 8): two lists that give every address the same number are the same list once
// joined. No function stands here.

#![tactic(auto)]
