// The listing of a map (document 02, CR 1), as definitions and laws: every prefix that a map tells apart, with its number. The calls are
// `asmap_list::list` and `asmap_list::list_bytes`. No function stands here.

#![tactic(auto)]
