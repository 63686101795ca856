// Which fields of a card an answer depends on (02: helpers who may see only some fields). There is no code here: definitions and proofs
// about match, explain, judge and match_search as they stand.
#![tactic(auto)]
