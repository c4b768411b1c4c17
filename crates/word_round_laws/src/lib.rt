// A round on a row of slots: waiting slots in lent bytes, slots that join them and are taken out again, and the path filled in one pass; no
// code.
#![tactic(auto)]
