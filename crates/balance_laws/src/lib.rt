// Which shapes balanced trees have, and the greatest height for a number of entries; no code.
#![tactic(auto)]
