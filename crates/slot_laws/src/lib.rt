// A written node reads back, and no other bytes read as it; laws of bytes, rows of slots, layouts, words and paths; no code.
#![tactic(auto)]
