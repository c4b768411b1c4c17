// Document 02, change 6: what a call's peak is, and that it changes nothing else; no code.
#![tactic(auto)]
