// Lengths and parts of the walk program's input and lines; no code.
#![tactic(auto)]
