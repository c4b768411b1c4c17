// A fit state and a lent tree are a store that a call may start from, and a ticket of bytes is within its widths; no code.
#![tactic(auto)]
