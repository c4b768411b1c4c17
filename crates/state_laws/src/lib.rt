// What the definitions of fitness, opening and a call's draws give the code; no code.
#![tactic(auto)]
