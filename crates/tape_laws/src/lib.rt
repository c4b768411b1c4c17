// A call looks at no more of its tape than its draws, and at no more of its trace buffer than the length and what it writes; no code.
#![tactic(auto)]
