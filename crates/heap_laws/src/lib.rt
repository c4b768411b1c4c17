// Heaps: complete ordered trees of numbers, and the heap of the method over them; no code.
#![tactic(auto)]
