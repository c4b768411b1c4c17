// Document 01's worked calls that are marked P, as one table with one claim; no code.
#![tactic(auto)]
