// Document 02, change 8: calls before it and after it, and copied tickets.
#![tactic(auto)]
