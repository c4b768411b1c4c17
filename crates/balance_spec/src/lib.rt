// Balanced binary trees by their numbers: least and greatest heights, the shapes that there are; definitions.
#![tactic(auto)]
