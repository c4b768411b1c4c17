// The heap's way down: the turns from the root to a position, the node that is wanted on it next, and the fetch test.
#![tactic(auto)]

pub mod fetch_test;
pub mod nodes;
pub mod way;
