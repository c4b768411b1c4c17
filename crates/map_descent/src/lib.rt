// The map's walk down over the nodes that a call has fetched: by key, to the next larger one, and the steps that it passed on
// its way.
#![tactic(auto)]

pub mod descend;
pub mod path_steps;
