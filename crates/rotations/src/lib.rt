// The way up by one level: the subtree that changed takes its place below the node above it, with a rotation where that
// node got too tall on a side.
#![tactic(auto)]

pub mod raise;
pub mod rotation;
