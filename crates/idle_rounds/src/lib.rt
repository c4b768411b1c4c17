// The rounds of a call that want none, one after the other: each reveals its draw.
#![tactic(auto)]

pub mod idle;
