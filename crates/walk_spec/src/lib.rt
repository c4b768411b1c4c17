// The walk program's input and output: definitions.
#![tactic(auto)]

// Why a part of the input did not come whole: the input ended before it or within it.
#[derive(Clone, Copy, PartialEq, Eq)]
pub enum Stop {
    End,
    Short,
}
