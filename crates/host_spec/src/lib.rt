// What a C host calls: definitions.
#![tactic(auto)]

// The result bytes of a call, and where the value starts among them.
pub const RESULT_LENGTH: usize = 12;

pub const VALUE_START: usize = 4;

// The value of an answer: whether it has one, 1 or 0, and the value, 0 if there is none.
#[derive(Clone, Copy)]
pub struct Value {
    pub has: u8,
    pub value: u64,
}
