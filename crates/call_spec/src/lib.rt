// Calls of the oblivious settings store, with all their checks: definitions.
#![tactic(auto)]

use operation_spec::Answer;
use state_spec::State;

// Why a call is refused, by number: those of document 01's table, and 17 and 19 of document 02. Damage and overflow close the store.
#[derive(Clone, Copy, PartialEq, Eq)]
pub enum Refusal {
    Closed = 1,
    Unfit = 2,
    TreeLength = 3,
    TicketLength = 4,
    UnknownKind = 5,
    ShortTape = 6,
    ShortTrace = 7,
    Damage = 8,
    Overflow = 9,
    Full = 10,
    NoKeyLeft = 17,
    StrayField = 19,
}

#[derive(Clone, Copy)]
pub struct Called {
    pub state: State,
    pub reply: Result<Answer, Refusal>,
    // How many leaves were revealed: they are the first of the trace buffer.
    pub leaves: usize,
    // The largest number of nodes waiting and held at the close of one of its rounds, 0 if none closed.
    pub peak: usize,
}
