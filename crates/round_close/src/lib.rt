// The close of a round: how many nodes wait and are held then, and how many may.
#![tactic(auto)]

ghost use Rattle.std.specs.Prelude.{◌≡◌, ◌+◌, ◌^◌, ◌<◌};
ghost use Rattle.list_spec.specs.Choice.{pick};
ghost use Rattle.round_spec.specs.Round.{exceeds_limit};
ghost use Rattle.round_close.specs.Fault.{mark_of, overflow_if, closing};

// At a round's close at most so many nodes wait and are held.
pub const LIMIT: usize = 64;

// What closes a store in a round, by its mark.
#[derive(Clone, Copy, PartialEq, Eq)]
pub enum Fault {
    Damage = 8,
    Overflow = 9,
}

// The mark that a round leaves: 0 where the store stays open.
pub fn mark_of(fault: Option<Fault>) -> u8
    ensures { result ≡ mark_of fault }
{
    match fault {
        None => 0,
        Some(fault) => fault as u8,
    }
}

// An overflow, if more nodes wait and are held at a round's close than may.
pub fn fault_at_close(waiting: usize, held: usize) -> Option<Fault>
    requires { waiting + held < 2 ^ 64 }
    ensures { result ≡ overflow_if (exceeds_limit waiting held) }
{
    if LIMIT < waiting + held {
        Some(Fault::Overflow)
    } else {
        None
    }
}

// A round's close: how many nodes wait and are held then, and the fault if those are too many.
#[derive(Clone, Copy)]
pub struct Close {
    pub count: usize,
    pub fault: Option<Fault>,
}

pub fn close_of(waiting: usize, held: usize) -> Close
    requires { waiting + held < 2 ^ 64 }
    ensures { result ≡ closing waiting held }
{
    Close {
        count: waiting + held,
        fault: fault_at_close(waiting, held),
    }
}
