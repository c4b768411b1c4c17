// Calls on a store whose state is a struct: the state's checks, the core over a row of waiting slots, and what is left.
#![tactic(auto)]

ghost use Rattle.std.specs.Prelude.{◌≡◌};
ghost use Rattle.call_spec.specs.Store.{called, call_ended_as};

use call_core::call_row;
use call_draws::{rounds_of, spare_of};
use call_spec::{Called, Refusal};
use fitness::{Head, head_refusal};
use slot_row::ROW_LENGTH;
use stash::places::{load_place, saved_place};
use state_places::zero_place;
use state_spec::{PLACES, State};

// One call: an answer or one numbered refusal. The store does all the checking; see `called` for every case.
// Three loops stand here, since a function that is handed the state is handed a copy of it: the used places are looked at and their
// nodes put into a row, the other places are looked at, and in the end the waiting nodes are saved into the state that came.
pub fn call(state: State, tree: &mut [u8], ticket: &[u8], tape: &[u16], trace: &mut [u16]) -> Called
    ensures { call_ended_as result tree.new trace.new ≡ called state tree.old ticket.now tape.now trace.old }
{
    let head = Head {
        structure: state.structure,
        size: state.size,
        entries: state.entries,
        root: state.root,
        ahead: state.ahead,
        waiting: state.count,
    };
    if let Err(refusal) = head_refusal(state.mark, head) {
        return Called {
            state,
            reply: Err(refusal),
            leaves: 0,
            peak: 0,
        };
    }
    // The row of the waiting nodes, and whether the places fit.
    let size = usize::from(state.size);
    let n = usize::from(state.count);
    let mut w = [0u8; ROW_LENGTH];
    let mut least = 0;
    for i in 0..n {
        let p = state.places[i];
        if !load_place(&mut w, i, p, size, least) {
            return Called {
                state,
                reply: Err(Refusal::Unfit),
                leaves: 0,
                peak: 0,
            };
        }
        least = p.node.key as u64 + 1;
    }
    for i in n..PLACES {
        if !zero_place(state.places[i]) {
            return Called {
                state,
                reply: Err(Refusal::Unfit),
                leaves: 0,
                peak: 0,
            };
        }
    }
    let rounds = rounds_of(state.structure, state.size);
    let draws = 2 * rounds + spare_of(state.structure);
    let r = match call_row(head, &mut w, tree, ticket, tape, trace, rounds, draws) {
        Ok(r) => r,
        Err(refusal) => {
            return Called {
                state,
                reply: Err(refusal),
                leaves: 0,
                peak: 0,
            };
        }
    };
    // The state that is left. Past the nodes that wait now and those that waited before, its places are unused already.
    let m = r.waiting;
    let end = m.max(n);
    let mut left = state;
    for j in 0..end {
        left.places[j] = saved_place(&w, m, j);
    }
    left.mark = r.mark;
    left.entries = r.entries;
    left.root = r.root;
    left.ahead = r.ahead;
    left.count = m as u16;
    Called {
        state: left,
        reply: r.reply,
        leaves: r.leaves,
        peak: r.peak,
    }
}
