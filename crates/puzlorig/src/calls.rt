// One call.
ghost use Rattle.std.specs.Prelude.{◌≡◌, true, length};
ghost use Rattle.call_spec.specs.Reply.{to_reply};
ghost use Rattle.host_spec.specs.Result.{reply_number};
ghost use Rattle.host_spec.specs.Host.{lengths_good, host_leaving, host_called};

use byte_states::waiting::places_fit;
use byte_states::{head_of, read_head};
use call_spec::Refusal;
use host_calls::{call_numbers, leave_state};
use host_results::{leave_result, number_of};
use host_spec::RESULT_LENGTH;
use lent_bytes_spec::{HEAD_LENGTH, NUMBER_LENGTH, STATE_LENGTH};
use operation_spec::Answer;

// Whether state and result have their lengths, and tape and trace have whole numbers.
#[tactic(auto, unfolding(host_spec::specs::Host::lengths_good))]
fn lengths_good(state: usize, tape: usize, trace: usize, res: usize) -> bool
    ensures { result ≡ lengths_good state tape trace res }
{
    state == STATE_LENGTH
        && res == RESULT_LENGTH
        && tape % NUMBER_LENGTH == 0
        && trace % NUMBER_LENGTH == 0
}

// The state's head and slots, then the call itself, in the slots where they stand.
fn answered(
    state: &mut [u8],
    tree: &mut [u8],
    ticket: &[u8],
    tape: &[u8],
    trace: &mut [u8],
    res: &mut [u8],
) -> Result<Answer, Refusal>
    requires { lengths_good (length state.old) (length tape.now) (length trace.old) (length res.old) ≡ true }
    ensures { host_leaving (reply_number (to_reply result)) state.new tree.new trace.new res.new ≡ host_called state.old tree.old ticket.now tape.now trace.old res.old }
{
    let h = read_head(state);
    let head = head_of(h)?;
    if !places_fit(h, &state[HEAD_LENGTH..]) {
        return Err(Refusal::Unfit);
    }
    let r = call_numbers(head, &mut state[HEAD_LENGTH..], tree, ticket, tape, trace)?;
    leave_state(state, h, Ok(r));
    leave_result(res, r.reply, r.leaves, r.peak);
    r.reply
}

// 18, then the state's head and slots, then the call itself; see `host_called` for every case.
pub fn puzlorig_call(
    state: &mut [u8],
    tree: &mut [u8],
    ticket: &[u8],
    tape: &[u8],
    trace: &mut [u8],
    res: &mut [u8],
) -> u32
    ensures { host_leaving result state.new tree.new trace.new res.new ≡ host_called state.old tree.old ticket.now tape.now trace.old res.old }
{
    if !lengths_good(state.len(), tape.len(), trace.len(), res.len()) {
        return 18;
    }
    u32::from(number_of(answered(state, tree, ticket, tape, trace, res)))
}
