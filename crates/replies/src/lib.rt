// What a call that made its rounds replies.
#![tactic(auto)]

ghost use Rattle.std.specs.Prelude.{◌≡◌};
ghost use Rattle.operation_spec.specs.Method.{to_step_answer};
ghost use Rattle.call_spec.specs.Reply.{to_reply};
ghost use Rattle.round_close.specs.Fault.{mark_of as fault_mark};
ghost use Rattle.replies.specs.Answered.{answered, mark_of};

use call_spec::Refusal;
use operation_spec::{Answer, Full};
use round_close::Fault;

// The cause for which a round closed the store, if one did.
pub fn cause_of(fault: Option<Fault>) -> Option<Refusal>
    ensures { mark_of result ≡ fault_mark fault }
{
    match fault {
        None => None,
        Some(Fault::Damage) => Some(Refusal::Damage),
        Some(Fault::Overflow) => Some(Refusal::Overflow),
    }
}

// The paper's answer, or for a full store a refusal, unless a put round closed the store for a cause.
#[tactic(auto, using(crate::specs::AnsweredLaws::answer_replied, crate::specs::AnsweredLaws::cause_told), unfolding(call_spec::specs::Store::reply_of))]
pub fn reply_after(cause: Option<Refusal>, answer: Result<Answer, Full>) -> Result<Answer, Refusal>
    ensures { to_reply result ≡ answered (mark_of cause) (to_step_answer answer) }
{
    if let Some(met) = cause {
        return Err(met);
    }
    answer.map_err(|_| Refusal::Full)
}
