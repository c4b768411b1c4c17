// What a C host gets of a call beside the store: the number, and the 12 result bytes.
#![tactic(auto)]

ghost use Rattle.std.specs.Prelude.{◌≡◌, refl, ℕ, Result, Ok, Err, eqb, length};
ghost use Rattle.list_spec.specs.Choice.{pick};
ghost use Rattle.operation_spec.specs.declared.Answer.{Answer};
ghost use Rattle.call_spec.specs.Reply.{Reply, Answered, Refused, number_of, to_reply};
ghost use Rattle.host_spec.specs.Result.{reply_number, reply_value, result_length, result_bytes};
ghost use Rattle.host_results.specs.Values.{told_value, numbered};

use call_spec::Refusal;
use host_spec::VALUE_START;
use operation_spec::Answer;
use slot_words::put_word;

// Why a call or an opening is refused: a cause has a number.
pub trait Cause: Copy {
    // What a reply says that may have such a cause.
    ghost told: { Result Answer Self → Reply };

    ghost number: { Self → ℕ };

    fn number(self) -> u8
        ensures { result ≡ number self };

    ghost answered: { (a : Answer) → told (Ok a) ≡ Answered a };

    ghost refused: { (cause : Self) → told (Err cause) ≡ Refused (number cause) };
}

impl Cause for Refusal {
    ghost told = { to_reply };

    ghost number = { number_of };

    ghost answered = { λ a. refl };

    ghost refused = { λ cause. refl };

    fn number(self) -> u8 {
        self as u8
    }
}

// A number as such, as an opening's.
impl Cause for u8 {
    ghost told = { numbered };

    ghost number = { λ n. n };

    ghost answered = { λ a. refl };

    ghost refused = { λ n. refl };

    fn number(self) -> u8 {
        self
    }
}

// The number of a refusal, or 0.
pub fn number_of<C: Cause>(reply: Result<Answer, C>) -> u8
    ensures { result ≡ reply_number (C.told reply) }
{
    match reply {
        Ok(_) => 0,
        Err(cause) => cause.number(),
    }
}

// The value of the answer, if it has one.
pub fn value_of<C: Cause>(reply: Result<Answer, C>) -> Option<u64>
    ensures { told_value result ≡ reply_value (C.told reply) }
{
    match reply {
        Ok(Answer::Found(v) | Answer::Replaced(v) | Answer::Removed(v)) => Some(v),
        Ok(Answer::Popped(v) | Answer::Taken(v) | Answer::Dequeued(v)) => Some(v),
        _ => None,
    }
}

// The result bytes: whether there is a value, the leaves revealed, the peak, a zero byte, the value.
fn put_result(res: &mut [u8], v: Option<u64>, leaves: usize, peak: usize)
    requires { length res.old ≡ result_length }
    ensures { res.new ≡ result_bytes (told_value v) leaves peak }
{
    res[0] = u8::from(v.is_some());
    res[1] = (leaves % 256) as u8;
    res[2] = (peak % 256) as u8;
    res[3] = 0;
    put_word(res, VALUE_START, v.unwrap_or(0));
}

// A call that revealed leaves fills the result bytes; else they stay.
pub fn leave_result<C: Cause>(res: &mut [u8], reply: Result<Answer, C>, leaves: usize, peak: usize)
    requires { length res.old ≡ result_length }
    ensures { res.new ≡ pick (eqb leaves 0) res.old (result_bytes (reply_value (C.told reply)) leaves peak) }
{
    if leaves == 0 {
        return;
    }
    put_result(res, value_of(reply), leaves, peak);
}
