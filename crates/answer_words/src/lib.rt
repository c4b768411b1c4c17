// The words of answers and replies.
#![tactic(auto)]

ghost use Rattle.std.specs.Prelude.{◌≡◌};
ghost use Rattle.call_spec.specs.Reply.{Answered};
ghost use Rattle.walk_spec.specs.Lines.{reply_word};

use host_results::Cause;
use operation_spec::Answer;

fn answer_word(answer: Answer) -> &'static [u8]
    ensures { result.now ≡ reply_word (Answered answer) }
{
    match answer {
        Answer::Found(_) => b"found",
        Answer::Absent => b"absent",
        Answer::Replaced(_) => b"replaced",
        Answer::New => b"new",
        Answer::Removed(_) => b"removed",
        Answer::Pushed => b"pushed",
        Answer::Popped(_) => b"popped",
        Answer::Added => b"added",
        Answer::Taken(_) => b"taken",
        Answer::Queued => b"queued",
        Answer::Dequeued(_) => b"dequeued",
        Answer::Empty => b"empty",
    }
}

pub fn reply_word<C: Cause>(reply: Result<Answer, C>) -> &'static [u8]
    ensures { result.now ≡ reply_word (C.told reply) }
{
    match reply {
        Ok(answer) => answer_word(answer),
        Err(_) => b"refused",
    }
}
