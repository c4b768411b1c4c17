// The numbers that the lines of calls show.
#![tactic(auto)]

ghost use Rattle.std.specs.Prelude.{◌≡◌};
ghost use Rattle.walk_spec.specs.Lines.{reply_shown};

use host_results::{Cause, value_of};
use operation_spec::Answer;

// The number of a refusal; else the answer's value, 0 if there is none.
pub fn reply_shown<C: Cause>(reply: Result<Answer, C>) -> u64
    ensures { result ≡ reply_shown (C.told reply) }
{
    match reply {
        Ok(_) => value_of(reply).unwrap_or(0),
        Err(cause) => u64::from(cause.number()),
    }
}
