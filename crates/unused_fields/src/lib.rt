// The fields that a ticket's kind does not use, which must be zero.
#![tactic(auto)]

ghost use Rattle.std.specs.Prelude.{◌≡◌, length};
ghost use Rattle.state_spec.specs.Ticket.{fields_used, stray, stray_fields};

use state_spec::Uses;
use tickets::{key_in, value_in};

const NEITHER: Uses = Uses {
    key: false,
    value: false,
};

const KEY_ALONE: Uses = Uses {
    key: true,
    value: false,
};

const VALUE_ALONE: Uses = Uses {
    key: false,
    value: true,
};

const BOTH: Uses = Uses {
    key: true,
    value: true,
};

// The fields that a kind uses: get and remove; put; push, add and in; pop, take and out; a kind that is not known.
pub fn uses(kind: u8) -> Uses
    ensures { result ≡ fields_used kind }
{
    match kind {
        1 | 3 => KEY_ALONE,
        2 => BOTH,
        4 | 6 | 8 => VALUE_ALONE,
        5 | 7 | 9 => NEITHER,
        _ => BOTH,
    }
}

// Whether a field is not used and not zero.
fn is_stray(used: bool, field: u64) -> bool
    ensures { result ≡ stray used field }
{
    !used && field != 0
}

// Whether a field that a ticket's kind does not use is not zero.
pub fn has_stray(ticket: &[u8]) -> bool
    requires { length ticket.now ≡ 13 }
    ensures { result ≡ stray_fields ticket.now }
{
    let used = uses(ticket[0]);
    let key = u64::from(key_in(ticket));
    let value = value_in(ticket);
    is_stray(used.key, key) || is_stray(used.value, value)
}
