// Tickets copied with their unused fields zeroed, one and a piece of a file.
#![tactic(auto)]

ghost use Rattle.std.specs.Prelude.{◌≡◌, length};
ghost use Rattle.state_spec.specs.Ticket.{ticket_length};
ghost use Rattle.ticket_copy_spec.specs.Copy.{field_copy, ticket_copy, changed, file_copy, changed_in};

use tickets::TICKET_LENGTH;
use unused_fields::{has_stray, uses};

// A field, zeroed where it is not used.
fn copy_field(used: bool, field: &[u8], out: &mut [u8])
    requires { length out.old ≡ length field.now }
    ensures { out.new ≡ field_copy used field.now }
{
    if used {
        out.copy_from_slice(field);
    } else {
        out.fill(0);
    }
}

// A whole ticket: its kind, key and value. Whether a byte was changed.
fn copy_whole(ticket: &[u8], out: &mut [u8]) -> bool
    requires { (length ticket.now ≡ ticket_length) × (length out.old ≡ ticket_length) }
    ensures { (out.new ≡ ticket_copy ticket.now) × (result ≡ changed ticket.now) }
{
    let used = uses(ticket[0]);
    copy_field(true, &ticket[..1], &mut out[..1]);
    copy_field(used.key, &ticket[1..5], &mut out[1..5]);
    copy_field(used.value, &ticket[5..13], &mut out[5..13]);
    has_stray(ticket)
}

// One ticket, or bytes of another length, which are copied as they are. Whether a byte was changed.
pub fn copy_ticket(ticket: &[u8], out: &mut [u8]) -> bool
    requires { length out.old ≡ length ticket.now }
    ensures { (out.new ≡ ticket_copy ticket.now) × (result ≡ changed ticket.now) }
{
    if ticket.len() == TICKET_LENGTH {
        return copy_whole(ticket, out);
    }
    out.copy_from_slice(ticket);
    false
}

// All whole tickets of a piece of a file, and a short end after them. How many tickets were changed.
pub fn copy_piece(piece: &[u8], out: &mut [u8]) -> usize
    requires { length out.old ≡ length piece.now }
    ensures { (out.new ≡ file_copy piece.now) × (result ≡ changed_in piece.now) }
{
    let mut count = 0;
    for i in 0..piece.len() / TICKET_LENGTH {
        let at = TICKET_LENGTH * i;
        let next = at + TICKET_LENGTH;
        let changed = copy_ticket(&piece[at..next], &mut out[at..next]);
        if changed {
            count += 1;
        }
    }
    let end = piece.len() - piece.len() % TICKET_LENGTH;
    copy_ticket(&piece[end..], &mut out[end..]);
    count
}
