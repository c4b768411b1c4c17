// What a ticket asks of a structure.
#![tactic(auto)]

ghost use Rattle.std.specs.Prelude.{◌≡◌, eqb, length};
ghost use Rattle.state_spec.specs.Ticket.{ticket_length, key_in, value_in, out_of_keys};
ghost use Rattle.operation_spec.specs.Method.{to_op};
ghost use Rattle.tickets.specs.Asked.{asked, map_op, stack_op, heap_op, queue_op};

use operation_spec::Op;
use slot_words::word;

// A ticket's length in bytes: kind, key (4), value (8).
pub const TICKET_LENGTH: usize = 13;

// The next unused key of a queue that has used all its keys.
const LAST_KEY: u32 = 4294967295;

// Whether a ticket has its length.
pub fn is_whole(ticket: &[u8]) -> bool
    ensures { result ≡ eqb (length ticket.now) ticket_length }
{
    ticket.len() == TICKET_LENGTH
}

// A ticket's key, four bytes of the word at its place.
pub fn key_in(ticket: &[u8]) -> u32
    requires { length ticket.now ≡ 13 }
    ensures { result ≡ key_in ticket.now }
{
    (word(ticket, 1) % 4294967296) as u32
}

// A ticket's value, a word.
pub fn value_in(ticket: &[u8]) -> u64
    requires { length ticket.now ≡ 13 }
    ensures { result ≡ value_in ticket.now }
{
    word(ticket, 5)
}

// Kinds 1 get, 2 put, 3 remove of a map.
fn map_op(kind: u8, key: u32, value: u64) -> Op
    ensures { result ≡ map_op kind key value }
{
    if kind == 1 {
        return Op::Get(key);
    }
    if kind == 2 {
        return Op::Put(key, value);
    }
    Op::Remove(key)
}

// Kinds 4 push, 5 pop of a stack.
fn stack_op(kind: u8, value: u64) -> Op
    ensures { result ≡ stack_op kind value }
{
    if kind == 4 {
        return Op::Push(value);
    }
    Op::Pop
}

// Kinds 6 add, 7 take of a heap.
fn heap_op(kind: u8, value: u64) -> Op
    ensures { result ≡ heap_op kind value }
{
    if kind == 6 {
        return Op::Add(value);
    }
    Op::Take
}

// Kinds 8 in, 9 out of a queue.
fn queue_op(kind: u8, value: u64) -> Op
    ensures { result ≡ queue_op kind value }
{
    if kind == 8 {
        return Op::Enqueue(value);
    }
    Op::Dequeue
}

// What a ticket of 13 bytes asks of a map (1), a stack (2), a heap (3) or a queue, if its kind is one of the structure's.
pub fn read_ticket(structure: u8, ticket: &[u8]) -> Option<Op>
    requires { length ticket.now ≡ 13 }
    ensures { result ≡ asked structure ticket.now }
{
    let kind = ticket[0];
    let key = key_in(ticket);
    let value = value_in(ticket);
    match kind {
        1..=3 => {
            if structure == 1 {
                return Some(map_op(kind, key, value));
            }
            None
        }
        4..=5 => {
            if structure == 2 {
                return Some(stack_op(kind, value));
            }
            None
        }
        6..=7 => {
            if structure == 3 {
                return Some(heap_op(kind, value));
            }
            None
        }
        8..=9 => match structure {
            1..=3 => None,
            _ => Some(queue_op(kind, value)),
        },
        _ => None,
    }
}

// Whether there is no key for a node that comes in, where the next unused key is that.
pub fn out_of_keys(op: Op, next: u32) -> bool
    ensures { result ≡ out_of_keys (to_op op) next }
{
    match op {
        Op::Enqueue(_) => next == LAST_KEY,
        _ => false,
    }
}
