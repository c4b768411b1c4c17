// Runs scripts of calls over a small memory of nodes that stands for a store, and prints each call's answer and then the
// tree. A script is pairs of characters: + puts a key, - removes it, ? gets it, < pushes and > pops, * adds a number,
// which the character says as it does a key, and ! takes the smallest (the second character of <, > and ! says nothing).
// The value that a call puts or pushes is its number in the script.
#![tactic(auto)]

ghost use Rattle.std.specs.Prelude.{◌≤◌};

use memory::{Memory, empty};
use operation_spec::Op;
use playing::call;
use show::{print_answer, print_call, print_too_high, print_tree};

mod memory;
mod playing;
mod show;

// The operations take no link that is higher. No root link of a store of so few entries is.
const HIGHEST: u8 = 100;

// A key is a character's code less that of 0, so that the digits are the keys 0 to 9.
fn key_of(character: u8) -> u32 {
    u32::from(character.saturating_sub(b'0'))
}

fn op_of(sign: u8, key: u32, value: u64) -> Op {
    match sign {
        b'+' => Op::Put(key, value),
        b'-' => Op::Remove(key),
        b'<' => Op::Push(value),
        b'>' => Op::Pop,
        b'*' => Op::Add(u64::from(key)),
        b'!' => Op::Take,
        _ => Op::Get(key),
    }
}

// One call of a script.
fn play_call(memory: Memory, sign: u8, character: u8, number: u64) -> Memory
    requires { (memory.count ≤ 16) × (memory.root.height ≤ 100) }
    ensures { result.count ≤ 16 }
{
    let tag = (number % 256) as u16;
    let done = call(memory, op_of(sign, key_of(character), number), tag);
    print_call(sign, character);
    print_answer(done.answer);
    done.memory
}

fn play(script: &[u8]) {
    let mut m = empty();
    for i in 0..script.len() / 2 {
        if m.root.height > HIGHEST {
            print_too_high();
            return;
        }
        m = play_call(m, script[2 * i], script[2 * i + 1], i as u64 + 1);
    }
    print_tree(m);
}

fn main() {
    // Two of document 01's: root 4 and not 3, and root 3 with left 1.
    play(b"+2+1+4+3+5-1");
    play(b"+2+1+3-2");
    // Puts that rotate in each of the four ways, and one that replaces.
    play(b"+5+3+1+8+9+6+2+4+7?7?0+7");
    // Removals: the first rotates at two levels, on the way to the next larger key and at its new place.
    play(b"+h+f+j+b+e+i+l+k+c+a+g+d-h-a-b-c-k-i-z");
    // A full map.
    play(b"+a+b+c+d+e+f+g+h+i+j+k+l+m+n+o+p+a?a-h+h");
    // A stack.
    play(b">.<.<.<.>.<.");
    // A heap: numbers rise, to the root and part of the way; equal ones stay.
    play(b"*5*3*1*4*4*2");
    // Takes at three, two, one and no entries.
    play(b"*5*3*1!.!.!.!.*7");
    // Equal children: to the left; then to the right, past a child that is held already; and a number that stays at once.
    play(b"*1*2*2*3*3*9!.!.!.");
    // A full heap, and takes that sink as far as they can.
    play(b"*1*2*3*4*5*6*7*8*9*a*b*c*d*e*f*g!.!.");
}
