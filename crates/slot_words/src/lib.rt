// Lent bytes as little-endian words.
#![tactic(auto)]

ghost use Rattle.std.specs.Prelude.{◌≡◌, ◌+◌, ◌≤◌, ◌<◌, length, take, drop};
ghost use Rattle.std.proofs.lemmas.List.Edits.{sets};
ghost use Rattle.slot_spec.specs.LittleEndian.{value, bytes};
ghost use Rattle.slot_spec.specs.Tree.{slot_length};
ghost use Rattle.slot_spec.specs.Slot.{slot_bytes};

use slot_spec::Slot;

// The word at a byte.
pub fn word(s: &[u8], at: usize) -> u64
    requires { at + 8 ≤ length s.now }
    ensures { result ≡ value (take 8 (drop at s.now)) }
{
    u64::from_le_bytes(<[u8; 8]>::try_from(&s[at..at + 8]).unwrap())
}

pub fn put_word(s: &mut [u8], at: usize, v: u64)
    requires { at + 8 ≤ length s.old }
    ensures { s.new ≡ sets s.old at (bytes 8 v) }
{
    s[at..at + 8].copy_from_slice(&v.to_le_bytes());
}

// The slot that starts at a byte.
pub fn load(s: &[u8], at: usize) -> Slot
    requires { at + slot_length ≤ length s.now }
    ensures { slot_bytes result ≡ take slot_length (drop at s.now) }
{
    Slot {
        a: word(s, at),
        b: word(s, at + 8),
        c: word(s, at + 16),
        d: word(s, at + 24),
    }
}

pub fn store(s: &mut [u8], at: usize, x: Slot)
    requires { at + slot_length ≤ length s.old }
    ensures { s.new ≡ sets s.old at (slot_bytes x) }
{
    put_word(s, at, x.a);
    put_word(s, at + 8, x.b);
    put_word(s, at + 16, x.c);
    put_word(s, at + 24, x.d);
}
