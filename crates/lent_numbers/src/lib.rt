// Numbers of tapes and traces in lent bytes, two bytes each.
#![tactic(auto)]

ghost use Rattle.std.specs.Prelude.{◌≡◌, ◌*◌, ◌≤◌, length};
ghost use Rattle.std.proofs.lemmas.List.Edits.{sets};
ghost use Rattle.lent_bytes_spec.specs.Numbers.{number_length, numbers_in, numbers_bytes};

use lent_bytes_spec::NUMBER_LENGTH;

// As many numbers as are asked for, from the first byte on.
pub fn read_numbers(bytes: &[u8], numbers: &mut [u16])
    requires { number_length * length numbers.old ≤ length bytes.now }
    ensures { numbers.new ≡ numbers_in (length numbers.old) bytes.now }
{
    for (i, number) in numbers.iter_mut().enumerate() {
        let at = NUMBER_LENGTH * i;
        *number = u16::from_le_bytes([bytes[at], bytes[at + 1]]);
    }
}

// All numbers, from the first byte on; the bytes after them stay.
pub fn write_numbers(bytes: &mut [u8], numbers: &[u16])
    requires { number_length * length numbers.now ≤ length bytes.old }
    ensures { bytes.new ≡ sets bytes.old 0 (numbers_bytes numbers.now) }
{
    for (i, number) in numbers.iter().enumerate() {
        let at = NUMBER_LENGTH * i;
        bytes[at..at + NUMBER_LENGTH].copy_from_slice(&number.to_le_bytes());
    }
}
