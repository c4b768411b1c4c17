// Text put into a lent buffer.
#![tactic(auto)]

ghost use Rattle.std.specs.Prelude.{◌≡◌, ◌+◌, ◌≤◌, [], ◌∷◌, length};
ghost use Rattle.walk_spec.specs.Lines.{decimal, numbers, Put};

use call_draws::MOST_LEAVES;

// A word of 8 letters, a value of 20 digits and leaves of 5 digits, each after a blank, and a newline.
pub const LONGEST_LINE: usize = 8 + 21 + 6 * MOST_LEAVES + 1;

// A lent buffer, and how many of its first bytes are text.
#[derive(Drop)]
pub struct Text<'a> {
    pub out: &'a mut [u8],
    pub end: usize,
}

impl<'a> Text<'a> {
    pub fn new(out: &'a mut [u8]) -> Text<'a>
        ensures same_buffer { result.out.ghost_name ≡ out.entry.ghost_name }
        ensures fresh { (result.out.now ≡ out.old) × (result.end ≡ 0) }
    {
        Text { out, end: 0 }
    }

    pub fn put(&mut self, text: &[u8])
        requires { self.old.end + length text.now ≤ length self.old.out.now }
        ensures same_buffer { self.new.out.ghost_name ≡ self.old.out.ghost_name }
        ensures put { Put text.now self.old.end self.old.out.now self.new.out.now self.new.end }
    {
        let end = self.end + text.len();
        self.out[self.end..end].copy_from_slice(text);
        self.end = end;
    }

    // A number in decimal.
    fn put_decimal(&mut self, n: u64)
        requires { self.old.end + length (decimal n) ≤ length self.old.out.now }
        ensures same_buffer { self.new.out.ghost_name ≡ self.old.out.ghost_name }
        ensures put { Put (decimal n) self.old.end self.old.out.now self.new.out.now self.new.end }
    {
        let mut digits = [0u8; 20];
        let count = io::decimal(n, &mut digits);
        self.put(&digits[..count]);
    }

    // A blank and a number.
    pub fn put_number(&mut self, n: u64)
        requires { self.old.end + length (numbers (n ∷ [])) ≤ length self.old.out.now }
        ensures same_buffer { self.new.out.ghost_name ≡ self.old.out.ghost_name }
        ensures put { Put (numbers (n ∷ [])) self.old.end self.old.out.now self.new.out.now self.new.end }
    {
        self.put(b" ");
        self.put_decimal(n);
    }

    // The leaves, each after a blank.
    pub fn put_leaves(&mut self, leaves: &[u16])
        requires { self.old.end + length (numbers leaves.now) ≤ length self.old.out.now }
        ensures same_buffer { self.new.out.ghost_name ≡ self.old.out.ghost_name }
        ensures put { Put (numbers leaves.now) self.old.end self.old.out.now self.new.out.now self.new.end }
    {
        for leaf in leaves {
            self.put_number(u64::from(*leaf));
        }
    }
}
