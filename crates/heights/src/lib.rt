// Balanced binary trees by their numbers: the greatest height for a store's size, and the heights that a number of
// entries allows.
#![tactic(auto)]

ghost use Rattle.std.specs.Prelude.{◌≡◌, ◌≤◌};
ghost use Rattle.balance_spec.specs.Shape.{shaped};
ghost use Rattle.balance_spec.specs.Greatest.{greatest};

// Document 01's H, "the greatest height of a balanced tree with 2^k - 1 entries", for the sizes k = 1 to 8.
const GREATEST: [u8; 8] = [1, 2, 4, 5, 6, 8, 9, 11];

// H for a store of that size.
pub fn greatest_height(size: usize) -> u8
    requires { (1 ≤ size) × (size ≤ 8) }
    ensures { result ≡ greatest size }
{
    GREATEST[size - 1]
}

// The least number of entries of a balanced tree of each height from 0 to 22. In height 23 it is more than a u16 holds.
const LEAST: [u16; 23] = [
    0, 1, 2, 4, 7, 12, 20, 33, 54, 88, 143, 232, 376, 609, 986, 1596, 2583, 4180, 6764, 10945,
    17710, 28656, 46367,
];

// Whether there is a balanced tree with so many entries and of that height.
pub fn shape_exists(entries: u16, height: u8) -> bool
    ensures { result ≡ shaped entries height }
{
    let h = usize::from(height);
    h < LEAST.len() && LEAST[h] <= entries && u32::from(entries) < 1 << h
}
