// The buckets of every path of sizes 1 to 15, and which buckets the paths pass. Prints for each size a checksum of the numbers, leaf
// by leaf and from the leaf up, and one of the tests, which tests/compare compares.
#![tactic(auto)]

ghost use Rattle.std.specs.Prelude.{◌^◌, ◌<◌, ◌≤◌};

use checksums::join;
use tree_paths::{leaves, passes_bucket, path_bucket};

// The descriptor of the standard output.
const STDOUT_FILENO: i32 = 1;

const LARGEST_SIZE: usize = 15;

#[derive(Clone, Copy)]
struct Sums {
    numbers: u64,
    tests: u64,
}

// A test joins: twice the bucket's number, and one more if the leaf's path passes it.
fn join_test(sum: u64, size: usize, leaf: usize, bucket: usize) -> u64
    requires { (size ≤ 16) × (leaf < 2 ^ size) }
{
    let passes = u64::from(passes_bucket(size, leaf, bucket));
    join(sum, (bucket as u64) << 1 | passes)
}

// The path's bucket at a level joins, and the tests of it, of the bucket beside it and of the two below it.
fn join_level(sums: Sums, size: usize, leaf: usize, level: usize) -> Sums
    requires { (size ≤ 16) × (leaf < 2 ^ size) × (level ≤ size) }
{
    let b = path_bucket(size, leaf, level);
    let here = join_test(sums.tests, size, leaf, b);
    let beside = join_test(here, size, leaf, b ^ 1);
    let left = join_test(beside, size, leaf, b << 1);
    Sums {
        numbers: join(sums.numbers, b as u64),
        tests: join_test(left, size, leaf, (b << 1) | 1),
    }
}

fn join_path(sums: Sums, size: usize, leaf: usize) -> Sums
    requires { (size ≤ 16) × (leaf < 2 ^ size) }
{
    let mut joined = sums;
    for level in 0..=size {
        joined = join_level(joined, size, leaf, level);
    }
    joined
}

fn sums_of(size: usize) -> Sums
    requires { size ≤ 16 }
{
    let mut sums = Sums {
        numbers: 1,
        tests: 1,
    };
    for leaf in 0..leaves(size) {
        sums = join_path(sums, size, leaf);
    }
    sums
}

fn say_number(text: &[u8], n: u64) {
    io::write_all(STDOUT_FILENO, text);
    io::print_decimal(STDOUT_FILENO, n);
}

fn print_sums(size: usize, sums: Sums) {
    say_number(b"size ", size as u64);
    say_number(b" numbers ", sums.numbers);
    say_number(b" tests ", sums.tests);
    io::write_all(STDOUT_FILENO, b"\n");
}

fn main() {
    for size in 1..=LARGEST_SIZE {
        print_sums(size, sums_of(size));
    }
}
