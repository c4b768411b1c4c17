// Checksums that the test programs print, and the pseudo-random numbers of a benchmark.
#![tactic(auto)]

ghost use Rattle.std.specs.Prelude.{◌≡◌};
ghost use Rattle.checksums.specs.Xorshift.{xorshifted, joined};

// A step of xorshift.
pub fn xorshift(x: u64) -> u64
    ensures { result ≡ xorshifted x }
{
    let a = x ^ (x << 13);
    let b = a ^ (a >> 7);
    b ^ (b << 17)
}

// A number joins a checksum.
pub fn join(sum: u64, n: u64) -> u64
    ensures { result ≡ joined sum n }
{
    xorshift(sum ^ n)
}
