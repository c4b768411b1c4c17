// The entries for C hosts, which puzlorig_c exports: include/puzlorig.h says what each takes, returns and leaves.
#![tactic(auto)]

pub mod calls;
pub mod lengths;
pub mod openings;
pub mod readouts;
